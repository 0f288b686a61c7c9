// Sheets: read over lent bytes as a view that copies nothing, and written into a lent buffer.
#![tactic(auto)]

mod checked;
mod header;
mod limits;
pub mod reading;
pub mod routes;
pub mod view;
pub mod writer;
pub mod writing;
