// Pickers that rank the places that wait: by their turn markers, or by the amounts that they were put with.
#![tactic(auto)]

pub mod entry;
pub mod largest_amount;
pub mod laws;
pub mod lowest_marker;
mod waiting;
