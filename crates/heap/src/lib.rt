// A binary heap over a lent slice of entries, for every kind of entry whose order is total.
#![tactic(auto)]

pub mod entry;
pub mod heap;
pub mod laws;
mod sifting;
