// Labelling: the search by which shares are changed along a path, for every picker.
#![tactic(auto)]

pub mod examining;
pub mod label;
pub mod labels;
mod reaching;
mod scanning;
pub mod way;
