// What the programs print, as text.
#![tactic(auto)]

pub mod sheets;
