// What the bits of a sheet mean: the faults, and the theorems about every sheet. The definitions are in specs/.
#![tactic(auto)]

pub mod fault;
pub mod laws;
