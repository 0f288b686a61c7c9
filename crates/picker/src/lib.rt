// Pickers: what a picker means, and pickers that show it.
#![tactic(auto)]

pub mod count;
pub mod drain;
mod end;
pub mod fault;
pub mod picker;
pub mod queue;
mod ring;
