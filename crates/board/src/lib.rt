// Frames and routes, what a board is made of, and the questions that each is asked before it is accepted.
#![tactic(auto)]

pub mod fault;
pub mod frame;
pub mod route;
