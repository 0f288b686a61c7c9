// What flows are, what holds of every board, and what a delivery pays.
#![tactic(auto)]

pub mod laws;
pub mod pay;
#[cfg(test)]
mod pay_examples;
