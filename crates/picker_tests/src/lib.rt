// Pickers on examples: the order in which each gives places back, every refusal, the count, and what keeps one.
#![tactic(auto)]

#[cfg(test)]
mod counting;
#[cfg(test)]
mod keeping;
#[cfg(test)]
mod order;
#[cfg(test)]
mod places;
#[cfg(test)]
mod refusals;
