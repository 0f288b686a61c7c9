// Frames, routes and sheets on examples: the worked ones, and every refusal with its bit.
#![tactic(auto)]

#[cfg(test)]
mod keeping;
#[cfg(test)]
mod making;
#[cfg(test)]
mod reading;
#[cfg(test)]
mod writing;
