// Fields packed into bytes without gaps, the most significant bit first.
#![tactic(auto)]

pub mod fault;
pub mod field;
pub mod reader;
pub mod signed;
