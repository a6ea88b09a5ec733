// The bytes that a trace is read from, and the bytes that its report is written to.
#![tactic(auto)]

pub mod input;
pub mod line;
