// The text of test cases and of their answers: lines of `key=value`.
#![tactic(auto)]

pub mod put;
pub mod read;
