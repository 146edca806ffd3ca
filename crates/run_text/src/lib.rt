// Runs as the text of cases has them.
#![tactic(auto)]

pub mod runs;
pub mod spare;
