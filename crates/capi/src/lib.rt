// What the bench computer's C program calls, with numbers and bytes: include/satvrengi.h is its header.
#![tactic(auto)]

pub mod frames;
pub mod replies;
pub mod scripts;

// The result of what is not refused.
const GOOD: u16 = 0;
