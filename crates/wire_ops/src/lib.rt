// The ops on what goes over the wire: frames, packages and replies.
#![tactic(auto)]

pub mod frames;
pub mod lines;
pub mod packages;
pub mod replies;
