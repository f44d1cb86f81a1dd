//! All that the program does, over what its caller hands in.
#![tactic(auto)]

mod certify;
mod conversations;
mod exercise;
mod outcome;
mod program;
mod verify;

pub use outcome::{Answer, End, Failure, Outcome, Tally};
pub use program::run;
