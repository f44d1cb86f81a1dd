//! Prover and verifier in one process, in the frames that a link would carry.
#![tactic(auto)]

mod conversation;
mod frames;
mod lines;
mod machines;

pub use conversation::Conversation;
