//! The honest prover of a circuit: what it answers to each ask of a session.
#![tactic(auto)]

mod prover;
mod room;
mod stage;
mod step;
mod walk;

pub use prover::Prover;
pub use step::{Given, Step};
