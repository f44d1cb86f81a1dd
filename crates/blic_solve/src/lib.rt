//! The function of each node of a circuit, within exact limits.
#![tactic(auto)]

mod answering;
mod plan;
mod step;

pub use answering::answer;
pub use plan::{Plan, SolveError};

#[cfg(test)]
mod tests;
