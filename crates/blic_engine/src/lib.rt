//! Answers about a circuit by decision diagrams (BDDs), which are made once for all workers.
#![tactic(auto)]

mod about;
mod desk;
mod engine;
mod join;
mod load;
mod polys;
mod values;

pub use desk::Desk;
pub use engine::Engine;

#[cfg(test)]
mod tests;
