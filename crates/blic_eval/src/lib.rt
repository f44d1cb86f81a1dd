//! The polynomials of functions that are held as decision diagrams (BDDs).
#![tactic(auto)]

mod laws;
mod lines;
mod number_set;
mod packed;
mod pairs;
mod reached;
mod scratch;
mod values;

pub use laws::circuit_law;
pub use pairs::{poly, poly_kept};
pub use scratch::Scratch;
pub use values::{pair_values, values_kept};

#[cfg(test)]
mod tests;
