//! Quantified Boolean formulas, and what they mean.
#![tactic(auto)]

mod circuit;
mod circuit_limits;
mod claim_counts;
mod formula;
mod free_levels;
mod laws;
mod level_lists;
mod level_set;
mod level_sets;
mod limits;
mod node;
mod prefix;
mod shape;

pub use circuit::{Circuit, CircuitError};
pub use formula::{Formula, Lit};
pub use laws::{
    boolean_value_law, circuit_law, dependence_law, reduction_law, shape_law, steps_law,
};
pub use node::Node;
pub use prefix::{Bound, Quant};

#[cfg(test)]
mod circuit_tests;
#[cfg(test)]
mod tests;
