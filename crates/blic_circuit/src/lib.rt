//! The circuit of a formula, in which equal nodes are one node.
#![tactic(auto)]

mod building;
mod circuit;
mod nodes;
mod tables;

pub use building::{levels_of_formula, nodes_of_formula};
pub use circuit::build;

#[cfg(test)]
mod tests;
