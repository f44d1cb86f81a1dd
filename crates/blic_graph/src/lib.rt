//! The pairs of two functions, listed by level.
#![tactic(auto)]

mod graph;
mod laws;
mod lister;
mod packed;
mod pair;
mod pair_list;
mod waiting;

pub use graph::{Graph, GraphError};
pub use laws::{growth_law, pairs_full_law};
pub use lister::Lister;
pub use pair::{Pair, Side};

#[cfg(test)]
mod tests;
