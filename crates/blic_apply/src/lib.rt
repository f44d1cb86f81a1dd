//! Boolean operations on the functions of a store.
#![tactic(auto)]

mod change;
mod operation;
mod part_table;
mod rewriting;

pub use operation::{Op, Rewriter, combine, fix, negate};

#[cfg(test)]
mod tests;
