//! Formulas that a rule makes, in a size to choose.
#![tactic(auto)]

mod chain;
mod laws;

pub use chain::xor_chain;
pub use laws::chain_law;

#[cfg(test)]
mod tests;
