//! Answers about a circuit by the recursion that the definitions are. They take no memory.
#![tactic(auto)]

mod chain;
mod plain;
mod poly;
mod value;

pub use plain::Plain;

#[cfg(test)]
mod tests;
