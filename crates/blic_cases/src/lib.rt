//! The truth of a formula by trying both values of each variable.
#![tactic(auto)]

mod cases;

pub use cases::by_cases;

#[cfg(test)]
mod tests;
