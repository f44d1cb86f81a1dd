//! The claims of a circuit, and the points that they are about.
#![tactic(auto)]

mod answers;
mod counters;
mod elements;
mod laws;
mod layout;
mod points;
mod totals;

pub use answers::Answers;
pub use laws::claims_law;
pub use layout::{Layout, Row};
pub use points::Points;

#[cfg(test)]
mod tests;
