//! From a file or a formula to its problem, or to the first thing that can't be obtained.
#![tactic(auto)]

mod file;
mod problem;
mod seed;
mod stop;
#[cfg(test)]
mod tests;

pub use problem::{Problem, SolveLimits};
pub use seed::seed_of;
pub use stop::Stop;
