//! Draws of field elements (the verifier's challenges) from a seed, each by its number.
#![tactic(auto)]

mod draw_run;
mod draws;

pub use draw_run::DrawRun;
pub use draws::Draws;

#[cfg(test)]
mod tests;
