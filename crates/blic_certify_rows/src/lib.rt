//! Worked rows of certifying and of the exercise. It has no calls of its own.
#![tactic(auto)]

#[cfg(test)]
mod certify;
#[cfg(test)]
mod exercise;
#[cfg(test)]
mod running;
