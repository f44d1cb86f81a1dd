//! Exact arithmetic modulo 2^61 - 1, each product counted.
#![tactic(auto)]

mod element;
mod laws;

pub use element::{Fe, MODULUS};
pub use laws::{no_zero_divisor_law, ring_laws};

#[cfg(test)]
mod tests;
