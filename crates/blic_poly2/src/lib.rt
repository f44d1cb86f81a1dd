//! Polynomials of degree at most two over the field, within a counted number of products.
#![tactic(auto)]

mod laws;
mod linear;
mod poly;

pub use laws::{blending_law, interpolation_law, product_law, reducing_law, roots_law};
pub use linear::Lin;
pub use poly::Poly2;

#[cfg(test)]
mod tests;
