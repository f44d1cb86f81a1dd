//! Whole frames out of a link whose bytes come in pieces.
#![tactic(auto)]

mod decoder;
mod inbox;
mod listening;

pub use decoder::Decoder;
pub use inbox::Inbox;
pub use listening::{Heard, listen};

#[cfg(test)]
mod tests;
