//! Printing that takes no memory: texts of pieces, and the lines of frames.
#![tactic(auto)]

mod frame;
mod gathered;
mod pieces;
mod write_fault;

pub use frame::print_frame;
pub use pieces::{Piece, print_pieces};
pub use write_fault::WriteFault;

#[cfg(test)]
mod tests;
