//! Formulas from QDIMACS, and to their one canonical text.
#![tactic(auto)]

mod byte_reader;
mod error;
mod free;
mod items;
mod laws;
mod name;
mod reader;
mod seen;
mod writer;

pub use error::ReadError;
pub use laws::{canonical_law, canonical_text_law, judgement_law};
pub use name::name_of;
pub use reader::read;
pub use writer::canonical;

#[cfg(test)]
mod tests;
