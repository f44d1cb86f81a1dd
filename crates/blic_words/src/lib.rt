//! The arguments of the command line (words): which fit, and what they ask for.
#![tactic(auto)]

mod command;
mod laws;
mod number;
mod options;
mod request;
mod words;

pub use laws::words_law;
pub use options::Options;
pub use request::Request;
pub use words::parse;

#[cfg(test)]
mod tests;
