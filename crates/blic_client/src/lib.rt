//! The client's end of a conversation over a link: it asks, draws and judges, and knows no diagram.
#![tactic(auto)]

mod client;
mod machine;
mod verdict;

pub use client::{Client, verify_link};
pub use verdict::Verdict;
