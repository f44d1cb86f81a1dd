//! Worked rows of conversations over links. It has no calls of its own.
#![tactic(auto)]

#[cfg(test)]
mod verifying;
