//! Worked rows of conversations between a prover and a verifier. It has no calls of its own.
#![tactic(auto)]

#[cfg(test)]
mod conversations;
