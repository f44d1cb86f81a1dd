//! A verifier whose verdict is acceptance of the whole conversation.
#![tactic(auto)]

mod asker;
mod binary;
mod elements;
mod ending;
mod held;
mod honest;
mod kept;
mod laws;
mod next;
mod place;
mod soundness;
mod stage;
mod verifier;
mod walk;

pub use asker::{Asker, Following};
pub use ending::Ending;
pub use honest::{acceptance_law, honest_reply_law};
pub use laws::{certified_law, hearing_law, verdict_law};
pub use next::Next;
pub use place::{Part, Place};
pub use soundness::{bad_count_law, soundness_law};
pub use verifier::Verifier;

#[cfg(test)]
mod judged;
#[cfg(test)]
mod tests;
