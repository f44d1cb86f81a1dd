// How a conversation ends.
use crate::place::Place;
use blic_messages::Refusal;

/// How a conversation ended.
#[derive(Clone, Copy, Debug, PartialEq, Eq)]
pub enum Ending {
    /// It was accepted, with this answer.
    Certified(bool),
    /// The first check that failed.
    Rejected(Place),
    /// A reply of another kind than the one that stood at this turn; turns count replies from 0.
    WrongKind { turn: u64 },
    /// A reply with another number of polynomials than there were claims on the node; more than `u32::MAX`
    /// are reported as that.
    WrongCount { turn: u64, want: u32, got: u32 },
    /// The other end refused to go on.
    ServerRefused(Refusal),
    /// What came is no frame of a reply.
    NotFrame,
}
