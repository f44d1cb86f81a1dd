// What a verifier says of a reply.
use crate::place::Place;

/// What comes after a reply.
#[derive(Clone, Copy, Debug, PartialEq, Eq)]
pub enum Next {
    /// The reply's checks passed, and a draw stands next.
    Draw,
    /// The reply's checks passed, and the next binary node's first reply stands next.
    Go,
    /// The conversation is accepted, with this answer.
    Done(bool),
    /// The first check that fails.
    Rejected(Place),
    /// The reply is of another kind than the one that stands at this turn; turns count replies from 0.
    WrongKind { turn: u64 },
    /// The reply has another number of polynomials than there are claims on the node; more than `u32::MAX`
    /// are reported as that.
    WrongCount { turn: u64, want: u32, got: u32 },
    /// A verdict was given before.
    Over,
}
