// The pairs of a graph.

use blic_store::Ref;

/// What a pair becomes if its level's bit is fixed.
#[derive(Clone, Copy, Debug, PartialEq, Eq)]
pub enum Side {
    /// The pair with this number.
    Pair(u32),
    /// Two functions that are no pair, since one of them is constant.
    Done(Ref, Ref),
}

/// Two functions, neither constant, the topmost level at which one of them decides, and what they
/// become if that level's bit is 0 and if it is 1.
#[derive(Clone, Copy, Debug, PartialEq, Eq)]
pub struct Pair {
    pub level: u32,
    pub first: Ref,
    pub second: Ref,
    pub low: Side,
    pub high: Side,
}
