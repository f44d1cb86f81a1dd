// How far a verifier has come.

/// Before the answer; at a binary node with some free levels left, whose reply stands next; after the
/// polynomials for a free level, whose draw stands next; after a verdict.
#[derive(Clone, Copy, Debug, PartialEq, Eq)]
pub enum Stage {
    Fresh,
    Ready { node: u32, left: u32 },
    Drawing { node: u32, level: u32 },
    Over,
}
