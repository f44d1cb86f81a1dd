// How far a prover has come.

/// Before the answer; at a binary node, whose first reply stands next; after the polynomials for a free
/// level, whose draw stands next; after the last reply; after the end of the session.
#[derive(Clone, Copy, Debug, PartialEq, Eq)]
pub enum Stage {
    Fresh,
    Going { node: u32 },
    Drawing { node: u32, level: u32 },
    Finished,
    Over,
}
