// Where a conversation fails.

/// A check of the verifier: the node, which of its conditions, and the claim that it is about; the
/// claims on a node are counted from 0.
#[derive(Clone, Copy, Debug, PartialEq, Eq)]
pub struct Place {
    pub node: u32,
    pub part: Part,
    pub claim: u32,
}

/// The conditions of a node, in the order in which they are checked.
#[derive(Clone, Copy, Debug, PartialEq, Eq)]
pub enum Part {
    /// The polynomial in a free level, by its place among the node's: reduced at the claim's point
    /// it is the claim's value.
    Poly(u32),
    /// The claims on a node end with one value.
    Ends,
    /// The operands' values give the node's value; the claim is 0.
    Combine,
    /// The value of a constant or a variable.
    Leaf,
}
