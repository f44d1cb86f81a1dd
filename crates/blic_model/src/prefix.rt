// The entries of a prefix.

/// A quantifier.
#[derive(Clone, Copy, Debug, PartialEq, Eq)]
pub enum Quant {
    Exists,
    Forall,
}

/// A variable that a quantifier binds.
#[derive(Clone, Copy, Debug, PartialEq, Eq)]
pub struct Bound {
    pub quant: Quant,
    /// The variable's number, from 1 on.
    pub var: u32,
}
