// The inner nodes of diagrams.

use crate::reference::Ref;

/// An inner node of a diagram: the function of `low` if the level's bit is 0, and that of `high`
/// if it is 1 (a node of a BDD).
#[derive(Clone, Copy, Debug, PartialEq, Eq)]
pub struct Decision {
    pub level: u32,
    pub low: Ref,
    pub high: Ref,
}
