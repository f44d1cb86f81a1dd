// The nodes of a circuit.
ghost use Rattle.std.specs.Prelude.{◌≡◌};
ghost use Rattle.blic_model.specs.Counts.{is_binary as is_binary_node};

/// A node of a circuit. Its children are numbers of nodes; `Var` and `level` are levels of the order.
#[derive(Clone, Copy, Debug, PartialEq, Eq, PartialOrd, Ord)]
pub enum Node {
    /// The same value everywhere.
    Const(bool),
    /// The value of the level's variable.
    Var(u32),
    /// The child's negation.
    Not(u32),
    /// A cofactor of the child: the level's variable is fixed to the bit.
    Fix { level: u32, bit: bool, child: u32 },
    /// The children's conjunction.
    And(u32, u32),
    /// The children's disjunction.
    Or(u32, u32),
}

impl Node {
    /// Whether it is an `And` or an `Or`.
    pub fn is_binary(self) -> bool
        ensures { result ≡ is_binary_node self }
    {
        matches!(self, Node::And(..) | Node::Or(..))
    }
}
