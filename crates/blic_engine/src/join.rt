// What a binary node joins.
ghost use Rattle.std.specs.Prelude.{◌≡◌, false, IfNone, IfSome};
ghost use Rattle.blic_model.specs.Counts.{is_binary};
ghost use Rattle.blic_engine.specs.Joins.{node_of};

use blic_apply::Op;
use blic_model::Node;

/// An operation on two nodes.
#[derive(Clone, Copy)]
pub(crate) struct Join {
    pub(crate) op: Op,
    pub(crate) first: u32,
    pub(crate) second: u32,
}

/// The operation and the operands of a binary node: `None` if it is another node.
pub(crate) fn join_of(node: Node) -> Option<Join>
    ensures some { IfSome result (λ join. node ≡ node_of join.op join.first join.second) }
    ensures none { IfNone result (is_binary node ≡ false) }
{
    match node {
        Node::And(first, second) => Some(Join {
            op: Op::And,
            first,
            second,
        }),
        Node::Or(first, second) => Some(Join {
            op: Op::Or,
            first,
            second,
        }),
        _ => None,
    }
}
