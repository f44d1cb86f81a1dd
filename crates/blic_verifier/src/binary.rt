// Binary nodes: their operands, and what the operands' values give.
ghost use Rattle.std.specs.Prelude.{◌≡◌, ◌+◌, ℕ, true};
ghost use Rattle.blic_model.specs.Counts.{is_binary as is_binary_node};
ghost use Rattle.blic_claims.specs.Honest.{operands as operands_of};
ghost use Rattle.blic_verifier.specs.Holding.{joined};

use blic_basic::Steps;
use blic_field::Fe;
use blic_model::Node;
use std::sync::ledger::Ledger;

/// The children of a binary node.
pub(crate) fn operands(node: Node) -> (u32, u32)
    ensures { result ≡ operands_of node }
{
    match node {
        Node::And(left, right) | Node::Or(left, right) => (left, right),
        _ => (0, 0),
    }
}

/// What the operands' values give a binary node.
#[tactic(auto, unfolding(blic_field::specs::Field::or))]
pub(crate) fn combined<L: Ledger>(node: Node, u: Fe, w: Fe, steps: &mut Steps<L>) -> Fe
    requires { is_binary_node node ≡ true }
    ensures value { result ≡ joined node u w }
    ensures count { steps.new ≡ steps.old + 1 }
{
    let product = u.mul(w, steps);
    match node {
        Node::Or(..) => u.add(w).sub(product),
        _ => product,
    }
}
