// The walk from a binary node down to the next.
ghost use Rattle.std.specs.Prelude.{◌≡◌, ◌<◌, ◌≤◌, ℕ, List, suc, false, length, IfSome};
ghost use Rattle.blic_model.specs.Circuit.{node_at};
ghost use Rattle.blic_model.specs.Counts.{is_binary as is_binary_of};
ghost use Rattle.blic_claims.specs.Places.{layout_of};
ghost use Rattle.blic_claims.specs.Points.{ArePointsOf};
ghost use Rattle.blic_prover.specs.Fitted.{IsBinaryNode, EndsAs};
ghost use Rattle.blic_prover.specs.Standing.{IsWalking};

use blic_claims::{Layout, Points};
use blic_model::Circuit;

/// Hands the claims on the nodes below `top` down, as far as the next binary node, if there is one.
pub(crate) fn walk(points: &mut Points, circuit: &Circuit, layout: &Layout, top: u32) -> Option<u32>
    requires layout { layout.now ≡ layout_of circuit.now }
    requires points { ArePointsOf points.old circuit.now }
    requires top { top ≤ length circuit.now.nodes }
    ensures points { ArePointsOf points.new circuit.now }
    ensures binary { IfSome result (IsBinaryNode circuit.now) }
    ensures ends { (draws : List ℕ) (t : ℕ) → IsWalking circuit.now draws t top points.old → EndsAs circuit.now draws t points.new result }
{
    let mut node = top;
    'nodes: while 0 < node {
        node -= 1;
        if circuit.node(node).is_binary() {
            return Some(node);
        }
        pass(points, circuit, layout, node);
    }
    None
}

// Passes a node that is not binary.
fn pass(points: &mut Points, circuit: &Circuit, layout: &Layout, node: u32)
    requires layout { layout.now ≡ layout_of circuit.now }
    requires points { ArePointsOf points.old circuit.now }
    requires node { node < length circuit.now.nodes }
    requires other { is_binary_of (node_at circuit.now.nodes node) ≡ false }
    ensures points { ArePointsOf points.new circuit.now }
    ensures walks { (draws : List ℕ) (t : ℕ) → IsWalking circuit.now draws t (suc node) points.old → IsWalking circuit.now draws t node points.new }
{
    circuit.is_within_limits();
    points.hand_down(circuit, layout, node);
}
