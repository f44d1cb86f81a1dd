// The values of a node's operands.
ghost use Rattle.std.specs.Prelude.{◌≡◌, ◌+◌, ◌<◌, ◌≤◌, length, true};
ghost use Rattle.blic_model.specs.Circuit.{node_at};
ghost use Rattle.blic_model.specs.Counts.{is_binary};
ghost use Rattle.blic_model.specs.Value.{value};
ghost use Rattle.blic_claims.specs.Honest.{operands};
ghost use Rattle.blic_claims.specs.Points.{ArePointsOf, stored_point};
ghost use Rattle.blic_solve.specs.Plan.{IsPlan};
ghost use Rattle.blic_engine.specs.Costs.{most_products};
ghost use Rattle.blic_engine.specs.Rooms.{HasRoom, IsAbout};

use crate::join::join_of;
use crate::load::load;
use blic_basic::Steps;
use blic_claims::Points;
use blic_eval::{Scratch, values_kept};
use blic_field::Fe;
use blic_model::Circuit;
use blic_solve::Plan;
use std::sync::ledger::Ledger;

/// The values of a binary node's operands at the point of the first claim on it. The scratch is about
/// the operands.
pub(crate) fn operand_values<L: Ledger>(
    circuit: &Circuit,
    plan: &Plan,
    points: &Points,
    node: u32,
    scratch: &mut Scratch,
    point: &mut [Fe],
    steps: &mut Steps<L>,
) -> (Fe, Fe)
    requires plan { IsPlan circuit.now.nodes (length circuit.now.order) plan.now }
    requires points { ArePointsOf points.now circuit.now }
    requires node { node < length circuit.now.nodes }
    requires binary { is_binary (node_at circuit.now.nodes node) ≡ true }
    requires room { HasRoom circuit.now scratch.old point.old }
    requires reached { IsAbout circuit.now.nodes plan.now node scratch.old.reached }
    ensures first { result.0 ≡ value circuit.now.nodes (length circuit.now.order)
        (operands (node_at circuit.now.nodes node)).0 (stored_point circuit.now points.now node 0) }
    ensures second { result.1 ≡ value circuit.now.nodes (length circuit.now.order)
        (operands (node_at circuit.now.nodes node)).1 (stored_point circuit.now points.now node 0) }
    ensures reached { scratch.new.reached ≡ scratch.old.reached }
    ensures room { HasRoom circuit.now scratch.new point.new }
    ensures at_most { steps.new ≤ steps.old + most_products circuit.now node }
    ensures at_least { steps.old ≤ steps.new }
{
    circuit.is_within_limits();
    load(circuit, points, node, 0, point);
    plan.levels_law();
    let Some(join) = join_of(circuit.node(node)) else {
        return (Fe::ZERO, Fe::ZERO);
    };
    let (first, second) = (plan.root(join.first), plan.root(join.second));
    let store = plan.store();
    scratch.forget();
    scratch.keep_down(store, 0, point, steps);
    values_kept(store, first, second, scratch)
}
