// The polynomials of the claims on a node.
ghost use Rattle.std.specs.Prelude.{◌≡◌, ◌+◌, ◌*◌, ◌<◌, ◌≤◌, length, map, true};
ghost use Rattle.blic_model.specs.Circuit.{node_at, below, free};
ghost use Rattle.blic_model.specs.Counts.{claims, is_binary};
ghost use Rattle.blic_model.specs.Reduction.{poly as poly_of};
ghost use Rattle.blic_claims.specs.Points.{ArePointsOf, stored_poly};
ghost use Rattle.blic_eval.specs.Lines.{point_of};
ghost use Rattle.blic_solve.specs.Plan.{IsPlan};
ghost use Rattle.blic_engine.specs.Costs.{most_products};
ghost use Rattle.blic_engine.specs.Rooms.{HasRoom, IsAbout};

use crate::join::join_of;
use crate::load::load;
use blic_basic::Steps;
use blic_claims::Points;
use blic_eval::{Scratch, poly_kept};
use blic_field::Fe;
use blic_model::Circuit;
use blic_poly2::Poly2;
use blic_solve::Plan;
use std::sync::ledger::Ledger;

/// Fills `out` with the polynomial of each claim on a binary node in its free level `j`. The scratch is
/// about the node's operands.
pub(crate) fn fill<L: Ledger>(
    circuit: &Circuit,
    plan: &Plan,
    points: &Points,
    node: u32,
    j: u32,
    out: &mut [Poly2],
    scratch: &mut Scratch,
    point: &mut [Fe],
    steps: &mut Steps<L>,
)
    requires plan { IsPlan circuit.now.nodes (length circuit.now.order) plan.now }
    requires points { ArePointsOf points.now circuit.now }
    requires node { node < length circuit.now.nodes }
    requires binary { is_binary (node_at circuit.now.nodes node) ≡ true }
    requires level { j < length (free circuit.now.nodes (length circuit.now.order) node) }
    requires claims { length out.old ≡ claims circuit.now.nodes node }
    requires room { HasRoom circuit.now scratch.old point.old }
    requires reached { IsAbout circuit.now.nodes plan.now node scratch.old.reached }
    ensures polys { out.new ≡ map (stored_poly circuit.now points.now node j) (below (claims circuit.now.nodes node)) }
    ensures reached { scratch.new.reached ≡ scratch.old.reached }
    ensures room { HasRoom circuit.now scratch.new point.new }
    ensures at_most { steps.new ≤ steps.old + length out.old * most_products circuit.now node }
    ensures at_least { steps.old ≤ steps.new }
{
    circuit.is_within_limits();
    for claim in 0..out.len() {
        out[claim] = claim_poly(
            circuit,
            plan,
            points,
            node,
            claim as u32,
            j,
            scratch,
            point,
            steps,
        );
    }
}

// The polynomial of one claim.
fn claim_poly<L: Ledger>(
    circuit: &Circuit,
    plan: &Plan,
    points: &Points,
    node: u32,
    claim: u32,
    j: u32,
    scratch: &mut Scratch,
    point: &mut [Fe],
    steps: &mut Steps<L>,
) -> Poly2
    requires plan { IsPlan circuit.now.nodes (length circuit.now.order) plan.now }
    requires points { ArePointsOf points.now circuit.now }
    requires node { node < length circuit.now.nodes }
    requires claim { claim < claims circuit.now.nodes node }
    requires binary { is_binary (node_at circuit.now.nodes node) ≡ true }
    requires level { j < length (free circuit.now.nodes (length circuit.now.order) node) }
    requires room { HasRoom circuit.now scratch.old point.old }
    requires reached { IsAbout circuit.now.nodes plan.now node scratch.old.reached }
    ensures poly { result ≡ stored_poly circuit.now points.now node j claim }
    ensures reached { scratch.new.reached ≡ scratch.old.reached }
    ensures room { HasRoom circuit.now scratch.new point.new }
    ensures at_most { steps.new ≤ steps.old + most_products circuit.now node }
    ensures at_least { steps.old ≤ steps.new }
{
    circuit.is_within_limits();
    load(circuit, points, node, claim, point);
    node_poly(circuit, plan, node, j, point, scratch, steps)
}

// The polynomial in free level `j` of a binary node whose other levels are at the point.
fn node_poly<L: Ledger>(
    circuit: &Circuit,
    plan: &Plan,
    node: u32,
    j: u32,
    point: &[Fe],
    scratch: &mut Scratch,
    steps: &mut Steps<L>,
) -> Poly2
    requires plan { IsPlan circuit.now.nodes (length circuit.now.order) plan.now }
    requires node { node < length circuit.now.nodes }
    requires binary { is_binary (node_at circuit.now.nodes node) ≡ true }
    requires level { j < length (free circuit.now.nodes (length circuit.now.order) node) }
    requires room { HasRoom circuit.now scratch.old point.now }
    requires reached { IsAbout circuit.now.nodes plan.now node scratch.old.reached }
    ensures poly { result ≡ poly_of circuit.now.nodes (length circuit.now.order) node j (point_of point.now) }
    ensures reached { scratch.new.reached ≡ scratch.old.reached }
    ensures room { HasRoom circuit.now scratch.new point.now }
    ensures at_most { steps.new ≤ steps.old + most_products circuit.now node }
    ensures at_least { steps.old ≤ steps.new }
{
    circuit.is_within_limits();
    plan.levels_law();
    let (Some(join), Some(graph)) = (join_of(circuit.node(node)), plan.graph(node)) else {
        return Poly2 {
            c0: Fe::ZERO,
            c1: Fe::ZERO,
            c2: Fe::ZERO,
        };
    };
    let level = circuit.free_at(node, j);
    let (first, second) = (plan.root(join.first), plan.root(join.second));
    let store = plan.store();
    scratch.forget();
    scratch.keep_down(store, u64::from(level) + 1, point, steps);
    poly_kept(
        graph, store, join.op, first, second, level, point, scratch, steps,
    )
}
