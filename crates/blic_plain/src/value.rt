// The values of nodes, and of their parts, at a point.
ghost use Rattle.std.specs.Prelude.{◌≡◌, ◌+◌, ◌<◌, ◌≤◌, length, true};
ghost use Rattle.blic_field.specs.Field.{blend as blend_of};
ghost use Rattle.blic_model.specs.Circuit.{node_at, free};
ghost use Rattle.blic_model.specs.Counts.{is_binary};
ghost use Rattle.blic_model.specs.Value.{value as value_of};
ghost use Rattle.blic_model.specs.Reduction.{combined as combined_of, part as part_of};
ghost use Rattle.blic_claims.specs.Honest.{operands};
ghost use Rattle.blic_claims.specs.Points.{ArePointsOf, stored_point};
ghost use Rattle.blic_plain.specs.Chains.{IsChainOf, point_of_chain};
ghost use Rattle.blic_plain.specs.Products.{combined_products, part_products, products, value_products};

use crate::chain::{Chain, element_at};
use blic_basic::Steps;
use blic_claims::Points;
use blic_field::Fe;
use blic_model::{Circuit, Node};
use std::sync::ledger::Ledger;

/// The value of a node at a point.
#[cycle(value)]
pub(crate) fn value<L: Ledger>(
    circuit: &Circuit,
    node: u32,
    point: &Chain<'_>,
    steps: &mut Steps<L>,
) -> Fe
    requires node { node < length circuit.now.nodes }
    requires point { IsChainOf circuit.now point.now }
    ensures value { result ≡ value_of circuit.now.nodes (length circuit.now.order) node (point_of_chain circuit.now point.now) }
    ensures at_most { steps.new ≤ steps.old + value_products circuit.now.nodes (length circuit.now.order) node }
    ensures at_least { steps.old ≤ steps.new }
{
    circuit.is_within_limits();
    match circuit.node(node) {
        Node::Const(bit) => Fe::from_bit(bit),
        Node::Var(level) => element_at(circuit, point, level),
        Node::Not(child) => Fe::ONE.sub(value(circuit, child, point, steps)),
        Node::Fix { level, bit, child } => {
            let fixed = Chain::With(level, Fe::from_bit(bit), &*point);
            value(circuit, child, &fixed, steps)
        }
        Node::And(_, _) | Node::Or(_, _) => {
            part(circuit, node, circuit.free_count(node), point, steps)
        }
    }
}

/// The value at a point of a binary node with its first `i` free levels made linear.
#[cycle(value)]
pub(crate) fn part<L: Ledger>(
    circuit: &Circuit,
    node: u32,
    i: u32,
    point: &Chain<'_>,
    steps: &mut Steps<L>,
) -> Fe
    requires node { node < length circuit.now.nodes }
    requires binary { is_binary (node_at circuit.now.nodes node) ≡ true }
    requires levels { i ≤ length (free circuit.now.nodes (length circuit.now.order) node) }
    requires point { IsChainOf circuit.now point.now }
    ensures value { result ≡ part_of circuit.now.nodes (length circuit.now.order) node i (point_of_chain circuit.now point.now) }
    ensures at_most { steps.new ≤ steps.old + part_products (combined_products circuit.now.nodes (length circuit.now.order) node) i }
    ensures at_least { steps.old ≤ steps.new }
{
    if i == 0 {
        return combined(circuit, node, point, steps);
    }
    let level = circuit.free_at(node, i - 1);
    let element = element_at(circuit, point, level);
    let at_zero = Chain::With(level, Fe::ZERO, &*point);
    let low = part(circuit, node, i - 1, &at_zero, steps);
    let at_one = Chain::With(level, Fe::ONE, &*point);
    let high = part(circuit, node, i - 1, &at_one, steps);
    blend(element, low, high, steps)
}

// The operands of a binary node at a point: their product, or their or.
#[cycle(value)]
fn combined<L: Ledger>(circuit: &Circuit, node: u32, point: &Chain<'_>, steps: &mut Steps<L>) -> Fe
    requires node { node < length circuit.now.nodes }
    requires binary { is_binary (node_at circuit.now.nodes node) ≡ true }
    requires point { IsChainOf circuit.now point.now }
    ensures value { result ≡ combined_of (node_at circuit.now.nodes node) (value_of circuit.now.nodes (length circuit.now.order)) (point_of_chain circuit.now point.now) }
    ensures at_most { steps.new ≤ steps.old + combined_products circuit.now.nodes (length circuit.now.order) node }
    ensures at_least { steps.old ≤ steps.new }
{
    circuit.is_within_limits();
    match circuit.node(node) {
        Node::And(left, right) => {
            let u = value(circuit, left, point, steps);
            u.mul(value(circuit, right, point, steps), steps)
        }
        Node::Or(left, right) => {
            let u = value(circuit, left, point, steps);
            let w = value(circuit, right, point, steps);
            u.add(w).sub(u.mul(w, steps))
        }
        _ => Fe::ZERO,
    }
}

// The value at s on the line that is `low` at 0 and `high` at 1.
#[tactic(auto, unfolding(blic_field::specs::Field::blend))]
fn blend<L: Ledger>(s: Fe, low: Fe, high: Fe, steps: &mut Steps<L>) -> Fe
    ensures value { result ≡ blend_of s low high }
    ensures count { steps.new ≡ steps.old + 2 }
{
    let from_low = Fe::ONE.sub(s).mul(low, steps);
    from_low.add(s.mul(high, steps))
}

/// The values of a binary node's operands at the point of the first claim on it.
pub(crate) fn operand_values<L: Ledger>(
    circuit: &Circuit,
    points: &Points,
    node: u32,
    steps: &mut Steps<L>,
) -> (Fe, Fe)
    requires points { ArePointsOf points.now circuit.now }
    requires node { node < length circuit.now.nodes }
    requires binary { is_binary (node_at circuit.now.nodes node) ≡ true }
    ensures first { result.0 ≡ value_of circuit.now.nodes (length circuit.now.order)
        (operands (node_at circuit.now.nodes node)).0 (stored_point circuit.now points.now node 0) }
    ensures second { result.1 ≡ value_of circuit.now.nodes (length circuit.now.order)
        (operands (node_at circuit.now.nodes node)).1 (stored_point circuit.now points.now node 0) }
    ensures at_most { steps.new ≤ steps.old + products circuit.now.nodes (length circuit.now.order) node }
    ensures at_least { steps.old ≤ steps.new }
{
    circuit.is_within_limits();
    let point = Chain::Stored(points, node, 0);
    match circuit.node(node) {
        Node::And(left, right) | Node::Or(left, right) => {
            let first = value(circuit, left, &point, steps);
            (first, value(circuit, right, &point, steps))
        }
        _ => (Fe::ZERO, Fe::ZERO),
    }
}
