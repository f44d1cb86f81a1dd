// The polynomial of a part in one of its levels.
ghost use Rattle.std.specs.Prelude.{◌≡◌, ◌+◌, ◌*◌, ◌<◌, ◌≤◌, length, map, true};
ghost use Rattle.blic_field.specs.Field.{add, half as half_of, mul, sub};
ghost use Rattle.blic_model.specs.Circuit.{node_at, below, free};
ghost use Rattle.blic_model.specs.Counts.{claims, is_binary};
ghost use Rattle.blic_model.specs.Reduction.{poly as poly_of};
ghost use Rattle.blic_claims.specs.Points.{ArePointsOf, stored_poly};
ghost use Rattle.blic_plain.specs.Chains.{IsChainOf, point_of_chain};
ghost use Rattle.blic_plain.specs.Products.{products};

use crate::chain::Chain;
use crate::value::part;
use blic_basic::Steps;
use blic_claims::Points;
use blic_field::Fe;
use blic_model::Circuit;
use blic_poly2::Poly2;
use std::sync::ledger::Ledger;

/// Fills `out` with the polynomial of each claim on a binary node in its free level `j`.
pub(crate) fn fill<L: Ledger>(
    circuit: &Circuit,
    points: &Points,
    node: u32,
    j: u32,
    out: &mut [Poly2],
    steps: &mut Steps<L>,
)
    requires points { ArePointsOf points.now circuit.now }
    requires node { node < length circuit.now.nodes }
    requires binary { is_binary (node_at circuit.now.nodes node) ≡ true }
    requires level { j < length (free circuit.now.nodes (length circuit.now.order) node) }
    requires room { length out.old ≡ claims circuit.now.nodes node }
    ensures polys { out.new ≡ map (stored_poly circuit.now points.now node j) (below (claims circuit.now.nodes node)) }
    ensures at_most { steps.new ≤ steps.old + length out.old * products circuit.now.nodes (length circuit.now.order) node }
    ensures at_least { steps.old ≤ steps.new }
{
    circuit.is_within_limits();
    for claim in 0..out.len() {
        let point = Chain::Stored(points, node, claim as u32);
        out[claim] = poly(circuit, node, j, &point, steps);
    }
}

// The polynomial in free level `j` of a binary node whose levels above are at the point.
fn poly<L: Ledger>(
    circuit: &Circuit,
    node: u32,
    j: u32,
    point: &Chain<'_>,
    steps: &mut Steps<L>,
) -> Poly2
    requires node { node < length circuit.now.nodes }
    requires binary { is_binary (node_at circuit.now.nodes node) ≡ true }
    requires level { j < length (free circuit.now.nodes (length circuit.now.order) node) }
    requires point { IsChainOf circuit.now point.now }
    ensures poly { result ≡ poly_of circuit.now.nodes (length circuit.now.order) node j (point_of_chain circuit.now point.now) }
    ensures at_most { steps.new ≤ steps.old + products circuit.now.nodes (length circuit.now.order) node }
    ensures at_least { steps.old ≤ steps.new }
{
    circuit.is_within_limits();
    let level = circuit.free_at(node, j);
    let at_zero = Chain::With(level, Fe::ZERO, &*point);
    let zero = part(circuit, node, j, &at_zero, steps);
    let at_one = Chain::With(level, Fe::ONE, &*point);
    let one = part(circuit, node, j, &at_one, steps);
    let at_minus_one = Chain::With(level, Fe::ONE.neg(), &*point);
    let minus_one = part(circuit, node, j, &at_minus_one, steps);
    interpolated(zero, one, minus_one, steps)
}

// The polynomial with these values at 0, 1 and -1.
fn interpolated<L: Ledger>(zero: Fe, one: Fe, minus_one: Fe, steps: &mut Steps<L>) -> Poly2
    ensures c0 { result.c0 ≡ zero }
    ensures c1 { result.c1 ≡ mul half_of (sub one minus_one) }
    ensures c2 { result.c2 ≡ sub (mul half_of (add one minus_one)) zero }
    ensures count { steps.new ≡ steps.old + 2 }
{
    let half = half();
    Poly2 {
        c0: zero,
        c1: half.mul(one.sub(minus_one), steps),
        c2: half.mul(one.add(minus_one), steps).sub(zero),
    }
}

// The inverse of 2.
fn half() -> Fe
    ensures { result ≡ half_of }
{
    Fe::from_u64(1 << 60).unwrap()
}
