// The points that the recursion goes through.
ghost use Rattle.std.specs.Prelude.{◌≡◌, ◌<◌, length};
ghost use Rattle.blic_model.specs.Counts.{claims};
ghost use Rattle.blic_claims.specs.Points.{ArePointsOf, stored_point};
ghost use Rattle.blic_plain.specs.Chains.{IsChainOf, point_of_chain};

use blic_claims::Points;
use blic_field::Fe;
use blic_model::Circuit;

/// A point: levels that are set, the newest first, over a first point.
#[derive(Clone, Copy)]
pub(crate) enum Chain<'p> {
    /// 0 at each level.
    Zero,
    /// The point of a claim on a node.
    Stored(&'p Points, u32, u32),
    /// Another point, with the level set to the element.
    With(u32, Fe, &'p Chain<'p>),
}

/// The element at a level.
pub(crate) fn element_at(circuit: &Circuit, point: &Chain<'_>, level: u32) -> Fe
    requires { IsChainOf circuit.now point.now }
    ensures { result ≡ point_of_chain circuit.now point.now level }
{
    match point {
        Chain::Zero => Fe::ZERO,
        Chain::Stored(points, node, claim) => stored_at(circuit, points, *node, *claim, level),
        Chain::With(set, element, rest) => {
            if level == *set {
                *element
            } else {
                element_at(circuit, rest, level)
            }
        }
    }
}

// The element of a claim's point at a level: 0 if the level is not free.
fn stored_at(circuit: &Circuit, points: &Points, node: u32, claim: u32, level: u32) -> Fe
    requires points { ArePointsOf points.now circuit.now }
    requires node { node < length circuit.now.nodes }
    requires claim { claim < claims circuit.now.nodes node }
    ensures { result ≡ stored_point circuit.now points.now node claim level }
{
    for j in 0..circuit.free_count(node) {
        if circuit.free_at(node, j) == level {
            return points.coordinate(node, claim, j);
        }
    }
    Fe::ZERO
}
