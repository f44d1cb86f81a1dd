// The flat point: an element for each level, of which only a node's free levels matter.
ghost use Rattle.std.specs.Prelude.{◌≡◌, ◌<◌, length, slice_set};
ghost use Rattle.blic_model.specs.Counts.{claims};
ghost use Rattle.blic_claims.specs.Points.{ArePointsOf, stored_point};
ghost use Rattle.blic_eval.specs.Lines.{point_of};
ghost use Rattle.blic_engine.specs.Rooms.{AreElements, AgreesAt};

use blic_claims::Points;
use blic_field::Fe;
use blic_model::Circuit;

/// Puts the elements of a claim's point at the free levels of its node. The other levels keep theirs.
pub(crate) fn load(circuit: &Circuit, points: &Points, node: u32, claim: u32, point: &mut [Fe])
    requires points { ArePointsOf points.now circuit.now }
    requires node { node < length circuit.now.nodes }
    requires claim { claim < claims circuit.now.nodes node }
    requires levels { length point.old ≡ length circuit.now.order }
    requires elements { AreElements point.old }
    ensures agrees { AgreesAt circuit.now.nodes node (point_of point.new) (stored_point circuit.now points.now node claim) }
    ensures elements { AreElements point.new }
{
    circuit.is_within_limits();
    for j in 0..circuit.free_count(node) {
        let level = circuit.free_at(node, j);
        set(point, level, points.coordinate(node, claim, j));
    }
}

// Sets the element of a level.
fn set(point: &mut [Fe], level: u32, element: Fe)
    requires level { level < length point.old }
    requires elements { AreElements point.old }
    ensures set { point.new ≡ slice_set point.old level element }
    ensures elements { AreElements point.new }
{
    // The number is read so that a proof knows that it is an element's.
    let _number = element.value();
    point[level as usize] = element;
}
