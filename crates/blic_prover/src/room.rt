// The room for the polynomials of a reply.
ghost use Rattle.std.specs.Prelude.{◌≡◌, ◌<◌, ◌≤◌, ◌+◌, ◌*◌, ℕ, IsTrue, length, map, suc, take};
ghost use Rattle.blic_model.specs.Circuit.{below, free};
ghost use Rattle.blic_model.specs.Counts.{claims};
ghost use Rattle.blic_claims.specs.Points.{ArePointsOf, Draws, PointTable, stored_poly};
ghost use Rattle.blic_prover.specs.Fitted.{IsBinaryNode};

use blic_basic::Steps;
use blic_claims::{Answers, Points};
use blic_poly2::Poly2;
use std::sync::ledger::Ledger;

/// Fills the start of the room with the polynomial of each claim on a binary node in its free level `j`.
pub(crate) fn fill<A: Answers, L: Ledger>(
    room: &mut [Poly2],
    count: usize,
    answers: &mut A,
    points: &Points,
    node: u32,
    j: u32,
    on: bool,
    steps: &mut Steps<L>,
)
    requires on { IsTrue on → A.goes_on answers.old points.now node (suc j) }
    requires points { ArePointsOf points.now (A.circuit answers.old) }
    requires binary { IsBinaryNode (A.circuit answers.old) node }
    requires level { j < length (free (A.circuit answers.old).nodes (length (A.circuit answers.old).order) node) }
    requires count { count ≡ claims (A.circuit answers.old).nodes node }
    requires room { count ≤ length room.old }
    ensures circuit { A.circuit answers.new ≡ A.circuit answers.old }
    ensures long { length room.new ≡ length room.old }
    ensures filled { take count room.new ≡ map (stored_poly (A.circuit answers.old) points.now node j) (below (claims (A.circuit answers.old).nodes node)) }
    ensures goes_on { (r : ℕ) (next : PointTable) → next.rows ≡ points.now.rows → Draws points.now node j r next → A.goes_on answers.new next node j }
    ensures at_most { steps.new ≤ steps.old + count * A.most answers.old node }
    ensures at_least { steps.old ≤ steps.new }
{
    answers.polys(points, node, j, on, &mut room[..count], steps);
}
