// Who knows the circuit's values.
ghost use Rattle.std.specs.Prelude.{◌≡◌, ◌<◌, ◌≤◌, ◌+◌, ◌*◌, ℕ, IsTrue, length, map, suc, true};
ghost use Rattle.blic_model.specs.Circuit.{OrderedCircuit, below, node_at, free};
ghost use Rattle.blic_model.specs.Counts.{claims, is_binary};
ghost use Rattle.blic_model.specs.Value.{value};
ghost use Rattle.blic_claims.specs.Honest.{honest_answer, operands};
ghost use Rattle.blic_claims.specs.Points.{ArePointsOf, Draws, HasOnePoint, PointTable, stored_point, stored_poly};

use crate::points::Points;
use blic_basic::Steps;
use blic_field::Fe;
use blic_poly2::Poly2;
use std::sync::ledger::Ledger;

/// Answers about one circuit, by the definitions of value and degree reduction. No call of it can be
/// refused, and none changes what it stands for.
pub trait Answers {
    /// The circuit that it stands for.
    ghost circuit: { Self → OrderedCircuit };

    /// How many products of elements it takes at most for each claim on a node.
    ghost most: { Self → ℕ → ℕ };

    /// What it remembers of its last answer: whether that was about this node at this free level, and
    /// whether these points differ from those of the answer, on that node, at that level alone, at which
    /// all claims have one element. A type that remembers nothing takes it as always true.
    ghost goes_on: { Self → PointTable → ℕ → ℕ → Type 0 };

    /// Whether the root's value is 1.
    fn answer(&mut self) -> bool
        ensures circuit { circuit self.new ≡ circuit self.old }
        ensures most { most self.new ≡ most self.old }
        ensures answer { result ≡ honest_answer (circuit self.old).nodes (length (circuit self.old).order) };

    /// Fills `out` with the polynomial of each claim on a binary node, claim by claim, in its free level
    /// `j`: all other levels are at the claim's point.
    ///
    /// `on` says that the last answer was about this node at the free level above, `j + 1`, and that since
    /// then the node's points changed at that level alone, to one element for all claims. `goes_on` is what
    /// the type remembers of it.
    fn polys<L: Ledger>(
        &mut self,
        points: &Points,
        node: u32,
        j: u32,
        on: bool,
        out: &mut [Poly2],
        steps: &mut Steps<L>,
    )
        requires on { IsTrue on → goes_on self.old points.now node (suc j) }
        requires points { ArePointsOf points.now (circuit self.old) }
        requires node { node < length (circuit self.old).nodes }
        requires binary { is_binary (node_at (circuit self.old).nodes node) ≡ true }
        requires level { j < length (free (circuit self.old).nodes (length (circuit self.old).order) node) }
        requires room { length out.old ≡ claims (circuit self.old).nodes node }
        ensures circuit { circuit self.new ≡ circuit self.old }
        ensures most { most self.new ≡ most self.old }
        ensures polys { out.new ≡ map (stored_poly (circuit self.old) points.now node j) (below (claims (circuit self.old).nodes node)) }
        ensures goes_on { (r : ℕ) (next : PointTable) → next.rows ≡ points.now.rows → Draws points.now node j r next → goes_on self.new next node j }
        ensures at_most { steps.new ≤ steps.old + length out.old * most self.old node }
        ensures at_least { steps.old ≤ steps.new };

    /// The values of a binary node's two operands at the one point of the claims on it.
    ///
    /// `on` says that the last answer was about this node at its free level 0, and that since then the
    /// node's points changed at that level alone, to one element for all claims.
    fn values<L: Ledger>(
        &mut self,
        points: &Points,
        node: u32,
        on: bool,
        steps: &mut Steps<L>,
    ) -> (Fe, Fe)
        requires on { IsTrue on → goes_on self.old points.now node 0 }
        requires points { ArePointsOf points.now (circuit self.old) }
        requires node { node < length (circuit self.old).nodes }
        requires binary { is_binary (node_at (circuit self.old).nodes node) ≡ true }
        requires one { HasOnePoint (circuit self.old) points.now node }
        ensures circuit { circuit self.new ≡ circuit self.old }
        ensures most { most self.new ≡ most self.old }
        ensures first { result.0 ≡ value (circuit self.old).nodes (length (circuit self.old).order)
            (operands (node_at (circuit self.old).nodes node)).0 (stored_point (circuit self.old) points.now node 0) }
        ensures second { result.1 ≡ value (circuit self.old).nodes (length (circuit self.old).order)
            (operands (node_at (circuit self.old).nodes node)).1 (stored_point (circuit self.old) points.now node 0) }
        ensures at_most { steps.new ≤ steps.old + most self.old node }
        ensures at_least { steps.old ≤ steps.new };

    /// Is called after a session, with that session's number.
    fn between(&mut self, session: u32)
        ensures circuit { circuit self.new ≡ circuit self.old }
        ensures most { most self.new ≡ most self.old };
}
