// The claims that a verifier holds: their points and their values.
ghost use Rattle.std.specs.Prelude.{◌≡◌, ◌+◌, ◌*◌, ◌<◌, ◌≤◌, ◌⊎◌, ◌++◌, ◌∷◌, [], ℕ, Bool, List, true, length, IfOk, slice_index_or};
ghost use Rattle.blic_field.specs.Quadratic.{at};
ghost use Rattle.blic_poly2.specs.Poly.{reduced_at};
ghost use Rattle.blic_model.specs.Circuit.{node_at};
ghost use Rattle.blic_model.specs.Counts.{is_binary};
ghost use Rattle.blic_claims.specs.Places.{layout_of, row_at};
ghost use Rattle.blic_claims.specs.Points.{coordinate, Draws};
ghost use Rattle.blic_claims.specs.Turns.{Reply, Values};
ghost use Rattle.blic_verifier.specs.Acceptance.{no_poly};
ghost use Rattle.blic_verifier.specs.Holding.{IsFirstDifference, HasClaimRoom, HasMet, WalksTo};

use crate::binary::operands;
use blic_basic::{NoMem, Steps};
use blic_claims::{Layout, Points, Row};
use blic_field::Fe;
use blic_model::Circuit;
use blic_poly2::Poly2;
use std::alloc::Global;
use std::sync::ledger::Ledger;

/// The claims on the nodes of a circuit, at the places of its layout.
#[derive(Drop)]
pub(crate) struct Held {
    pub points: Points,
    pub values: Vec<Fe>,
}

impl Held {
    /// Room for all claims of a circuit.
    pub fn new(alloc: Global, circuit: &Circuit, layout: &Layout) -> Result<Held, NoMem>
        requires { layout.now ≡ layout_of circuit.now }
        ensures { IfOk result (λ h. HasClaimRoom circuit.now h.points h.values.items) }
    {
        circuit.is_within_limits();
        let points = Points::new(alloc, circuit, layout)?;
        let root = layout.row(circuit.root());
        let Some(count) = root.first.checked_add(root.claims as usize) else {
            return Err(NoMem);
        };
        let values = vec![in alloc; Fe::ZERO; count]?;
        Ok(Held { points, values })
    }

    /// The first claim on the node whose polynomial, reduced at the claim's element of a free level, is
    /// not its value. At most one product for each polynomial.
    pub fn first_unreduced<L: Ledger>(
        &self,
        node: u32,
        row: Row,
        level: u32,
        polys: &[Poly2],
        steps: &mut Steps<L>,
    ) -> Option<u32>
        requires node { node < length self.now.points.rows }
        requires row { row ≡ row_at self.now.points.rows node }
        requires level { level < row.width }
        requires count { length polys.now ≡ row.claims }
        requires room { row.first + row.claims ≤ length self.now.values.items }
        ensures first { IsFirstDifference row.claims
            (λ c. reduced_at (slice_index_or polys.now c no_poly) (coordinate self.now.points node c level))
            (λ c. slice_index_or self.now.values.items (row.first + c) 0) result }
        ensures at_most { steps.new ≤ steps.old + row.claims }
        ensures at_least { steps.old ≤ steps.new }
    {
        for c in 0..row.claims {
            let element = self.points.coordinate(node, c, level);
            let reduced = polys[c as usize].reduced_at(element, steps);
            if reduced != self.values[row.first + c as usize] {
                return Some(c);
            }
        }
        None
    }

    /// The first claim of the row whose value is another.
    pub fn first_other(&self, row: Row, value: Fe) -> Option<u32>
        requires { row.first + row.claims ≤ length self.now.values.items }
        ensures { IsFirstDifference row.claims (λ c. slice_index_or self.now.values.items (row.first + c) 0) (λ c. value) result }
    {
        for c in 0..row.claims {
            if self.values[row.first + c as usize] != value {
                return Some(c);
            }
        }
        None
    }

    /// The first claim on a variable whose value is not the claim's one element.
    pub fn first_off(&self, node: u32, row: Row) -> Option<u32>
        requires node { node < length self.now.points.rows }
        requires row { row ≡ row_at self.now.points.rows node }
        requires level { 0 < row.width }
        requires room { row.first + row.claims ≤ length self.now.values.items }
        ensures { IsFirstDifference row.claims (λ c. slice_index_or self.now.values.items (row.first + c) 0) (λ c. coordinate self.now.points node c 0) result }
    {
        for c in 0..row.claims {
            if self.values[row.first + c as usize] != self.points.coordinate(node, c, 0) {
                return Some(c);
            }
        }
        None
    }

    /// Sets a free level in all claims on the node, whose values become those of their polynomials.
    /// At most two products for each claim.
    pub fn draw<L: Ledger>(
        &mut self,
        node: u32,
        row: Row,
        level: u32,
        polys: &[Poly2],
        r: Fe,
        steps: &mut Steps<L>,
    )
        requires node { node < length self.old.points.rows }
        requires row { row ≡ row_at self.old.points.rows node }
        requires level { level < row.width }
        requires polys { row.claims ≤ length polys.now }
        requires room { row.first + row.claims ≤ length self.old.values.items }
        ensures rows { self.new.points.rows ≡ self.old.points.rows }
        ensures long { length self.new.values.items ≡ length self.old.values.items }
        ensures drawn { Draws self.old.points node level r self.new.points }
        ensures inside { (c : ℕ) → c < row.claims → slice_index_or self.new.values.items (row.first + c) 0 ≡ at (slice_index_or polys.now c no_poly) r }
        ensures outside { (q : ℕ) → (q < row.first) ⊎ (row.first + row.claims ≤ q) → slice_index_or self.new.values.items q 0 ≡ slice_index_or self.old.values.items q 0 }
        ensures at_most { steps.new ≤ steps.old + 2 * row.claims }
        ensures at_least { steps.old ≤ steps.new }
    {
        evaluate(&mut self.values, row, polys, r, steps);
        self.points.draw(node, level, r);
    }

    /// Hands down the claims of a binary node, with these values of its operands.
    pub fn hand_down(&mut self, circuit: &Circuit, layout: &Layout, node: u32, u: Fe, w: Fe)
        requires layout { layout.now ≡ layout_of circuit.now }
        requires room { HasClaimRoom circuit.now self.old.points self.old.values.items }
        requires node { node < length circuit.now.nodes }
        requires kind { is_binary (node_at circuit.now.nodes node) ≡ true }
        ensures room { HasClaimRoom circuit.now self.new.points self.new.values.items }
        ensures taken { (answer : Bool) (draws : List ℕ) (replies : List Reply)
            → HasMet circuit.now answer draws replies node self.old.points self.old.values.items u w
            → WalksTo circuit.now answer draws (replies ++ Values u w ∷ []) node self.new.points self.new.values.items }
    {
        circuit.is_within_limits();
        self.points.hand_down(circuit, layout, node);
        let (left, right) = operands(circuit.node(node));
        let (first, second) = layout.handed(node);
        self.values[layout.row(left).first + first as usize] = u;
        self.values[layout.row(right).first + second as usize] = w;
    }
}

// The values of the row become those of its polynomials at r.
fn evaluate<L: Ledger>(values: &mut [Fe], row: Row, polys: &[Poly2], r: Fe, steps: &mut Steps<L>)
    requires polys { row.claims ≤ length polys.now }
    requires values { row.first + row.claims ≤ length values.old }
    ensures inside { (c : ℕ) → c < row.claims → slice_index_or values.new (row.first + c) 0 ≡ at (slice_index_or polys.now c no_poly) r }
    ensures outside { (q : ℕ) → (q < row.first) ⊎ (row.first + row.claims ≤ q) → slice_index_or values.new q 0 ≡ slice_index_or values.old q 0 }
    ensures at_most { steps.new ≤ steps.old + 2 * row.claims }
    ensures at_least { steps.old ≤ steps.new }
{
    for c in 0..row.claims as usize {
        values[row.first + c] = polys[c].at(r, steps);
    }
}
