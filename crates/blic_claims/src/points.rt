// The points of all claims.
ghost use Rattle.std.specs.Prelude.{◌≡◌, ◌<◌, ◌≤◌, ◌+◌, ◌*◌, ℕ, length, slice_index, IfOk};
ghost use Rattle.blic_model.specs.Circuit.{node_at};
ghost use Rattle.blic_model.specs.Counts.{claims as claims_of};
ghost use Rattle.blic_claims.specs.Places.{layout_of, row_at};
ghost use Rattle.blic_claims.specs.Points.{ArePointsOf, IsPlace, coordinate as coordinate_of, Draws, HandsDown};
ghost use Rattle.blic_claims.specs.Elements.{levels_of, Covers, CopiesClaims, HandsPoint, HandsAll};

use crate::elements::{Fixed, Place, copy_point, set_column};
use crate::layout::{Layout, Row};
use blic_basic::NoMem;
use blic_field::Fe;
use blic_model::{Circuit, Node};
use std::alloc::Global;
use std::marker::Model;

/// The points of the claims on each node of a circuit: an element for each claim and each free level.
#[derive(Drop)]
pub struct Points {
    rows: Vec<Row>,
    elements: Vec<Fe>,
}

impl Model for Points {
    ghost use Rattle.std.specs.Prelude.{IsTrue, length};
    ghost use Rattle.blic_claims.specs.Points.{PointTable};
    ghost use Rattle.blic_claims.specs.Elements.{spaced};

    ghost Value = { PointTable };

    ghost view = { λ p. record { rows = p.rows.items; elements = p.elements.items } };

    ghost invariant = { λ p. IsTrue (spaced 0 p.rows.items (length p.elements.items)) };
}

impl Points {
    /// Room for the points of all claims of the circuit, whose elements are 0.
    pub fn new(alloc: Global, circuit: &Circuit, layout: &Layout) -> Result<Points, NoMem>
        requires { layout.now ≡ layout_of circuit.now }
        ensures points { IfOk result (λ p. ArePointsOf p circuit.now) }
        ensures zero { IfOk result (λ p. (node claim j : ℕ) → coordinate_of p node claim j ≡ 0) }
    {
        circuit.is_within_limits();
        let rows = Vec::from_slice(alloc, layout.rows())?;
        // The root depends on no level, so its row starts where the elements end.
        let end = layout.row(circuit.root()).start;
        let elements = vec![in alloc; Fe::ZERO; end]?;
        Ok(Points { rows, elements })
    }

    /// The element of a claim on a node at free level `j` of the node.
    pub fn coordinate(&self, node: u32, claim: u32, j: u32) -> Fe
        requires { IsPlace self.now.rows node claim j }
        ensures { result ≡ coordinate_of self.now node claim j }
    {
        let row = self.rows[node as usize];
        self.elements[row.start + (claim as usize * row.width as usize + j as usize)]
    }

    /// The elements of a claim on a node, one for each free level of the node, topmost level first. They
    /// are lent and not copied.
    pub fn claim(&self, node: u32, claim: u32) -> &[Fe]
        requires node { node < length self.now.rows }
        requires claim { claim < (row_at self.now.rows node).claims }
        ensures length { length result.now ≡ (row_at self.now.rows node).width }
        ensures elements { (j : ℕ) → j < (row_at self.now.rows node).width → slice_index result.now j ≡ coordinate_of self.now node claim j }
    {
        let row = self.rows[node as usize];
        let width = row.width as usize;
        let start = row.start + claim as usize * width;
        &self.elements[start..start + width]
    }

    /// Sets free level `j` of the node to `r`, in the point of every claim on it.
    pub fn draw(&mut self, node: u32, j: u32, r: Fe)
        requires node { node < length self.old.rows }
        requires level { j < (row_at self.old.rows node).width }
        ensures rows { self.new.rows ≡ self.old.rows }
        ensures drawn { Draws self.old node j r self.new }
    {
        let row = self.rows[node as usize];
        set_column(&mut self.elements, row, j as usize, r);
    }

    /// Sets the points of the claims that a node hands down to its children: for a binary node the one
    /// point of its claims, for a `Not` or `Fix` node that of each claim.
    pub fn hand_down(&mut self, circuit: &Circuit, layout: &Layout, node: u32)
        requires node { node < length circuit.now.nodes }
        requires layout { layout.now ≡ layout_of circuit.now }
        requires points { ArePointsOf self.old circuit.now }
        ensures rows { self.new.rows ≡ self.old.rows }
        ensures handed { HandsDown circuit.now node self.old self.new }
    {
        circuit.is_within_limits();
        let (first, second) = layout.handed(node);
        match circuit.node(node) {
            Node::Const(_) | Node::Var(_) => {}
            Node::Not(child) => self.copy_claims(node, child, first),
            Node::Fix { level, bit, child } => {
                let fixed = Some(Fixed { level, bit });
                self.hand_all(circuit, node, child, first, fixed);
            }
            Node::And(left, right) | Node::Or(left, right) => {
                self.hand(circuit, node, 0, left, first as usize, None);
                self.hand(circuit, node, 0, right, second as usize, None);
            }
        }
    }

    // The points of all claims on `node` become those of as many claims on a child with the same
    // free levels, from claim `first` on.
    fn copy_claims(&mut self, node: u32, child: u32, first: u32)
        requires node { node < length self.old.rows }
        requires child { child < node }
        requires width { (row_at self.old.rows child).width ≡ (row_at self.old.rows node).width }
        requires room { first + (row_at self.old.rows node).claims ≤ (row_at self.old.rows child).claims }
        ensures rows { self.new.rows ≡ self.old.rows }
        ensures copied { CopiesClaims self.old node child first self.new }
    {
        let row = self.rows[node as usize];
        let down = self.rows[child as usize];
        let width = row.width as usize;
        let end = row.start + row.claims as usize * width;
        self.elements
            .copy_within(row.start..end, down.start + first as usize * width);
    }

    // The points of all claims on `node`, with the level fixed, become those of as many claims on a
    // child, from claim `first` on.
    fn hand_all(
        &mut self,
        circuit: &Circuit,
        node: u32,
        child: u32,
        first: u32,
        fixed: Option<Fixed>,
    )
        requires points { ArePointsOf self.old circuit.now }
        requires node { node < length circuit.now.nodes }
        requires child { child < node }
        requires room { first + claims_of circuit.now.nodes node ≤ claims_of circuit.now.nodes child }
        requires covered { Covers (levels_of circuit.now node) fixed (levels_of circuit.now child) }
        ensures rows { self.new.rows ≡ self.old.rows }
        ensures points { HandsAll circuit.now self.old node (claims_of circuit.now.nodes node) fixed child first self.new }
    {
        for c in 0..self.rows[node as usize].claims {
            let place = first as usize + c as usize;
            self.hand(circuit, node, c as usize, child, place, fixed);
        }
    }

    // The point of a claim on `node`, with the level fixed, becomes that of claim `place` on a child.
    fn hand(
        &mut self,
        circuit: &Circuit,
        node: u32,
        claim: usize,
        child: u32,
        place: usize,
        fixed: Option<Fixed>,
    )
        requires points { ArePointsOf self.old circuit.now }
        requires node { node < length circuit.now.nodes }
        requires claim { claim < claims_of circuit.now.nodes node }
        requires child { child < node }
        requires place { place < claims_of circuit.now.nodes child }
        requires covered { Covers (levels_of circuit.now node) fixed (levels_of circuit.now child) }
        ensures rows { self.new.rows ≡ self.old.rows }
        ensures point { HandsPoint circuit.now self.old node claim fixed child place self.new }
    {
        let from = Place {
            node,
            start: self.start(node, claim),
        };
        let to = Place {
            node: child,
            start: self.start(child, place),
        };
        copy_point(&mut self.elements, circuit, from, to, fixed);
    }

    // Where the point of a claim starts.
    fn start(&self, node: u32, claim: usize) -> usize
        requires node { node < length self.now.rows }
        requires claim { claim < (row_at self.now.rows node).claims }
        ensures { result ≡ (row_at self.now.rows node).start + claim * (row_at self.now.rows node).width }
    {
        let row = self.rows[node as usize];
        row.start + claim * row.width as usize
    }
}
