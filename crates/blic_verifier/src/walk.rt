// The walk from a binary node down to the next: leaves are checked, the other nodes hand their claims down.
ghost use Rattle.std.specs.Prelude.{◌≡◌, ◌+◌, ◌<◌, ◌≤◌, ◌⊎◌, ℕ, Bool, List, suc, length, slice_index_or};
ghost use Rattle.blic_field.specs.Field.{sub};
ghost use Rattle.blic_model.specs.Circuit.{node_at};
ghost use Rattle.blic_claims.specs.Places.{layout_of};
ghost use Rattle.blic_claims.specs.Turns.{Reply};
ghost use Rattle.blic_verifier.specs.Holding.{HasClaimRoom, WalksTo, IsTakenRight, IsTakenAs, EndsRight, EndsAs, leaf_taken};

use crate::held::Held;
use crate::place::{Part, Place};
use blic_claims::{Layout, Row};
use blic_field::Fe;
use blic_model::{Circuit, Node};

/// Where the walk down the nodes ends: at a binary node, at a fault, or below node 0.
pub(crate) enum Walked {
    Binary(u32),
    Fault(Place),
    End,
}

/// What a node on the walk comes to: it is binary, a claim on it fails, or it is taken.
pub(crate) enum Taken {
    Binary,
    Fault(u32),
    Done,
}

impl Held {
    /// Takes the nodes below `top`, down to the next binary node.
    pub fn walk(&mut self, circuit: &Circuit, layout: &Layout, top: u32) -> Walked
        requires layout { layout.now ≡ layout_of circuit.now }
        requires room { HasClaimRoom circuit.now self.old.points self.old.values.items }
        requires top { top ≤ length circuit.now.nodes }
        ensures room { HasClaimRoom circuit.now self.new.points self.new.values.items }
        ensures right { EndsRight circuit.now result }
        ensures ends { (answer : Bool) (draws : List ℕ) (replies : List Reply)
            → WalksTo circuit.now answer draws replies top self.old.points self.old.values.items
            → EndsAs circuit.now answer draws replies self.new.points self.new.values.items result }
    {
        let mut node = top;
        'nodes: while 0 < node {
            node -= 1;
            match self.take_node(circuit, layout, node) {
                Taken::Binary => return Walked::Binary(node),
                Taken::Fault(claim) => return Walked::Fault(leaf_place(node, claim)),
                Taken::Done => {}
            }
        }
        Walked::End
    }

    fn take_node(&mut self, circuit: &Circuit, layout: &Layout, node: u32) -> Taken
        requires layout { layout.now ≡ layout_of circuit.now }
        requires room { HasClaimRoom circuit.now self.old.points self.old.values.items }
        requires node { node < length circuit.now.nodes }
        ensures room { HasClaimRoom circuit.now self.new.points self.new.values.items }
        ensures right { IsTakenRight circuit.now node result }
        ensures taken { (answer : Bool) (draws : List ℕ) (replies : List Reply)
            → WalksTo circuit.now answer draws replies (suc node) self.old.points self.old.values.items
            → IsTakenAs circuit.now answer draws replies node self.new.points self.new.values.items result }
    {
        match circuit.node(node) {
            Node::Const(bit) => self.take_const(circuit, layout, node, bit),
            Node::Var(_) => self.take_var(circuit, layout, node),
            Node::Not(child) => {
                self.take_not(circuit, layout, node, child);
                Taken::Done
            }
            Node::Fix { child, .. } => {
                self.take_fix(circuit, layout, node, child);
                Taken::Done
            }
            Node::And(..) | Node::Or(..) => Taken::Binary,
        }
    }

    fn take_const(&self, circuit: &Circuit, layout: &Layout, node: u32, bit: bool) -> Taken
        requires layout { layout.now ≡ layout_of circuit.now }
        requires room { HasClaimRoom circuit.now self.now.points self.now.values.items }
        requires node { node < length circuit.now.nodes }
        requires kind { node_at circuit.now.nodes node ≡ Node.Const bit }
        ensures right { IsTakenRight circuit.now node result }
        ensures taken { (answer : Bool) (draws : List ℕ) (replies : List Reply)
            → WalksTo circuit.now answer draws replies (suc node) self.now.points self.now.values.items
            → IsTakenAs circuit.now answer draws replies node self.now.points self.now.values.items result }
    {
        let _circuit = &*circuit;
        leaf(self.first_other(layout.row(node), Fe::from_bit(bit)))
    }

    fn take_var(&self, circuit: &Circuit, layout: &Layout, node: u32) -> Taken
        requires layout { layout.now ≡ layout_of circuit.now }
        requires room { HasClaimRoom circuit.now self.now.points self.now.values.items }
        requires node { node < length circuit.now.nodes }
        requires kind { (x : ℕ) × (node_at circuit.now.nodes node ≡ Node.Var x) }
        ensures right { IsTakenRight circuit.now node result }
        ensures taken { (answer : Bool) (draws : List ℕ) (replies : List Reply)
            → WalksTo circuit.now answer draws replies (suc node) self.now.points self.now.values.items
            → IsTakenAs circuit.now answer draws replies node self.now.points self.now.values.items result }
    {
        circuit.is_within_limits();
        leaf(self.first_off(node, layout.row(node)))
    }

    fn take_not(&mut self, circuit: &Circuit, layout: &Layout, node: u32, child: u32)
        requires layout { layout.now ≡ layout_of circuit.now }
        requires room { HasClaimRoom circuit.now self.old.points self.old.values.items }
        requires node { node < length circuit.now.nodes }
        requires kind { node_at circuit.now.nodes node ≡ Node.Not child }
        ensures room { HasClaimRoom circuit.now self.new.points self.new.values.items }
        ensures taken { (answer : Bool) (draws : List ℕ) (replies : List Reply)
            → WalksTo circuit.now answer draws replies (suc node) self.old.points self.old.values.items
            → WalksTo circuit.now answer draws replies node self.new.points self.new.values.items }
    {
        circuit.is_within_limits();
        self.points.hand_down(circuit, layout, node);
        let row = layout.row(node);
        let to = layout.row(child).first + layout.handed(node).0 as usize;
        negate(&mut self.values, row, to);
    }

    fn take_fix(&mut self, circuit: &Circuit, layout: &Layout, node: u32, child: u32)
        requires layout { layout.now ≡ layout_of circuit.now }
        requires room { HasClaimRoom circuit.now self.old.points self.old.values.items }
        requires node { node < length circuit.now.nodes }
        requires kind { (x : ℕ) × (b : Bool) × (node_at circuit.now.nodes node ≡ Node.Fix x b child) }
        ensures room { HasClaimRoom circuit.now self.new.points self.new.values.items }
        ensures taken { (answer : Bool) (draws : List ℕ) (replies : List Reply)
            → WalksTo circuit.now answer draws replies (suc node) self.old.points self.old.values.items
            → WalksTo circuit.now answer draws replies node self.new.points self.new.values.items }
    {
        circuit.is_within_limits();
        self.points.hand_down(circuit, layout, node);
        let row = layout.row(node);
        let to = layout.row(child).first + layout.handed(node).0 as usize;
        copy(&mut self.values, row, to);
    }
}

// What the first claim that fails makes of a leaf.
fn leaf(fault: Option<u32>) -> Taken
    ensures { result ≡ leaf_taken fault }
{
    match fault {
        Some(claim) => Taken::Fault(claim),
        None => Taken::Done,
    }
}

fn leaf_place(node: u32, claim: u32) -> Place
    ensures { result ≡ record { node = node; part = Part.Leaf; claim = claim } }
{
    Place {
        node,
        part: Part::Leaf,
        claim,
    }
}

// The values from `to` on become one minus those of the row.
fn negate(values: &mut [Fe], row: Row, to: usize)
    requires apart { to + row.claims ≤ row.first }
    requires room { row.first + row.claims ≤ length values.old }
    ensures inside { (c : ℕ) → c < row.claims → slice_index_or values.new (to + c) 0 ≡ sub 1 (slice_index_or values.old (row.first + c) 0) }
    ensures outside { (q : ℕ) → (q < to) ⊎ (to + row.claims ≤ q) → slice_index_or values.new q 0 ≡ slice_index_or values.old q 0 }
{
    for c in 0..row.claims as usize {
        values[to + c] = Fe::ONE.sub(values[row.first + c]);
    }
}

// The values from `to` on become those of the row.
fn copy(values: &mut [Fe], row: Row, to: usize)
    requires apart { to + row.claims ≤ row.first }
    requires room { row.first + row.claims ≤ length values.old }
    ensures inside { (c : ℕ) → c < row.claims → slice_index_or values.new (to + c) 0 ≡ slice_index_or values.old (row.first + c) 0 }
    ensures outside { (q : ℕ) → (q < to) ⊎ (to + row.claims ≤ q) → slice_index_or values.new q 0 ≡ slice_index_or values.old q 0 }
{
    for c in 0..row.claims as usize {
        values[to + c] = values[row.first + c];
    }
}
