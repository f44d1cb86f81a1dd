// The layouts and the points of two circuits, against worked rows.
ghost use Rattle.std.specs.Prelude.{◌≡◌};
ghost use Rattle.blic_claims.specs.Places.{layout_of};
ghost use Rattle.blic_claims.specs.Points.{ArePointsOf};

use crate::{Layout, Points};
use blic_field::Fe;
use blic_model::{Circuit, Node};
use std::alloc::Global;
use std::test::Fail;

fn fix(level: u32, bit: bool, child: u32) -> Node {
    Node::Fix { level, bit, child }
}

fn circuit_of(alloc: Global, nodes: &[Node], order: &[u32]) -> Result<Circuit, Fail> {
    let nodes = nodes.to_vec(alloc)?;
    let order = order.to_vec(alloc)?;
    if !Circuit::shaped(alloc, &nodes, &order).map_err(|_| "memory")? {
        return Err(Fail::from("no circuit"));
    }
    Ok(Circuit::new(alloc, nodes, order, 1)?)
}

// Two levels that differ, taken away one after another.
fn exclusive_or(alloc: Global) -> Result<Circuit, Fail> {
    let nodes = [
        Node::Var(0),
        Node::Var(1),
        Node::Or(0, 1),
        Node::Not(0),
        Node::Not(1),
        Node::Or(3, 4),
        Node::And(2, 5),
        fix(1, false, 6),
        fix(1, true, 6),
        Node::Or(7, 8),
        fix(0, false, 9),
        fix(0, true, 9),
        Node::And(10, 11),
    ];
    circuit_of(alloc, &nodes, &[1, 2])
}

// The clauses (x or not x) and (x or x) under an existential quantifier.
fn repeated(alloc: Global) -> Result<Circuit, Fail> {
    let nodes = [
        Node::Var(0),
        Node::Not(0),
        Node::Or(0, 1),
        Node::Or(0, 0),
        Node::And(2, 3),
        fix(0, false, 4),
        fix(0, true, 4),
        Node::Or(5, 6),
    ];
    circuit_of(alloc, &nodes, &[1])
}

// Whether these are the numbers of claims on the nodes.
#[tactic(auto, using(crate::proofs::LayoutRows::length_rows))]
fn has_claims(circuit: &Circuit, layout: &Layout, claims: &[u32]) -> bool
    requires { layout.now ≡ layout_of circuit.now }
{
    for k in 0..circuit.nodes() {
        if claims.get(k as usize) != Some(&layout.claims(k)) {
            return false;
        }
    }
    claims.len() == circuit.nodes() as usize
}

#[test]
fn the_layout_of_an_exclusive_or(rt: HostRuntime) -> Result<(), Fail> {
    let circuit = exclusive_or(rt.alloc())?;
    let layout = Layout::new(rt.alloc(), &circuit).map_err(|_| "memory")?;
    assert!(rt; has_claims(&circuit, &layout, &[2, 2, 1, 1, 1, 1, 2, 1, 1, 2, 1, 1, 1]));
    assert_eq!(rt;
        (layout.draws(), layout.bad(), layout.replies()),
        (7, 20, 12)
    );
    Ok(())
}

#[test]
fn a_child_in_four_places_has_four_claims(rt: HostRuntime) -> Result<(), Fail> {
    let circuit = repeated(rt.alloc())?;
    let layout = Layout::new(rt.alloc(), &circuit).map_err(|_| "memory")?;
    assert!(rt; has_claims(&circuit, &layout, &[4, 1, 1, 1, 2, 1, 1, 1]));
    assert_eq!(rt; (layout.draws(), layout.bad(), layout.replies()), (3, 8, 7));
    Ok(())
}

// Hands the points of these nodes down, one after another.
fn hand_down(circuit: &Circuit, layout: &Layout, points: &mut Points, nodes: &[u32])
    requires layout { layout.now ≡ layout_of circuit.now }
    requires points { ArePointsOf points.old circuit.now }
    ensures { points.new.rows ≡ points.old.rows }
{
    for node in nodes {
        if *node < circuit.nodes() {
            points.hand_down(circuit, layout, *node);
        }
    }
}

// Draws two at the first free level of a node.
#[tactic(auto, using(crate::proofs::LayoutRows::length_rows))]
fn draw_two(circuit: &Circuit, layout: &Layout, points: &mut Points, node: u32)
    requires layout { layout.now ≡ layout_of circuit.now }
    requires points { ArePointsOf points.old circuit.now }
    ensures { points.new.rows ≡ points.old.rows }
{
    if node < circuit.nodes() && 0 < layout.row(node).width {
        points.draw(node, 0, Fe::ONE.add(Fe::ONE));
    }
}

// Whether claims on nodes have these elements at free levels of the nodes.
#[tactic(auto, using(crate::proofs::LayoutRows::length_rows))]
fn has_elements(
    circuit: &Circuit,
    layout: &Layout,
    points: &Points,
    elements: &[(u32, u32, u32, u64)],
) -> bool
    requires layout { layout.now ≡ layout_of circuit.now }
    requires points { ArePointsOf points.now circuit.now }
{
    for (node, claim, j, element) in elements {
        if *node >= circuit.nodes() {
            return false;
        }
        let row = layout.row(*node);
        if *claim >= row.claims || *j >= row.width {
            return false;
        }
        let lent = points.claim(*node, *claim)[*j as usize].value();
        if points.coordinate(*node, *claim, *j).value() != *element || lent != *element {
            return false;
        }
    }
    true
}

#[test]
fn points_are_handed_down_by_falling_number(rt: HostRuntime) -> Result<(), Fail> {
    let circuit = exclusive_or(rt.alloc())?;
    let layout = Layout::new(rt.alloc(), &circuit).map_err(|_| "memory")?;
    let mut points = Points::new(rt.alloc(), &circuit, &layout).map_err(|_| "memory")?;
    hand_down(&circuit, &layout, &mut points, &[12, 11, 10]);
    let at_nine = [(9, 0, 0, 1), (9, 1, 0, 0)];
    assert!(rt; has_elements(&circuit, &layout, &points, &at_nine));
    draw_two(&circuit, &layout, &mut points, 9);
    hand_down(&circuit, &layout, &mut points, &[9, 8, 7, 6, 5, 4, 3, 2]);
    let further = [
        (9, 1, 0, 2),
        (6, 0, 0, 2),
        (6, 0, 1, 1),
        (6, 1, 0, 2),
        (6, 1, 1, 0),
        (1, 1, 0, 1),
        (0, 1, 0, 2),
    ];
    assert!(rt; has_elements(&circuit, &layout, &points, &further));
    Ok(())
}
