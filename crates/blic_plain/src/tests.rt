// The answers about a circuit of two levels that differ, against worked rows.
ghost use Rattle.std.specs.Prelude.{◌≡◌, ◌<◌, ◌≤◌, length};
ghost use Rattle.blic_model.specs.Circuit.{free};
ghost use Rattle.blic_claims.specs.Places.{layout_of};
ghost use Rattle.blic_claims.specs.Points.{ArePointsOf, HasOnePoint};

use crate::Plain;
use blic_basic::Steps;
use blic_claims::{Answers, Layout, Points};
use blic_field::{Fe, MODULUS};
use blic_model::{Circuit, Node};
use blic_poly2::Poly2;
use std::alloc::Global;
use std::marker::Brand;
use std::sync::ledger::{Blank, Ledger};
use std::test::Fail;

fn fix(level: u32, bit: bool, child: u32) -> Node {
    Node::Fix { level, bit, child }
}

// The circuit of: for all 1 there is 2 with (1 or 2) and (not 1 or not 2).
fn exclusive_or(alloc: Global) -> Result<Circuit, Fail> {
    let nodes = [
        Node::Var(0),
        Node::Var(1),
        Node::Or(0, 1),
        Node::Not(0),
        Node::Not(1),
        Node::Or(3, 4),
        Node::And(2, 5),
        fix(1, false, 6),
        fix(1, true, 6),
        Node::Or(7, 8),
        fix(0, false, 9),
        fix(0, true, 9),
        Node::And(10, 11),
    ]
    .to_vec(alloc)?;
    let order = [1, 2].to_vec(alloc)?;
    if !Circuit::shaped(alloc, &nodes, &order).map_err(|_| "memory")? {
        return Err(Fail::from("no circuit"));
    }
    Ok(Circuit::new(alloc, nodes, order, 1)?)
}

// Hands the points of these nodes down, one after another.
fn hand_down(circuit: &Circuit, layout: &Layout, points: &mut Points, nodes: &[u32])
    requires layout { layout.now ≡ layout_of circuit.now }
    requires points { ArePointsOf points.old circuit.now }
    ensures { points.new.rows ≡ points.old.rows }
{
    for node in nodes {
        if *node < circuit.nodes() {
            points.hand_down(circuit, layout, *node);
        }
    }
}

// Draws r at a free level of a node.
#[tactic(auto, using(blic_claims::proofs::LayoutRows::length_rows))]
fn draw(circuit: &Circuit, layout: &Layout, points: &mut Points, node: u32, j: u32, r: Fe)
    requires layout { layout.now ≡ layout_of circuit.now }
    requires points { ArePointsOf points.old circuit.now }
    ensures { points.new.rows ≡ points.old.rows }
{
    if node < circuit.nodes() && j < layout.row(node).width {
        points.draw(node, j, r);
    }
}

// The polynomials of the claims on a node in its free level `j`.
#[tactic(auto, using(blic_claims::proofs::LayoutRows::length_rows))]
fn polys_counted<L: Ledger>(
    circuit: &Circuit,
    layout: &Layout,
    points: &Points,
    node: u32,
    j: u32,
    out: &mut Vec<Poly2>,
    blank: Blank,
)
    requires layout { layout.now ≡ layout_of circuit.now }
    requires points { ArePointsOf points.now circuit.now }
    requires name { blank.name ≡ L.name }
    requires parts { blank.parts ≡ L.parts }
    requires some { 0 < L.parts }
{
    if node < circuit.nodes()
        && circuit.node(node).is_binary()
        && j < circuit.free_count(node)
        && out.len() == layout.claims(node) as usize
    {
        let mut steps = Steps::<L>::new(blank);
        Plain::new(circuit).polys(points, node, j, false, out, &mut steps);
    }
}

// Whether the two claims on a node have this polynomial in its free level `j`.
fn have_poly(
    alloc: Global,
    circuit: &Circuit,
    layout: &Layout,
    points: &Points,
    place: (u32, u32),
    expected: Poly2,
) -> Result<bool, Fail>
    requires layout { layout.now ≡ layout_of circuit.now }
    requires points { ArePointsOf points.now circuit.now }
{
    let none = Poly2 {
        c0: Fe::ZERO,
        c1: Fe::ZERO,
        c2: Fe::ZERO,
    };
    let mut out = vec![in alloc; none; 2]?;
    polys_counted::<Brand>(
        circuit,
        layout,
        points,
        place.0,
        place.1,
        &mut out,
        Blank::new(1),
    );
    Ok(out.as_slice() == [expected, expected].as_slice())
}

// Draws r at the free level of a node, if it has one.
fn draw_all(circuit: &Circuit, points: &mut Points, node: u32, r: Fe)
    requires points { ArePointsOf points.old circuit.now }
    requires node { node < length circuit.now.nodes }
    requires few { length (free circuit.now.nodes (length circuit.now.order) node) ≤ 1 }
    ensures rows { points.new.rows ≡ points.old.rows }
    ensures one { HasOnePoint circuit.now points.new node }
{
    if circuit.free_count(node) == 1 {
        points.draw(node, 0, r);
    }
}

// The values of the operands of a node with at most one free level, if that is drawn.
fn values_counted<L: Ledger>(
    circuit: &Circuit,
    points: &mut Points,
    node: u32,
    r: Fe,
    blank: Blank,
) -> Option<(Fe, Fe)>
    requires points { ArePointsOf points.old circuit.now }
    requires name { blank.name ≡ L.name }
    requires parts { blank.parts ≡ L.parts }
    requires some { 0 < L.parts }
    ensures { points.new.rows ≡ points.old.rows }
{
    if node < circuit.nodes() && circuit.node(node).is_binary() && circuit.free_count(node) <= 1 {
        draw_all(circuit, points, node, r);
        let mut steps = Steps::<L>::new(blank);
        return Some(Plain::new(circuit).values(points, node, false, &mut steps));
    }
    None
}

fn values(circuit: &Circuit, points: &mut Points, node: u32, r: Fe) -> Option<(Fe, Fe)>
    requires { ArePointsOf points.old circuit.now }
    ensures { points.new.rows ≡ points.old.rows }
{
    values_counted::<Brand>(circuit, points, node, r, Blank::new(1))
}

fn element(n: u64) -> Result<Fe, Fail> {
    Ok(Fe::from_u64(n).ok_or("no element")?)
}

fn poly(c0: u64, c1: u64, c2: u64) -> Result<Poly2, Fail> {
    Ok(Poly2 {
        c0: element(c0)?,
        c1: element(c1)?,
        c2: element(c2)?,
    })
}

#[test]
fn the_answer_is_the_root_s_value(rt: HostRuntime) -> Result<(), Fail> {
    let circuit = exclusive_or(rt.alloc())?;
    let mut plain = Plain::new(&circuit);
    assert!(rt; plain.answer());
    plain.between(0);
    assert!(rt; plain.answer());
    Ok(())
}

// The levels of nodes 12, 9 and 6 are drawn: 3 at level 0, and 5 at level 1.
#[test]
fn the_replies_of_a_worked_conversation(rt: HostRuntime) -> Result<(), Fail> {
    let circuit = exclusive_or(rt.alloc())?;
    let layout = Layout::new(rt.alloc(), &circuit).map_err(|_| "memory")?;
    let mut points = Points::new(rt.alloc(), &circuit, &layout).map_err(|_| "memory")?;
    let three = element(3)?;
    let found = values(&circuit, &mut points, 12, three);
    assert_eq!(rt; found, Some((Fe::ONE, Fe::ONE)));
    hand_down(&circuit, &layout, &mut points, &[12, 11, 10]);
    let expected = poly(1, MODULUS - 1, 1)?;
    assert!(rt; have_poly(rt.alloc(), &circuit, &layout, &points, (9, 0), expected)?);
    let found = values(&circuit, &mut points, 9, three);
    assert_eq!(rt; found, Some((three, element(MODULUS - 2)?)));
    hand_down(&circuit, &layout, &mut points, &[9, 8, 7]);
    let expected = poly(3, MODULUS - 5, 0)?;
    assert!(rt; have_poly(rt.alloc(), &circuit, &layout, &points, (6, 1), expected)?);
    draw(&circuit, &layout, &mut points, 6, 1, element(5)?);
    let expected = poly(5, MODULUS - 29, 20)?;
    assert!(rt; have_poly(rt.alloc(), &circuit, &layout, &points, (6, 0), expected)?);
    Ok(())
}
