// A desk's answers beside those by the definitions, through a whole conversation.
ghost use Rattle.std.specs.Prelude.{◌≡◌, ◌<◌, length, true};
ghost use Rattle.blic_model.specs.Circuit.{free, node_at};
ghost use Rattle.blic_model.specs.Counts.{claims, is_binary as is_binary_node};
ghost use Rattle.blic_claims.specs.Places.{layout_of};
ghost use Rattle.blic_claims.specs.Points.{ArePointsOf, HasOnePoint};

use crate::{Desk, Engine};
use blic_basic::Steps;
use blic_claims::{Answers, Layout, Points};
use blic_field::Fe;
use blic_model::{Circuit, Node};
use blic_plain::Plain;
use blic_poly2::Poly2;
use blic_solve::SolveError;
use std::alloc::Global;
use std::marker::Brand;
use std::sync::ledger::{Blank, Ledger};
use std::test::Fail;

fn fix(level: u32, bit: bool, child: u32) -> Node {
    Node::Fix { level, bit, child }
}

// The circuit of nodes that are one.
fn circuit_of(alloc: Global, nodes: &[Node], order: &[u32]) -> Result<Circuit, Fail> {
    let nodes = nodes.to_vec(alloc)?;
    let order = order.to_vec(alloc)?;
    if !Circuit::shaped(alloc, &nodes, &order).map_err(|_| "memory")? {
        return Err(Fail::from("no circuit"));
    }
    Ok(Circuit::new(alloc, nodes, order, 1)?)
}

// For all 1 there is 2 with (1 or 2) and (not 1 or not 2).
fn exclusive_or(alloc: Global) -> Result<Circuit, Fail> {
    let nodes = [
        Node::Var(0),
        Node::Var(1),
        Node::Or(0, 1),
        Node::Not(0),
        Node::Not(1),
        Node::Or(3, 4),
        Node::And(2, 5),
        fix(1, false, 6),
        fix(1, true, 6),
        Node::Or(7, 8),
        fix(0, false, 9),
        fix(0, true, 9),
        Node::And(10, 11),
    ];
    circuit_of(alloc, &nodes, &[1, 2])
}

// For all 2 there is 1 such that for all 3 (1 or 2) and (2 or 3). It has nodes that depend on level 1
// and not on level 0.
fn two_clauses(alloc: Global) -> Result<Circuit, Fail> {
    let nodes = [
        Node::Var(0),
        Node::Var(1),
        Node::Var(2),
        Node::Or(0, 1),
        Node::Or(1, 2),
        Node::And(3, 4),
        fix(2, false, 5),
        fix(2, true, 5),
        Node::And(6, 7),
        fix(0, false, 8),
        fix(0, true, 8),
        Node::Or(9, 10),
        fix(1, false, 11),
        fix(1, true, 11),
        Node::And(12, 13),
    ];
    circuit_of(alloc, &nodes, &[1, 2, 3])
}

// The polynomials of the claims on a binary node in its free level `j`.
fn polys<A: Answers, L: Ledger>(
    answers: &mut A,
    points: &Points,
    node: u32,
    j: u32,
    out: &mut [Poly2],
    blank: Blank,
)
    requires points { ArePointsOf points.now (A.circuit answers.old) }
    requires node { node < length (A.circuit answers.old).nodes }
    requires binary { is_binary_node (node_at (A.circuit answers.old).nodes node) ≡ true }
    requires level { j < length (free (A.circuit answers.old).nodes (length (A.circuit answers.old).order) node) }
    requires room { length out.old ≡ claims (A.circuit answers.old).nodes node }
    requires name { blank.name ≡ L.name }
    requires parts { blank.parts ≡ L.parts }
    requires some { 0 < L.parts }
    ensures { A.circuit answers.new ≡ A.circuit answers.old }
{
    let mut steps = Steps::<L>::new(blank);
    answers.polys(points, node, j, false, out, &mut steps);
}

// The values of a binary node's operands, if it has one claim.
fn values<A: Answers, L: Ledger>(
    answers: &mut A,
    points: &Points,
    node: u32,
    blank: Blank,
) -> (Fe, Fe)
    requires points { ArePointsOf points.now (A.circuit answers.old) }
    requires node { node < length (A.circuit answers.old).nodes }
    requires binary { is_binary_node (node_at (A.circuit answers.old).nodes node) ≡ true }
    requires one { HasOnePoint (A.circuit answers.old) points.now node }
    requires name { blank.name ≡ L.name }
    requires parts { blank.parts ≡ L.parts }
    requires some { 0 < L.parts }
    ensures { A.circuit answers.new ≡ A.circuit answers.old }
{
    let mut steps = Steps::<L>::new(blank);
    answers.values(points, node, false, &mut steps)
}

// Whether the polynomials of the claims on a binary node are those by the definitions.
fn same_polys(
    alloc: Global,
    circuit: &Circuit,
    layout: &Layout,
    points: &Points,
    node: u32,
    j: u32,
    desk: &mut Desk<'_>,
) -> Result<bool, Fail>
    requires layout { layout.now ≡ layout_of circuit.now }
    requires points { ArePointsOf points.now circuit.now }
    requires node { node < length circuit.now.nodes }
    requires binary { is_binary_node (node_at circuit.now.nodes node) ≡ true }
    requires level { j < length (free circuit.now.nodes (length circuit.now.order) node) }
    requires desk { desk.old ≡ circuit.now }
    ensures { desk.new ≡ circuit.now }
{
    let none = Poly2 {
        c0: Fe::ZERO,
        c1: Fe::ZERO,
        c2: Fe::ZERO,
    };
    let claims = layout.claims(node) as usize;
    let mut expected = vec![in alloc; none; claims]?;
    let mut found = vec![in alloc; none; claims]?;
    let mut plain = Plain::new(circuit);
    polys::<_, Brand>(&mut plain, points, node, j, &mut expected, Blank::new(1));
    polys::<_, Brand>(desk, points, node, j, &mut found, Blank::new(1));
    Ok(found.as_slice() == expected.as_slice())
}

// Whether the values of a binary node's operands are those by the definitions.
fn same_values(circuit: &Circuit, points: &Points, node: u32, desk: &mut Desk<'_>) -> bool
    requires points { ArePointsOf points.now circuit.now }
    requires node { node < length circuit.now.nodes }
    requires binary { is_binary_node (node_at circuit.now.nodes node) ≡ true }
    requires one { claims circuit.now.nodes node ≡ 1 }
    requires desk { desk.old ≡ circuit.now }
    ensures { desk.new ≡ circuit.now }
{
    let mut plain = Plain::new(circuit);
    let expected = values::<_, Brand>(&mut plain, points, node, Blank::new(1));
    let found = values::<_, Brand>(desk, points, node, Blank::new(1));
    found == expected
}

// Draws the free levels of a binary node, the last first, and answers before each draw and at the end.
fn same_answers(
    alloc: Global,
    circuit: &Circuit,
    layout: &Layout,
    points: &mut Points,
    node: u32,
    desk: &mut Desk<'_>,
) -> Result<bool, Fail>
    requires layout { layout.now ≡ layout_of circuit.now }
    requires points { ArePointsOf points.old circuit.now }
    requires node { node < length circuit.now.nodes }
    requires binary { is_binary_node (node_at circuit.now.nodes node) ≡ true }
    requires desk { desk.old ≡ circuit.now }
    ensures points { points.new.rows ≡ points.old.rows }
    ensures desk { desk.new ≡ circuit.now }
{
    let mut same = true;
    let mut j = circuit.free_count(node);
    while j > 0 {
        j -= 1;
        same = same_polys(alloc, circuit, layout, points, node, j, desk)? && same;
        let drawn = Fe::from_u64(1_000_003 * u64::from(node) + u64::from(j) + 2).ok_or(
            "no element",
        )?;
        points.draw(node, j, drawn);
    }
    if layout.claims(node) == 1 {
        same = same_values(circuit, points, node, desk) && same;
    }
    Ok(same)
}

// Whether the answers of a conversation are those by the definitions, from the root down.
fn same_conversation(
    alloc: Global,
    circuit: &Circuit,
    layout: &Layout,
    points: &mut Points,
    desk: &mut Desk<'_>,
) -> Result<bool, Fail>
    requires layout { layout.now ≡ layout_of circuit.now }
    requires points { ArePointsOf points.old circuit.now }
    requires desk { desk.old ≡ circuit.now }
    ensures { desk.new ≡ circuit.now }
{
    let mut same = true;
    let mut node = circuit.nodes();
    while node > 0 {
        node -= 1;
        if circuit.node(node).is_binary() {
            same = same_answers(alloc, circuit, layout, points, node, desk)? && same;
        }
        points.hand_down(circuit, layout, node);
    }
    Ok(same)
}

// What a worker does that is lent an engine.
fn answer_at(alloc: Global, engine: &Engine<'_>) -> Option<bool> {
    match Desk::new(alloc, engine, 0) {
        Ok(mut desk) => Some(desk.answer()),
        Err(_) => None,
    }
}

fn is_sent<T: Send>(_value: &T) {}

fn is_shared<T: Sync>(_value: &T) {}

// Whether a desk answers about the circuit by the definitions, in two conversations one after the other,
// and the root's value is 1 as expected.
fn answers(alloc: Global, circuit: &Circuit, expected: bool) -> Result<bool, Fail> {
    let Ok(engine) = Engine::new(alloc, circuit, 100, 100, 0) else {
        return Err("not solved")?;
    };
    if answer_at(alloc, &engine) != Some(expected) {
        return Ok(false);
    }
    let Ok(mut desk) = Desk::new(alloc, &engine, 0) else {
        return Err("no memory")?;
    };
    is_shared(&engine);
    is_sent(&desk);
    let layout = Layout::new(alloc, circuit).map_err(|_| "memory")?;
    let mut points = Points::new(alloc, circuit, &layout).map_err(|_| "memory")?;
    let first = same_conversation(alloc, circuit, &layout, &mut points, &mut desk)?;
    desk.between(0);
    let mut points = Points::new(alloc, circuit, &layout).map_err(|_| "memory")?;
    let second = same_conversation(alloc, circuit, &layout, &mut points, &mut desk)?;
    Ok(first && second)
}

#[test]
fn a_desk_answers_by_the_definitions(rt: HostRuntime) -> Result<(), Fail> {
    let alloc = rt.alloc();
    let circuit = exclusive_or(alloc)?;
    assert!(rt; answers(alloc, &circuit, true)?);
    let circuit = two_clauses(alloc)?;
    assert!(rt; answers(alloc, &circuit, false)?);
    Ok(())
}

// The first node that passes a limit, and whether it passes that of pairs.
fn refused(alloc: Global, circuit: &Circuit, nodes: u32, pairs: u32) -> Option<(u32, bool)> {
    match Engine::new(alloc, circuit, nodes, pairs, 0) {
        Ok(_) => None,
        Err(SolveError::NodeLimit { node }) => Some((node, false)),
        Err(SolveError::PairLimit { node }) => Some((node, true)),
        Err(SolveError::NoMem) => None,
    }
}

#[test]
fn an_engine_is_refused_past_either_limit(rt: HostRuntime) -> Result<(), Fail> {
    let circuit = exclusive_or(rt.alloc())?;
    assert_eq!(rt; refused(rt.alloc(), &circuit, 7, 4), None);
    assert_eq!(rt; refused(rt.alloc(), &circuit, 6, 4), Some((6, false)));
    assert_eq!(rt; refused(rt.alloc(), &circuit, 7, 3), Some((9, true)));
    Ok(())
}
