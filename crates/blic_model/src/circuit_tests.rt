// Which nodes are circuits, and what a circuit shows.
ghost use Rattle.std.specs.Prelude.{◌≤◌};

use crate::{Circuit, CircuitError, Node};
use std::alloc::Global;
use std::test::Fail;

// The circuit, if the nodes are one.
fn circuit_of(
    alloc: Global,
    nodes: &[Node],
    order: &[u32],
) -> Result<Option<Circuit>, CircuitError> {
    let Ok(nodes) = nodes.to_vec(alloc) else {
        return Err(CircuitError::NoMem);
    };
    let Ok(order) = order.to_vec(alloc) else {
        return Err(CircuitError::NoMem);
    };
    let Ok(shaped) = Circuit::shaped(alloc, &nodes, &order) else {
        return Err(CircuitError::NoMem);
    };
    if !shaped {
        return Ok(None);
    }
    let circuit = Circuit::new(alloc, nodes, order, 1)?;
    Ok(Some(circuit))
}

fn is_circuit(alloc: Global, nodes: &[Node], order: &[u32]) -> Result<bool, Fail> {
    Ok(circuit_of(alloc, nodes, order)?.is_some())
}

// The exclusive or of two levels, taken away one after another.
const XOR: [Node; 13] = [
    Node::Var(0),
    Node::Var(1),
    Node::Or(0, 1),
    Node::Not(0),
    Node::Not(1),
    Node::Or(3, 4),
    Node::And(2, 5),
    Node::Fix {
        level: 1,
        bit: false,
        child: 6,
    },
    Node::Fix {
        level: 1,
        bit: true,
        child: 6,
    },
    Node::Or(7, 8),
    Node::Fix {
        level: 0,
        bit: false,
        child: 9,
    },
    Node::Fix {
        level: 0,
        bit: true,
        child: 9,
    },
    Node::And(10, 11),
];

const XOR_FREE: [&[u32]; 13] = [
    &[0],
    &[1],
    &[0, 1],
    &[0],
    &[1],
    &[0, 1],
    &[0, 1],
    &[0],
    &[0],
    &[0],
    &[],
    &[],
    &[],
];

// Whether node `i` is this one, with these free levels.
fn shows(circuit: &Circuit, i: u32, node: Node, free: &[u32]) -> bool {
    if i >= circuit.nodes() || circuit.node(i) != node {
        return false;
    }
    if circuit.free_count(i) as usize != free.len() {
        return false;
    }
    for (j, level) in free.iter().enumerate() {
        if circuit.free_at(i, j as u32) != *level {
            return false;
        }
    }
    true
}

#[test]
fn xor_of_two_is_a_circuit_with_its_free_levels(rt: HostRuntime) -> Result<(), Fail> {
    let circuit = circuit_of(rt.alloc(), &XOR, &[4, 7])?.ok_or("no circuit")?;
    circuit.is_within_limits();
    assert_eq!(rt; circuit.root(), 12);
    assert_eq!(rt; circuit.levels(), 2);
    assert_eq!(rt; circuit.variable(1), 7);
    assert_eq!(rt; circuit.version(), 1);
    for i in 0..13 {
        assert!(rt; shows(&circuit, i as u32, XOR[i], XOR_FREE[i]), "node {i}");
    }
    Ok(())
}

#[test]
fn nodes_of_other_shapes_are_no_circuits(rt: HostRuntime) -> Result<(), Fail> {
    let alloc = rt.alloc();
    let yes = Node::Const(true);
    let no = Node::Const(false);
    assert!(rt; is_circuit(alloc, &[yes, Node::Not(0)], &[])?);
    assert!(rt; !is_circuit(alloc, &[], &[])?, "no node");
    assert!(rt; !is_circuit(alloc, &[Node::Not(0)], &[])?, "its own child");
    assert!(rt;
        !is_circuit(alloc, &[yes, yes, Node::And(0, 1)], &[])?,
        "equal nodes"
    );
    assert!(rt; !is_circuit(alloc, &[yes, no], &[])?, "no parent");
    assert!(rt; !is_circuit(alloc, &[Node::Var(0)], &[1])?, "a free level");
    assert!(rt; !is_circuit(alloc, &XOR, &[4])?, "no second level");
    Ok(())
}

// Node 1 has a claim from each place in the nodes behind it.
fn with_claims(alloc: Global, claims: u32) -> Result<Option<Circuit>, CircuitError> {
    let Ok(mut nodes) = [Node::Const(true), Node::And(0, 0)].to_vec(alloc) else {
        return Err(CircuitError::NoMem);
    };
    for i in 1..claims {
        let Ok(()) = nodes.push(Node::And(1, i)) else {
            return Err(CircuitError::NoMem);
        };
    }
    circuit_of(alloc, &nodes, &[])
}

#[test]
fn one_claim_past_the_limit_is_refused_by_its_node(rt: HostRuntime) -> Result<(), Fail> {
    let alloc = rt.alloc();
    let made = with_claims(alloc, 65_536)?.ok_or("no circuit")?;
    assert_eq!(rt; made.root(), 65_536);
    let refused = with_claims(alloc, 65_537).err().ok_or("a circuit")?;
    assert_eq!(rt;
        refused,
        CircuitError::TooManyClaims {
            node: 1,
            claims: 65_537,
        }
    );
    Ok(())
}

// The levels joined by `Or`, the topmost first, and then taken away, the last first.
fn chain_of(alloc: Global, levels: u32) -> Result<Vec<Node>, Fail>
    requires some { 2 ≤ levels }
    requires few { levels ≤ 10000 }
{
    let mut nodes = Vec::new(alloc);
    for level in 0..levels {
        nodes.push(Node::Var(level))?;
    }
    nodes.push(Node::Or(0, 1))?;
    for level in 2..levels {
        nodes.push(Node::Or(levels + level - 2, level))?;
    }
    for i in 0..levels {
        let level = levels - 1 - i;
        let child = 2 * levels - 2 + 3 * i;
        for bit in [false, true] {
            nodes.push(Node::Fix { level, bit, child })?;
        }
        nodes.push(Node::Or(child + 1, child + 2))?;
    }
    Ok(nodes)
}

fn chain(alloc: Global, levels: u32) -> Result<Result<Option<Circuit>, CircuitError>, Fail>
    requires some { 2 ≤ levels }
    requires few { levels ≤ 10000 }
{
    let order = vec![in alloc; 7u32; levels as usize]?;
    Ok(circuit_of(alloc, &chain_of(alloc, levels)?, &order))
}

// A chain of n levels has 3/2 n (n - 1) + 2 n - 1 points.
#[test]
fn one_level_past_the_limit_on_points_is_refused_with_their_number(
    rt: HostRuntime,
) -> Result<(), Fail> {
    let alloc = rt.alloc();
    let made = chain(alloc, 3_344)??.ok_or("no circuit")?;
    assert_eq!(rt; made.root(), 16_718);
    let refused = chain(alloc, 3_345)?.err().ok_or("a circuit")?;
    assert_eq!(rt; refused, CircuitError::TooManyPoints { points: 16_785_209 });
    Ok(())
}
