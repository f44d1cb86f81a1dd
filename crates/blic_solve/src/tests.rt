// Circuits of a few nodes, whose subfunctions and pairs were counted by hand.
use super::*;
use blic_model::{Circuit, Node};
use std::alloc::Global;
use std::test::Fail;
use std::vec::Vec;

// The circuit of nodes that are one, over levels 0 and 1.
fn circuit_of(alloc: Global, nodes: &[Node]) -> Result<Circuit, Fail> {
    let nodes = nodes.to_vec(alloc)?;
    let order = vec![in alloc; 1u32, 2]?;
    if !Circuit::shaped(alloc, &nodes, &order)? {
        return Err("no circuit")?;
    }
    Ok(Circuit::new(alloc, nodes, order, 1)?)
}

// The exclusive or of the two levels, each taken away by fixing it to both bits, joined by `inner` and `outer`.
fn quantified(alloc: Global, inner: Node, outer: Node) -> Result<Circuit, Fail> {
    circuit_of(
        alloc,
        &[
            Node::Var(0),
            Node::Var(1),
            Node::Or(0, 1),
            Node::Not(0),
            Node::Not(1),
            Node::Or(3, 4),
            Node::And(2, 5),
            Node::Fix {
                level: 1,
                bit: false,
                child: 6,
            },
            Node::Fix {
                level: 1,
                bit: true,
                child: 6,
            },
            inner,
            Node::Fix {
                level: 0,
                bit: false,
                child: 9,
            },
            Node::Fix {
                level: 0,
                bit: true,
                child: 9,
            },
            outer,
        ],
    )
}

// The node at which the limit of decisions is passed, and that of pairs.
fn told(error: Option<SolveError>) -> Result<(Option<u32>, Option<u32>), Fail> {
    match error {
        None => Ok((None, None)),
        Some(SolveError::NodeLimit { node }) => Ok((Some(node), None)),
        Some(SolveError::PairLimit { node }) => Ok((None, Some(node))),
        Some(SolveError::NoMem) => Err("no memory")?,
    }
}

#[test]
fn the_first_node_that_passes_a_limit_is_told(rt: HostRuntime) -> Result<(), Fail> {
    let circuit = quantified(rt.alloc(), Node::Or(7, 8), Node::And(10, 11))?;
    for (nodes, pairs, node_limit, pair_limit) in [
        (7, 4, None, None),
        (6, 4, Some(6), None),
        (7, 3, None, Some(9)),
        (6, 2, None, Some(6)),
        (0, 0, Some(0), None),
        (3, 0, None, Some(2)),
    ] {
        let plan = match Plan::solve(rt.alloc(), &circuit, nodes, pairs) {
            Ok(_) => None,
            Err(error) => Some(error),
        };
        assert_eq!(rt; told(plan)?, (node_limit, pair_limit), "{nodes} {pairs}");
        let alone = match answer(rt.alloc(), &circuit, nodes, pairs) {
            Ok(_) => None,
            Err(error) => Some(error),
        };
        assert_eq!(rt; told(alone)?, (node_limit, pair_limit), "{nodes} {pairs}");
    }
    Ok(())
}

#[test]
fn the_root_is_answered(rt: HostRuntime) -> Result<(), Fail> {
    for (inner, outer, truth) in [
        (Node::Or(7, 8), Node::And(10, 11), true),
        (Node::Or(7, 8), Node::Or(10, 11), true),
        (Node::And(7, 8), Node::And(10, 11), false),
        (Node::And(7, 8), Node::Or(10, 11), false),
    ] {
        let circuit = quantified(rt.alloc(), inner, outer)?;
        let plan = Plan::solve(rt.alloc(), &circuit, 7, 4)?;
        assert_eq!(rt; plan.answer(), truth, "{inner:?} {outer:?}");
        assert_eq!(rt;
            answer(rt.alloc(), &circuit, 7, 4)?,
            truth,
            "{inner:?} {outer:?}"
        );
    }
    Ok(())
}

#[test]
fn binary_nodes_alone_have_a_graph(rt: HostRuntime) -> Result<(), Fail> {
    let circuit = quantified(rt.alloc(), Node::Or(7, 8), Node::And(10, 11))?;
    let plan = Plan::solve(rt.alloc(), &circuit, 7, 4)?;
    assert_eq!(rt; plan.store().len(), 7);
    assert_eq!(rt; plan.largest_graph(), 1);
    for k in 0..circuit.nodes() {
        let pairs = match plan.graph(k) {
            Some(graph) => Some(graph.len()),
            None => None,
        };
        let expected = if k == 2 || k == 5 || k == 6 || k == 9 {
            Some(1)
        } else if k == 12 {
            Some(0)
        } else {
            None
        };
        assert_eq!(rt; pairs, expected, "{k}");
        assert!(rt; plan.store().holds(plan.root(k)), "{k}");
    }
    Ok(())
}
