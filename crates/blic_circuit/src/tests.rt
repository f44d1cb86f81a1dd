// The nodes of small formulas, against the rows of an independent program.
use crate::{levels_of_formula, nodes_of_formula};
use blic_model::{Bound, Formula, Lit, Node, Quant};
use std::alloc::{AllocError, Global};
use std::test::Fail;

fn clauses_of(alloc: Global, clauses: &[&[i8]]) -> Result<Vec<Vec<Lit>>, AllocError> {
    let mut all = Vec::new(alloc);
    for literals in clauses {
        let mut clause = Vec::new(alloc);
        for literal in *literals {
            clause.push(Lit {
                var: u32::from(literal.unsigned_abs()),
                negative: *literal < 0,
            })?;
        }
        all.push(clause)?;
    }
    Ok(all)
}

fn prefix_of(alloc: Global, entries: &[(Quant, u32)]) -> Result<Vec<Bound>, AllocError> {
    let mut prefix = Vec::new(alloc);
    for (quant, var) in entries {
        prefix.push(Bound {
            quant: *quant,
            var: *var,
        })?;
    }
    Ok(prefix)
}

// The formula of the entries and clauses, over variables up to 5.
fn formula_of(alloc: Global, entries: &[(Quant, u32)], clauses: &[&[i8]]) -> Result<Formula, Fail> {
    let prefix = prefix_of(alloc, entries)?;
    let clauses = clauses_of(alloc, clauses)?;
    if !Formula::fits(alloc, 5, &prefix, &clauses).map_err(|_| "memory")? {
        return Err(Fail::from("no formula"));
    }
    Ok(Formula::new(5, prefix, clauses))
}

fn nodes_of(alloc: Global, entries: &[(Quant, u32)], clauses: &[&[i8]]) -> Result<Vec<Node>, Fail> {
    let formula = formula_of(alloc, entries, clauses)?;
    Ok(nodes_of_formula(alloc, &formula).map_err(|_| "memory")?)
}

fn fix(level: u32, bit: bool, child: u32) -> Node {
    Node::Fix { level, bit, child }
}

#[test]
fn the_circuit_of_two_variables_that_differ(rt: HostRuntime) -> Result<(), Fail> {
    let nodes = nodes_of(
        rt.alloc(),
        &[(Quant::Forall, 1), (Quant::Exists, 2)],
        &[&[1, 2], &[-1, -2]],
    )?;
    let want = [
        Node::Var(0),
        Node::Var(1),
        Node::Or(0, 1),
        Node::Not(0),
        Node::Not(1),
        Node::Or(3, 4),
        Node::And(2, 5),
        fix(1, false, 6),
        fix(1, true, 6),
        Node::Or(7, 8),
        fix(0, false, 9),
        fix(0, true, 9),
        Node::And(10, 11),
    ];
    assert_eq!(rt; nodes.as_slice(), want.as_slice());
    Ok(())
}

#[test]
fn a_literal_is_joined_to_itself_and_to_its_negation(rt: HostRuntime) -> Result<(), Fail> {
    let nodes = nodes_of(rt.alloc(), &[(Quant::Exists, 1)], &[&[1, -1], &[1, 1]])?;
    let want = [
        Node::Var(0),
        Node::Not(0),
        Node::Or(0, 1),
        Node::Or(0, 0),
        Node::And(2, 3),
        fix(0, false, 4),
        fix(0, true, 4),
        Node::Or(5, 6),
    ];
    assert_eq!(rt; nodes.as_slice(), want.as_slice());
    Ok(())
}

#[test]
fn a_variable_that_stands_in_no_clause_has_no_node(rt: HostRuntime) -> Result<(), Fail> {
    let alloc = rt.alloc();
    let entries = [(Quant::Forall, 1)];
    let no_clause = nodes_of(alloc, &entries, &[])?;
    assert_eq!(rt; no_clause.as_slice(), [Node::Const(true)].as_slice());
    let empty_clause = nodes_of(alloc, &entries, &[&[]])?;
    assert_eq!(rt; empty_clause.as_slice(), [Node::Const(false)].as_slice());
    Ok(())
}

#[test]
fn levels_are_places_in_the_prefix_and_the_left_half_is_the_greater(
    rt: HostRuntime,
) -> Result<(), Fail> {
    let alloc = rt.alloc();
    let entries = [(Quant::Exists, 5), (Quant::Forall, 3), (Quant::Exists, 2)];
    let clauses: [&[i8]; 3] = [&[2, -5], &[5], &[-2, -2]];
    let nodes = nodes_of(alloc, &entries, &clauses)?;
    let want = [
        Node::Var(2),
        Node::Var(0),
        Node::Not(1),
        Node::Or(0, 2),
        Node::And(3, 1),
        Node::Not(0),
        Node::Or(5, 5),
        Node::And(4, 6),
        fix(2, false, 7),
        fix(2, true, 7),
        Node::Or(8, 9),
        fix(0, false, 10),
        fix(0, true, 10),
        Node::Or(11, 12),
    ];
    assert_eq!(rt; nodes.as_slice(), want.as_slice());
    let formula = formula_of(alloc, &entries, &clauses)?;
    let order = levels_of_formula(alloc, &formula).map_err(|_| "memory")?;
    assert_eq!(rt; order.as_slice(), [5, 3, 2].as_slice());
    Ok(())
}
