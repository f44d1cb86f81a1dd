// The nodes of a formula's circuit, from the literals to the outermost quantifier.
ghost use Rattle.std.specs.Prelude.{◌≡◌, ◌^◌, ◌+◌, ◌-◌, ◌*◌, ◌<◌, ◌≤◌, List, length, take, drop, map, fold, IfOk, OnOk, IsTrue};
ghost use Rattle.blic_model.specs.Shape.{all_differ};
ghost use Rattle.blic_model.specs.Building.{Added, add_node, add_literal as literal_added, add_clause as clause_added, add_matrix as matrix_added, add_level as level_added, add_levels as levels_added, joined_by as node_of, nodes_of};
ghost use Rattle.blic_circuit.specs.Steps.{most_nodes, or_literal};
ghost use Rattle.blic_circuit.specs.Tables.{HasLevels, HasStanding};

use crate::nodes::NodeList;
use crate::tables::{level_count, level_of, level_table, standing_table};
use blic_basic::NoMem;
use blic_model::{Bound, Formula, Lit, Node, Quant};
use std::alloc::Global;

/// The nodes of the formula's circuit, children before parents; equal nodes are one. Nodes are looked up by their hash:
/// on average the time grows with the number of literals, clauses and levels.
pub fn nodes_of_formula(alloc: Global, formula: &Formula) -> Result<Vec<Node>, NoMem>
    ensures nodes { IfOk result (λ nodes. nodes.items ≡ (nodes_of formula.now).nodes) }
    ensures distinct { IfOk result (λ nodes. IsTrue (all_differ nodes.items)) }
{
    formula.is_within_limits();
    let levels = level_table(alloc, formula)?;
    let marks = standing_table(alloc, formula)?;
    let mut list = NodeList::new(alloc)?;
    let matrix = add_matrix(&mut list, formula, &levels)?;
    add_levels(&mut list, formula, &marks, matrix)?;
    Ok(list.into_nodes())
}

/// The variable of each level, the outermost first.
pub fn levels_of_formula(alloc: Global, formula: &Formula) -> Result<Vec<u32>, NoMem>
    ensures { IfOk result (λ order. order.items ≡ map (λ b. b.var) formula.now.prefix) }
{
    let order = formula.prefix().iter().map(|b| b.var).collect(alloc)?;
    Ok(order)
}

// The literal's variable, or that variable's `Not`.
fn add_literal(
    list: &mut NodeList,
    formula: &Formula,
    levels: &[u32],
    literal: Lit,
) -> Result<u32, NoMem>
    requires table { HasLevels levels.now formula.now.prefix }
    requires room { length list.old + 2 < 2 ^ 32 }
    ensures nodes { IfOk result (λ number. record { nodes = list.new; number = number } ≡ literal_added formula.now.prefix list.old literal) }
    ensures grown { OnOk result (length list.new ≤ length list.old + 2) }
{
    let variable = list.add(Node::Var(level_of(formula, levels, literal.var)))?;
    if literal.negative {
        return list.add(Node::Not(variable));
    }
    Ok(variable)
}

// The clause's literals, joined from the first on.
fn add_clause(
    list: &mut NodeList,
    formula: &Formula,
    levels: &[u32],
    clause: &[Lit],
) -> Result<u32, NoMem>
    requires table { HasLevels levels.now formula.now.prefix }
    requires room { length list.old + 3 * length clause.now + 1 < 2 ^ 32 }
    ensures nodes { IfOk result (λ number. record { nodes = list.new; number = number } ≡ clause_added formula.now.prefix list.old clause.now) }
    ensures grown { OnOk result (length list.new ≤ length list.old + 3 * length clause.now + 1) }
{
    match clause.split_first() {
        None => list.add(Node::Const(false)),
        Some((first, others)) => {
            let number = add_literal(list, formula, levels, *first)?;
            add_others(list, formula, levels, number, others)
        }
    }
}

// More literals, joined to those of which the node stands for the or.
fn add_others(
    list: &mut NodeList,
    formula: &Formula,
    levels: &[u32],
    number: u32,
    literals: &[Lit],
) -> Result<u32, NoMem>
    requires table { HasLevels levels.now formula.now.prefix }
    requires room { length list.old + 3 * length literals.now < 2 ^ 32 }
    ensures nodes { IfOk result (λ joined. record { nodes = list.new; number = joined } ≡ fold (or_literal formula.now.prefix) (record { nodes = list.old; number = number }) literals.now) }
    ensures grown { OnOk result (length list.new ≤ length list.old + 3 * length literals.now) }
{
    let mut joined = number;
    for literal in literals {
        let operand = add_literal(list, formula, levels, *literal)?;
        joined = list.add(Node::Or(joined, operand))?;
    }
    Ok(joined)
}

// The clauses, joined by halves.
fn add_matrix(list: &mut NodeList, formula: &Formula, levels: &[u32]) -> Result<u32, NoMem>
    requires table { HasLevels levels.now formula.now.prefix }
    requires room { length list.old + most_nodes formula.now.clauses + 1 < 2 ^ 32 }
    ensures nodes { IfOk result (λ number. record { nodes = list.new; number = number } ≡ matrix_added formula.now.prefix (length formula.now.clauses) list.old formula.now.clauses) }
    ensures grown { OnOk result (length list.new ≤ length list.old + most_nodes formula.now.clauses + 1) }
{
    let count = formula.clause_count();
    if count == 0 {
        return list.add(Node::Const(true));
    }
    add_clauses(list, formula, levels, 0, count)
}

// The clauses from one number to before another, of which there is one at least.
fn add_clauses(
    list: &mut NodeList,
    formula: &Formula,
    levels: &[u32],
    from: u32,
    to: u32,
) -> Result<u32, NoMem>
    requires table { HasLevels levels.now formula.now.prefix }
    requires order { from < to }
    requires inside { to ≤ length formula.now.clauses }
    requires room { length list.old + most_nodes (take (to - from) (drop from formula.now.clauses)) < 2 ^ 32 }
    ensures nodes { IfOk result (λ number. record { nodes = list.new; number = number } ≡ matrix_added formula.now.prefix (to - from) list.old (take (to - from) (drop from formula.now.clauses))) }
    ensures grown { OnOk result (length list.new + 1 ≤ length list.old + most_nodes (take (to - from) (drop from formula.now.clauses))) }
{
    if to - from == 1 {
        return add_clause(list, formula, levels, formula.clause(from));
    }
    let middle = to - (to - from) / 2;
    let left = add_clauses(list, formula, levels, from, middle)?;
    let right = add_clauses(list, formula, levels, middle, to)?;
    list.add(Node::And(left, right))
}

// The levels taken away from the node, the innermost first.
fn add_levels(
    list: &mut NodeList,
    formula: &Formula,
    marks: &[bool],
    matrix: u32,
) -> Result<u32, NoMem>
    requires marks { HasStanding marks.now formula.now.clauses }
    requires table { length marks.now ≡ formula.now.vars + 1 }
    requires room { length list.old + 3 * length formula.now.prefix < 2 ^ 32 }
    ensures { IfOk result (λ number. record { nodes = list.new; number = number } ≡ levels_added 0 formula.now.prefix formula.now.clauses (record { nodes = list.old; number = matrix })) }
{
    formula.is_within_limits();
    let prefix = formula.prefix();
    let mut number = matrix;
    let mut level = level_count(formula);
    while 0 < level {
        level -= 1;
        number = add_level(list, formula, marks, level, prefix[level as usize], number)?;
    }
    Ok(number)
}

// The level taken away from the node, unless its variable stands in no clause.
fn add_level(
    list: &mut NodeList,
    formula: &Formula,
    marks: &[bool],
    level: u32,
    bound: Bound,
    number: u32,
) -> Result<u32, NoMem>
    requires marks { HasStanding marks.now formula.now.clauses }
    requires table { bound.var < length marks.now }
    requires room { length list.old + 3 < 2 ^ 32 }
    ensures nodes { IfOk result (λ joined. record { nodes = list.new; number = joined } ≡ level_added level bound formula.now.clauses (record { nodes = list.old; number = number })) }
    ensures grown { OnOk result (length list.new ≤ length list.old + 3) }
{
    if !marks[bound.var as usize] {
        return Ok(number);
    }
    let zero = list.add(Node::Fix {
        level,
        bit: false,
        child: number,
    })?;
    let one = list.add(Node::Fix {
        level,
        bit: true,
        child: number,
    })?;
    list.add(joined_by(bound.quant, zero, one))
}

// The node of both fixings.
fn joined_by(quant: Quant, zero: u32, one: u32) -> Node
    ensures { result ≡ node_of quant zero one }
{
    match quant {
        Quant::Exists => Node::Or(zero, one),
        Quant::Forall => Node::And(zero, one),
    }
}
