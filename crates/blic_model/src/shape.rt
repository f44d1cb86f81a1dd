// Whether nodes are a circuit.
ghost use Rattle.std.specs.Prelude.{◌≡◌, ◌≤◌, ◌<◌, ◌||◌, ℕ, length, IfOk, true, false, not, slice_index_or};
ghost use Rattle.std.specs.List.{list_all, list_any};
ghost use Rattle.blic_model.specs.Circuit.{node_at, root as root_of, below, is_free};
ghost use Rattle.blic_model.specs.Shape.{is_shaped as is_shaped_by, children_below, levels_below, all_differ as are_different, is_child};
ghost use Rattle.blic_model.specs.CircuitTables.{IsTabled, HasLevels};

use crate::level_set::LevelSet;
use crate::level_sets::LevelSets;
use crate::node::Node;
use blic_basic::NoMem;
use std::alloc::Global;
use std::collections::BTreeSet;

pub const MOST_NODES: usize = 4_194_304;

pub const MOST_LEVELS: usize = 4_294_967_295;

/// Whether the nodes are a circuit over this many levels. It takes memory for each node, a search in
/// a tree for each node, and a pass over the nodes for every 256 levels.
pub(crate) fn is_shaped(alloc: Global, nodes: &[Node], levels: usize) -> Result<bool, NoMem>
    ensures { IfOk result (λ answer. answer ≡ is_shaped_by nodes.now levels) }
{
    if nodes.is_empty() || nodes.len() > MOST_NODES || levels > MOST_LEVELS {
        return Ok(false);
    }
    if !children_come_first(nodes) || !levels_are_within(nodes, levels) {
        return Ok(false);
    }
    if !all_differ(alloc, nodes)? || !each_has_a_parent(alloc, nodes)? {
        return Ok(false);
    }
    root_is_closed(alloc, nodes, levels)
}

fn children_come_first(nodes: &[Node]) -> bool
    ensures { result ≡ list_all (λ k. children_below k (node_at nodes.now k)) (below (length nodes.now)) }
{
    for (k, node) in nodes.iter().enumerate() {
        if !comes_after_children(k, *node) {
            return false;
        }
    }
    true
}

fn comes_after_children(k: usize, node: Node) -> bool
    ensures { result ≡ children_below k node }
{
    match node {
        Node::Const(_) | Node::Var(_) => true,
        Node::Not(child) | Node::Fix { child, .. } => (child as usize) < k,
        Node::And(left, right) | Node::Or(left, right) => {
            (left as usize) < k && (right as usize) < k
        }
    }
}

fn levels_are_within(nodes: &[Node], levels: usize) -> bool
    ensures { result ≡ list_all (levels_below levels) nodes.now }
{
    nodes.iter().all(|node| level_is_within(*node, levels))
}

fn level_is_within(node: Node, levels: usize) -> bool
    ensures { result ≡ levels_below levels node }
{
    match node {
        Node::Var(level) | Node::Fix { level, .. } => (level as usize) < levels,
        _ => true,
    }
}

// Whether no two nodes are equal, the last first.
fn all_differ(alloc: Global, nodes: &[Node]) -> Result<bool, NoMem>
    ensures { IfOk result (λ answer. answer ≡ are_different nodes.now) }
{
    let mut seen = BTreeSet::new(alloc);
    let mut i = nodes.len();
    while 0 < i {
        i -= 1;
        if !seen.insert(nodes[i])? {
            return Ok(false);
        }
    }
    Ok(true)
}

// Whether each node but the last is a child of another.
fn each_has_a_parent(alloc: Global, nodes: &[Node]) -> Result<bool, NoMem>
    requires { IsTabled nodes.now }
    ensures { IfOk result (λ answer. answer ≡ list_all (λ k. list_any (is_child k) nodes.now) (below (root_of nodes.now))) }
{
    let Ok(mut marks) = vec![in alloc; false; nodes.len()] else {
        return Err(NoMem);
    };
    mark_all_children(nodes, &mut marks);
    Ok(are_marked(&marks, nodes.len() - 1))
}

fn mark_all_children(nodes: &[Node], marks: &mut [bool])
    requires nodes { IsTabled nodes.now }
    requires long { length marks.old ≡ length nodes.now }
    requires clean { (k : ℕ) → slice_index_or marks.old k false ≡ false }
    ensures { (k : ℕ) → slice_index_or marks.new k false ≡ list_any (is_child k) nodes.now }
{
    for node in nodes {
        mark_children(marks, *node);
    }
}

fn mark_children(marks: &mut [bool], node: Node)
    requires { children_below (length marks.old) node ≡ true }
    ensures { (k : ℕ) → slice_index_or marks.new k false ≡ (is_child k node || slice_index_or marks.old k false) }
{
    match node {
        Node::Const(_) | Node::Var(_) => {}
        Node::Not(child) | Node::Fix { child, .. } => {
            marks[child as usize] = true;
        }
        Node::And(left, right) | Node::Or(left, right) => {
            marks[left as usize] = true;
            marks[right as usize] = true;
        }
    }
}

// Whether each of the first marks is set.
fn are_marked(marks: &[bool], count: usize) -> bool
    requires { count ≤ length marks.now }
    ensures { result ≡ list_all (λ k. slice_index_or marks.now k false) (below count) }
{
    for k in 0..count {
        if !marks[k] {
            return false;
        }
    }
    true
}

// Whether the root depends on no level.
fn root_is_closed(alloc: Global, nodes: &[Node], levels: usize) -> Result<bool, NoMem>
    requires nodes { IsTabled nodes.now }
    requires levels { HasLevels nodes.now levels }
    ensures { IfOk result (λ answer. answer ≡ list_all (λ x. not (is_free nodes.now (root_of nodes.now) x)) (below levels)) }
{
    let mut sets = LevelSets::new(alloc, nodes.len())?;
    let mut first = 0;
    while first < levels as u64 {
        sets.fill(nodes, first);
        if 0 < sets.get(nodes.len() - 1).len() {
            return Ok(false);
        }
        first += LevelSet::ROOM;
    }
    Ok(true)
}
