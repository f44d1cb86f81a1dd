// The free levels of each node of a circuit.
ghost use Rattle.std.specs.Prelude.{◌≡◌, ◌++◌, ◌∷◌, ℕ, [], length, true, IfOk, IfSome, OnOk, slice_index_or};
ghost use Rattle.blic_model.specs.Shape.{children_below};
ghost use Rattle.blic_model.specs.CircuitTables.{IsTabled, HasLevels};
ghost use Rattle.blic_model.specs.LevelLists.{StandsOnce, free_entry, free_lists};

use crate::level_lists::LevelLists;
use crate::node::Node;
use blic_basic::NoMem;
use std::alloc::Global;

/// The free levels of each node, the topmost first.
pub(crate) fn free_levels(alloc: Global, nodes: &[Node]) -> Result<LevelLists, NoMem>
    requires nodes { IsTabled nodes.now }
    requires levels { (levels : ℕ) × HasLevels nodes.now levels }
    ensures { IfOk result (λ lists. (levels : ℕ) → HasLevels nodes.now levels → lists ≡ free_lists nodes.now levels (length nodes.now)) }
{
    match free_levels_within(alloc, nodes, usize::MAX)? {
        Some(lists) => Ok(lists),
        None => Err(NoMem),
    }
}

/// The free levels of each node, the topmost first; none if the lists take room for more than `most` levels.
pub(crate) fn free_levels_within(
    alloc: Global,
    nodes: &[Node],
    most: usize,
) -> Result<Option<LevelLists>, NoMem>
    requires nodes { IsTabled nodes.now }
    requires levels { (levels : ℕ) × HasLevels nodes.now levels }
    ensures { IfOk result (λ found. IfSome found (λ lists. (levels : ℕ) → HasLevels nodes.now levels → lists ≡ free_lists nodes.now levels (length nodes.now))) }
{
    let mut lists = LevelLists::new(alloc);
    for node in nodes {
        push_free(&mut lists, *node)?;
        if most < lists.room() {
            return Ok(None);
        }
    }
    Ok(Some(lists))
}

// Adds a node's free levels, from those of its children.
fn push_free(lists: &mut LevelLists, node: Node) -> Result<(), NoMem>
    requires children { children_below (length lists.old) node ≡ true }
    requires once { (j level : ℕ) → StandsOnce level (slice_index_or lists.old j []) }
    ensures { OnOk result (lists.new ≡ lists.old ++ free_entry node lists.old ∷ []) }
{
    match node {
        Node::Const(_) => lists.push_none(),
        Node::Var(level) => lists.push_level(level),
        Node::Not(child) => lists.push_same(child as usize),
        Node::Fix { level, child, .. } => lists.push_without(child as usize, level),
        Node::And(left, right) | Node::Or(left, right) => {
            lists.push_merged(left as usize, right as usize)
        }
    }
}
