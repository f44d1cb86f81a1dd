// Sets of levels for the nodes of a circuit.
ghost use Rattle.std.specs.Prelude.{◌≡◌, ◌≤◌, ◌<◌, ℕ, Bool, true, length, IfOk, slice_index_or, slice_set};
ghost use Rattle.blic_model.specs.Circuit.{is_free, free_step};
ghost use Rattle.blic_model.specs.Shape.{children_below};
ghost use Rattle.blic_model.specs.CircuitTables.{IsTabled};
ghost use Rattle.blic_model.specs.LevelSets.{set_where, no_level};

use crate::level_set::LevelSet;
use crate::node::Node;
use blic_basic::NoMem;
use std::alloc::Global;
use std::marker::Model;

/// A set of levels for each node, seen as their list. Most sets have no level: a mark tells which
/// ones have some, and only those are read and written.
#[derive(Drop)]
pub(crate) struct LevelSets {
    marks: Vec<bool>,
    sets: Vec<LevelSet>,
}

impl Model for LevelSets {
    ghost use Rattle.std.specs.Prelude.{◌≡◌, List, length};
    ghost use Rattle.blic_model.specs.declared.level_set.LevelSet.{LevelSet};
    ghost use Rattle.blic_model.specs.LevelSets.{sets_at};

    ghost Value = { List LevelSet };

    ghost view = { λ t. sets_at t.marks.items t.sets.items };

    ghost invariant = { λ t. length t.marks.items ≡ length t.sets.items };
}

impl LevelSets {
    /// So many sets without a level.
    pub(crate) fn new(alloc: Global, count: usize) -> Result<LevelSets, NoMem>
        ensures { IfOk result (λ sets. length sets ≡ count) }
    {
        let Ok(marks) = vec![in alloc; false; count] else {
            return Err(NoMem);
        };
        let Ok(sets) = vec![in alloc; LevelSet::none(); count] else {
            return Err(NoMem);
        };
        Ok(LevelSets { marks, sets })
    }

    /// The set of node `k`.
    pub(crate) fn get(&self, k: usize) -> LevelSet
        requires { k < length self.now }
        ensures { result ≡ slice_index_or self.now k no_level }
    {
        if self.marks[k] {
            self.sets[k]
        } else {
            LevelSet::none()
        }
    }

    /// Makes each node's set that of its free levels, of 256 levels from the first one on.
    pub(crate) fn fill(&mut self, nodes: &[Node], first: u64)
        requires nodes { IsTabled nodes.now }
        requires long { length self.old ≡ length nodes.now }
        requires first { first ≤ 4294967296 }
        ensures long { length self.new ≡ length nodes.now }
        ensures each { (k : ℕ) → k < length nodes.now → slice_index_or self.new k no_level ≡ set_where (is_free nodes.now k) first }
    {
        for (k, node) in nodes.iter().enumerate() {
            let set = self.free_set(*node, first);
            self.put(k, set);
        }
    }

    // The free levels of a node, from the sets of its children.
    fn free_set(&self, node: Node, first: u64) -> LevelSet
        requires children { children_below (length self.now) node ≡ true }
        requires first { first ≤ 4294967296 }
        ensures { (k : ℕ) (free : ℕ → ℕ → Bool) → children_below k node ≡ true → ((j : ℕ) → j < k → slice_index_or self.now j no_level ≡ set_where (free j) first) → result ≡ set_where (free_step k node free) first }
    {
        match node {
            Node::Const(_) => LevelSet::none(),
            Node::Var(level) => LevelSet::of(first, level),
            Node::Not(child) => self.get(child as usize),
            Node::Fix { level, child, .. } => self.get(child as usize).without(first, level),
            Node::And(left, right) | Node::Or(left, right) => {
                self.get(left as usize).union(self.get(right as usize))
            }
        }
    }

    fn put(&mut self, k: usize, set: LevelSet)
        requires { k < length self.old }
        ensures { self.new ≡ slice_set self.old k set }
    {
        let some = !set.is_empty();
        self.marks[k] = some;
        if some {
            self.sets[k] = set;
        }
    }
}
