// Solved circuits.
ghost use Rattle.std.specs.Prelude.{◌≡◌, ◌↔◌, ◌+◌, ◌++◌, ◌∷◌, ◌<◌, ◌≤◌, ℕ, Bool, [], length, option_map, false, IfOk, IfErr, IsNone, OnOk};
ghost use Rattle.blic_model.specs.Circuit.{OrderedCircuit, node_at, root as root_node};
ghost use Rattle.blic_model.specs.Counts.{is_binary};
ghost use Rattle.blic_model.specs.Shape.{IsShaped};
ghost use Rattle.blic_model.specs.Value.{holds};
ghost use Rattle.blic_solve.specs.Plan.{Solved, IsPlan, IsWithin, IsCause, root_of, graph_of, pair_count};
ghost use Rattle.blic_store.specs.Diagram.{decision_at};
ghost use Rattle.blic_solve.specs.Progress.{IsSolvedUpTo};

use crate::step::{Step, StepError, Tools, count, solve_node};
use blic_basic::NoMem;
use blic_graph::{Graph, growth_law};
use blic_model::Circuit;
use blic_store::{Ref, Store};
use std::alloc::Global;
use std::marker::Model;
use thiserror::Error;

/// Why a circuit isn't solved.
#[derive(Clone, Copy, Debug, PartialEq, Eq, Error)]
pub enum SolveError {
    /// The first node at which a limit is passed passes that of pairs.
    #[error("node {node} passes the limit of pairs")]
    PairLimit { node: u32 },
    /// The first node at which a limit is passed passes that of decisions alone.
    #[error("node {node} passes the limit of decisions")]
    NodeLimit { node: u32 },
    /// Memory ran out.
    #[error("memory ran out")]
    NoMem,
}

/// A solved circuit: a store of decision diagrams (BDDs) with the function of each node, and the pairs
/// of the operands of each binary one (their product).
#[derive(Drop)]
pub struct Plan {
    store: Store,
    roots: Vec<Ref>,
    graphs: Vec<Option<Graph>>,
}

impl Model for Plan {
    ghost use Rattle.std.specs.Prelude.{◌≡◌, length};
    ghost use Rattle.blic_solve.specs.Plan.{Solved};

    ghost Value = { Solved };

    ghost view = { λ p. record { store = p.store; roots = p.roots.items; graphs = p.graphs.items } };

    ghost invariant = { λ p. length p.roots.items ≡ length p.graphs.items };
}

impl Plan {
    /// Solves the circuit: each node's function in one canonical store, which has at most `nodes`
    /// decisions (nodes of BDDs), and the pairs of each binary node's operands, at most `pairs`
    /// together. The time is that of listing the pairs and of the decisions of each node.
    ///
    /// Refuses exactly if the nodes up to some node have more subfunctions (cofactors) or more pairs of
    /// them than is allowed, and names the first such node; if it passes both limits, that of pairs is
    /// reported. Only out of memory comes without such a cause. A refusal leaves nothing.
    pub fn solve(
        alloc: Global,
        circuit: &Circuit,
        nodes: u32,
        pairs: u32,
    ) -> Result<Plan, SolveError>
        ensures plan { IfOk result (λ p. IsPlan circuit.now.nodes (length circuit.now.order) p) }
        ensures within { IfOk result (λ p. (k : ℕ) → k < length circuit.now.nodes → IsWithin circuit.now.nodes (length circuit.now.order) nodes pairs k) }
        ensures refused { IfErr result (IsCause circuit.now.nodes (length circuit.now.order) nodes pairs) }
    {
        circuit.is_within_limits();
        let Ok(mut plan) = Plan::empty(alloc, nodes) else {
            return Err(SolveError::NoMem);
        };
        let Ok(mut tools) = Tools::new(alloc) else {
            return Err(SolveError::NoMem);
        };
        let mut listed = 0;
        for k in 0..circuit.nodes() {
            match plan.add(&mut tools, circuit, k, pairs, listed) {
                Ok(all) => listed = all,
                Err(error) => return Err(error),
            }
        }
        Ok(plan)
    }

    /// The store with the functions of the nodes, their subfunctions and no others.
    pub fn store(&self) -> &Store
        ensures { result.now ≡ self.now.store }
    {
        &self.store
    }

    /// The function of a node of the circuit.
    pub fn root(&self, node: u32) -> Ref
        requires { node < length self.now.roots }
        ensures { result ≡ root_of self.now node }
    {
        self.roots[node as usize]
    }

    /// The pairs of a node's operands, in rising order of level: `None` exactly if the node isn't
    /// binary, and an empty graph if it is and has no pairs.
    pub fn graph(&self, node: u32) -> Option<&Graph>
        requires { node < length self.now.roots }
        ensures graph { option_map (λ g. g.now) result ≡ graph_of self.now node }
        ensures none { (c : OrderedCircuit) → IsPlan c.nodes (length c.order) self.now → IsNone result ↔ (is_binary (node_at c.nodes node) ≡ false) }
    {
        match &self.graphs[node as usize] {
            Some(graph) => Some(graph),
            None => None,
        }
    }

    /// The greatest number of pairs that a node's operands have, 0 if no node has any.
    pub fn largest_graph(&self) -> u32
        ensures most { (k : ℕ) → pair_count (graph_of self.now k) ≤ result }
        ensures reached { (k : ℕ) × (pair_count (graph_of self.now k) ≡ result) }
    {
        let mut largest = 0;
        for graph in &self.graphs {
            let pairs = count(graph);
            if pairs > largest {
                largest = pairs;
            }
        }
        largest
    }

    /// Whether the circuit's root is true, which no assignment changes, since no level is free in it.
    pub fn answer(&self) -> bool
        ensures { (c : OrderedCircuit) → IsShaped c.nodes (length c.order) → IsPlan c.nodes (length c.order) self.now → (a : ℕ → Bool) → result ≡ holds c.nodes (root_node c.nodes) a }
    {
        self.store.canonical_law();
        let n = self.roots.len();
        n > 0 && self.roots[n - 1] == Ref::TRUE
    }

    /// A law: if a shaped circuit is solved, each decision's level is one of the circuit's.
    pub fn levels_law(&self)
        ensures { (c : OrderedCircuit) → IsShaped c.nodes (length c.order) → IsPlan c.nodes (length c.order) self.now
            → (k : ℕ) → k < length self.now.store.nodes → (decision_at self.now.store.nodes k).level < length c.order }
    {
        self.store.canonical_law();
    }

    // The plan of no node.
    fn empty(alloc: Global, nodes: u32) -> Result<Plan, NoMem>
        ensures { IfOk result (λ p. p ≡ record { store = record { nodes = []; limit = nodes }; roots = []; graphs = [] }) }
    {
        Ok(Plan {
            store: Store::new(alloc, nodes)?,
            roots: Vec::new(alloc),
            graphs: Vec::new(alloc),
        })
    }

    // Solves node k, the next one, after `listed` pairs of `pairs` were listed, and tells how many are then.
    fn add(
        &mut self,
        tools: &mut Tools,
        circuit: &Circuit,
        k: u32,
        pairs: u32,
        listed: u32,
    ) -> Result<u32, SolveError>
        requires in_range { k < length circuit.now.nodes }
        requires solved { IsSolvedUpTo circuit.now.nodes (length circuit.now.order) self.old.store.limit pairs k self.old listed }
        ensures solved { IfOk result (λ all. IsSolvedUpTo circuit.now.nodes (length circuit.now.order) self.old.store.limit pairs (k + 1) self.new all) }
        ensures refused { IfErr result (IsCause circuit.now.nodes (length circuit.now.order) self.old.store.limit pairs) }
    {
        circuit.is_within_limits();
        match solve_node(
            tools,
            &mut self.store,
            &self.roots,
            circuit.node(k),
            pairs - listed,
        ) {
            Ok(step) => {
                growth_law();
                self.store.canonical_law();
                let more = step.pairs();
                let all = listed + more;
                match self.push(step) {
                    Ok(()) => Ok(all),
                    Err(NoMem) => Err(SolveError::NoMem),
                }
            }
            Err(StepError::PairsFull) => Err(SolveError::PairLimit { node: k }),
            Err(StepError::NodesFull) => Err(SolveError::NodeLimit { node: k }),
            Err(StepError::NoMem) => Err(SolveError::NoMem),
        }
    }

    // Adds what the next node adds.
    fn push(&mut self, mut step: Step) -> Result<(), NoMem>
        ensures { OnOk result (self.new ≡ record { store = self.old.store; roots = self.old.roots ++ step.root ∷ []; graphs = self.old.graphs ++ step.graph ∷ [] }) }
    {
        step.shrink();
        if self.roots.reserve(1).is_err() || self.graphs.reserve(1).is_err() {
            return Err(NoMem);
        }
        self.roots.push_reserved(step.root);
        self.graphs.push_reserved(step.graph);
        Ok(())
    }
}
