// What one node adds to a plan.
ghost use Rattle.std.specs.Prelude.{◌≡◌, ◌<◌, ◌≤◌, ℕ, true, cond, length, slice_index_or, Ok, Err, None, IfOk, IsSomeAnd, MatchResult};
ghost use Rattle.blic_model.specs.Shape.{children_below};
ghost use Rattle.blic_store.specs.Diagram.{IsRef, function};
ghost use Rattle.blic_store.specs.Growth.{Answers, PassesLimit};
ghost use Rattle.blic_graph.specs.Pairs.{IsGraph, PassesMost};
ghost use Rattle.blic_apply.specs.Operations.{combined};
ghost use Rattle.blic_solve.specs.Plan.{pair_count};
ghost use Rattle.blic_solve.specs.Step.{IsStep, IsStepOf, PassesNodes, PassesNodesOf, PassesPairs};

use blic_apply::{Op, Rewriter, combine};
use blic_basic::NoMem;
use blic_graph::{Graph, GraphError, Lister};
use blic_model::Node;
use blic_store::{Ref, Store, StoreError};
use std::alloc::Global;

/// Why a node adds nothing.
#[derive(Clone, Copy, Debug, PartialEq, Eq)]
pub enum StepError {
    /// Its operands have too many pairs.
    PairsFull,
    /// The store has too many decisions, and its operands' pairs are few enough.
    NodesFull,
    /// Memory ran out.
    NoMem,
}

/// What serves from node to node, and says nothing of the next one.
#[derive(Drop)]
pub struct Tools {
    alloc: Global,
    lister: Lister,
    rewriter: Rewriter,
}

impl Tools {
    /// Tools that were not used yet.
    pub fn new(alloc: Global) -> Result<Tools, NoMem> {
        match Lister::new(alloc) {
            Ok(lister) => Ok(Tools {
                alloc,
                lister,
                rewriter: Rewriter::new(alloc),
            }),
            Err(_) => Err(NoMem),
        }
    }

    /// Takes the memory of a graph that nobody reads.
    pub fn reuse(&mut self, graph: Option<Graph>) {
        if let Some(graph) = graph {
            self.lister.reuse(graph);
        }
    }
}

/// What a node adds: the ref of its function and, if it is binary, the pairs of its operands.
#[derive(Drop)]
pub struct Step {
    pub root: Ref,
    pub graph: Option<Graph>,
}

impl Step {
    /// Gives back the memory that its graph doesn't use.
    pub fn shrink(&mut self)
        ensures { self.new ≡ self.old }
    {
        if let Some(graph) = &mut self.graph {
            graph.shrink();
        }
    }

    /// How many pairs it adds.
    pub fn pairs(&self) -> u32
        ensures { result ≡ pair_count self.now.graph }
    {
        count(&self.graph)
    }
}

/// How many pairs the graph has, if there is one.
pub fn count(graph: &Option<Graph>) -> u32
    ensures { result ≡ pair_count graph.now }
{
    match graph {
        Some(graph) => graph.len(),
        None => 0,
    }
}

/// The node's function, made of those of its children, and the pairs of its operands, of which at
/// most `most` are allowed.
pub fn solve_node(
    tools: &mut Tools,
    store: &mut Store,
    roots: &Vec<Ref>,
    node: Node,
    most: u32,
) -> Result<Step, StepError>
    requires held { (k : ℕ) → k < length roots.now.items → IsRef store.old.nodes (slice_index_or roots.now.items k 0) }
    requires children { children_below (length roots.now.items) node ≡ true }
    ensures ok { IfOk result (λ s. IsStep roots.now.items node most store.old store.new s.root s.graph) }
    ensures pairs { result ≡ Err StepError.PairsFull → PassesPairs store.old.nodes roots.now.items node most }
    ensures nodes { result ≡ Err StepError.NodesFull → PassesNodes roots.now.items node most store.old }
{
    store.canonical_law();
    match node {
        Node::Const(bit) => Ok(constant(bit)),
        Node::Var(level) => single(variable(store, level)),
        Node::Not(child) => single(tools.rewriter.negate(store, roots[child as usize])),
        Node::Fix { level, bit, child } => {
            single(tools.rewriter.fix(store, roots[child as usize], level, bit))
        }
        Node::And(a, b) => binary(
            tools,
            store,
            Op::And,
            roots[a as usize],
            roots[b as usize],
            most,
        ),
        Node::Or(a, b) => binary(
            tools,
            store,
            Op::Or,
            roots[a as usize],
            roots[b as usize],
            most,
        ),
    }
}

// The step of a constant.
fn constant(bit: bool) -> Step
    ensures { result ≡ record { root = cond bit 1 0; graph = None } }
{
    Step {
        root: if bit { Ref::TRUE } else { Ref::FALSE },
        graph: None,
    }
}

// The function of a level's variable.
fn variable(store: &mut Store, level: u32) -> Result<Ref, StoreError>
    ensures ok { IfOk result (λ r. Answers (λ p. p level) store.old store.new r) }
    ensures full { result ≡ Err StoreError.Full → PassesLimit (λ p. p level) store.old }
{
    store.make(level, Ref::FALSE, Ref::TRUE)
}

// The step of a node that isn't binary, whose function was made.
fn single(made: Result<Ref, StoreError>) -> Result<Step, StepError>
    ensures ok { IfOk result (λ s. (made ≡ Ok s.root) × (s.graph ≡ None)) }
    ensures pairs { result ≡ Err StepError.PairsFull → ⊥ }
    ensures nodes { result ≡ Err StepError.NodesFull → made ≡ Err StoreError.Full }
{
    match made {
        Ok(root) => Ok(Step { root, graph: None }),
        Err(StoreError::Full) => Err(StepError::NodesFull),
        Err(StoreError::NoMem) => Err(StepError::NoMem),
    }
}

// The step of a binary node.
fn binary(
    tools: &mut Tools,
    store: &mut Store,
    op: Op,
    a: Ref,
    b: Ref,
    most: u32,
) -> Result<Step, StepError>
    requires a_held { IsRef store.old.nodes a }
    requires b_held { IsRef store.old.nodes b }
    ensures ok { IfOk result (λ s. IsStepOf (combined op (function store.old.nodes a) (function store.old.nodes b)) (λ g. IsSomeAnd g (IsGraph store.old.nodes a b)) most store.old store.new s.root s.graph) }
    ensures pairs { result ≡ Err StepError.PairsFull → PassesMost store.old.nodes a b most }
    ensures nodes { result ≡ Err StepError.NodesFull → PassesNodesOf (combined op (function store.old.nodes a) (function store.old.nodes b)) (λ g. IsSomeAnd g (IsGraph store.old.nodes a b)) most store.old }
{
    let graph = match tools.lister.list(&*store, a, b, u64::from(most)) {
        Ok(graph) => graph,
        Err(GraphError::PairsFull) => return Err(StepError::PairsFull),
        Err(GraphError::NoMem) => return Err(StepError::NoMem),
    };
    match combine(tools.alloc, store, &graph, op, a, b) {
        Ok(root) => Ok(Step {
            root,
            graph: Some(graph),
        }),
        Err(StoreError::Full) => Err(StepError::NodesFull),
        Err(StoreError::NoMem) => Err(StepError::NoMem),
    }
}
