// The answer of a circuit, of which no graph is kept.
ghost use Rattle.std.specs.Prelude.{◌≡◌, ◌+◌, ◌++◌, ◌∷◌, ◌<◌, ◌≤◌, ℕ, Bool, [], length, IfErr, IfOk, OnOk};
ghost use Rattle.blic_model.specs.Circuit.{root as root_node};
ghost use Rattle.blic_model.specs.Value.{holds};
ghost use Rattle.blic_solve.specs.Plan.{IsCause, IsWithin};
ghost use Rattle.blic_solve.specs.Progress.{IsRooted, Rooted, is_true_root};

use crate::plan::SolveError;
use crate::step::{StepError, Tools, solve_node};
use blic_basic::NoMem;
use blic_graph::growth_law;
use blic_model::Circuit;
use blic_store::{Ref, Store};
use std::alloc::Global;
use std::marker::Model;
use std::vec::Vec;

/// The functions of the first nodes of a circuit, and how many of the pairs that are allowed were
/// listed for them.
#[derive(Drop)]
struct Roots {
    tools: Tools,
    store: Store,
    roots: Vec<Ref>,
    listed: u32,
    most: u32,
}

impl Model for Roots {
    ghost use Rattle.blic_solve.specs.Progress.{Rooted};

    ghost Value = { Rooted };

    ghost view = { λ r. record { store = r.store; roots = r.roots.items; listed = r.listed; most = r.most } };
}

impl Roots {
    // Those of no node.
    fn none(alloc: Global, nodes: u32, pairs: u32) -> Result<Roots, NoMem>
        ensures { IfOk result (λ r. r ≡ record { store = record { nodes = []; limit = nodes }; roots = []; listed = 0; most = pairs }) }
    {
        Ok(Roots {
            tools: Tools::new(alloc)?,
            store: Store::new(alloc, nodes)?,
            roots: Vec::new(alloc),
            listed: 0,
            most: pairs,
        })
    }

    // Solves the next node.
    fn add(&mut self, circuit: &Circuit) -> Result<(), SolveError>
        requires in_range { length self.old.roots < length circuit.now.nodes }
        requires solved { IsRooted circuit.now.nodes (length circuit.now.order) self.old.store.limit self.old }
        ensures more { OnOk result (length self.new.roots ≡ length self.old.roots + 1) }
        ensures most { self.new.most ≡ self.old.most }
        ensures solved { OnOk result (IsRooted circuit.now.nodes (length circuit.now.order) self.old.store.limit self.new) }
        ensures refused { IfErr result (IsCause circuit.now.nodes (length circuit.now.order) self.old.store.limit self.old.most) }
    {
        circuit.is_within_limits();
        let node = self.roots.len() as u32;
        match solve_node(
            &mut self.tools,
            &mut self.store,
            &self.roots,
            circuit.node(node),
            self.most - self.listed,
        ) {
            Ok(step) => {
                growth_law();
                self.store.canonical_law();
                let more = step.pairs();
                self.tools.reuse(step.graph);
                match self.push(step.root, more) {
                    Ok(()) => Ok(()),
                    Err(NoMem) => Err(SolveError::NoMem),
                }
            }
            Err(StepError::PairsFull) => Err(SolveError::PairLimit { node }),
            Err(StepError::NodesFull) => Err(SolveError::NodeLimit { node }),
            Err(StepError::NoMem) => Err(SolveError::NoMem),
        }
    }

    // Adds the next node's function, for which so many pairs more were listed.
    fn push(&mut self, root: Ref, more: u32) -> Result<(), NoMem>
        requires { self.old.listed + more ≤ self.old.most }
        ensures ok { OnOk result (self.new ≡ record self.old { roots = self.old.roots ++ root ∷ []; listed = self.old.listed + more }) }
        ensures most { self.new.most ≡ self.old.most }
    {
        let _most = self.most;
        if self.roots.push(root).is_err() {
            return Err(NoMem);
        }
        self.listed += more;
        Ok(())
    }

    // Whether the last function is true everywhere.
    fn is_true(&self) -> bool
        ensures { result ≡ is_true_root self.now.roots }
    {
        let n = self.roots.len();
        n > 0 && self.roots[n - 1] == Ref::TRUE
    }
}

/// Whether the circuit's root is true, which no assignment changes, since no level is free in it:
/// what `Plan::solve` and then `Plan::answer` tell, in the same time and with the same refusals, but
/// the pairs of one node alone are kept at a time.
pub fn answer(alloc: Global, circuit: &Circuit, nodes: u32, pairs: u32) -> Result<bool, SolveError>
    ensures answer { IfOk result (λ answer. (a : ℕ → Bool) → answer ≡ holds circuit.now.nodes (root_node circuit.now.nodes) a) }
    ensures within { IfOk result (λ _. (k : ℕ) → k < length circuit.now.nodes → IsWithin circuit.now.nodes (length circuit.now.order) nodes pairs k) }
    ensures refused { IfErr result (IsCause circuit.now.nodes (length circuit.now.order) nodes pairs) }
{
    circuit.is_within_limits();
    let Ok(mut roots) = Roots::none(alloc, nodes, pairs) else {
        return Err(SolveError::NoMem);
    };
    for k in 0..circuit.nodes() {
        match roots.add(circuit) {
            Ok(()) => {}
            Err(error) => return Err(error),
        }
    }
    Ok(roots.is_true())
}
