// A solved circuit, which workers share.
ghost use Rattle.std.specs.Prelude.{◌≡◌, ◌<◌, ℕ, length, IfErr, IfOk};
ghost use Rattle.blic_claims.specs.Honest.{honest_answer};
ghost use Rattle.blic_solve.specs.Plan.{IsCause, IsPlan, IsWithin};

use blic_model::Circuit;
use blic_solve::{Plan, SolveError};
use std::alloc::Global;
use std::marker::Model;

/// A circuit and the decision diagrams (BDDs) of its nodes. Workers share one, each by a desk of its own.
/// Contracts see the circuit.
#[derive(Drop)]
pub struct Engine<'c> {
    circuit: &'c Circuit,
    plan: Plan,
}

impl<'c> Model for Engine<'c> {
    ghost use Rattle.std.specs.Prelude.{length};
    ghost use Rattle.blic_model.specs.Circuit.{OrderedCircuit};
    ghost use Rattle.blic_solve.specs.Plan.{IsPlan};

    ghost Value = { OrderedCircuit };

    ghost view = { λ e. e.circuit.now };

    ghost invariant = { λ e. IsPlan e.circuit.now.nodes (length e.circuit.now.order) e.plan };
}

impl<'c> Engine<'c> {
    /// Solves the circuit, within at most `nodes` decisions (nodes of BDDs) of all nodes' functions
    /// and at most `pairs` pairs of binary nodes' operands together. `cells` is the number of cells
    /// that workers share, of which this version has none.
    ///
    /// Refuses exactly if the nodes up to some node have more subfunctions (cofactors) or more pairs of
    /// them than is allowed, and names the first such node; if it passes both limits, that of pairs is
    /// reported. Only out of memory comes without such a cause.
    pub fn new(
        alloc: Global,
        circuit: &'c Circuit,
        nodes: u32,
        pairs: u32,
        _cells: u32,
    ) -> Result<Engine<'c>, SolveError>
        ensures circuit { IfOk result (λ e. e ≡ circuit.now) }
        ensures within { IfOk result (λ e. (k : ℕ) → k < length circuit.now.nodes → IsWithin circuit.now.nodes (length circuit.now.order) nodes pairs k) }
        ensures refused { IfErr result (IsCause circuit.now.nodes (length circuit.now.order) nodes pairs) }
    {
        match Plan::solve(alloc, circuit, nodes, pairs) {
            Ok(plan) => Ok(Engine { circuit, plan }),
            Err(error) => Err(error),
        }
    }

    /// The circuit.
    pub(crate) fn circuit(&self) -> &Circuit
        ensures { result.now ≡ self.now }
    {
        self.circuit
    }

    /// The functions of the circuit's nodes, and the pairs of their operands.
    pub(crate) fn plan(&self) -> &Plan
        ensures { IsPlan self.now.nodes (length self.now.order) result.now }
    {
        &self.plan
    }

    /// Whether the root's value is 1.
    pub(crate) fn answer(&self) -> bool
        ensures { result ≡ honest_answer self.now.nodes (length self.now.order) }
    {
        self.circuit.is_within_limits();
        self.plan.answer()
    }
}
