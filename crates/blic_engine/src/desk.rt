// What one worker answers with.
ghost use Rattle.std.specs.Prelude.{◌≡◌, IfOk};

use crate::about::begin;
use crate::engine::Engine;
use crate::polys::fill;
use crate::values::operand_values;
use blic_basic::{NoMem, Steps};
use blic_claims::{Answers, Points};
use blic_eval::Scratch;
use blic_field::Fe;
use blic_poly2::Poly2;
use blic_solve::Plan;
use std::alloc::Global;
use std::marker::Model;
use std::sync::ledger::Ledger;

/// One worker's place at an engine: answers about the engine's circuit, with the room that they take,
/// so that no answer takes memory. For each claim it makes at most four products of elements for each
/// decision (node of a BDD) of the circuit's functions and each pair of the node's operands (their
/// product). Contracts see the circuit.
///
/// It keeps the decisions that the operands of the last node led to, so that answers about one node,
/// one after another, look for them once.
#[derive(Drop)]
pub struct Desk<'e> {
    engine: &'e Engine<'e>,
    plan: &'e Plan,
    about: Option<u32>,
    scratch: Scratch,
    point: Vec<Fe>,
}

impl<'e> Model for Desk<'e> {
    ghost use Rattle.blic_model.specs.Circuit.{OrderedCircuit};
    ghost use Rattle.blic_engine.specs.Rooms.{IsDesk};

    ghost Value = { OrderedCircuit };

    ghost view = { λ d. d.engine.now };

    ghost invariant = { λ d. IsDesk d.engine.now d.plan.now d.about d.scratch d.point.items };
}

impl<'e> Desk<'e> {
    /// A place with room for the engine's decisions, for its largest graph and for one point.
    /// `drop_every` is the number of sessions after which a worker's own cells are dropped, of which
    /// this version has none. The only error is out of memory.
    pub fn new(alloc: Global, engine: &'e Engine<'e>, _drop_every: u32) -> Result<Desk<'e>, NoMem>
        ensures { IfOk result (λ desk. desk ≡ engine.now) }
    {
        let circuit = engine.circuit();
        circuit.is_within_limits();
        let plan = engine.plan();
        let scratch = Scratch::new(alloc, plan.store().len(), plan.largest_graph())?;
        let point = vec![in alloc; Fe::ZERO; circuit.levels() as usize]?;
        Ok(Desk {
            engine,
            plan,
            about: None,
            scratch,
            point,
        })
    }
}

impl<'e> Answers for Desk<'e> {
    ghost use Rattle.blic_engine.specs.Costs.{most_products};

    ghost circuit = { λ c. c };

    ghost most = { most_products };

    ghost goes_on = { λ c p k i. Unit {0} };

    fn answer(&mut self) -> bool {
        self.engine.answer()
    }

    fn polys<L: Ledger>(
        &mut self,
        points: &Points,
        node: u32,
        j: u32,
        _on: bool,
        out: &mut [Poly2],
        steps: &mut Steps<L>,
    ) {
        let circuit = self.engine.circuit();
        begin(circuit, self.plan, node, &mut self.about, &mut self.scratch);
        fill(
            circuit,
            self.plan,
            points,
            node,
            j,
            out,
            &mut self.scratch,
            &mut self.point,
            steps,
        );
    }

    fn values<L: Ledger>(
        &mut self,
        points: &Points,
        node: u32,
        _on: bool,
        steps: &mut Steps<L>,
    ) -> (Fe, Fe) {
        let circuit = self.engine.circuit();
        begin(circuit, self.plan, node, &mut self.about, &mut self.scratch);
        operand_values(
            circuit,
            self.plan,
            points,
            node,
            &mut self.scratch,
            &mut self.point,
            steps,
        )
    }

    fn between(&mut self, _session: u32) {}
}
