// What answers by the definitions.
ghost use Rattle.std.specs.Prelude.{◌≡◌, ◌<◌, length};
ghost use Rattle.blic_model.specs.Circuit.{root};
ghost use Rattle.blic_model.specs.Value.{value as value_of};
ghost use Rattle.blic_claims.specs.Claims.{zero_point};

use crate::chain::Chain;
use crate::poly::fill;
use crate::value::{operand_values, value};
use blic_basic::Steps;
use blic_claims::{Answers, Points};
use blic_field::Fe;
use blic_model::Circuit;
use blic_poly2::Poly2;
use std::marker::{Brand, Model};
use std::sync::ledger::{Blank, Ledger};

/// Answers by the definitions of value and degree reduction, and takes no memory. It is for small
/// circuits: the time doubles with each free level. Contracts see the circuit.
#[derive(Drop)]
pub struct Plain<'c> {
    circuit: &'c Circuit,
}

impl<'c> Model for Plain<'c> {
    ghost use Rattle.blic_model.specs.Circuit.{OrderedCircuit};

    ghost Value = { OrderedCircuit };

    ghost view = { λ p. p.circuit.now };
}

impl<'c> Plain<'c> {
    /// Answers about this circuit.
    pub fn new(circuit: &'c Circuit) -> Plain<'c>
        ensures { result ≡ circuit.now }
    {
        Plain { circuit }
    }
}

impl<'c> Answers for Plain<'c> {
    ghost use Rattle.std.specs.Prelude.{length};
    ghost use Rattle.blic_plain.specs.Products.{products};

    ghost circuit = { λ c. c };

    ghost most = { λ c k. products c.nodes (length c.order) k };

    ghost goes_on = { λ c p k i. Unit {0} };

    fn answer(&mut self) -> bool {
        root_value::<Brand>(self.circuit, Blank::new(1)) == Fe::ONE
    }

    fn polys<L: Ledger>(
        &mut self,
        points: &Points,
        node: u32,
        j: u32,
        _on: bool,
        out: &mut [Poly2],
        steps: &mut Steps<L>,
    ) {
        fill(self.circuit, points, node, j, out, steps);
    }

    fn values<L: Ledger>(
        &mut self,
        points: &Points,
        node: u32,
        _on: bool,
        steps: &mut Steps<L>,
    ) -> (Fe, Fe) {
        operand_values(self.circuit, points, node, steps)
    }

    fn between(&mut self, _session: u32) {}
}

// The root's value, of whose products nothing is counted.
fn root_value<L: Ledger>(circuit: &Circuit, blank: Blank) -> Fe
    requires name { blank.name ≡ L.name }
    requires parts { blank.parts ≡ L.parts }
    requires some { 0 < L.parts }
    ensures { result ≡ value_of circuit.now.nodes (length circuit.now.order) (root circuit.now.nodes) zero_point }
{
    circuit.is_within_limits();
    let mut steps = Steps::<L>::new(blank);
    value(circuit, circuit.root(), &Chain::Zero, &mut steps)
}
