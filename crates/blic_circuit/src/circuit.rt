// The circuit of a formula.
ghost use Rattle.std.specs.Prelude.{◌≡◌, IfOk, IfErr, length};
ghost use Rattle.blic_model.specs.Building.{circuit_of};
ghost use Rattle.blic_model.specs.Circuit.{root};
ghost use Rattle.blic_model.specs.CircuitLimits.{IsWithinLimits};
ghost use Rattle.blic_model.specs.Refusals.{IsCause};
ghost use Rattle.blic_model.specs.Truth.{truth};
ghost use Rattle.blic_model.specs.Value.{bit, value, Point};

use crate::building::{levels_of_formula, nodes_of_formula};
use blic_model::{Circuit, CircuitError, Formula, circuit_law};
use std::alloc::Global;

/// The formula's circuit over the order with number `order`, by the rules of that version. The only
/// order is 0, in which level k is entry k of the prefix, and the only version is 1. On average it takes time that grows with
/// the number of literals, clauses and levels, and with the free levels of its nodes.
///
/// Too many claims are reported before too many points.
pub fn build(
    alloc: Global,
    formula: &Formula,
    order: u16,
    version: u16,
) -> Result<Circuit, CircuitError>
    requires order { order ≡ 0 }
    requires version { version ≡ 1 }
    ensures circuit { IfOk result (λ circuit. circuit ≡ circuit_of formula.now) }
    ensures limits { IfOk result (λ _. IsWithinLimits (circuit_of formula.now).nodes (length (circuit_of formula.now).order)) }
    // The value of its root is the formula's truth, at every point.
    ensures truth { IfOk result (λ circuit. (s : Point) → value circuit.nodes (length circuit.order) (root circuit.nodes) s ≡ bit (truth formula.now)) }
    ensures refused { IfErr result (IsCause (circuit_of formula.now).nodes (length (circuit_of formula.now).order)) }
{
    let _ = order;
    formula.is_within_limits();
    circuit_law();
    let Ok(nodes) = nodes_of_formula(alloc, formula) else {
        return Err(CircuitError::NoMem);
    };
    let Ok(levels) = levels_of_formula(alloc, formula) else {
        return Err(CircuitError::NoMem);
    };
    Circuit::new(alloc, nodes, levels, version)
}
