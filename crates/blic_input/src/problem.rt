// A formula with its circuit.
ghost use Rattle.std.specs.Prelude.{◌≡◌, ℕ, None, IfOk};
ghost use Rattle.blic_model.specs.Value.{RootIs};
ghost use Rattle.blic_input.specs.Beginning.{Begins, IsSolvedAs};
ghost use Rattle.blic_input.specs.Faults.{Counts, Entropy as TheEntropy, Files as TheFiles, fault_told};
ghost use Rattle.blic_input.specs.Problem.{hello_by, problem_of};
ghost use Rattle.blic_input.specs.Stops.{HasSmallCircuit};
ghost use Rattle.blic_input.specs.Tasks.{Made, OfFile};

use crate::file::read_file;
use crate::stop::Stop;
use blic_basic::{Files, NoMem};
use blic_circuit::build;
use blic_messages::Hello;
use blic_model::{Circuit, Formula, boolean_value_law, circuit_law, shape_law};
use blic_qdimacs::name_of;
use blic_solve::answer;
use std::alloc::Global;
use std::marker::Model;

/// How far solving may go: decisions (nodes of BDDs) in the store, from 1 to 2^24, and pairs (the product construction) over all
/// binary nodes, from 1 to 2^25.
#[derive(Clone, Copy, Debug, PartialEq, Eq)]
pub struct SolveLimits {
    pub nodes: u32,
    pub pairs: u32,
}

/// A closed formula with its circuit, which is within the limits of circuits. Contracts see its truth, its circuit, the digest that names
/// it, and the numbers of its variables and clauses.
#[derive(Drop)]
pub struct Problem {
    formula: Formula,
    circuit: Circuit,
}

impl Model for Problem {
    ghost use Rattle.std.specs.Prelude.{◌≡◌};
    ghost use Rattle.blic_model.specs.Limits.{IsFormula};
    ghost use Rattle.blic_input.specs.Problem.{Problem as ProblemOf, problem_of};
    ghost use Rattle.blic_input.specs.Stops.{HasSmallCircuit};

    ghost Value = { ProblemOf };

    ghost view = { λ p. problem_of p.formula };

    ghost invariant = { λ p. IsFormula p.formula × (p.circuit ≡ (problem_of p.formula).circuit) × HasSmallCircuit (problem_of p.formula) };
}

impl Problem {
    /// The problem of a formula. It stops if the circuit passes a limit of circuits, and if memory runs out.
    pub fn of_formula(alloc: Global, formula: Formula) -> Result<Problem, Stop>
        ensures says { Begins None (Made (problem_of formula)) result }
        ensures calm { fault_told result ≡ None }
    {
        formula.is_within_limits();
        match build(alloc, &formula, 0, 1) {
            Ok(circuit) => Ok(Problem { formula, circuit }),
            Err(error) => Err(Stop::NotBuilt(error)),
        }
    }

    /// The problem of the formula that the file of this name spells in QDIMACS 1.1. It stops if the file can't be read or spells no
    /// formula within the limits, if the circuit passes a limit of circuits, and if memory runs out.
    pub fn of_file<F: Files>(alloc: Global, name: &str, files: &mut F) -> Result<Problem, Stop>
        ensures says { Begins (F.files files.old) (OfFile name.now) result }
        ensures cause { Counts TheFiles (fault_told result) (F.faults files.old) (F.faults files.new) }
        ensures no_seed_fault { (n : ℕ) → Counts TheEntropy (fault_told result) n n }
    {
        match read_file(alloc, name, files) {
            Ok(formula) => Problem::of_formula(alloc, formula),
            Err(error) => Err(Stop::NotRead(error)),
        }
    }

    /// The formula's circuit, over the prefix in its own order.
    pub fn circuit(&self) -> &Circuit
        ensures { result.now ≡ self.now.circuit }
    {
        &self.circuit
    }

    /// The Hello that names the circuit. It takes time and memory that grow with the length of the formula.
    pub fn hello(&self, alloc: Global) -> Result<Hello, NoMem>
        ensures { IfOk result (λ hello. hello ≡ hello_by self.now) }
    {
        Ok(Hello {
            wire: 1,
            circuit: 1,
            order: 0,
            digest: name_of(alloc, &self.formula)?,
        })
    }

    /// The number of variables.
    pub fn vars(&self) -> u32
        ensures { result ≡ self.now.vars }
    {
        self.formula.vars()
    }

    /// The number of clauses.
    pub fn clauses(&self) -> u32
        ensures { result ≡ self.now.clauses }
    {
        self.formula.clause_count()
    }

    /// Whether the formula is true. It stops exactly if solving passes a limit; only out of memory comes without such a cause.
    pub fn solve(&self, alloc: Global, limits: SolveLimits) -> Result<bool, Stop>
        ensures { IsSolvedAs self.now limits result }
    {
        self.formula.is_within_limits();
        circuit_law();
        shape_law();
        boolean_value_law();
        match answer(alloc, &self.circuit, limits.nodes, limits.pairs) {
            Ok(truth) => Ok(truth),
            Err(error) => Err(Stop::NotSolved(error)),
        }
    }

    /// A law: the value of the circuit's root is the formula's truth, at every point, and the circuit is within its limits.
    pub fn truth_law(&self)
        ensures root { RootIs self.now.circuit self.now.truth }
        ensures small { HasSmallCircuit self.now }
    {
        self.formula.is_within_limits();
        circuit_law();
    }
}
