// Closed formulas: a prefix over clauses.
ghost use Rattle.std.specs.Prelude.{◌≡◌, ◌<◌, ◌≤◌, ◌^◌, length, map, Some, IfOk, IsTrue, ◌↔◌, slice_get};
ghost use Rattle.blic_model.specs.Formula.{PrenexFormula};
ghost use Rattle.blic_model.specs.Limits.{IsFormula};

use crate::limits;
use crate::prefix::Bound;
use blic_basic::NoMem;
use std::alloc::Global;
use std::marker::Model;

/// A variable or its negation.
#[derive(Clone, Copy, Debug, PartialEq, Eq)]
pub struct Lit {
    /// The variable's number, from 1 on.
    pub var: u32,
    pub negative: bool,
}

/// A closed formula in prenex conjunctive form, within the limits: at most 65,535 variables,
/// 1,048,576 clauses and as many literals. Its variables are numbered from 1 to `vars`; each is
/// bound once at most, and those of the clauses are bound.
#[derive(Drop)]
pub struct Formula {
    vars: u32,
    prefix: Vec<Bound>,
    clauses: Vec<Vec<Lit>>,
}

impl Model for Formula {
    ghost use Rattle.std.specs.Prelude.{map};
    ghost use Rattle.blic_model.specs.Formula.{PrenexFormula};
    ghost use Rattle.blic_model.specs.Limits.{IsFormula};

    ghost Value = { PrenexFormula };

    ghost view = { λ f. record { vars = f.vars; prefix = f.prefix.items; clauses = map (λ c. c.items) f.clauses.items } };

    ghost invariant = { λ f. IsFormula (record { vars = f.vars; prefix = f.prefix.items; clauses = map (λ c. c.items) f.clauses.items }) };
}

impl Formula {
    /// The formula of these parts: the number of variables, the prefix from the outermost entry to
    /// the innermost, and the clauses. `fits` tests the condition.
    pub fn new(vars: u32, prefix: Vec<Bound>, clauses: Vec<Vec<Lit>>) -> Formula
        requires { IsFormula (record { vars = vars; prefix = prefix.items; clauses = map (λ c. c.items) clauses.items }) }
        ensures { result ≡ record { vars = vars; prefix = prefix.items; clauses = map (λ c. c.items) clauses.items } }
    {
        Formula {
            vars,
            prefix,
            clauses,
        }
    }

    /// Whether the parts are those of a formula.
    pub fn fits(
        alloc: Global,
        vars: u32,
        prefix: &Vec<Bound>,
        clauses: &Vec<Vec<Lit>>,
    ) -> Result<bool, NoMem>
        ensures { IfOk result (λ answer. IsTrue answer ↔ IsFormula (record { vars = vars; prefix = prefix.now.items; clauses = map (λ c. c.items) clauses.now.items })) }
    {
        limits::fits(alloc, vars, prefix, clauses)
    }

    /// The number of variables.
    pub fn vars(&self) -> u32
        ensures { result ≡ self.now.vars }
    {
        self.vars
    }

    /// The prefix, from the outermost entry to the innermost.
    pub fn prefix(&self) -> &[Bound]
        ensures { result.now ≡ self.now.prefix }
    {
        &self.prefix
    }

    /// The number of clauses.
    pub fn clause_count(&self) -> u32
        ensures { result ≡ length self.now.clauses }
    {
        self.clauses.len() as u32
    }

    /// The literals of clause `i`, counted from 0.
    pub fn clause(&self, i: u32) -> &[Lit]
        requires { i < length self.now.clauses }
        ensures { slice_get self.now.clauses i ≡ Some result.now }
    {
        &self.clauses[i as usize]
    }

    /// A law: each formula is within the limits of formulas.
    pub fn is_within_limits(&self)
        ensures { IsFormula self.now }
    {
        let _fields = &self.prefix;
    }
}
