// The truth of a formula, value by value.

ghost use Rattle.std.specs.Prelude.{◌≡◌, ◌≤◌, ◌<◌, length, Ok, true, false};
ghost use Rattle.blic_model.specs.Truth.{truth, truth_under, matrix_holds, clause_holds, literal_holds};
ghost use Rattle.blic_cases.specs.Assigned.{values_of};

use blic_basic::NoMem;
use blic_model::{Bound, Formula, Lit, Quant};
use std::alloc::Global;

/// Values of variables, the newest first.
#[derive(Clone, Copy)]
enum Assignment<'a> {
    Nothing,
    With(u32, bool, &'a Assignment<'a>),
}

fn value_of(assignment: &Assignment<'_>, var: u32) -> bool
    ensures { result ≡ values_of assignment.now var }
{
    match assignment {
        Assignment::Nothing => false,
        Assignment::With(v, value, rest) => {
            if var == *v {
                *value
            } else {
                value_of(rest, var)
            }
        }
    }
}

fn literal_is_true(assignment: &Assignment<'_>, literal: Lit) -> bool
    ensures { result ≡ literal_holds (values_of assignment.now) literal }
{
    value_of(assignment, literal.var) != literal.negative
}

fn clause_is_true(assignment: &Assignment<'_>, clause: &[Lit]) -> bool
    ensures { result ≡ clause_holds (values_of assignment.now) clause.now }
{
    clause
        .iter()
        .any(|literal| literal_is_true(assignment, *literal))
}

fn matrix_is_true(formula: &Formula, assignment: &Assignment<'_>) -> bool
    ensures { result ≡ matrix_holds (values_of assignment.now) formula.now.clauses }
{
    for i in 0..formula.clause_count() {
        if !clause_is_true(assignment, formula.clause(i)) {
            return false;
        }
    }
    true
}

fn holds(formula: &Formula, bounds: &[Bound], assignment: &Assignment<'_>) -> bool
    ensures { result ≡ truth_under bounds.now formula.now.clauses (values_of assignment.now) }
{
    let Some((first, inner)) = bounds.split_first() else {
        return matrix_is_true(formula, assignment);
    };
    let low = holds(
        formula,
        inner,
        &Assignment::With(first.var, false, &*assignment),
    );
    match first.quant {
        Quant::Exists => low
            || holds(
                formula,
                inner,
                &Assignment::With(first.var, true, &*assignment),
            ),
        Quant::Forall => low
            && holds(
                formula,
                inner,
                &Assignment::With(first.var, true, &*assignment),
            ),
    }
}

/// The formula's truth, by trying both values of each variable of the prefix, the outermost first.
/// The prefix has at most 20 entries. It takes no memory, so no error comes, and time that may double
/// with each entry of the prefix.
pub fn by_cases(_alloc: Global, formula: &Formula) -> Result<bool, NoMem>
    requires { length formula.now.prefix ≤ 20 }
    ensures { result ≡ Ok (truth formula.now) }
{
    Ok(holds(formula, formula.prefix(), &Assignment::Nothing))
}
