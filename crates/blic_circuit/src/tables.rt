// Tables of a formula, indexed by variable: each one's level, and whether it stands in a clause.
ghost use Rattle.std.specs.Prelude.{◌≡◌, ℕ, ◌+◌, ◌<◌, ◌≤◌, length, take, IfOk, IsTrue, slice_index_or, false, ◌||◌, ◌==◌};
ghost use Rattle.std.specs.List.{list_any};
ghost use Rattle.blic_model.specs.Building.{level_of as level_by};
ghost use Rattle.blic_model.specs.Limits.{are_in_range};
ghost use Rattle.blic_circuit.specs.Tables.{HasLevels, HasStanding};

use blic_basic::NoMem;
use blic_model::{Bound, Formula, Lit};
use std::alloc::Global;

/// The number of levels.
pub(crate) fn level_count(formula: &Formula) -> u32
    ensures count { result ≡ length formula.now.prefix }
    ensures few { result ≤ 65536 }
{
    formula.is_within_limits();
    formula.prefix().len() as u32
}

/// The level of each variable.
pub(crate) fn level_table(alloc: Global, formula: &Formula) -> Result<Vec<u32>, NoMem>
    ensures { IfOk result (λ levels. HasLevels levels.items formula.now.prefix) }
{
    formula.is_within_limits();
    let count = level_count(formula);
    let Ok(mut levels) = vec![in alloc; count; formula.vars() as usize + 1] else {
        return Err(NoMem);
    };
    put_levels(formula.vars(), formula.prefix(), &mut levels);
    Ok(levels)
}

// Puts the level of each variable of the prefix into the table, the innermost first.
fn put_levels(vars: u32, prefix: &[Bound], levels: &mut [u32])
    requires in_range { IsTrue (are_in_range vars prefix.now) }
    requires few { length prefix.now ≤ 65536 }
    requires table { length levels.old ≡ vars + 1 }
    requires clean { (v : ℕ) → slice_index_or levels.old v (length prefix.now) ≡ length prefix.now }
    ensures { HasLevels levels.new prefix.now }
{
    let mut i = prefix.len();
    while 0 < i {
        i -= 1;
        levels[prefix[i].var as usize] = i as u32;
    }
}

/// The variable's level; the number of levels, if it is not bound.
pub(crate) fn level_of(formula: &Formula, levels: &[u32], var: u32) -> u32
    requires { HasLevels levels.now formula.now.prefix }
    ensures { result ≡ level_by formula.now.prefix var }
{
    if (var as usize) < levels.len() {
        levels[var as usize]
    } else {
        level_count(formula)
    }
}

/// Which variables stand in a clause.
pub(crate) fn standing_table(alloc: Global, formula: &Formula) -> Result<Vec<bool>, NoMem>
    ensures marks { IfOk result (λ marks. HasStanding marks.items formula.now.clauses) }
    ensures table { IfOk result (λ marks. length marks.items ≡ formula.now.vars + 1) }
{
    let Ok(mut marks) = vec![in alloc; false; formula.vars() as usize + 1] else {
        return Err(NoMem);
    };
    mark_all(formula, &mut marks);
    Ok(marks)
}

// Marks the variables that stand in a clause.
fn mark_all(formula: &Formula, marks: &mut [bool])
    requires { (v : ℕ) → v < length marks.old → slice_index_or marks.old v false ≡ false }
    ensures { HasStanding marks.new formula.now.clauses }
{
    for i in 0..formula.clause_count() {
        mark(formula.clause(i), marks);
    }
}

// Marks the variables of the clause; the table has a place for each.
fn mark(clause: &[Lit], marks: &mut [bool])
    ensures { (v : ℕ) → v < length marks.old → slice_index_or marks.new v false ≡ (slice_index_or marks.old v false || list_any (λ l. l.var == v) clause.now) }
{
    for literal in clause {
        if (literal.var as usize) < marks.len() {
            marks[literal.var as usize] = true;
        }
    }
}
