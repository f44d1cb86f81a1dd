// The variables that stand in a clause and in no set, by tables with a mark for each variable.
ghost use Rattle.std.specs.Prelude.{◌≡◌, ◌≤◌, ◌<◌, ◌++◌, ◌&&◌, ◌||◌, ◌==◌, ℕ, Some, false, not, IfOk, length, map, filter, slice_get};
ghost use Rattle.std.specs.List.{list_any};
ghost use Rattle.blic_model.specs.Limits.{is_bound};
ghost use Rattle.blic_qdimacs.specs.Meaning.{free_bounds as free_by, free_where, stands_in};
ghost use Rattle.blic_qdimacs.specs.Tables.{Marks, is_marked as marked_by};

use blic_model::{Bound, Lit, Quant};
use std::alloc::{AllocError, Global};

/// The number of marks in a table: one for each variable, and one for 0.
pub const TABLE: usize = 65_536;

/// The free variables, existential and in rising order, and then the sets.
pub fn whole_prefix(
    alloc: Global,
    vars: u32,
    bound: &[bool],
    sets: &[Bound],
    clauses: &[Vec<Lit>],
) -> Result<Vec<Bound>, AllocError>
    requires vars { vars ≤ 65535 }
    requires size { length bound.now ≡ 65536 }
    requires table { Marks bound.now (is_bound sets.now) }
    ensures { IfOk result (λ prefix. prefix.items ≡ free_by vars sets.now (map (λ c. c.items) clauses.now) ++ sets.now) }
{
    let standing = standing_variables(alloc, clauses)?;
    let mut prefix = free_variables(alloc, vars, bound, &standing)?;
    prefix.extend_from_slice(sets)?;
    Ok(prefix)
}

/// A table without a mark.
#[tactic(auto, using(crate::proofs::FreeLaws::none_set))]
pub fn no_marks(alloc: Global, size: usize) -> Result<Vec<bool>, AllocError>
    ensures size { IfOk result (λ marks. length marks.items ≡ size) }
    ensures none { IfOk result (λ marks. (v : ℕ) → v < size → slice_get marks.items v ≡ Some false) }
{
    vec![in alloc; false; size]
}

// Marks a variable.
fn mark(marks: &mut [bool], var: u32)
    ensures size { length marks.new ≡ length marks.old }
    ensures marked { (v : ℕ) → v < length marks.old → marked_by marks.new v ≡ (marked_by marks.old v || var == v) }
{
    if (var as usize) < marks.len() {
        marks[var as usize] = true;
    }
}

// Marks the variables of a clause.
fn mark_clause(marks: &mut [bool], clause: &[Lit])
    ensures size { length marks.new ≡ length marks.old }
    ensures marked { (v : ℕ) → v < length marks.old → marked_by marks.new v ≡ (marked_by marks.old v || list_any (λ l. l.var == v) clause.now) }
{
    for literal in clause {
        mark(marks, literal.var);
    }
}

// Marks the variables of the clauses.
fn mark_clauses(marks: &mut [bool], clauses: &[Vec<Lit>])
    ensures size { length marks.new ≡ length marks.old }
    ensures marked { (v : ℕ) → v < length marks.old → marked_by marks.new v ≡ (marked_by marks.old v || list_any (λ c. list_any (λ l. l.var == v) c.items) clauses.now) }
{
    for clause in clauses {
        mark_clause(marks, clause);
    }
}

// A table that marks the variables of the clauses.
fn standing_variables(alloc: Global, clauses: &[Vec<Lit>]) -> Result<Vec<bool>, AllocError>
    ensures size { IfOk result (λ marks. length marks.items ≡ 65536) }
    ensures table { IfOk result (λ marks. Marks marks.items (stands_in (map (λ c. c.items) clauses.now))) }
{
    let mut marks = no_marks(alloc, TABLE)?;
    mark_clauses(&mut marks, clauses);
    Ok(marks)
}

// Whether the variable stands in a clause and is not bound.
fn is_free(standing: &[bool], bound: &[bool], var: u32) -> bool
    requires standing { var < length standing.now }
    requires bound { var < length bound.now }
    ensures { result ≡ (marked_by standing.now var && not (marked_by bound.now var)) }
{
    standing[var as usize] && !bound[var as usize]
}

// The variables that stand in clauses and are not bound.
#[tactic(auto, using(crate::proofs::FreeLaws::free_where_yes, crate::proofs::FreeLaws::free_where_no))]
fn free_variables(
    alloc: Global,
    vars: u32,
    bound: &[bool],
    standing: &[bool],
) -> Result<Vec<Bound>, AllocError>
    requires bound { vars < length bound.now }
    requires standing { vars < length standing.now }
    ensures { IfOk result (λ bounds. bounds.items ≡ free_where (λ v. marked_by standing.now v && not (marked_by bound.now v)) vars) }
{
    let mut bounds = Vec::new(alloc);
    for before in 0..vars {
        let var = before + 1;
        if is_free(standing, bound, var) {
            bounds.push(Bound {
                quant: Quant::Exists,
                var,
            })?;
        }
    }
    Ok(bounds)
}
