// Whether parts make a formula.
ghost use Rattle.std.specs.Prelude.{◌≡◌, ◌≤◌, ◌<◌, ◌+◌, ◌&&◌, ◌||◌, ◌==◌, ℕ, List, length, map, IsTrue, IfOk, sum_by, nat_le, nat_lt, not, true, false, ◌↔◌};
ghost use Rattle.blic_model.specs.Limits.{is_formula, are_in_range, are_distinct, is_closed as closed_by};
ghost use Rattle.blic_model.specs.Marks.{Marks, is_marked as marked_by};
ghost use Rattle.std.specs.List.{list_all};

use crate::formula::Lit;
use crate::prefix::Bound;
use blic_basic::NoMem;
use std::alloc::Global;

pub const MOST_VARIABLES: u32 = 65_535;

pub const MOST_CLAUSES: usize = 1_048_576;

pub const MOST_LITERALS: usize = 1_048_576;

/// Whether the parts make a formula. It takes memory for a mark a variable, and time that grows
/// with the number of variables and of literals.
pub(crate) fn fits(
    alloc: Global,
    vars: u32,
    prefix: &[Bound],
    clauses: &[Vec<Lit>],
) -> Result<bool, NoMem>
    ensures { IfOk result (λ answer. IsTrue answer ↔ IsTrue (is_formula (record { vars = vars; prefix = prefix.now; clauses = map (λ c. c.items) clauses.now }))) }
{
    if vars > MOST_VARIABLES || clauses.len() > MOST_CLAUSES || !has_few_literals(clauses) {
        return Ok(false);
    }
    let Ok(mut marks) = vec![in alloc; false; vars as usize + 1] else {
        return Err(NoMem);
    };
    Ok(binds_all(vars, prefix, clauses, &mut marks))
}

// Whether the prefix binds each of its variables once, and each of the clauses'.
fn binds_all(vars: u32, prefix: &[Bound], clauses: &[Vec<Lit>], marks: &mut [bool]) -> bool
    requires table { length marks.old ≡ vars + 1 }
    requires clean { (v : ℕ) → marked_by marks.old v ≡ false }
    ensures { result ≡ (are_in_range vars prefix.now && are_distinct prefix.now && closed_by prefix.now (map (λ c. c.items) clauses.now)) }
{
    if !binds_once(vars, prefix, marks) {
        return false;
    }
    is_closed(marks, clauses)
}

// Marks the variables of the prefix, the innermost first, unless one is out of range or bound twice.
fn binds_once(vars: u32, prefix: &[Bound], marks: &mut [bool]) -> bool
    requires table { length marks.old ≡ vars + 1 }
    requires clean { (v : ℕ) → marked_by marks.old v ≡ false }
    ensures once { result ≡ (are_in_range vars prefix.now && are_distinct prefix.now) }
    ensures marks { result ≡ true → Marks marks.new prefix.now }
{
    let mut i = prefix.len();
    while 0 < i {
        i -= 1;
        if !mark(vars, marks, prefix[i].var) {
            return false;
        }
    }
    true
}

// Marks a variable, if it is in range and not marked yet.
fn mark(vars: u32, marks: &mut [bool], var: u32) -> bool
    requires { length marks.old ≡ vars + 1 }
    ensures may { result ≡ (nat_lt 0 var && nat_le var vars && not (marked_by marks.old var)) }
    ensures marked { result ≡ true → (v : ℕ) → marked_by marks.new v ≡ ((var == v) || marked_by marks.old v) }
{
    if var == 0 || vars < var || marks[var as usize] {
        return false;
    }
    marks[var as usize] = true;
    true
}

fn is_marked(marks: &[bool], var: u32) -> bool
    ensures { result ≡ marked_by marks.now var }
{
    (var as usize) < marks.len() && marks[var as usize]
}

fn is_closed(marks: &[bool], clauses: &[Vec<Lit>]) -> bool
    ensures { result ≡ list_all (λ c. list_all (λ l. marked_by marks.now l.var) c.items) clauses.now }
{
    clauses.iter().all(|clause| clause_is_closed(marks, clause))
}

fn clause_is_closed(marks: &[bool], clause: &[Lit]) -> bool
    ensures { result ≡ list_all (λ l. marked_by marks.now l.var) clause.now }
{
    clause.iter().all(|literal| is_marked(marks, literal.var))
}

fn has_few_literals(clauses: &[Vec<Lit>]) -> bool
    ensures { result ≡ nat_le (sum_by length (map (λ c. c.items) clauses.now)) 1048576 }
{
    let mut left = MOST_LITERALS;
    for clause in clauses {
        if left < clause.len() {
            return false;
        }
        left -= clause.len();
    }
    true
}
