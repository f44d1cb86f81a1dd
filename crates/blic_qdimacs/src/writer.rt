// Writes the canonical text of a formula.
ghost use Rattle.std.specs.Prelude.{◌≡◌, ◌++◌, IfOk, OnOk, string_bytes, Option, Some, None, flat_map};
ghost use Rattle.blic_qdimacs.specs.Text.{canonical_text, clause_text, literal_text, header_text, quant_text, run_text, runs_of};
ghost use Rattle.blic_qdimacs.specs.Writing.{start_text, end_text, prefix_left};

use blic_basic::NoMem;
use blic_model::{Bound, Formula, Lit, Quant};
use std::alloc::{AllocError, Global};
use std::fmt::Write;

/// The canonical text of a formula, in ASCII. It fails only if memory runs out.
///
/// Its lines are each ended by LF: `p cnf V C`; for each longest run of equal quantifiers in the
/// prefix `e` or `a`, the variables in order, and `0`; for each clause its literals and `0`. One
/// space stands between words, and no number has a leading zero.
pub fn canonical(alloc: Global, formula: &Formula) -> Result<Vec<u8>, NoMem>
    ensures { IfOk result (λ text. text.items ≡ canonical_text formula.now) }
{
    let mut out = String::new(alloc);
    push_formula(&mut out, formula).map_err(|_| NoMem)?;
    Ok(out.into_bytes())
}

fn push_formula(out: &mut String, formula: &Formula) -> Result<(), AllocError>
    ensures { OnOk result (string_bytes out.new ≡ string_bytes out.old ++ canonical_text formula.now) }
{
    push_header(out, formula)?;
    push_prefix(out, formula.prefix())?;
    push_clauses(out, formula)
}

fn push_header(out: &mut String, formula: &Formula) -> Result<(), AllocError>
    ensures { OnOk result (string_bytes out.new ≡ string_bytes out.old ++ header_text formula.now) }
{
    let vars = formula.vars();
    let count = formula.clause_count();
    write!(out, "p cnf {vars} {count}\n")
}

#[tactic(auto, using(crate::proofs::WritingLaws::prefix_by_runs))]
fn push_prefix(out: &mut String, bounds: &[Bound]) -> Result<(), AllocError>
    ensures { OnOk result (string_bytes out.new ≡ string_bytes out.old ++ flat_map run_text (runs_of bounds.now)) }
{
    push_runs(out, bounds)
}

fn push_runs(out: &mut String, bounds: &[Bound]) -> Result<(), AllocError>
    ensures { OnOk result (string_bytes out.new ≡ string_bytes out.old ++ prefix_left None bounds.now) }
{
    let mut current: Option<Quant> = None;
    for bound in bounds {
        push_start(out, current, bound.quant)?;
        let var = bound.var;
        write!(out, "{var} ")?;
        current = Some(bound.quant);
    }
    push_end(out, current)
}

// Goes on with the run that is open, or begins another.
fn push_start(out: &mut String, current: Option<Quant>, quant: Quant) -> Result<(), AllocError>
    ensures { OnOk result (string_bytes out.new ≡ string_bytes out.old ++ start_text current quant) }
{
    if current == Some(quant) {
        return Ok(());
    }
    push_end(out, current)?;
    push_quant(out, quant)
}

// Ends the run that is open.
fn push_end(out: &mut String, current: Option<Quant>) -> Result<(), AllocError>
    ensures { OnOk result (string_bytes out.new ≡ string_bytes out.old ++ end_text current) }
{
    if current.is_some() {
        out.push_str("0\n")?;
    }
    Ok(())
}

fn push_quant(out: &mut String, quant: Quant) -> Result<(), AllocError>
    ensures { OnOk result (string_bytes out.new ≡ string_bytes out.old ++ quant_text quant) }
{
    match quant {
        Quant::Exists => out.push_str("e "),
        Quant::Forall => out.push_str("a "),
    }
}

fn push_clauses(out: &mut String, formula: &Formula) -> Result<(), AllocError>
    ensures { OnOk result (string_bytes out.new ≡ string_bytes out.old ++ flat_map clause_text formula.now.clauses) }
{
    for i in 0..formula.clause_count() {
        push_clause(out, formula.clause(i))?;
    }
    Ok(())
}

fn push_clause(out: &mut String, clause: &[Lit]) -> Result<(), AllocError>
    ensures { OnOk result (string_bytes out.new ≡ string_bytes out.old ++ clause_text clause.now) }
{
    for literal in clause {
        push_literal(out, *literal)?;
    }
    out.push_str("0\n")
}

fn push_literal(out: &mut String, literal: Lit) -> Result<(), AllocError>
    ensures { OnOk result (string_bytes out.new ≡ string_bytes out.old ++ literal_text literal) }
{
    let var = literal.var;
    if literal.negative {
        write!(out, "-{var} ")
    } else {
        write!(out, "{var} ")
    }
}
