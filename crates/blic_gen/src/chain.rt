// Chains of exclusive ors.
ghost use Rattle.std.specs.Prelude.{◌≡◌, ◌≤◌, ◌<◌, ◌+◌, ◌++◌, ◌∷◌, [], map, IfOk};
ghost use Rattle.blic_gen.specs.Chain.{chain, clauses_of, entries_of, link, minus as minus_of, plus as plus_of, prefix_of, xor};

use crate::laws::chain_law;
use blic_basic::NoMem;
use blic_model::{Bound, Formula, Lit, Quant};
use std::alloc::Global;

/// The formula of `2n` variables that says: each of `n` existential variables is the exclusive or of
/// the one before and a universal variable, and the first is the first universal variable; `n` is from
/// 1 to 500. With `truth` each universal variable stands before the existential one of its pair, which
/// makes the formula true. Without it the last two entries of the prefix are swapped, which makes it
/// false. Contracts say which formula it is, and nothing of its truth.
pub fn xor_chain(alloc: Global, n: u32, truth: bool) -> Result<Formula, NoMem>
    requires { (1 ≤ n) × (n ≤ 500) }
    ensures { IfOk result (λ f. f ≡ chain n truth) }
{
    chain_law();
    let prefix = prefix(alloc, n, truth)?;
    let clauses = clauses(alloc, n)?;
    Ok(Formula::new(2 * n, prefix, clauses))
}

fn prefix(alloc: Global, n: u32, truth: bool) -> Result<Vec<Bound>, NoMem>
    requires { n ≤ 500 }
    ensures { IfOk result (λ p. p.items ≡ prefix_of n truth) }
{
    let mut prefix = Vec::new(alloc);
    for k in 0..n {
        let (outer, inner) = entries(n, truth, k);
        prefix.push(outer)?;
        prefix.push(inner)?;
    }
    Ok(prefix)
}

// The two entries of a pair, the outer one first.
fn entries(n: u32, truth: bool, k: u32) -> (Bound, Bound)
    requires { (n ≤ 500) × (k < n) }
    ensures { result.0 ∷ result.1 ∷ [] ≡ entries_of n truth k }
{
    let universal = Bound {
        quant: Quant::Forall,
        var: 2 * k + 1,
    };
    let existential = Bound {
        quant: Quant::Exists,
        var: 2 * k + 2,
    };
    if truth || k + 1 < n {
        (universal, existential)
    } else {
        (existential, universal)
    }
}

fn clauses(alloc: Global, n: u32) -> Result<Vec<Vec<Lit>>, NoMem>
    requires { n ≤ 500 }
    ensures { IfOk result (λ c. map (λ d. d.items) c.items ≡ clauses_of n) }
{
    let mut clauses = Vec::new(alloc);
    for k in 0..n {
        add_link(alloc, &mut clauses, k)?;
    }
    Ok(clauses)
}

// Adds the clauses of a pair of variables.
fn add_link(alloc: Global, clauses: &mut Vec<Vec<Lit>>, k: u32) -> Result<(), NoMem>
    requires { k < 500 }
    ensures { IfOk result (λ done. map (λ d. d.items) clauses.new.items ≡ map (λ d. d.items) clauses.old.items ++ link k) }
{
    if k == 0 {
        add(alloc, clauses, &[minus(1), plus(2)])?;
        return add(alloc, clauses, &[plus(1), minus(2)]);
    }
    add_xor(alloc, clauses, 2 * k, 2 * k + 1, 2 * k + 2)
}

// Adds the clauses which say that e is the exclusive or of d and u.
fn add_xor(alloc: Global, clauses: &mut Vec<Vec<Lit>>, d: u32, u: u32, e: u32) -> Result<(), NoMem>
    ensures { IfOk result (λ done. map (λ d. d.items) clauses.new.items ≡ map (λ d. d.items) clauses.old.items ++ xor d u e) }
{
    add(alloc, clauses, &[minus(d), plus(u), plus(e)])?;
    add(alloc, clauses, &[plus(d), minus(u), plus(e)])?;
    add(alloc, clauses, &[plus(d), plus(u), minus(e)])?;
    add(alloc, clauses, &[minus(d), minus(u), minus(e)])
}

fn add(alloc: Global, clauses: &mut Vec<Vec<Lit>>, clause: &[Lit]) -> Result<(), NoMem>
    ensures { IfOk result (λ done. map (λ d. d.items) clauses.new.items ≡ map (λ d. d.items) clauses.old.items ++ clause.now ∷ []) }
{
    clauses.push(clause.to_vec(alloc)?)?;
    Ok(())
}

fn plus(var: u32) -> Lit
    ensures { result ≡ plus_of var }
{
    Lit {
        var,
        negative: false,
    }
}

fn minus(var: u32) -> Lit
    ensures { result ≡ minus_of var }
{
    Lit {
        var,
        negative: true,
    }
}
