// The meaning of small formulas, and which parts make a formula.
ghost use Rattle.std.specs.Prelude.{◌≡◌, [], ◌∷◌, true, false};
ghost use Rattle.blic_model.specs.Formula.{PrenexFormula};
ghost use Rattle.blic_model.specs.Truth.{truth};
ghost use Rattle.blic_model.specs.declared.prefix.Quant.TheVariants.{Exists, Forall};

use crate::{Bound, Formula, Lit, Quant};
use std::alloc::{AllocError, Global};
use std::test::Fail;

// Variable 1 differs from variable 2: for each 1 there is such a 2, but no 2 differs from each 1.
fn order_of_quantifiers_matters()
    ensures inner_exists { truth (record {
      vars = 2;
      prefix = record { quant = Forall; var = 1 } ∷ record { quant = Exists; var = 2 } ∷ [];
      clauses = (record { var = 1; negative = false } ∷ record { var = 2; negative = false } ∷ [])
          ∷ (record { var = 1; negative = true } ∷ record { var = 2; negative = true } ∷ []) ∷ [];
    }) ≡ true }
    ensures inner_forall { truth (record {
      vars = 2;
      prefix = record { quant = Exists; var = 2 } ∷ record { quant = Forall; var = 1 } ∷ [];
      clauses = (record { var = 1; negative = false } ∷ record { var = 2; negative = false } ∷ [])
          ∷ (record { var = 1; negative = true } ∷ record { var = 2; negative = true } ∷ []) ∷ [];
    }) ≡ false }
    ensures no_clause { truth (record { vars = 0; prefix = []; clauses = [] }) ≡ true }
    ensures empty_clause { truth (record { vars = 1; prefix = []; clauses = [] ∷ [] }) ≡ false }
{}

fn prefix_of(alloc: Global, vars: &[u32]) -> Result<Vec<Bound>, AllocError> {
    let mut prefix = Vec::new(alloc);
    for var in vars {
        prefix.push(Bound {
            quant: Quant::Exists,
            var: *var,
        })?;
    }
    Ok(prefix)
}

fn clause_of(alloc: Global, vars: &[u32]) -> Result<Vec<Lit>, AllocError> {
    let mut clause = Vec::new(alloc);
    for var in vars {
        clause.push(Lit {
            var: *var,
            negative: false,
        })?;
    }
    Ok(clause)
}

fn fits(alloc: Global, vars: u32, bound: &[u32], clauses: &Vec<Vec<Lit>>) -> Result<bool, Fail> {
    let prefix = prefix_of(alloc, bound)?;
    Ok(Formula::fits(alloc, vars, &prefix, clauses).map_err(|_| "memory")?)
}

#[test]
fn parts_fit_where_variables_are_in_range_and_bound_once(rt: HostRuntime) -> Result<(), Fail> {
    let alloc = rt.alloc();
    order_of_quantifiers_matters();
    let mut clauses = Vec::new(alloc);
    clauses.push(clause_of(alloc, &[1, 3, 3])?)?;
    clauses.push(clause_of(alloc, &[])?)?;
    assert_eq!(rt; fits(alloc, 3, &[1, 3], &clauses)?, true);
    assert_eq!(rt; fits(alloc, 65_535, &[65_535, 3, 1], &clauses)?, true);
    assert_eq!(rt;
        fits(alloc, 65_536, &[1, 3], &clauses)?,
        false,
        "too many variables"
    );
    assert_eq!(rt; fits(alloc, 3, &[1], &clauses)?, false, "3 is not bound");
    assert_eq!(rt;
        fits(alloc, 3, &[1, 3, 1], &clauses)?,
        false,
        "1 is bound twice"
    );
    assert_eq!(rt;
        fits(alloc, 3, &[0, 1, 3], &clauses)?,
        false,
        "0 is no variable"
    );
    assert_eq!(rt;
        fits(alloc, 2, &[1, 3], &clauses)?,
        false,
        "3 is no variable"
    );
    Ok(())
}

#[test]
fn at_most_a_million_literals(rt: HostRuntime) -> Result<(), Fail> {
    let alloc = rt.alloc();
    let literal = Lit {
        var: 1,
        negative: true,
    };
    let mut clauses = Vec::new(alloc);
    clauses.push(vec![in alloc; literal; 1_048_576]?)?;
    assert_eq!(rt; fits(alloc, 1, &[1], &clauses)?, true);
    clauses.push(clause_of(alloc, &[1])?)?;
    assert_eq!(rt; fits(alloc, 1, &[1], &clauses)?, false);
    Ok(())
}

#[test]
fn a_formula_shows_its_parts(rt: HostRuntime) -> Result<(), Fail> {
    let alloc = rt.alloc();
    let formula = Formula::new(7, Vec::new(alloc), Vec::new(alloc));
    formula.is_within_limits();
    assert_eq!(rt; formula.vars(), 7);
    assert_eq!(rt; formula.prefix().len(), 0);
    assert_eq!(rt; formula.clause_count(), 0);
    Ok(())
}
