// Small formulas, whose truth was worked out by hand.
ghost use Rattle.std.specs.Prelude.{◌≤◌, length, IfSome};

use crate::by_cases;
use blic_model::{Bound, Formula, Lit, Quant};
use std::alloc::{AllocError, Global};
use std::test::Fail;

// A prefix: existential variables stand as negative numbers.
fn prefix_of(alloc: Global, entries: &[i32]) -> Result<Vec<Bound>, AllocError> {
    let mut prefix = Vec::new(alloc);
    for entry in entries {
        prefix.push(Bound {
            quant: if *entry < 0 {
                Quant::Exists
            } else {
                Quant::Forall
            },
            var: entry.unsigned_abs(),
        })?;
    }
    Ok(prefix)
}

// Clauses, each of which ends with 0.
fn clauses_of(alloc: Global, literals: &[i32]) -> Result<Vec<Vec<Lit>>, AllocError> {
    let mut clauses = Vec::new(alloc);
    let mut clause = Vec::new(alloc);
    for literal in literals {
        if *literal == 0 {
            clauses.push(clause)?;
            clause = Vec::new(alloc);
        } else {
            clause.push(Lit {
                var: literal.unsigned_abs(),
                negative: *literal < 0,
            })?;
        }
    }
    Ok(clauses)
}

fn truth_of(alloc: Global, vars: u32, entries: &[i32], literals: &[i32]) -> Result<bool, Fail> {
    let prefix = prefix_of(alloc, entries)?;
    let clauses = clauses_of(alloc, literals)?;
    if prefix.len() > 20 || !Formula::fits(alloc, vars, &prefix, &clauses).map_err(|_| "memory")? {
        return Err(Fail::from("no formula"));
    }
    let formula = Formula::new(vars, prefix, clauses);
    Ok(by_cases(alloc, &formula).map_err(|_| "memory")?)
}

#[test]
fn both_values_of_each_variable_are_tried(rt: HostRuntime) -> Result<(), Fail> {
    let rows: [(u32, &[i32], &[i32], bool); 9] = [
        (0, &[], &[], true),
        (1, &[], &[], true),
        (1, &[-1], &[0], false),
        (1, &[-1], &[-1, 0], true),
        (1, &[1], &[-1, 0], false),
        (1, &[1], &[1, -1, 0], true),
        // The second differs from the first.
        (2, &[1, -2], &[1, 2, 0, -1, -2, 0], true),
        (2, &[-2, 1], &[1, 2, 0, -1, -2, 0], false),
        (3, &[1, -2, 3], &[1, -2, 3, 0], true),
    ];
    for (vars, entries, literals, truth) in rows {
        assert_eq!(rt; truth_of(rt.alloc(), vars, entries, literals)?, truth);
    }
    Ok(())
}
