// Chains written out.
use crate::xor_chain;
use blic_model::{Formula, Lit, Quant};
use std::alloc::{AllocError, Global};
use std::test::Fail;

// The prefix, in which an existential variable stands as a negative number.
fn prefix_of(alloc: Global, formula: &Formula) -> Result<Vec<i64>, AllocError> {
    let mut prefix = Vec::new(alloc);
    for bound in formula.prefix() {
        let var = i64::from(bound.var);
        prefix.push(if bound.quant == Quant::Exists {
            -var
        } else {
            var
        })?;
    }
    Ok(prefix)
}

// The literals of each clause, with 0 behind them.
fn clauses_of(alloc: Global, formula: &Formula) -> Result<Vec<i64>, AllocError> {
    let mut literals = Vec::new(alloc);
    for i in 0..formula.clause_count() {
        for literal in formula.clause(i) {
            let Lit { var, negative } = *literal;
            let var = i64::from(var);
            literals.push(if negative { -var } else { var })?;
        }
        literals.push(0)?;
    }
    Ok(literals)
}

#[test]
fn chains_of_one_pair(rt: HostRuntime) -> Result<(), Fail> {
    for (truth, prefix) in [(true, [1, -2]), (false, [-2, 1])] {
        let chain = xor_chain(rt.alloc(), 1, truth).map_err(|_| "memory")?;
        assert_eq!(rt; chain.vars(), 2);
        assert_eq!(rt;
            prefix_of(rt.alloc(), &chain)?.as_slice(),
            prefix.as_slice()
        );
        assert_eq!(rt;
            clauses_of(rt.alloc(), &chain)?.as_slice(),
            [-1, 2, 0, 1, -2, 0].as_slice()
        );
    }
    Ok(())
}

#[test]
fn chains_of_two_pairs(rt: HostRuntime) -> Result<(), Fail> {
    let clauses = [
        -1, 2, 0, 1, -2, 0, -2, 3, 4, 0, 2, -3, 4, 0, 2, 3, -4, 0, -2, -3, -4, 0,
    ];
    for (truth, prefix) in [(true, [1, -2, 3, -4]), (false, [1, -2, -4, 3])] {
        let chain = xor_chain(rt.alloc(), 2, truth).map_err(|_| "memory")?;
        assert_eq!(rt; chain.vars(), 4);
        assert_eq!(rt;
            prefix_of(rt.alloc(), &chain)?.as_slice(),
            prefix.as_slice()
        );
        assert_eq!(rt;
            clauses_of(rt.alloc(), &chain)?.as_slice(),
            clauses.as_slice()
        );
    }
    Ok(())
}
