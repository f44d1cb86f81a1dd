// Diagrams of a few functions, made by hand.
use super::*;
use std::test::Fail;
use std::vec::Vec;

// Makes the function, if its condition holds.
fn made(store: &mut Store, level: u32, lo: Ref, hi: Ref) -> Result<Result<Ref, StoreError>, Fail> {
    if !store.holds(lo) || !store.holds(hi) {
        return Err("a ref of another store")?;
    }
    if store.depth(lo) <= u64::from(level) || store.depth(hi) <= u64::from(level) {
        return Err("a level above the function's")?;
    }
    Ok(store.make(level, lo, hi))
}

#[test]
fn a_full_store_answers_only_what_it_holds(rt: HostRuntime) -> Result<(), Fail> {
    let mut store = Store::new(rt.alloc(), 1)?;
    for (level, lo, hi, answer) in [
        (1, Ref::FALSE, Ref::TRUE, Ok(Ref::numbered(2))),
        (1, Ref::FALSE, Ref::TRUE, Ok(Ref::numbered(2))),
        (0, Ref::FALSE, Ref::TRUE, Err(StoreError::Full)),
        (0, Ref::TRUE, Ref::TRUE, Ok(Ref::TRUE)),
        (0, Ref::numbered(2), Ref::numbered(2), Ok(Ref::numbered(2))),
    ] {
        assert_eq!(rt;
            made(&mut store, level, lo, hi)?,
            answer,
            "{level} {lo:?} {hi:?}"
        );
    }
    assert_eq!(rt; store.len(), 1);
    Ok(())
}

#[test]
fn equal_functions_of_many_are_one(rt: HostRuntime) -> Result<(), Fail> {
    let mut store = Store::new(rt.alloc(), 1000)?;
    // the parities of the levels from each one on, and their negations
    let mut even = Ref::TRUE;
    let mut odd = Ref::FALSE;
    for level in (0..40u32).rev() {
        let below = (even, odd);
        even = made(&mut store, level, below.0, below.1)??;
        odd = made(&mut store, level, below.1, below.0)??;
        assert_eq!(rt; made(&mut store, level, below.0, below.1)?, Ok(even));
        assert_eq!(rt; made(&mut store, level, below.1, below.0)?, Ok(odd));
    }
    assert_eq!(rt; store.len(), 80);
    Ok(())
}

#[test]
fn a_level_is_fixed_where_it_decides(rt: HostRuntime) -> Result<(), Fail> {
    let mut store = Store::new(rt.alloc(), 2)?;
    let second = made(&mut store, 7, Ref::TRUE, Ref::FALSE)??;
    let both = made(&mut store, 3, second, Ref::TRUE)??;
    for (r, depth, level, low, high) in [
        (both, 3, 3, second, Ref::TRUE),
        (both, 3, 7, both, both),
        (second, 7, 7, Ref::TRUE, Ref::FALSE),
        (second, 7, 3, second, second),
        (Ref::FALSE, 4294967296, 3, Ref::FALSE, Ref::FALSE),
    ] {
        if !store.holds(r) {
            return Err("a ref of another store")?;
        }
        assert_eq!(rt; store.depth(r), depth);
        assert_eq!(rt; store.cofactor(r, level, false), low);
        assert_eq!(rt; store.cofactor(r, level, true), high);
        if !r.is_const() {
            assert_eq!(rt; u64::from(store.level(r)), depth);
            let low = store.low(r);
            let high = store.high(r);
            assert_eq!(rt; store.cofactor(r, store.level(r), false), low);
            assert_eq!(rt; store.cofactor(r, store.level(r), true), high);
        }
    }
    Ok(())
}
