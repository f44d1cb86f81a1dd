// The operations on functions of three levels, against their truth tables, and on a deep diagram.
use super::*;
use blic_graph::Graph;
use blic_store::{Ref, Store, StoreError};
use std::alloc::Global;
use std::test::Fail;

// Makes the function, if its condition holds.
fn made(store: &mut Store, level: u32, lo: Ref, hi: Ref) -> Result<Ref, Fail> {
    if !store.holds(lo) || !store.holds(hi) {
        return Err("a ref of another store")?;
    }
    if store.depth(lo) <= u64::from(level) || store.depth(hi) <= u64::from(level) {
        return Err("a level above the function's")?;
    }
    Ok(store.make(level, lo, hi)?)
}

// The constant with the value of a bit.
fn constant(table: u32, k: u32) -> Ref {
    if k < 32 && (table >> k) & 1 == 1 {
        Ref::TRUE
    } else {
        Ref::FALSE
    }
}

// The function of levels 0 to 2 whose value at the point with bits k is bit k of the table.
fn function(store: &mut Store, table: u32) -> Result<Ref, Fail> {
    let first = made(store, 2, constant(table, 0), constant(table, 4))?;
    let second = made(store, 2, constant(table, 1), constant(table, 5))?;
    let third = made(store, 2, constant(table, 2), constant(table, 6))?;
    let fourth = made(store, 2, constant(table, 3), constant(table, 7))?;
    let low = made(store, 1, first, third)?;
    let high = made(store, 1, second, fourth)?;
    made(store, 0, low, high)
}

// The table of a function, by a walk for each point.
fn table_of(store: &Store, r: Ref) -> Result<u32, Fail> {
    let mut table = 0;
    for k in 0..8u32 {
        let mut at = r;
        for level in 0..3u32 {
            if !store.holds(at) {
                return Err("a ref of another store")?;
            }
            at = store.cofactor(at, level, (k >> level) & 1 == 1);
        }
        if at == Ref::TRUE {
            table |= 1 << k;
        } else if at != Ref::FALSE {
            return Err("no constant at a point")?;
        }
    }
    Ok(table)
}

// The operations, if their conditions hold.
fn combined(
    alloc: Global,
    store: &mut Store,
    op: Op,
    a: Ref,
    b: Ref,
) -> Result<Result<Ref, StoreError>, Fail> {
    if !store.holds(a) || !store.holds(b) {
        return Err("a ref of another store")?;
    }
    let graph = Graph::list(alloc, store, a, b, 1000000)?;
    Ok(combine(alloc, store, &graph, op, a, b))
}

fn negated(alloc: Global, store: &mut Store, a: Ref) -> Result<Result<Ref, StoreError>, Fail> {
    if !store.holds(a) {
        return Err("a ref of another store")?;
    }
    Ok(negate(alloc, store, a))
}

fn fixed(
    alloc: Global,
    store: &mut Store,
    a: Ref,
    level: u32,
    bit: bool,
) -> Result<Result<Ref, StoreError>, Fail> {
    if !store.holds(a) {
        return Err("a ref of another store")?;
    }
    Ok(fix(alloc, store, a, level, bit))
}

#[test]
fn two_functions_are_combined_at_each_point(rt: HostRuntime) -> Result<(), Fail> {
    let mut store = Store::new(rt.alloc(), 1000)?;
    for first in (0..256u32).step_by(15) {
        for second in (0..256u32).step_by(17) {
            let a = function(&mut store, first)?;
            let b = function(&mut store, second)?;
            let and = combined(rt.alloc(), &mut store, Op::And, a, b)??;
            let or = combined(rt.alloc(), &mut store, Op::Or, a, b)??;
            assert_eq!(rt;
                table_of(&store, and)?,
                first & second,
                "{first} and {second}"
            );
            assert_eq!(rt;
                table_of(&store, or)?,
                first | second,
                "{first} or {second}"
            );
        }
    }
    Ok(())
}

#[test]
fn a_function_is_negated_at_each_point(rt: HostRuntime) -> Result<(), Fail> {
    let mut store = Store::new(rt.alloc(), 1000)?;
    for table in 0..256u32 {
        let a = function(&mut store, table)?;
        let not = negated(rt.alloc(), &mut store, a)??;
        assert_eq!(rt; table_of(&store, not)?, 255 - table, "{table}");
        assert_eq!(rt; negated(rt.alloc(), &mut store, not)?, Ok(a), "{table}");
    }
    Ok(())
}

#[test]
fn a_level_is_fixed_at_each_point(rt: HostRuntime) -> Result<(), Fail> {
    let mut store = Store::new(rt.alloc(), 1000)?;
    // the points at which the level's bit is 0, and how far those lie at which it is 1
    for (level, zeros, far) in [(0, 0x55, 1), (1, 0x33, 2), (2, 0x0f, 4)] {
        for table in 0..256u32 {
            let a = function(&mut store, table)?;
            let low = fixed(rt.alloc(), &mut store, a, level, false)??;
            let high = fixed(rt.alloc(), &mut store, a, level, true)??;
            let at_zero = table & zeros;
            let at_one = (table >> far) & zeros;
            assert_eq!(rt;
                table_of(&store, low)?,
                at_zero | (at_zero << far),
                "{table} {level}"
            );
            assert_eq!(rt;
                table_of(&store, high)?,
                at_one | (at_one << far),
                "{table} {level}"
            );
        }
    }
    Ok(())
}

// What is done to a function.
#[derive(Clone, Copy, Debug)]
enum Work {
    Combine(Op, u32),
    Negate,
    Fix(u32, bool),
}

// The work on the function with the table.
fn worked(
    alloc: Global,
    store: &mut Store,
    table: u32,
    work: Work,
) -> Result<Result<Ref, StoreError>, Fail> {
    let a = function(store, table)?;
    match work {
        Work::Combine(op, other) => {
            let b = function(store, other)?;
            combined(alloc, store, op, a, b)
        }
        Work::Negate => negated(alloc, store, a),
        Work::Fix(level, bit) => fixed(alloc, store, a, level, bit),
    }
}

#[test]
fn a_store_is_full_exactly_where_the_parts_pass_its_limit(rt: HostRuntime) -> Result<(), Fail> {
    // with the decisions of the functions, and of these and the answer's parts together
    for (table, work, before, after) in [
        (0xaa, Work::Combine(Op::And, 0xcc), 2, 3),
        (0xaa, Work::Combine(Op::Or, 0xcc), 2, 3),
        (0xaa, Work::Combine(Op::Or, 0xff), 1, 1),
        (0x96, Work::Combine(Op::And, 0x80), 7, 7),
        (0x80, Work::Negate, 3, 6),
        (0x96, Work::Negate, 5, 6),
        (0x80, Work::Fix(0, true), 3, 3),
        (0x80, Work::Fix(1, true), 3, 4),
        (0x80, Work::Fix(2, true), 3, 5),
    ] {
        for limit in before..=after {
            let mut store = Store::new(rt.alloc(), limit)?;
            let answer = worked(rt.alloc(), &mut store, table, work)?;
            if limit < after {
                assert_eq!(rt; answer, Err(StoreError::Full), "{table} {work:?} {limit}");
            } else {
                assert!(rt; answer.is_ok(), "{table} {work:?} {limit}");
            }
            assert_eq!(rt; store.len(), limit, "{table} {work:?}");
        }
    }
    Ok(())
}

#[test]
fn a_diagram_of_many_levels_is_no_matter(rt: HostRuntime) -> Result<(), Fail> {
    let mut store = Store::new(rt.alloc(), 100000)?;
    let mut all = Ref::TRUE;
    for level in (0..2000u32).rev() {
        all = made(&mut store, level, Ref::FALSE, all)?;
    }
    let not = negated(rt.alloc(), &mut store, all)??;
    assert_eq!(rt; store.len(), 4000);
    assert_eq!(rt; negated(rt.alloc(), &mut store, not)?, Ok(all));
    let most = fixed(rt.alloc(), &mut store, all, 1000, true)??;
    assert_eq!(rt; store.len(), 5000);
    assert_eq!(rt;
        combined(rt.alloc(), &mut store, Op::And, all, most)?,
        Ok(all)
    );
    assert_eq!(rt;
        combined(rt.alloc(), &mut store, Op::Or, all, most)?,
        Ok(most)
    );
    assert_eq!(rt;
        fixed(rt.alloc(), &mut store, all, 1000, false)?,
        Ok(Ref::FALSE)
    );
    Ok(())
}
