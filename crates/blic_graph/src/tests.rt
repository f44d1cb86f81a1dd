// The pairs of a few functions, made by hand.
use super::*;
use blic_store::{Ref, Store};
use std::alloc::Global;
use std::test::Fail;
use std::vec::Vec;

// Makes the function, if its condition holds.
fn made(store: &mut Store, level: u32, lo: Ref, hi: Ref) -> Result<Ref, Fail> {
    if !store.holds(lo) || !store.holds(hi) {
        return Err("a ref of another store")?;
    }
    if store.depth(lo) <= u64::from(level) || store.depth(hi) <= u64::from(level) {
        return Err("a level above the function's")?;
    }
    Ok(store.make(level, lo, hi)?)
}

// Lists the pairs, if its condition holds, and shows each one.
fn listed(
    alloc: Global,
    store: &Store,
    a: Ref,
    b: Ref,
    most: u64,
) -> Result<Result<Vec<Pair>, GraphError>, Fail> {
    if !store.holds(a) || !store.holds(b) || most >= 4294967296 {
        return Err("no call")?;
    }
    let graph = match Graph::list(alloc, store, a, b, most) {
        Ok(graph) => graph,
        Err(error) => return Ok(Err(error)),
    };
    let mut pairs = Vec::new(alloc);
    for k in 0..graph.len() {
        let (first, second) = graph.pair(k);
        let (low, high) = graph.children(k);
        let level = graph.level(k);
        if !graph.settled(k, level) || (level < 9 && graph.settled(k, level + 1)) {
            return Err("settled at another level")?;
        }
        pairs.push(Pair {
            level,
            first,
            second,
            low,
            high,
        })?;
    }
    Ok(Ok(pairs))
}

// A pair as a row.
fn row(level: u32, first: Ref, second: Ref, low: Side, high: Side) -> Pair {
    Pair {
        level,
        first,
        second,
        low,
        high,
    }
}

#[test]
fn exclusive_or_of_two_has_one_pair(rt: HostRuntime) -> Result<(), Fail> {
    let mut store = Store::new(rt.alloc(), 10)?;
    let y = made(&mut store, 1, Ref::FALSE, Ref::TRUE)?;
    let not_y = made(&mut store, 1, Ref::TRUE, Ref::FALSE)?;
    let some = made(&mut store, 0, y, Ref::TRUE)?;
    let not_all = made(&mut store, 0, Ref::TRUE, not_y)?;
    let pairs = listed(rt.alloc(), &store, some, not_all, 1)??;
    let only = row(
        0,
        some,
        not_all,
        Side::Done(y, Ref::TRUE),
        Side::Done(Ref::TRUE, not_y),
    );
    assert_eq!(rt; pairs.as_slice(), [only].as_slice());
    assert_eq!(rt;
        listed(rt.alloc(), &store, some, not_all, 0)?,
        Err(GraphError::PairsFull)
    );
    Ok(())
}

#[test]
fn equal_operands_are_no_special_case(rt: HostRuntime) -> Result<(), Fail> {
    let mut store = Store::new(rt.alloc(), 10)?;
    let y = made(&mut store, 1, Ref::FALSE, Ref::TRUE)?;
    let some = made(&mut store, 0, y, Ref::TRUE)?;
    let pairs = listed(rt.alloc(), &store, some, some, 2)??;
    let rows = [
        row(
            0,
            some,
            some,
            Side::Pair(1),
            Side::Done(Ref::TRUE, Ref::TRUE),
        ),
        row(
            1,
            y,
            y,
            Side::Done(Ref::FALSE, Ref::FALSE),
            Side::Done(Ref::TRUE, Ref::TRUE),
        ),
    ];
    assert_eq!(rt; pairs.as_slice(), rows.as_slice());
    assert_eq!(rt;
        listed(rt.alloc(), &store, some, some, 1)?,
        Err(GraphError::PairsFull)
    );
    for (a, b) in [
        (Ref::FALSE, some),
        (some, Ref::TRUE),
        (Ref::TRUE, Ref::TRUE),
    ] {
        assert_eq!(rt; listed(rt.alloc(), &store, a, b, 0)??.len(), 0);
    }
    Ok(())
}

#[test]
fn pairs_found_out_of_order_are_listed_by_level(rt: HostRuntime) -> Result<(), Fail> {
    let mut store = Store::new(rt.alloc(), 10)?;
    let deep = made(&mut store, 9, Ref::FALSE, Ref::TRUE)?;
    let late = made(&mut store, 5, Ref::FALSE, deep)?;
    let early = made(&mut store, 3, Ref::TRUE, late)?;
    let top = made(&mut store, 0, late, early)?;
    let pairs = listed(rt.alloc(), &store, top, late, 4)??;
    let rows = [
        row(0, top, late, Side::Pair(2), Side::Pair(1)),
        row(3, early, late, Side::Done(Ref::TRUE, late), Side::Pair(2)),
        row(
            5,
            late,
            late,
            Side::Done(Ref::FALSE, Ref::FALSE),
            Side::Pair(3),
        ),
        row(
            9,
            deep,
            deep,
            Side::Done(Ref::FALSE, Ref::FALSE),
            Side::Done(Ref::TRUE, Ref::TRUE),
        ),
    ];
    assert_eq!(rt; pairs.as_slice(), rows.as_slice());
    assert_eq!(rt;
        listed(rt.alloc(), &store, top, late, 3)?,
        Err(GraphError::PairsFull)
    );
    Ok(())
}

#[test]
fn a_lister_that_was_full_lists_the_next_two(rt: HostRuntime) -> Result<(), Fail> {
    let mut store = Store::new(rt.alloc(), 10)?;
    let deep = made(&mut store, 9, Ref::FALSE, Ref::TRUE)?;
    let late = made(&mut store, 5, Ref::FALSE, deep)?;
    let early = made(&mut store, 3, Ref::TRUE, late)?;
    let top = made(&mut store, 0, late, early)?;
    if !store.holds(top) || !store.holds(early) || !store.holds(late) {
        return Err("a ref of another store")?;
    }
    let mut lister = Lister::new(rt.alloc())?;
    for (first, most, listed) in [
        (top, 3, None),
        (early, 3, Some(3)),
        (late, 1, None),
        (Ref::TRUE, 0, Some(0)),
        (top, 4, Some(4)),
    ] {
        if !store.holds(first) {
            return Err("a ref of another store")?;
        }
        let count = match lister.list(&store, first, late, most) {
            Ok(graph) => {
                let count = graph.len();
                lister.reuse(graph);
                Some(count)
            }
            Err(_) => None,
        };
        assert_eq!(rt; count, listed, "{first:?} {most}");
    }
    Ok(())
}
