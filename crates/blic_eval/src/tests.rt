// Polynomials and values of functions of two and three levels, which integers in Python gave.
ghost use Rattle.std.specs.Prelude.{◌≡◌, ◌<◌, ◌≤◌, IsTrue, length};
ghost use Rattle.blic_store.specs.Diagram.{IsRef};
ghost use Rattle.blic_graph.specs.Pairs.{IsGraph};
ghost use Rattle.blic_eval.specs.Lines.{HasLevels};

use super::*;
use blic_apply::Op;
use blic_basic::Steps;
use blic_field::{Fe, MODULUS};
use blic_graph::Graph;
use blic_poly2::Poly2;
use blic_store::{Ref, Store};
use std::alloc::Global;
use std::marker::Brand;
use std::sync::ledger::{Blank, Ledger};
use std::test::Fail;

// Makes the function, if its condition holds.
fn made(store: &mut Store, level: u32, lo: Ref, hi: Ref) -> Result<Ref, Fail> {
    if !store.holds(lo) || !store.holds(hi) {
        return Err("a ref of another store")?;
    }
    if store.depth(lo) <= u64::from(level) || store.depth(hi) <= u64::from(level) {
        return Err("a level above the function's")?;
    }
    Ok(store.make(level, lo, hi)?)
}

// The constant with the value of a bit.
fn constant(table: u32, k: u32) -> Ref {
    if k < 32 && (table >> k) & 1 == 1 {
        Ref::TRUE
    } else {
        Ref::FALSE
    }
}

// The function of levels 0 to 2 whose value at the point with bits k is bit k of the table.
fn function(store: &mut Store, table: u32) -> Result<Ref, Fail> {
    let first = made(store, 2, constant(table, 0), constant(table, 4))?;
    let second = made(store, 2, constant(table, 1), constant(table, 5))?;
    let third = made(store, 2, constant(table, 2), constant(table, 6))?;
    let fourth = made(store, 2, constant(table, 3), constant(table, 7))?;
    let low = made(store, 1, first, third)?;
    let high = made(store, 1, second, fourth)?;
    made(store, 0, low, high)
}

// The clauses x or y, and not x or not y, of levels 0 and 1.
fn clauses(store: &mut Store) -> Result<(Ref, Ref), Fail> {
    let y = made(store, 1, Ref::FALSE, Ref::TRUE)?;
    let not_y = made(store, 1, Ref::TRUE, Ref::FALSE)?;
    Ok((
        made(store, 0, y, Ref::TRUE)?,
        made(store, 0, Ref::TRUE, not_y)?,
    ))
}

fn element(n: u64) -> Result<Fe, Fail> {
    Ok(Fe::from_u64(n).ok_or("no element")?)
}

// Whether there are more levels than each decision's.
fn fits(store: &Store, levels: usize) -> bool
    ensures { IsTrue result → HasLevels store.now.nodes levels }
{
    store.canonical_law();
    for k in 0..store.len() {
        if store.level(Ref::numbered(k + 2)) as usize >= levels {
            return false;
        }
    }
    true
}

fn poly_counted<L: Ledger>(
    alloc: Global,
    store: &Store,
    op: Op,
    refs: (Ref, Ref),
    level: u32,
    point: &[Fe],
    blank: Blank,
) -> Result<Poly2, Fail>
    requires name { blank.name ≡ L.name }
    requires parts { blank.parts ≡ L.parts }
    requires some { 0 < L.parts }
{
    let (a, b) = refs;
    if !store.holds(a) || !store.holds(b) {
        return Err("a ref of another store")?;
    }
    if level as usize >= point.len() || !fits(store, point.len()) {
        return Err("a level past the point")?;
    }
    let graph = Graph::list(alloc, store, a, b, 1000)?;
    let mut scratch = Scratch::new(alloc, store.len(), graph.len())?;
    let mut steps = Steps::<L>::new(blank);
    Ok(poly(
        &graph,
        store,
        op,
        a,
        b,
        level,
        point,
        &mut scratch,
        &mut steps,
    ))
}

fn values_counted<L: Ledger>(
    alloc: Global,
    store: &Store,
    refs: (Ref, Ref),
    point: &[Fe],
    blank: Blank,
) -> Result<(Fe, Fe), Fail>
    requires name { blank.name ≡ L.name }
    requires parts { blank.parts ≡ L.parts }
    requires some { 0 < L.parts }
{
    let (a, b) = refs;
    if !store.holds(a) || !store.holds(b) || !fits(store, point.len()) {
        return Err("a ref of another store, or a level past the point")?;
    }
    let mut scratch = Scratch::new(alloc, store.len(), 0)?;
    let mut steps = Steps::<L>::new(blank);
    Ok(pair_values(store, a, b, point, &mut scratch, &mut steps))
}

// The polynomials of two functions in levels 0 and 1, and their values, by a scratch that was about
// others before.
fn all_counted<L: Ledger>(
    alloc: Global,
    store: &Store,
    op: Op,
    refs: (Ref, Ref),
    point: &[Fe],
    scratch: &mut Scratch,
    blank: Blank,
) -> Result<(Poly2, Poly2, (Fe, Fe)), Fail>
    requires nodes { length store.now.nodes ≤ scratch.old.nodes }
    requires pairs { 100 ≤ scratch.old.pairs }
    requires name { blank.name ≡ L.name }
    requires parts { blank.parts ≡ L.parts }
    requires some { 0 < L.parts }
    ensures nodes { scratch.new.nodes ≡ scratch.old.nodes }
    ensures pairs { scratch.new.pairs ≡ scratch.old.pairs }
{
    let (a, b) = refs;
    if !store.holds(a) || !store.holds(b) {
        return Err("a ref of another store")?;
    }
    if point.len() < 2 || !fits(store, point.len()) {
        return Err("a level past the point")?;
    }
    let graph = Graph::list(alloc, store, a, b, 100)?;
    let mut steps = Steps::<L>::new(blank);
    let top = poly(&graph, store, op, a, b, 0, point, scratch, &mut steps);
    let next = poly(&graph, store, op, a, b, 1, point, scratch, &mut steps);
    let values = pair_values(store, a, b, point, scratch, &mut steps);
    Ok((top, next, values))
}

// Whether the polynomials of two functions of three levels are the same by values that are kept level by
// level as by `poly`, which looks for all anew and then keeps as many values, and so of the two values.
fn same_by_level<L: Ledger>(
    graph: &Graph,
    store: &Store,
    op: Op,
    refs: (Ref, Ref),
    point: &[Fe],
    kept: &mut Scratch,
    anew: &mut Scratch,
    steps: &mut Steps<L>,
) -> bool
    requires a_held { IsRef store.now.nodes refs.0 }
    requires b_held { IsRef store.now.nodes refs.1 }
    requires graph { IsGraph store.now.nodes refs.0 refs.1 graph.now }
    requires levels { HasLevels store.now.nodes (length point.now) }
    requires three { length point.now ≡ 3 }
    requires kept { (length store.now.nodes ≤ kept.old.nodes) × (length graph.now ≤ kept.old.pairs) }
    requires anew { (length store.now.nodes ≤ anew.old.nodes) × (length graph.now ≤ anew.old.pairs) }
{
    let (a, b) = refs;
    let mut same = true;
    let mut level = 3;
    kept.begin(store, a, b);
    kept.keep_down(store, 3, point, steps);
    while level > 0 {
        level -= 1;
        let found = poly_kept(graph, store, op, a, b, level, point, kept, steps);
        let expected = poly(graph, store, op, a, b, level, point, anew, steps);
        same = same && found == expected && kept.kept() == anew.kept();
        kept.keep(store, level, point[level as usize], steps);
    }
    let found = values_kept(store, a, b, kept);
    same && found == pair_values(store, a, b, point, anew, steps)
}

// Whether two functions of three levels have the same polynomials and values by values that are kept
// level by level as from nothing, and how many values are kept at the end.
fn kept_counted<L: Ledger>(
    alloc: Global,
    store: &Store,
    op: Op,
    refs: (Ref, Ref),
    point: &[Fe],
    blank: Blank,
) -> Result<(bool, u32), Fail>
    requires name { blank.name ≡ L.name }
    requires parts { blank.parts ≡ L.parts }
    requires some { 0 < L.parts }
{
    if !store.holds(refs.0) || !store.holds(refs.1) {
        return Err("a ref of another store")?;
    }
    if point.len() != 3 || !fits(store, point.len()) {
        return Err("a level past the point")?;
    }
    let graph = Graph::list(alloc, store, refs.0, refs.1, 100)?;
    let mut kept = Scratch::new(alloc, store.len(), graph.len())?;
    let mut anew = Scratch::new(alloc, store.len(), graph.len())?;
    let mut steps = Steps::<L>::new(blank);
    let same = same_by_level(
        &graph, store, op, refs, point, &mut kept, &mut anew, &mut steps,
    );
    Ok((same, kept.kept()))
}

// The values of both functions at a point, by a scratch that kept their values at another point before,
// and how many values it kept after it was told to forget them.
fn values_again_counted<L: Ledger>(
    alloc: Global,
    store: &Store,
    refs: (Ref, Ref),
    before: &[Fe],
    point: &[Fe],
    blank: Blank,
) -> Result<(u32, (Fe, Fe)), Fail>
    requires name { blank.name ≡ L.name }
    requires parts { blank.parts ≡ L.parts }
    requires some { 0 < L.parts }
{
    let (a, b) = refs;
    if !store.holds(a) || !store.holds(b) {
        return Err("a ref of another store")?;
    }
    if !fits(store, before.len()) || !fits(store, point.len()) {
        return Err("a level past the point")?;
    }
    let mut scratch = Scratch::new(alloc, store.len(), 0)?;
    let mut steps = Steps::<L>::new(blank);
    pair_values(store, a, b, before, &mut scratch, &mut steps);
    scratch.forget();
    let forgotten = scratch.kept();
    scratch.keep_down(store, 0, point, &mut steps);
    Ok((forgotten, values_kept(store, a, b, &scratch)))
}

fn numbers(p: &Poly2) -> (u64, u64, u64) {
    (p.c0.value(), p.c1.value(), p.c2.value())
}

fn poly_of(
    alloc: Global,
    store: &Store,
    op: Op,
    refs: (Ref, Ref),
    level: u32,
    point: &[Fe],
) -> Result<(u64, u64, u64), Fail> {
    let p = poly_counted::<Brand>(alloc, store, op, refs, level, point, Blank::new(1))?;
    Ok(numbers(&p))
}

fn values_of(
    alloc: Global,
    store: &Store,
    refs: (Ref, Ref),
    point: &[Fe],
) -> Result<(u64, u64), Fail> {
    let (u, w) = values_counted::<Brand>(alloc, store, refs, point, Blank::new(1))?;
    Ok((u.value(), w.value()))
}

// What the scratch finds: the polynomials in levels 0 and 1, and the values.
fn all_of(
    alloc: Global,
    store: &Store,
    op: Op,
    refs: (Ref, Ref),
    scratch: &mut Scratch,
) -> Result<((u64, u64, u64), (u64, u64, u64), (u64, u64)), Fail>
    requires nodes { length store.now.nodes ≤ scratch.old.nodes }
    requires pairs { 100 ≤ scratch.old.pairs }
    ensures nodes { scratch.new.nodes ≡ scratch.old.nodes }
    ensures pairs { scratch.new.pairs ≡ scratch.old.pairs }
{
    let point = [element(7)?, element(11)?, element(13)?];
    let (top, next, values) = all_counted::<Brand>(
        alloc,
        store,
        op,
        refs,
        &point,
        scratch,
        Blank::new(1),
    )?;
    Ok((
        numbers(&top),
        numbers(&next),
        (values.0.value(), values.1.value()),
    ))
}

// Whether values kept level by level give the same, and how many are kept at the end.
fn kept_of(alloc: Global, store: &Store, op: Op, refs: (Ref, Ref)) -> Result<(bool, u32), Fail> {
    let point = [element(7)?, element(11)?, element(13)?];
    kept_counted::<Brand>(alloc, store, op, refs, &point, Blank::new(1))
}

// How many values were kept once those at another point were forgotten, and the values found then.
fn values_again(alloc: Global, store: &Store, refs: (Ref, Ref)) -> Result<(u32, (u64, u64)), Fail> {
    let before = [element(2)?, element(3)?, element(5)?];
    let point = [element(7)?, element(11)?, element(13)?];
    let (forgotten, (u, w)) = values_again_counted::<Brand>(
        alloc,
        store,
        refs,
        &before,
        &point,
        Blank::new(1),
    )?;
    Ok((forgotten, (u.value(), w.value())))
}

#[test]
fn two_clauses_have_their_polynomials_and_values(rt: HostRuntime) -> Result<(), Fail> {
    let mut store = Store::new(rt.alloc(), 100)?;
    let both = clauses(&mut store)?;
    for (level, x, y, expected) in [
        (1, 3, 0, (3, MODULUS - 5, 0)),
        (0, 0, 5, (5, MODULUS - 29, 20)),
    ] {
        let found = poly_of(
            rt.alloc(),
            &store,
            Op::And,
            both,
            level,
            &[element(x)?, element(y)?],
        )?;
        assert_eq!(rt; found, expected, "level {level}");
    }
    let found = values_of(rt.alloc(), &store, both, &[element(2)?, element(5)?])?;
    assert_eq!(rt; found, (MODULUS - 3, MODULUS - 9));
    Ok(())
}

#[test]
fn functions_of_three_levels_are_joined(rt: HostRuntime) -> Result<(), Fail> {
    for (op, first, second, level, expected) in [
        (
            Op::And,
            0x6a,
            0x1d,
            0,
            (MODULUS - 20306, 41900, MODULUS - 2850),
        ),
        (Op::And, 0x6a, 0x1d, 1, (0, MODULUS - 162, 2106)),
        (Op::Or, 0x6a, 0x1d, 2, (1, 66, MODULUS - 143)),
        (Op::Or, 0xca, 0x96, 0, (37347, MODULUS - 77706, 6300)),
        (
            Op::Or,
            0xca,
            0x96,
            1,
            (MODULUS - 1254, 4544, MODULUS - 4225),
        ),
        (Op::And, 0xca, 0x96, 2, (MODULUS - 70, 151, MODULUS - 4)),
        (Op::And, 0xaa, 0xf0, 1, (91, 0, 0)),
        (Op::Or, 0xf0, 0xcc, 0, (MODULUS - 119, 0, 0)),
        (Op::And, 0xff, 0x96, 1, (MODULUS - 162, 325, 0)),
        (Op::Or, 0xff, 0x96, 1, (1, 0, 0)),
        (Op::And, 0, 0x96, 2, (0, 0, 0)),
        (Op::Or, 0x96, 0, 0, (MODULUS - 262, 525, 0)),
    ] {
        let mut store = Store::new(rt.alloc(), 100)?;
        let refs = (function(&mut store, first)?, function(&mut store, second)?);
        let point = [element(7)?, element(11)?, element(13)?];
        let found = poly_of(rt.alloc(), &store, op, refs, level, &point)?;
        assert_eq!(rt; found, expected, "{first} and {second} at {level}");
    }
    Ok(())
}

#[test]
fn functions_of_three_levels_have_their_values(rt: HostRuntime) -> Result<(), Fail> {
    for (first, second, expected) in [
        (0x6a, 0x1d, (MODULUS - 1852, MODULUS - 72)),
        (0x96, 0xff, (3413, 1)),
        (0, 0x96, (0, 3413)),
    ] {
        let mut store = Store::new(rt.alloc(), 100)?;
        let refs = (function(&mut store, first)?, function(&mut store, second)?);
        let point = [element(7)?, element(11)?, element(13)?];
        let found = values_of(rt.alloc(), &store, refs, &point)?;
        assert_eq!(rt; found, expected, "{first} and {second}");
    }
    Ok(())
}

#[test]
fn one_scratch_serves_functions_in_turn_beside_many_others(rt: HostRuntime) -> Result<(), Fail> {
    let mut store = Store::new(rt.alloc(), 100)?;
    function(&mut store, 0x17)?;
    let first = (function(&mut store, 0x6a)?, function(&mut store, 0x1d)?);
    function(&mut store, 0xe8)?;
    let second = (function(&mut store, 0xca)?, function(&mut store, 0x96)?);
    function(&mut store, 0x81)?;
    let mut scratch = Scratch::new(rt.alloc(), store.len(), 100)?;
    let of_first = (
        (MODULUS - 20306, 41900, MODULUS - 2850),
        (0, MODULUS - 162, 2106),
        (MODULUS - 1852, MODULUS - 72),
    );
    let of_second = (
        (37347, MODULUS - 77706, 6300),
        (MODULUS - 1254, 4544, MODULUS - 4225),
        (59, 3413),
    );
    let found = all_of(rt.alloc(), &store, Op::And, first, &mut scratch)?;
    assert_eq!(rt; found, of_first);
    let found = all_of(rt.alloc(), &store, Op::Or, second, &mut scratch)?;
    assert_eq!(rt; found, of_second);
    let found = all_of(rt.alloc(), &store, Op::And, first, &mut scratch)?;
    assert_eq!(rt; found, of_first);
    Ok(())
}

#[test]
fn values_kept_level_by_level_give_the_same_polynomials(rt: HostRuntime) -> Result<(), Fail> {
    for (op, first, second, decisions) in [
        (Op::And, 0x6a, 0x1d, 7),
        (Op::Or, 0xca, 0x96, 8),
        (Op::And, 0xaa, 0xf0, 2),
        (Op::Or, 0xff, 0x96, 5),
        (Op::And, 0x96, 0x96, 5),
        (Op::Or, 0, 0xff, 0),
    ] {
        let mut store = Store::new(rt.alloc(), 100)?;
        function(&mut store, 0x17)?;
        let refs = (function(&mut store, first)?, function(&mut store, second)?);
        let found = kept_of(rt.alloc(), &store, op, refs)?;
        assert_eq!(rt; found, (true, decisions), "{first} and {second}");
    }
    Ok(())
}

#[test]
fn forgotten_values_are_found_anew_at_another_point(rt: HostRuntime) -> Result<(), Fail> {
    let mut store = Store::new(rt.alloc(), 100)?;
    let refs = (function(&mut store, 0x6a)?, function(&mut store, 0x1d)?);
    let (forgotten, values) = values_again(rt.alloc(), &store, refs)?;
    assert_eq!(rt; forgotten, 0);
    assert_eq!(rt; values, (MODULUS - 1852, MODULUS - 72));
    Ok(())
}
