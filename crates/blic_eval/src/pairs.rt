// The polynomials of pairs of functions that are joined.
ghost use Rattle.std.specs.Prelude.{◌≡◌, ◌+◌, ◌*◌, ◌<◌, ◌≤◌, ℕ, [], suc, cond, length, min, slice_index_or};
ghost use Rattle.blic_field.specs.Quadratic.{at, HasElements};
ghost use Rattle.blic_poly2.specs.Poly.{lin_at};
ghost use Rattle.blic_store.specs.Diagram.{IsRef, decision_at, function};
ghost use Rattle.blic_graph.specs.Pairs.{IsGraph, pair_at};
ghost use Rattle.blic_eval.specs.Extension.{joined, joined_poly};
ghost use Rattle.blic_eval.specs.Kept.{HasKept, IsDownTo};
ghost use Rattle.blic_eval.specs.Lines.{HasLevels, HasLines, line_of, point_of};
ghost use Rattle.blic_eval.specs.Reached.{IsReached};
ghost use Rattle.blic_eval.specs.Sides.{HasPolys, HasTables, IsFirstUnder, IsGraphOfReached, IsInTables, IsPairPoly, is_under, leaf_of, poly_of_side, widened_of};

use crate::lines::{blended, constant, fill_lines, line};
use crate::scratch::Scratch;
use blic_apply::Op;
use blic_basic::Steps;
use blic_field::Fe;
use blic_graph::{Graph, Side};
use blic_poly2::{Lin, Poly2};
use blic_store::{Ref, Store};
use std::sync::ledger::Ledger;

/// The polynomial, in the variable of `level`, of the operation on `a` and `b`, with all levels above
/// `level` made linear and the others at the point, which has an element for each level. The graph
/// lists the pairs of `a` and `b` (their product as BDDs). The scratch is about the two from then on,
/// and keeps the values of the decisions (nodes of BDDs) whose level is greater than `level`.
///
/// It makes at most 2*N + 4*P products of elements, where N is the number of the store's decisions
/// and P that of the graph's pairs.
pub fn poly<L: Ledger>(
    graph: &Graph,
    store: &Store,
    op: Op,
    a: Ref,
    b: Ref,
    level: u32,
    point: &[Fe],
    scratch: &mut Scratch,
    steps: &mut Steps<L>,
) -> Poly2
    requires a_held { IsRef store.now.nodes a }
    requires b_held { IsRef store.now.nodes b }
    requires graph { IsGraph store.now.nodes a b graph.now }
    requires levels { (k : ℕ) → k < length store.now.nodes → (decision_at store.now.nodes k).level < length point.now }
    requires level { level < length point.now }
    requires room { (length store.now.nodes ≤ scratch.old.nodes) × (length graph.now ≤ scratch.old.pairs) }
    ensures poly { result ≡ joined_poly op (function store.now.nodes a) (function store.now.nodes b) (length point.now) level (λ x. slice_index_or point.now x 0) }
    ensures nodes { scratch.new.nodes ≡ scratch.old.nodes }
    ensures pairs { scratch.new.pairs ≡ scratch.old.pairs }
    ensures reached { IsReached store.now.nodes a b scratch.new.reached }
    ensures at_most { steps.new ≤ steps.old + (2 * length store.now.nodes + 4 * length graph.now) }
    ensures at_least { steps.old ≤ steps.new }
{
    scratch.begin(store, a, b);
    scratch.keep_down(store, u64::from(level) + 1, point, steps);
    poly_kept(graph, store, op, a, b, level, point, scratch, steps)
}

/// The polynomial that `poly` gives, if the scratch is about `a` and `b` already and keeps the values,
/// at the point, of all decisions whose level is greater than `level`, and no others.
///
/// It makes at most 2*N + 4*P products of elements, where N is the number of the decisions that `a`
/// and `b` lead to and whose values are not kept, and P that of the graph's pairs. Pairs whose level is
/// below `level` cost nothing, but for one product each time that a pair above leads to one.
pub fn poly_kept<L: Ledger>(
    graph: &Graph,
    store: &Store,
    op: Op,
    a: Ref,
    b: Ref,
    level: u32,
    point: &[Fe],
    scratch: &mut Scratch,
    steps: &mut Steps<L>,
) -> Poly2
    requires a_held { IsRef store.now.nodes a }
    requires b_held { IsRef store.now.nodes b }
    requires graph { IsGraph store.now.nodes a b graph.now }
    requires levels { (k : ℕ) → k < length store.now.nodes → (decision_at store.now.nodes k).level < length point.now }
    requires level { level < length point.now }
    requires room { (length store.now.nodes ≤ scratch.old.nodes) × (length graph.now ≤ scratch.old.pairs) }
    requires reached { IsReached store.now.nodes a b scratch.old.reached }
    requires above { IsDownTo store.now.nodes scratch.old.reached (length scratch.old.kept) (suc level) }
    requires values { HasKept store.now.nodes (length point.now) (λ x. slice_index_or point.now x 0) scratch.old.reached scratch.old.kept }
    ensures poly { result ≡ joined_poly op (function store.now.nodes a) (function store.now.nodes b) (length point.now) level (λ x. slice_index_or point.now x 0) }
    ensures scratch { scratch.new ≡ scratch.old }
    ensures at_most { steps.new + 2 * length scratch.old.kept ≤ steps.old + (2 * length scratch.old.reached + 4 * length graph.now) }
    ensures at_least { steps.old ≤ steps.new }
{
    store.canonical_law();
    let reached = scratch.reached.numbers();
    fill_lines(
        store,
        reached,
        scratch.kept,
        level,
        point,
        &mut scratch.lines,
        steps,
    );
    pairs_poly(
        graph,
        store,
        op,
        a,
        b,
        level,
        point,
        reached,
        &scratch.lines,
        &mut scratch.polys,
        steps,
    )
}

// The polynomial of `a` and `b` joined, from the lines of the decisions that they lead to.
fn pairs_poly<L: Ledger>(
    graph: &Graph,
    store: &Store,
    op: Op,
    a: Ref,
    b: Ref,
    level: u32,
    point: &[Fe],
    reached: &[u32],
    lines: &[Lin],
    polys: &mut [Poly2],
    steps: &mut Steps<L>,
) -> Poly2
    requires a_held { IsRef store.now.nodes a }
    requires b_held { IsRef store.now.nodes b }
    requires graph { IsGraph store.now.nodes a b graph.now }
    requires reached { IsReached store.now.nodes a b reached.now }
    requires levels { HasLevels store.now.nodes (length point.now) }
    requires level { level < length point.now }
    requires nodes_room { length store.now.nodes ≤ length lines.now }
    requires pairs_room { length graph.now ≤ length polys.old }
    requires lines { HasLines store.now.nodes (length point.now) level (point_of point.now) lines.now reached.now (length reached.now) }
    ensures poly { result ≡ joined_poly op (function store.now.nodes a) (function store.now.nodes b) (length point.now) level (point_of point.now) }
    ensures room { length polys.new ≡ length polys.old }
    ensures at_most { steps.new ≤ steps.old + 4 * length graph.now }
    ensures at_least { steps.old ≤ steps.new }
{
    store.canonical_law();
    let under = first_under(graph, level);
    fill_polys(
        graph, under, store, op, level, point, reached, lines, polys, steps,
    );
    let root = root_side(graph, a, b);
    side_poly(graph, under, op, &root, lines, polys, steps)
}

// The number of the first pair whose level is below: the levels of pairs rise.
fn first_under(graph: &Graph, level: u32) -> u32
    requires { (j k : ℕ) → j < k → k < length graph.now → (pair_at graph.now j).level ≤ (pair_at graph.now k).level }
    ensures { IsFirstUnder graph.now level result }
{
    let mut from = 0;
    let mut to = graph.len();
    while from < to {
        let middle = from + (to - from) / 2;
        if graph.level(middle) <= level {
            from = middle + 1;
        } else {
            to = middle;
        }
    }
    from
}

// The two functions as a side.
fn root_side(graph: &Graph, a: Ref, b: Ref) -> Side
    ensures pair { 0 < length graph.now → result ≡ Side.Pair 0 }
    ensures done { length graph.now ≡ 0 → result ≡ Side.Done a b }
{
    if graph.len() == 0 {
        Side::Done(a, b)
    } else {
        Side::Pair(0)
    }
}

// The polynomials of the pairs before the first one under the level. At most four products a pair.
fn fill_polys<L: Ledger>(
    graph: &Graph,
    under: u32,
    store: &Store,
    op: Op,
    level: u32,
    point: &[Fe],
    reached: &[u32],
    lines: &[Lin],
    polys: &mut [Poly2],
    steps: &mut Steps<L>,
)
    requires graph { IsGraphOfReached store.now.nodes graph.now reached.now }
    requires under { IsFirstUnder graph.now level under }
    requires levels { HasLevels store.now.nodes (length point.now) }
    requires level { level < length point.now }
    requires nodes_room { length store.now.nodes ≤ length lines.now }
    requires pairs_room { length graph.now ≤ length polys.old }
    requires lines { HasLines store.now.nodes (length point.now) level (point_of point.now) lines.now reached.now (length reached.now) }
    ensures polys { HasPolys op store.now.nodes (length point.now) level (point_of point.now) graph.now under polys.new 0 }
    ensures room { length polys.new ≡ length polys.old }
    ensures at_most { steps.new ≤ steps.old + 4 * under }
    ensures at_least { steps.old ≤ steps.new }
{
    store.canonical_law();
    let mut k = under;
    while k > 0 {
        k -= 1;
        polys[k as usize] = pair_poly(graph, under, k, op, level, point, lines, polys, steps);
    }
}

// The polynomial of pair `k`, which is not under the level: from the lines of its functions, or from
// the polynomials of its sides.
fn pair_poly<L: Ledger>(
    graph: &Graph,
    under: u32,
    k: u32,
    op: Op,
    level: u32,
    point: &[Fe],
    lines: &[Lin],
    polys: &[Poly2],
    steps: &mut Steps<L>,
) -> Poly2
    requires k { k < under }
    requires under { IsFirstUnder graph.now level under }
    requires level { level < length point.now }
    requires pairs_room { length graph.now ≤ length polys.now }
    requires tables { HasTables graph.now lines.now (pair_at graph.now k) }
    ensures poly { IsPairPoly op level (point_of point.now) graph.now under lines.now polys.now (pair_at graph.now k) result }
    ensures at_most { steps.new ≤ steps.old + 4 }
    ensures at_least { steps.old ≤ steps.new }
{
    let own = graph.level(k);
    if own == level {
        let (first, second) = graph.pair(k);
        let (first, second) = (line(lines, first), line(lines, second));
        return join_lines(op, &first, &second, steps);
    }
    let (low, high) = graph.children(k);
    let low_poly = side_poly(graph, under, op, &low, lines, polys, steps);
    let high_poly = side_poly(graph, under, op, &high, lines, polys, steps);
    if is_under(under, &low) && is_under(under, &high) {
        let value = blended(point[own as usize], low_poly.c0, high_poly.c0, steps);
        widened(constant(value))
    } else {
        Poly2::blend(point[own as usize], &low_poly, &high_poly, steps)
    }
}

// Whether a side is a pair from the first one under the level on.
fn is_under(under: u32, side: &Side) -> bool
    ensures { result ≡ is_under under side.now }
{
    match *side {
        Side::Pair(k) => under <= k,
        Side::Done(_, _) => false,
    }
}

// The polynomial of a side, by one product if it is a pair under the level.
fn side_poly<L: Ledger>(
    graph: &Graph,
    under: u32,
    op: Op,
    side: &Side,
    lines: &[Lin],
    polys: &[Poly2],
    steps: &mut Steps<L>,
) -> Poly2
    requires side { IsInTables graph.now lines.now side.now }
    requires under { under ≤ length polys.now }
    ensures poly { result ≡ poly_of_side op graph.now under lines.now polys.now side.now }
    ensures count { steps.new ≡ steps.old + cond (is_under under side.now) 1 0 }
{
    match *side {
        Side::Pair(k) => {
            if k < under {
                return polys[k as usize];
            }
            let (first, second) = graph.pair(k);
            let (first, second) = (line(lines, first), line(lines, second));
            widened(constant(join(op, first.c0, second.c0, steps)))
        }
        Side::Done(first, second) => leaf_poly(op, first, second, lines),
    }
}

// The polynomial of two functions joined, one of them constant.
fn leaf_poly(op: Op, first: Ref, second: Ref, lines: &[Lin]) -> Poly2
    requires { IsInTables [] lines.now (Side.Done first second) }
    ensures { result ≡ widened_of (line_of lines.now (leaf_of op first second)) }
{
    widened(line(lines, leaf(op, first, second)))
}

// The function that is both joined, one of them constant.
fn leaf(op: Op, first: Ref, second: Ref) -> Ref
    requires { min first second < 2 }
    ensures { result ≡ leaf_of op first second }
{
    let (unit, decisive) = match op {
        Op::And => (Ref::TRUE, Ref::FALSE),
        Op::Or => (Ref::FALSE, Ref::TRUE),
    };
    if first == unit {
        second
    } else if second == unit {
        first
    } else {
        decisive
    }
}

// The product or the or of two linear polynomials.
fn join_lines<L: Ledger>(op: Op, a: &Lin, b: &Lin, steps: &mut Steps<L>) -> Poly2
    ensures values { (t : ℕ) → at result t ≡ joined op (lin_at a.now t) (lin_at b.now t) }
    ensures elements { HasElements result }
    ensures at_most { steps.new ≤ steps.old + 4 }
    ensures at_least { steps.old ≤ steps.new }
{
    match op {
        Op::And => a.mul_lin(b, steps),
        Op::Or => a.or_lin(b, steps),
    }
}

// The product or the or of two values.
fn join<L: Ledger>(op: Op, u: Fe, w: Fe, steps: &mut Steps<L>) -> Fe
    ensures value { result ≡ joined op u w }
    ensures count { steps.new ≡ steps.old + 1 }
{
    let product = u.mul(w, steps);
    match op {
        Op::And => product,
        Op::Or => u.add(w).sub(product),
    }
}

// A linear polynomial as one of degree at most two.
fn widened(a: Lin) -> Poly2
    ensures { result ≡ widened_of a }
{
    Poly2 {
        c0: a.c0,
        c1: a.c1,
        c2: Fe::ZERO,
    }
}
