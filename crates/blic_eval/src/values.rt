// The values of a store's functions at a point.
ghost use Rattle.std.specs.Prelude.{◌≡◌, ◌+◌, ◌*◌, ◌<◌, ◌≤◌, ℕ, suc, IfNone, IfSome, length, slice_index_or};
ghost use Rattle.blic_field.specs.Field.{blend};
ghost use Rattle.blic_model.specs.Value.{Point};
ghost use Rattle.blic_store.specs.Diagram.{IsRef, decision_at, function, high_of, low_of};
ghost use Rattle.blic_eval.specs.Extension.{extension};
ghost use Rattle.blic_eval.specs.Kept.{HasKept, IsDownTo};
ghost use Rattle.blic_eval.specs.Lines.{HasLevels, HasValues, line_of};
ghost use Rattle.blic_eval.specs.Reached.{IsReached, IsReachedBySome, level_in};

use crate::lines::{blended, constant, line};
use crate::scratch::Scratch;
use blic_basic::Steps;
use blic_field::Fe;
use blic_poly2::Lin;
use blic_store::{Ref, Store};
use std::sync::ledger::Ledger;

/// The values of both functions at the point, which has an element for each level. The scratch is about
/// the two from then on, and keeps the values of all decisions (nodes of BDDs) that they lead to. It
/// makes at most two products of elements for each decision of the store.
pub fn pair_values<L: Ledger>(
    store: &Store,
    a: Ref,
    b: Ref,
    point: &[Fe],
    scratch: &mut Scratch,
    steps: &mut Steps<L>,
) -> (Fe, Fe)
    requires a_held { IsRef store.now.nodes a }
    requires b_held { IsRef store.now.nodes b }
    requires levels { (k : ℕ) → k < length store.now.nodes → (decision_at store.now.nodes k).level < length point.now }
    requires room { length store.now.nodes ≤ scratch.old.nodes }
    ensures first { result.0 ≡ extension (function store.now.nodes a) (length point.now) (λ x. slice_index_or point.now x 0) }
    ensures second { result.1 ≡ extension (function store.now.nodes b) (length point.now) (λ x. slice_index_or point.now x 0) }
    ensures nodes { scratch.new.nodes ≡ scratch.old.nodes }
    ensures pairs { scratch.new.pairs ≡ scratch.old.pairs }
    ensures reached { IsReached store.now.nodes a b scratch.new.reached }
    ensures at_most { steps.new ≤ steps.old + 2 * length store.now.nodes }
    ensures at_least { steps.old ≤ steps.new }
{
    scratch.begin(store, a, b);
    scratch.keep_down(store, 0, point, steps);
    values_kept(store, a, b, scratch)
}

/// The values of both functions at the elements with which the scratch keeps values, if it is about the
/// two and keeps the values of all that they lead to. It makes no product of elements.
pub fn values_kept(store: &Store, a: Ref, b: Ref, scratch: &Scratch) -> (Fe, Fe)
    requires a_held { IsRef store.now.nodes a }
    requires b_held { IsRef store.now.nodes b }
    requires reached { IsReached store.now.nodes a b scratch.now.reached }
    requires all { length scratch.now.kept ≡ length scratch.now.reached }
    ensures first { (levels : ℕ) (s : Point) → HasKept store.now.nodes levels s scratch.now.reached scratch.now.kept
        → result.0 ≡ extension (function store.now.nodes a) levels s }
    ensures second { (levels : ℕ) (s : Point) → HasKept store.now.nodes levels s scratch.now.reached scratch.now.kept
        → result.1 ≡ extension (function store.now.nodes b) levels s }
{
    (line(&scratch.lines, a).c0, line(&scratch.lines, b).c0)
}

/// The level of decision `n` of the list, if it has so many.
pub(crate) fn next_level(store: &Store, reached: &[u32], n: u32) -> Option<u32>
    requires { IsReachedBySome store.now.nodes reached.now }
    ensures some { IfSome result (λ own. (n < length reached.now) × (own ≡ level_in store.now.nodes reached.now n)) }
    ensures none { IfNone result (length reached.now ≤ n) }
{
    store.canonical_law();
    if n as usize >= reached.len() {
        return None;
    }
    Some(store.level(Ref::numbered(reached[n as usize] + 2)))
}

/// Fills in the values of the level's decisions, as constant polynomials, with element `r` for the
/// level. They come after the first `from` decisions of the list, whose values are there. Returns
/// how many are there then.
pub(crate) fn fill_level<L: Ledger>(
    store: &Store,
    reached: &[u32],
    from: u32,
    level: u32,
    r: Fe,
    lines: &mut [Lin],
    steps: &mut Steps<L>,
) -> u32
    requires reached { IsReachedBySome store.now.nodes reached.now }
    requires above { IsDownTo store.now.nodes reached.now from (suc level) }
    requires inside { (i : ℕ) → i < length reached.now → slice_index_or reached.now i 0 < length lines.old }
    ensures down { IsDownTo store.now.nodes reached.now result level }
    ensures more { from ≤ result }
    ensures before { (i : ℕ) → i < from → line_of lines.new (slice_index_or reached.now i 0 + 2) ≡ line_of lines.old (slice_index_or reached.now i 0 + 2) }
    ensures flat { (i : ℕ) → from ≤ i → i < result → (line_of lines.new (slice_index_or reached.now i 0 + 2)).c1 ≡ 0 }
    ensures values { (levels : ℕ) (s : Point) → HasLevels store.now.nodes levels → s level ≡ r
        → HasValues store.now.nodes levels s lines.old reached.now from → HasValues store.now.nodes levels s lines.new reached.now result }
    ensures room { length lines.new ≡ length lines.old }
    ensures count { steps.new + from ≡ steps.old + result }
{
    store.canonical_law();
    let mut n = from;
    'next: while let Some(own) = next_level(store, reached, n) {
        if own < level {
            return n;
        }
        let k = reached[n as usize];
        lines[k as usize] = constant(value_of_decision(store, k, r, lines, steps));
        n += 1;
    }
    n
}

// The value of decision `k` with element `r` for its level, from those of the two functions that it
// leads to.
fn value_of_decision<L: Ledger>(
    store: &Store,
    k: u32,
    r: Fe,
    lines: &[Lin],
    steps: &mut Steps<L>,
) -> Fe
    requires k { k < length store.now.nodes }
    requires low { low_of store.now.nodes (k + 2) < length lines.now + 2 }
    requires high { high_of store.now.nodes (k + 2) < length lines.now + 2 }
    ensures value { result ≡ blend r (line_of lines.now (low_of store.now.nodes (k + 2))).c0 (line_of lines.now (high_of store.now.nodes (k + 2))).c0 }
    ensures count { steps.new ≡ steps.old + 1 }
{
    store.canonical_law();
    let at = Ref::numbered(k + 2);
    let low = line(lines, store.low(at));
    let high = line(lines, store.high(at));
    blended(r, low.c0, high.c0, steps)
}
