// The polynomials of a store's functions in the variable of one level.
ghost use Rattle.std.specs.Prelude.{◌≡◌, ◌+◌, ◌*◌, ◌<◌, ◌≤◌, ℕ, suc, length, slice_index_or};
ghost use Rattle.blic_field.specs.Field.{blend};
ghost use Rattle.blic_store.specs.Diagram.{decision_at, high_of, low_of};
ghost use Rattle.blic_eval.specs.Kept.{IsDownTo};
ghost use Rattle.blic_eval.specs.Lines.{HasLevels, HasLines, IsLine, line_of, point_of};
ghost use Rattle.blic_eval.specs.Reached.{IsReachedBySome};

use blic_basic::Steps;
use blic_field::Fe;
use blic_poly2::Lin;
use blic_store::{Ref, Store};
use std::sync::ledger::Ledger;

/// The polynomials of the decisions that two functions lead to, in the variable of `level`, with the
/// other levels at the point. Those of the first `from` are there, which are the decisions of greater
/// levels. At most two products of elements for each other one.
pub(crate) fn fill_lines<L: Ledger>(
    store: &Store,
    reached: &[u32],
    from: u32,
    level: u32,
    point: &[Fe],
    lines: &mut [Lin],
    steps: &mut Steps<L>,
)
    requires reached { IsReachedBySome store.now.nodes reached.now }
    requires above { IsDownTo store.now.nodes reached.now from (suc level) }
    requires levels { HasLevels store.now.nodes (length point.now) }
    requires level { level < length point.now }
    requires room { length store.now.nodes ≤ length lines.old }
    requires lines { HasLines store.now.nodes (length point.now) level (point_of point.now) lines.old reached.now from }
    ensures lines { HasLines store.now.nodes (length point.now) level (point_of point.now) lines.new reached.now (length reached.now) }
    ensures before { (i : ℕ) → i < from → line_of lines.new (slice_index_or reached.now i 0 + 2) ≡ line_of lines.old (slice_index_or reached.now i 0 + 2) }
    ensures room { length lines.new ≡ length lines.old }
    ensures at_most { steps.new + 2 * from ≤ steps.old + 2 * length reached.now }
    ensures at_least { steps.old ≤ steps.new }
{
    store.canonical_law();
    let mut n = from as usize;
    'next: while n < reached.len() {
        let k = reached[n];
        lines[k as usize] = line_of_decision(store, k, level, point, lines, steps);
        n += 1;
    }
}

// The polynomial of decision `k`, whose level isn't greater, from those of the two functions that it
// leads to.
fn line_of_decision<L: Ledger>(
    store: &Store,
    k: u32,
    level: u32,
    point: &[Fe],
    lines: &[Lin],
    steps: &mut Steps<L>,
) -> Lin
    requires k { k < length store.now.nodes }
    requires own { (decision_at store.now.nodes k).level ≤ level }
    requires levels { HasLevels store.now.nodes (length point.now) }
    requires level { level < length point.now }
    requires room { length store.now.nodes ≤ length lines.now }
    requires low { IsLine store.now.nodes (length point.now) level (point_of point.now) (low_of store.now.nodes (k + 2)) (line_of lines.now (low_of store.now.nodes (k + 2))) }
    requires high { IsLine store.now.nodes (length point.now) level (point_of point.now) (high_of store.now.nodes (k + 2)) (line_of lines.now (high_of store.now.nodes (k + 2))) }
    ensures line { IsLine store.now.nodes (length point.now) level (point_of point.now) (k + 2) result }
    ensures at_most { steps.new ≤ steps.old + 2 }
    ensures at_least { steps.old ≤ steps.new }
{
    store.canonical_law();
    let r = Ref::numbered(k + 2);
    let low = line(lines, store.low(r));
    let high = line(lines, store.high(r));
    let own = store.level(r);
    if own < level {
        Lin::blend(point[own as usize], &low, &high, steps)
    } else {
        Lin {
            c0: low.c0,
            c1: high.c0.sub(low.c0),
        }
    }
}

/// The polynomial of a ref.
pub(crate) fn line(lines: &[Lin], r: Ref) -> Lin
    requires { r < length lines.now + 2 }
    ensures { result ≡ line_of lines.now r }
{
    if r == Ref::FALSE {
        constant(Fe::ZERO)
    } else if r == Ref::TRUE {
        constant(Fe::ONE)
    } else {
        lines[r.number() as usize - 2]
    }
}

/// The polynomial that has the same value everywhere.
pub(crate) fn constant(value: Fe) -> Lin
    ensures { result ≡ record { c0 = value; c1 = 0 } }
{
    Lin {
        c0: value,
        c1: Fe::ZERO,
    }
}

/// The value at s on the line that is u at 0 and w at 1, by one product.
#[tactic(auto, using(blic_poly2::proofs::Values::blend_by_difference))]
pub(crate) fn blended<L: Ledger>(s: Fe, u: Fe, w: Fe, steps: &mut Steps<L>) -> Fe
    ensures value { result ≡ blend s u w }
    ensures count { steps.new ≡ steps.old + 1 }
{
    u.add(s.mul(w.sub(u), steps))
}
