// The walk over the decisions that functions lead to.
ghost use Rattle.std.specs.Prelude.{◌≡◌, ◌+◌, ◌-◌, ◌<◌, ◌≤◌, IfNone, IfSome, length, vec_capacity};
ghost use Rattle.blic_store.specs.Diagram.{IsRef};
ghost use Rattle.blic_store.specs.Numbers.{Lacks};
ghost use Rattle.blic_eval.specs.Reached.{IsAmong, IsClosed};
ghost use Rattle.blic_eval.specs.Walks.{AddsParts, HasSidesOf, IsFound, IsMissingSide};

use crate::number_set::NumberSet;
use blic_store::{Ref, Store};
use std::vec::Vec;

/// Makes the set that of the decisions that `a` and `b` lead to, each after those that it leads to. It
/// takes time linear in these. `path` is room for the walk.
pub(crate) fn reach(store: &Store, a: Ref, b: Ref, set: &mut NumberSet, path: &mut Vec<Ref>)
    requires a_held { IsRef store.now.nodes a }
    requires b_held { IsRef store.now.nodes b }
    requires room { length store.now.nodes ≤ set.old.room }
    requires path { length store.now.nodes ≤ vec_capacity path.old }
    ensures found { IsFound store.now.nodes a b set.new.numbers }
    ensures room { set.new.room ≡ set.old.room }
    ensures path { vec_capacity path.new ≡ vec_capacity path.old }
{
    set.clear();
    walk(store, a, set, path);
    walk(store, b, set, path);
}

// Adds the decisions that the function leads to and the set lacks. Each decision on the path waits for
// the one after it, which it leads to, and the last one waits for the one at hand.
fn walk(store: &Store, r: Ref, set: &mut NumberSet, path: &mut Vec<Ref>)
    requires held { IsRef store.now.nodes r }
    requires room { length store.now.nodes ≤ set.old.room }
    requires path { length store.now.nodes ≤ vec_capacity path.old }
    requires closed { IsClosed store.now.nodes set.old.numbers }
    ensures closed { IsClosed store.now.nodes set.new.numbers }
    ensures adds { AddsParts store.now.nodes r set.old.numbers set.new.numbers }
    ensures reached { IsAmong set.new.numbers (length set.new.numbers) r }
    ensures room { set.new.room ≡ set.old.room }
    ensures path { vec_capacity path.new ≡ vec_capacity path.old }
{
    store.canonical_law();
    let Some(mut at) = missing(set, r) else {
        return;
    };
    path.clear();
    'up: loop {
        match missing_side(store, set, at) {
            Some(side) => {
                path.push_reserved(at);
                at = side;
            }
            None => {
                set.add(at.number() - 2);
                let Some(above) = path.pop() else {
                    return;
                };
                at = above;
            }
        }
    }
}

// A side of the function whose decision the set lacks, if there is one.
fn missing_side(store: &Store, set: &NumberSet, at: Ref) -> Option<Ref>
    requires held { IsRef store.now.nodes at }
    requires inner { 2 ≤ at }
    requires room { length store.now.nodes ≤ set.now.room }
    ensures some { IfSome result (IsMissingSide store.now.nodes set.now.numbers at) }
    ensures none { IfNone result (HasSidesOf store.now.nodes set.now.numbers at) }
{
    store.canonical_law();
    match missing(set, store.low(at)) {
        Some(low) => Some(low),
        None => missing(set, store.high(at)),
    }
}

// The function, if it has a decision and the set lacks it.
fn missing(set: &NumberSet, r: Ref) -> Option<Ref>
    requires { r < set.now.room + 2 }
    ensures some { IfSome result (λ s. (s ≡ r) × (2 ≤ s) × Lacks set.now.numbers (s - 2)) }
    ensures none { IfNone result (IsAmong set.now.numbers (length set.now.numbers) r) }
{
    if r.is_const() || set.contains(r.number() - 2) {
        None
    } else {
        Some(r)
    }
}
