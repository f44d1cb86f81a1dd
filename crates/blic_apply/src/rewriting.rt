// A function changed at each of its parts.
ghost use Rattle.std.specs.Prelude.{◌≡◌, ◌≤◌, [], Err, IfNone, IfOk, IfSome, OnErr};
ghost use Rattle.blic_store.specs.Diagram.{IsRef, function, low_of};
ghost use Rattle.blic_store.specs.Growth.{Adds, Answers, PassesLimit};
ghost use Rattle.blic_apply.specs.Changing.{HasChanged, IsChanged, IsStep, IsUnsettled, changed};
ghost use Rattle.blic_apply.specs.PartTable.{IsEmpty, IsNew};

use crate::change::Change;
use crate::part_table::PartTable;
use blic_store::{Ref, Store, StoreError};
use std::vec::Vec;

/// A part of the function that waits for one of its sides. It takes 12 bytes.
#[derive(Clone, Copy)]
pub enum Waiting {
    /// For the low one.
    Low(Ref),
    /// For the high one; and what the low one became.
    High(Ref, Ref),
}

/// What comes next for the part in hand.
#[derive(Clone, Copy)]
enum Step {
    /// Its low side has to be changed.
    Low(Ref),
    /// What its low side became; and its high side, which has to be changed.
    High(Ref, Ref),
    /// What its two sides became.
    Ready(Ref, Ref),
}

/// The function changed, from its lowest parts up. It takes time linear in the parts that are not settled.
///
/// Refuses with `Full` exactly if the store's decisions and those of the answer's parts are together more than its
/// limit.
pub fn rewrite(
    made: &mut PartTable,
    waiting: &mut Vec<Waiting>,
    store: &mut Store,
    change: Change,
    a: Ref,
) -> Result<Ref, StoreError>
    requires { IsRef store.old.nodes a }
    ensures ok { IfOk result (λ r. Answers (changed change (function store.old.nodes a)) store.old store.new r) }
    ensures full { result ≡ Err StoreError.Full → PassesLimit (changed change (function store.old.nodes a)) store.old }
    ensures err { OnErr result (Adds (changed change (function store.old.nodes a)) store.old.nodes store.new.nodes) }
    ensures limit { store.new.limit ≡ store.old.limit }
{
    store.canonical_law();
    if let Some(answer) = change.settled(store, a) {
        return Ok(answer);
    }
    waiting.clear();
    if made.begin(store.len() as usize + 2).is_err() {
        return Err(StoreError::NoMem);
    }
    rewrite_parts(made, waiting, store, change, a)
}

// The same of a function that is not settled, while none of its parts is made.
fn rewrite_parts(
    made: &mut PartTable,
    waiting: &mut Vec<Waiting>,
    store: &mut Store,
    change: Change,
    a: Ref,
) -> Result<Ref, StoreError>
    requires held { IsRef store.old.nodes a }
    requires unsettled { IsUnsettled change store.old.nodes a }
    requires fresh { IsEmpty made.old }
    requires none { waiting.old.items ≡ [] }
    ensures ok { IfOk result (λ r. Answers (changed change (function store.old.nodes a)) store.old store.new r) }
    ensures full { result ≡ Err StoreError.Full → PassesLimit (changed change (function store.old.nodes a)) store.old }
    ensures err { OnErr result (Adds (changed change (function store.old.nodes a)) store.old.nodes store.new.nodes) }
    ensures limit { store.new.limit ≡ store.old.limit }
{
    store.canonical_law();
    let mut at = a;
    let mut step = first_step(change, store, made, at);
    'up: loop {
        match step {
            Step::Low(low) => {
                if waiting.push(Waiting::Low(at)).is_err() {
                    return Err(StoreError::NoMem);
                }
                at = low;
                step = first_step(change, store, made, at);
            }
            Step::High(new_low, high) => {
                if waiting.push(Waiting::High(at, new_low)).is_err() {
                    return Err(StoreError::NoMem);
                }
                at = high;
                step = first_step(change, store, made, at);
            }
            Step::Ready(new_low, new_high) => {
                let answer = store.make(store.level(at), new_low, new_high)?;
                let Some(above) = waiting.pop() else {
                    return Ok(answer);
                };
                if made.enter(at, answer).is_err() {
                    return Err(StoreError::NoMem);
                }
                match above {
                    Waiting::Low(part) => {
                        at = part;
                        step = second_step(change, store, made, at, answer);
                    }
                    Waiting::High(part, low) => {
                        at = part;
                        step = Step::Ready(low, answer);
                    }
                }
            }
        }
    }
}

// What comes next for a part of which nothing is known.
fn first_step(change: Change, store: &Store, made: &PartTable, at: Ref) -> Step
    requires held { IsRef store.now.nodes at }
    requires inner { 2 ≤ at }
    requires made { HasChanged change store.now.nodes made.now }
    ensures { IsStep change store.now.nodes made.now at result }
{
    store.canonical_law();
    let low = store.low(at);
    match answer(change, store, made, low) {
        Some(new_low) => second_step(change, store, made, at, new_low),
        None => Step::Low(low),
    }
}

// What comes next for a part whose low side is known.
fn second_step(change: Change, store: &Store, made: &PartTable, at: Ref, new_low: Ref) -> Step
    requires held { IsRef store.now.nodes at }
    requires inner { 2 ≤ at }
    requires made { HasChanged change store.now.nodes made.now }
    requires low { IsChanged change store.now.nodes (low_of store.now.nodes at) new_low }
    ensures { IsStep change store.now.nodes made.now at result }
{
    store.canonical_law();
    let high = store.high(at);
    match answer(change, store, made, high) {
        Some(new_high) => Step::Ready(new_low, new_high),
        None => Step::High(new_low, high),
    }
}

// What a part became, if it is settled or made.
fn answer(change: Change, store: &Store, made: &PartTable, r: Ref) -> Option<Ref>
    requires held { IsRef store.now.nodes r }
    requires made { HasChanged change store.now.nodes made.now }
    ensures some { IfSome result (IsChanged change store.now.nodes r) }
    ensures unsettled { IfNone result (IsUnsettled change store.now.nodes r) }
    ensures unmade { IfNone result (IsNew made.now r) }
{
    if let Some(answer) = made.get(r) {
        return Some(answer);
    }
    change.settled(store, r)
}
