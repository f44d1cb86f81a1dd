// The sides of pairs that wait for their level.
ghost use Rattle.std.specs.Prelude.{◌≡◌, ◌+◌, ◌-◌, ◌^◌, ◌<◌, ◌≤◌, ◌++◌, ◌∷◌, ◌==◌, ℕ, List, [], length, false, IfSome, IfNone, IfOk, OnOk, OnErr, IsTrue, slice_set};
ghost use Rattle.std.specs.List.{Contains};
ghost use Rattle.blic_graph.specs.Queue.{Asks, IsIn, IsWaiting, Queue, Takes, WaitsAlike, bit_of, bucket_at, pair_of, turns_left};

use blic_basic::NoMem;
use blic_store::Ref;
use std::alloc::Global;
use std::collections::BinaryHeap;
use std::marker::Model;
use std::mem;
use std::vec::Vec;

/// The greatest level.
const DEEPEST: u32 = 4294967295;

/// A side of a pair that waits for its level, in 12 bytes: what the pair becomes there, and which
/// side it is.
#[derive(Clone, Copy)]
pub(crate) struct Request {
    pub first: Ref,
    pub second: Ref,
    /// Twice the pair's number, and one more if the bit is 1.
    pub place: u32,
}

impl Request {
    /// The pair that waits.
    pub(crate) fn pair(&self) -> u32
        ensures { result ≡ pair_of self.now }
    {
        self.place / 2
    }

    /// The bit at which it waits.
    pub(crate) fn bit(&self) -> bool
        ensures { result ≡ bit_of self.now }
    {
        self.place % 2 == 1
    }
}

/// The requests of one level.
#[derive(Drop)]
pub(crate) struct Bucket {
    requests: Vec<Request>,
}

impl Model for Bucket {
    ghost use Rattle.std.specs.Prelude.{List};
    ghost use Rattle.blic_graph.specs.declared.waiting.Request.{Request};

    ghost Value = { List Request };

    ghost view = { λ b. b.requests.items };
}

impl Bucket {
    fn new(alloc: Global) -> Bucket
        ensures { result ≡ [] }
    {
        Bucket {
            requests: Vec::new(alloc),
        }
    }

    fn is_empty(&self) -> bool
        ensures { result ≡ (length self.now == 0) }
    {
        self.requests.is_empty()
    }

    fn push(&mut self, request: Request) -> Result<(), NoMem>
        ensures ok { OnOk result (self.new ≡ self.old ++ request ∷ []) }
        ensures err { OnErr result (self.new ≡ self.old) }
    {
        match self.requests.push(request) {
            Ok(()) => Ok(()),
            Err(_) => Err(NoMem),
        }
    }

    fn pop(&mut self) -> Option<Request>
        ensures some { IfSome result (λ r. self.old ≡ self.new ++ r ∷ []) }
        ensures none { IfNone result (length self.old ≡ 0) }
    {
        self.requests.pop()
    }

    fn clear(&mut self)
        ensures { self.new ≡ [] }
    {
        self.requests.clear();
    }
}

/// Requests, which are taken level by level, the least one first, and within a level the newest
/// first. Buffers of levels that have come serve later ones.
#[derive(Drop)]
pub(crate) struct Waiting {
    later: Vec<Bucket>,
    /// The levels that are still to come, as `DEEPEST` less the level.
    levels: BinaryHeap<u32>,
    left: Bucket,
    level: u32,
    spare: Vec<Bucket>,
}

impl Model for Waiting {
    ghost use Rattle.std.specs.BinaryHeap.{heap_items};
    ghost use Rattle.blic_graph.specs.Queue.{IsQueue, Queue};

    ghost Value = { Queue };

    ghost view = { λ w. record { level = w.level; left = w.left; later = w.later.items; levels = heap_items w.levels } };

    ghost invariant = { λ w. IsQueue (heap_items w.levels) w.later.items w.level };
}

impl Waiting {
    /// No requests.
    pub(crate) fn new(alloc: Global) -> Waiting
        ensures { result ≡ record { level = 0; left = []; later = []; levels = [] } }
    {
        Waiting {
            later: Vec::new(alloc),
            levels: BinaryHeap::new(alloc),
            left: Bucket::new(alloc),
            level: 0,
            spare: Vec::new(alloc),
        }
    }

    /// The level that has come.
    pub(crate) fn level(&self) -> u32
        ensures { result ≡ self.now.level }
    {
        self.level
    }

    /// Gives up all requests, if a level has come.
    pub(crate) fn begin(&mut self, level: u32)
        ensures level { self.new.level ≡ level }
        ensures none { (x : ℕ) (r : Request) → IsWaiting self.new x r → ⊥ }
    {
        self.left.clear();
        'levels: while self.give_up() {}
        self.level = level;
    }

    // Gives up the requests of one level that is noted.
    fn give_up(&mut self) -> bool
        ensures left { self.new.left ≡ self.old.left }
        ensures fewer { IsTrue result → length self.new.levels < length self.old.levels }
        ensures done { result ≡ false → length self.new.levels ≡ 0 }
        ensures none { result ≡ false → (x : ℕ) → bucket_at self.new.later x ≡ [] }
    {
        let Some(code) = self.levels.pop() else {
            return false;
        };
        self.later[(DEEPEST - code) as usize].clear();
        true
    }

    /// Lets a request wait for a level that is still to come.
    pub(crate) fn ask(&mut self, alloc: Global, level: u32, request: Request) -> Result<(), NoMem>
        requires { self.old.level < level }
        ensures { OnOk result (Asks self.old self.new level request) }
    {
        self.note(alloc, level)?;
        self.later[level as usize].push(request)
    }

    // Notes a level that is still to come, if it has no request so far.
    fn note(&mut self, alloc: Global, level: u32) -> Result<(), NoMem>
        requires { self.old.level < level }
        ensures level { self.new.level ≡ self.old.level }
        ensures left { self.new.left ≡ self.old.left }
        ensures same { (x : ℕ) → bucket_at self.new.later x ≡ bucket_at self.old.later x }
        ensures room { OnOk result (level < length self.new.later) }
        ensures noted { OnOk result (Contains self.new.levels (2 ^ 32 - 1 - level)) }
    {
        let place = level as usize;
        widen(alloc, &mut self.later, place + 1)?;
        if !self.later[place].is_empty() {
            return Ok(());
        }
        match self.levels.push(DEEPEST - level) {
            Ok(()) => {
                self.later[place] = empty(alloc, &mut self.spare);
                Ok(())
            }
            Err(_) => Err(NoMem),
        }
    }

    /// Takes the next request, if one waits.
    pub(crate) fn take(&mut self, alloc: Global) -> Option<Request>
        ensures some { IfSome result (Takes self.old self.new) }
        ensures falls { IfSome result (λ _. turns_left self.new < turns_left self.old) }
        ensures none { IfNone result ((x : ℕ) (r : Request) → IsWaiting self.old x r → ⊥) }
    {
        'levels: while self.left.is_empty() {
            if !self.go_on(alloc) {
                return None;
            }
        }
        self.left.pop()
    }

    // Goes on to the least level that is noted, if no request is left at the one that has come.
    fn go_on(&mut self, alloc: Global) -> bool
        requires { length self.old.left ≡ 0 }
        ensures waiting { WaitsAlike self.old self.new }
        ensures no_sooner { self.old.level ≤ self.new.level }
        ensures fewer { IsTrue result → length self.new.levels < length self.old.levels }
        ensures falls { turns_left self.new ≤ turns_left self.old }
        ensures none { result ≡ false → (x : ℕ) (r : Request) → IsWaiting self.old x r → ⊥ }
    {
        let Some(code) = self.levels.pop() else {
            return false;
        };
        let level = DEEPEST - code;
        let full = mem::replace(&mut self.later[level as usize], Bucket::new(alloc));
        let empty = mem::replace(&mut self.left, full);
        let _ = self.spare.push(empty);
        self.level = level;
        true
    }
}

// A bucket without requests, with the buffer of one that is done with if there is one.
fn empty(alloc: Global, spare: &mut Vec<Bucket>) -> Bucket
    ensures { result ≡ [] }
{
    let Some(mut bucket) = spare.pop() else {
        return Bucket::new(alloc);
    };
    bucket.clear();
    bucket
}

// Lets each level below `n` have a bucket.
fn widen(alloc: Global, later: &mut Vec<Bucket>, n: usize) -> Result<(), NoMem>
    requires few { n ≤ 2 ^ 32 }
    requires few_before { length later.old.items ≤ 2 ^ 32 }
    ensures long { OnOk result (n ≤ length later.new.items) }
    ensures no_shorter { length later.old.items ≤ length later.new.items }
    ensures few { length later.new.items ≤ 2 ^ 32 }
    ensures same { (x : ℕ) → bucket_at later.new.items x ≡ bucket_at later.old.items x }
{
    'longer: while later.len() < n {
        if later.push(Bucket::new(alloc)).is_err() {
            return Err(NoMem);
        }
    }
    Ok(())
}
