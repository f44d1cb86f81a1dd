// A listing of pairs, level by level.
ghost use Rattle.std.specs.Prelude.{◌≡◌, ◌+◌, ◌*◌, ◌^◌, ◌<◌, ◌≤◌, ◌⊎◌, ℕ, Bool, [], ◌∷◌, ◌++◌, cond, length, map, min, Err, IfErr, IfNone, IfOk, IfSome, OnOk, OnSome, slice_set};
ghost use Rattle.blic_graph.specs.Listing.{AddsPair, Begins, Found, IsAsked, IsBegun, IsGoing, IsMissing, IsTaken, IsWithoutRoom, hash_of, with_side};
ghost use Rattle.blic_graph.specs.Packing.{side_from};
ghost use Rattle.blic_graph.specs.Pairs.{IsInner, PassesMost, StandsAt, level_of_pair, pair_at};
ghost use Rattle.blic_graph.specs.Queue.{IsWaiting, Queue, Takes, bit_of, pair_of, turns_left};
ghost use Rattle.blic_graph.specs.declared.waiting.Request.{Request};
ghost use Rattle.blic_store.specs.Canonical.{IsCanonical};
ghost use Rattle.blic_store.specs.Diagram.{IsRef, cofactor};

use crate::graph::{Graph, GraphError};
use crate::packed::{Packed, ROOM, pack};
use crate::pair::Side;
use crate::waiting::{Request, Waiting};
use blic_store::{Ref, Store, UniqueTable};
use std::alloc::Global;
use std::marker::Model;
use std::mem;
use std::vec::Vec;

/// The pairs of two functions that were found so far, by level, at most `most`; and the sides that
/// wait for their level. The pairs of one level are found when it has come.
#[derive(Drop)]
pub(crate) struct PairList {
    alloc: Global,
    first: Ref,
    second: Ref,
    most: u64,
    pairs: Vec<Packed>,
    /// The first pair of the level that has come.
    start: usize,
    /// The pairs from `start` on.
    table: UniqueTable,
    waiting: Waiting,
}

impl Model for PairList {
    ghost use Rattle.std.specs.Prelude.{map};
    ghost use Rattle.blic_graph.specs.Listing.{Found, IsEntered};
    ghost use Rattle.blic_graph.specs.Packing.{unpacked};

    ghost Value = { Found };

    ghost view = { λ l. record { first = l.first; second = l.second; most = l.most; pairs = map unpacked l.pairs.items; start = l.start; queue = l.waiting } };

    ghost invariant = { λ l. IsEntered (map unpacked l.pairs.items) l.start l.table };
}

impl PairList {
    /// A listing of no pairs, with no request.
    pub(crate) fn new(alloc: Global) -> Result<PairList, GraphError>
        ensures no_mem { IfErr result (λ e. e ≡ GraphError.NoMem) }
    {
        let Ok(table) = UniqueTable::new(alloc) else {
            return Err(GraphError::NoMem);
        };
        Ok(PairList {
            alloc,
            first: Ref::FALSE,
            second: Ref::FALSE,
            most: 0,
            pairs: Vec::new(alloc),
            start: 0,
            table,
            waiting: Waiting::new(alloc),
        })
    }

    /// The allocator.
    pub(crate) fn allocator(&self) -> Global {
        self.alloc
    }

    /// Begins with a level that has come, without pairs and without requests.
    pub(crate) fn begin(&mut self, first: Ref, second: Ref, most: u64, level: u32)
        ensures { IsBegun self.new first second most level }
    {
        self.first = first;
        self.second = second;
        self.most = most;
        self.pairs.clear();
        self.start = 0;
        self.table.clear();
        self.waiting.begin(level);
    }

    /// The pairs, which leave.
    pub(crate) fn take_pairs(&mut self) -> Graph
        ensures { result ≡ self.old.pairs }
    {
        self.start = 0;
        self.table.clear();
        let none = Vec::new(self.alloc);
        Graph::of(mem::replace(&mut self.pairs, none))
    }

    /// Takes the buffer of a graph, if no pair is listed.
    pub(crate) fn reuse(&mut self, graph: Graph) {
        self.start = 0;
        self.table.clear();
        self.pairs = graph.into_buffer();
        self.pairs.clear();
    }

    /// Takes the next request, and begins its level, if that has not come before.
    pub(crate) fn next(&mut self) -> Option<Request>
        ensures queue { IfSome result (Takes self.old.queue self.new.queue) }
        ensures falls { IfSome result (λ _. turns_left self.new.queue < turns_left self.old.queue) }
        ensures begins { OnSome result (Begins self.old self.new) }
        ensures none { IfNone result ((x : ℕ) (r : Request) → IsWaiting self.old.queue x r → ⊥) }
        ensures pairs { self.new.pairs ≡ self.old.pairs }
    {
        let level = self.waiting.level();
        let Some(request) = self.waiting.take(self.alloc) else {
            return None;
        };
        if level < self.waiting.level() {
            self.start = self.pairs.len();
            self.table.clear();
        }
        Some(request)
    }

    /// Finds the pair that a request waits for, which was taken, and names it in its side.
    pub(crate) fn answer(&mut self, store: &Store, request: Request) -> Result<(), GraphError>
        requires taken { IsTaken store.now.nodes self.old request }
        requires few { self.old.most < 2 ^ 32 }
        ensures going { OnOk result (IsGoing store.now.nodes self.new) }
        ensures operands { OnOk result (self.new ≡ record self.old { pairs = self.new.pairs; queue = self.new.queue }) }
        ensures turn { OnOk result (turns_left self.new.queue ≡ turns_left self.old.queue) }
        ensures full { result ≡ Err GraphError.PairsFull → PassesMost store.now.nodes self.old.first self.old.second self.old.most }
    {
        store.canonical_law();
        let number = self.number(store, request.first, request.second)?;
        self.set_side(request.pair(), request.bit(), number);
        Ok(())
    }

    /// Appends a pair of the level that has come. Its sides are what it becomes, and wait if
    /// those are pairs.
    pub(crate) fn add(&mut self, store: &Store, first: Ref, second: Ref) -> Result<u32, GraphError>
        requires first_inner { IsInner store.now.nodes first }
        requires second_inner { IsInner store.now.nodes second }
        requires level { self.old.queue.level ≡ level_of_pair store.now.nodes first second }
        requires missing { IsMissing self.old.pairs self.old.start first second }
        requires few { self.old.most < 2 ^ 32 }
        ensures number { IfOk result (λ n. (n ≡ length self.old.pairs) × (n < 536870912)) }
        ensures pairs { OnOk result (AddsPair store.now.nodes self.old self.new first second) }
        ensures full { result ≡ Err GraphError.PairsFull → self.old.most ≤ length self.old.pairs }
    {
        let n = self.pairs.len();
        if n as u64 >= self.most {
            return Err(GraphError::PairsFull);
        }
        if n >= ROOM as usize {
            return Err(GraphError::NoMem);
        }
        let low = self.ask(store, n as u32, first, second, false)?;
        let high = self.ask(store, n as u32, first, second, true)?;
        self.push(first, second, low, high)?;
        Ok(n as u32)
    }

    // The code of what a pair of the level that has come becomes at the bit, which waits if it is
    // a pair.
    fn ask(
        &mut self,
        store: &Store,
        number: u32,
        first: Ref,
        second: Ref,
        bit: bool,
    ) -> Result<u32, GraphError>
        requires number { number < 536870912 }
        requires first_inner { IsInner store.now.nodes first }
        requires second_inner { IsInner store.now.nodes second }
        requires level { self.old.queue.level ≡ level_of_pair store.now.nodes first second }
        ensures asked { IfOk result (λ code. IsAsked store.now.nodes self.old.queue self.new.queue (2 * number + cond bit 1 0) (cofactor store.now.nodes first self.old.queue.level bit) (cofactor store.now.nodes second self.old.queue.level bit) (side_from code)) }
        ensures same { OnOk result (self.new ≡ record self.old { queue = self.new.queue }) }
        ensures turn { OnOk result (turns_left self.new.queue ≡ turns_left self.old.queue) }
        ensures no_mem { IfErr result (λ e. e ≡ GraphError.NoMem) }
    {
        store.canonical_law();
        let first = store.cofactor(first, self.waiting.level(), bit);
        let second = store.cofactor(second, self.waiting.level(), bit);
        if first.is_const() || second.is_const() {
            return match pack(&Side::Done(first, second)) {
                Some(code) => Ok(code),
                None => Err(GraphError::NoMem),
            };
        }
        let level = store.level(first).min(store.level(second));
        let place = 2 * number + bit as u32;
        let request = Request {
            first,
            second,
            place,
        };
        match self.waiting.ask(self.alloc, level, request) {
            Ok(()) => Ok(0),
            Err(_) => Err(GraphError::NoMem),
        }
    }

    // Appends a pair of the level that has come, and enters it in the table.
    fn push(&mut self, first: Ref, second: Ref, low: u32, high: u32) -> Result<(), GraphError>
        requires { length self.old.pairs < 536870912 }
        ensures ok { OnOk result (self.new ≡ record self.old { pairs = self.old.pairs ++ record { level = self.old.queue.level; first = first; second = second; low = side_from low; high = side_from high } ∷ [] }) }
        ensures no_mem { IfErr result (λ e. e ≡ GraphError.NoMem) }
    {
        if self.pairs.reserve(1).is_err() {
            return Err(GraphError::NoMem);
        }
        if self.table.enter(hash(first, second)).is_err() {
            return Err(GraphError::NoMem);
        }
        self.pairs.push_reserved(Packed {
            level: self.waiting.level(),
            first,
            second,
            low,
            high,
        });
        Ok(())
    }

    // The number of the pair of the two functions at the level that has come, which is appended if
    // it was not found.
    fn number(&mut self, store: &Store, first: Ref, second: Ref) -> Result<u32, GraphError>
        requires first_inner { IsInner store.now.nodes first }
        requires second_inner { IsInner store.now.nodes second }
        requires level { self.old.queue.level ≡ level_of_pair store.now.nodes first second }
        requires few { self.old.most < 2 ^ 32 }
        ensures number { IfOk result (λ n. StandsAt self.new.pairs n first second) }
        ensures room { IfOk result (λ n. n < 536870912) }
        ensures pairs { OnOk result ((self.new ≡ self.old) ⊎ AddsPair store.now.nodes self.old self.new first second) }
        ensures full { result ≡ Err GraphError.PairsFull → IsWithoutRoom self.old first second }
    {
        match self.find(first, second) {
            Some(n) => Ok(n),
            None => self.add(store, first, second),
        }
    }

    // Lets the side of pair k at the bit be pair n.
    fn set_side(&mut self, k: u32, bit: bool, n: u32)
        requires k { k < length self.old.pairs }
        requires n { n < 536870912 }
        ensures { self.new ≡ record self.old { pairs = slice_set self.old.pairs k (with_side (pair_at self.old.pairs k) bit (Side.Pair n)) } }
    {
        if bit {
            self.pairs[k as usize].high = n;
        } else {
            self.pairs[k as usize].low = n;
        }
    }

    // The number of the pair of the level, if it was found.
    fn find(&self, first: Ref, second: Ref) -> Option<u32>
        ensures some { IfSome result (λ k. StandsAt self.now.pairs k first second) }
        ensures room { IfSome result (λ k. k < 536870912) }
        ensures none { IfNone result (IsMissing self.now.pairs self.now.start first second) }
    {
        let mut candidate = self.table.newest(hash(first, second));
        while let Some(k) = candidate {
            let number = self.start + k as usize;
            let pair = &self.pairs[number];
            if pair.first == first && pair.second == second {
                return Some(number as u32);
            }
            candidate = self.table.older(k);
        }
        None
    }
}

// The hash of two functions. Pairs of one level come near one another, and so do their buckets.
fn hash(first: Ref, second: Ref) -> u32
    ensures { result ≡ hash_of first second }
{
    let mixed = u64::from(first.number()) * 663608941 + u64::from(second.number());
    (mixed % 4294967296) as u32
}
