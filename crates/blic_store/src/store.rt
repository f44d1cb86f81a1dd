// The store: decisions, no two of which stand for one function.
ghost use Rattle.std.specs.Prelude.{◌≡◌, ◌≢◌, ◌+◌, ◌-◌, ◌^◌, ◌<◌, ◌≤◌, ◌↔◌, ℕ, Bool, [], ◌∷◌, ◌++◌, length, Err, IfErr, IfNone, IfOk, IfSome, OnErr, OnOk, IsTrue};
ghost use Rattle.blic_store.specs.Canonical.{IsCanonical, IsPlaced};
ghost use Rattle.blic_store.specs.Diagram.{IsRef, cofactor, decision_at, function, high_of, level_of, low_of};
ghost use Rattle.blic_store.specs.Function.{choice};
ghost use Rattle.blic_store.specs.Growth.{Answers, Diagrams, PassesLimit};
ghost use Rattle.blic_store.specs.Store.{hash_of};

use crate::decision::Decision;
use crate::reference::Ref;
use crate::slot_table::{SlotTable, Wanted};
use blic_basic::NoMem;
use std::alloc::Global;
use std::marker::Model;
use std::vec::Vec;
use thiserror::Error;

/// With more decisions a ref's number would pass 32 bits.
const MOST: usize = 4294967294;

/// Why a function was not made.
#[derive(Clone, Copy, Debug, PartialEq, Eq, Error)]
pub enum StoreError {
    /// The store holds as many decisions as it may, and would need one more.
    #[error("the store is full")]
    Full,
    /// Memory ran out.
    #[error("memory ran out")]
    NoMem,
}

/// Decision diagrams of Boolean functions over ordered levels: at most `limit` decisions, and no two
/// for one function.
#[derive(Drop)]
pub struct Store {
    nodes: Vec<Decision>,
    table: SlotTable,
    limit: u32,
}

impl Model for Store {
    ghost use Rattle.blic_store.specs.Growth.{Diagrams};
    ghost use Rattle.blic_store.specs.Store.{IsStore};

    ghost Value = { Diagrams };

    ghost view = { λ s. record { nodes = s.nodes.items; limit = s.limit } };

    ghost invariant = { λ s. IsStore s.nodes.items s.table s.limit };
}

impl Store {
    /// A store with the two constants alone, which may hold `limit` decisions.
    pub fn new(alloc: Global, limit: u32) -> Result<Store, NoMem>
        ensures { IfOk result (λ store. store ≡ record { nodes = []; limit = limit }) }
    {
        Ok(Store {
            nodes: Vec::new(alloc),
            table: SlotTable::new(alloc)?,
            limit,
        })
    }

    /// The number of decisions.
    pub fn len(&self) -> u32
        ensures { result ≡ length self.now.nodes }
    {
        self.nodes.len() as u32
    }

    /// Whether the ref is of this store.
    pub fn holds(&self, r: Ref) -> bool
        ensures { IsTrue result ↔ IsRef self.now.nodes r }
    {
        (r.number() as usize) < self.nodes.len() + 2
    }

    /// The level at which the function decides: the topmost that it depends on.
    pub fn level(&self, r: Ref) -> u32
        requires held { IsRef self.now.nodes r }
        requires inner { 2 ≤ r }
        ensures { result ≡ level_of self.now.nodes r }
    {
        self.nodes[r.number() as usize - 2].level
    }

    /// The level at which the function decides, or 2^32 for a constant.
    pub fn depth(&self, r: Ref) -> u64
        requires { IsRef self.now.nodes r }
        ensures { result ≡ level_of self.now.nodes r }
    {
        if r.is_const() {
            1 << 32
        } else {
            u64::from(self.level(r))
        }
    }

    /// The function with its level's bit 0.
    pub fn low(&self, r: Ref) -> Ref
        requires held { IsRef self.now.nodes r }
        requires inner { 2 ≤ r }
        ensures { result ≡ low_of self.now.nodes r }
    {
        self.nodes[r.number() as usize - 2].low
    }

    /// The function with its level's bit 1.
    pub fn high(&self, r: Ref) -> Ref
        requires held { IsRef self.now.nodes r }
        requires inner { 2 ≤ r }
        ensures { result ≡ high_of self.now.nodes r }
    {
        self.nodes[r.number() as usize - 2].high
    }

    /// The function with the level's bit fixed (a cofactor), if the level is the one at which it decides; else
    /// the function itself.
    pub fn cofactor(&self, r: Ref, level: u32, bit: bool) -> Ref
        requires { IsRef self.now.nodes r }
        ensures { result ≡ cofactor self.now.nodes r level bit }
    {
        if r.is_const() || self.level(r) != level {
            return r;
        }
        if bit { self.high(r) } else { self.low(r) }
    }

    /// The function that is `lo` if the level's bit is 0 and `hi` if it is 1: the ref that
    /// stands for it already, if there is one, and else a new one. The refs made before keep their
    /// functions. It takes constant time, but for the growth of the store's tables.
    ///
    /// Refuses with `Full` exactly if the function is new and `limit` decisions are held: no
    /// store within the limit has it (`full_law`). A refusal leaves the store as it was.
    pub fn make(&mut self, level: u32, lo: Ref, hi: Ref) -> Result<Ref, StoreError>
        requires lo_held { IsRef self.old.nodes lo }
        requires hi_held { IsRef self.old.nodes hi }
        requires above_lo { level < level_of self.old.nodes lo }
        requires above_hi { level < level_of self.old.nodes hi }
        ensures ok { IfOk result (λ r. Answers
            (choice level (function self.old.nodes lo) (function self.old.nodes hi))
            self.old self.new r) }
        ensures full { result ≡ Err StoreError.Full → PassesLimit
            (choice level (function self.old.nodes lo) (function self.old.nodes hi)) self.old }
        ensures err { OnErr result (self.new ≡ self.old) }
    {
        self.canonical_law();
        if lo == hi {
            return Ok(lo);
        }
        let decision = Decision {
            level,
            low: lo,
            high: hi,
        };
        if let Some(k) = self.find(&decision) {
            return Ok(Ref::numbered(k + 2));
        }
        if self.nodes.len() >= self.limit as usize {
            return Err(StoreError::Full);
        }
        self.add(&decision)
    }

    /// Every store is canonical, and within its limit.
    pub fn canonical_law(&self)
        ensures canonical { IsCanonical self.now.nodes }
        ensures within { length self.now.nodes ≤ self.now.limit }
        ensures in_range { length self.now.nodes ≤ 2 ^ 32 - 2 }
    {
        let _ = &self.nodes;
    }

    // The number of the decision, if it is held.
    fn find(&self, decision: &Decision) -> Option<u32>
        ensures in_range { IfSome result (λ k. k < length self.now.nodes) }
        ensures equal { IfSome result (λ k. decision_at self.now.nodes k ≡ decision.now) }
        ensures none { IfNone result ((k : ℕ) → k < length self.now.nodes → decision_at self.now.nodes k ≢ decision.now) }
    {
        let wanted = Among {
            nodes: &self.nodes,
            decision: *decision,
        };
        self.table.find(hash(decision), &wanted)
    }

    // Holds the decision, which is new, too.
    fn add(&mut self, decision: &Decision) -> Result<Ref, StoreError>
        requires placed { IsPlaced self.old.nodes (length self.old.nodes) decision.now }
        requires new { (k : ℕ) → k < length self.old.nodes → decision_at self.old.nodes k ≢ decision.now }
        requires room { length self.old.nodes < self.old.limit }
        ensures ok { IfOk result (λ r. r ≡ length self.old.nodes + 2) }
        ensures nodes { OnOk result (self.new.nodes ≡ self.old.nodes ++ decision.now ∷ []) }
        ensures limit { self.new.limit ≡ self.old.limit }
        ensures no_mem { IfErr result (λ e. e ≡ StoreError.NoMem) }
        ensures err { OnErr result (self.new ≡ self.old) }
    {
        let n = self.nodes.len();
        if n >= MOST || self.nodes.reserve(1).is_err() {
            return Err(StoreError::NoMem);
        }
        if self.table.enter(hash(decision)).is_err() {
            return Err(StoreError::NoMem);
        }
        self.nodes.push_reserved(*decision);
        Ok(Ref::numbered(n as u32 + 2))
    }
}

// A decision that is looked for among others.
#[derive(Clone, Copy)]
struct Among<'a> {
    nodes: &'a [Decision],
    decision: Decision,
}

impl Wanted for Among<'_> {
    ghost count = { λ w. length w.nodes.now };

    ghost is = { λ w k. decision_at w.nodes.now k ≡ w.decision };

    fn is_at(&self, k: u32) -> bool {
        self.nodes[k as usize] == self.decision
    }
}

// The hash of a decision: a slot in a line of 16, and six bits above it. Decisions that are made one
// after another have children that were, and the line is chosen by the younger one; the other bits mix
// all three numbers.
fn hash(decision: &Decision) -> u32
    ensures { result ≡ hash_of decision.now }
{
    let level = u64::from(decision.level);
    let low = u64::from(decision.low.number());
    let high = u64::from(decision.high.number());
    let sum = level * 2246822519 % 4294967296
        + low * 2654435761 % 4294967296
        + high * 3266489917 % 4294967296;
    let mixed = sum % 4294967296;
    let line = low.max(high) / 8 + mixed / 1048576 % 4;
    let slot = (line * 16 + mixed / 4194304 % 16) % 67108864;
    (slot + mixed / 67108864 * 67108864) as u32
}
