// A table of slots: numbers, each found by a hash.
ghost use Rattle.std.specs.Prelude.{◌≡◌, ◌+◌, ◌^◌, ◌<◌, ◌≤◌, ◌↔◌, ℕ, [], ◌∷◌, ◌++◌, length, slice_index_or, IfOk, IfSome, IfNone, OnOk, OnErr, IsTrue, true, false};
ghost use Rattle.blic_store.specs.SlotTable.{HasSlots, Puts, place, slot_at, slot_of, spot};
ghost use Rattle.blic_store.specs.UniqueTable.{IsSize, hash_at};

use blic_basic::NoMem;
use std::alloc::Global;
use std::marker::Model;
use std::vec::Vec;

/// The number of slots of a table without numbers.
const SMALL: usize = 16;

/// The least number for which a slot has no room.
const ROOM: u32 = 67108864;

/// Something that is looked for among the numbers of a table, from 0 on.
pub trait Wanted {
    /// How many numbers there are.
    ghost count: { Self → ℕ };

    /// Whether a number is what is looked for.
    ghost is: { Self → ℕ → Type 0 };

    /// Whether number k is what is looked for.
    fn is_at(&self, k: u32) -> bool
        requires { k < count self.now }
        ensures { IsTrue result ↔ is self.now k };
}

/// Numbers from 0 on, each entered with a hash, and found by it. What a number stands for is its
/// owner's.
///
/// It is a hash table with open addressing, at most half full, in lines of 16 slots: a number stands in
/// the first slot that was empty in the line of its hash, or, if there was none, from a far slot on. A
/// slot keeps the top bits of the hash too, so that few numbers with another hash are looked at.
#[derive(Drop)]
pub struct SlotTable {
    alloc: Global,
    slots: Vec<u32>,
    hashes: Vec<u32>,
}

impl Model for SlotTable {
    ghost use Rattle.std.specs.Prelude.{List, ℕ};
    ghost use Rattle.blic_store.specs.SlotTable.{IsSlotTable};

    ghost Value = { List ℕ };

    ghost view = { λ t. t.hashes.items };

    ghost invariant = { λ t. IsSlotTable t.slots.items t.hashes.items };
}

impl SlotTable {
    /// A table without numbers, with room for some.
    pub fn new(alloc: Global) -> Result<SlotTable, NoMem>
        ensures { IfOk result (λ table. table ≡ []) }
    {
        Ok(SlotTable {
            alloc,
            slots: vec![in alloc; 0; SMALL]?,
            hashes: Vec::new(alloc),
        })
    }

    /// A number that was entered with the hash, and is what is wanted.
    pub fn find<W: Wanted>(&self, hash: u32, wanted: &W) -> Option<u32>
        requires { length self.now ≡ W.count wanted.now }
        ensures in_range { IfSome result (λ k. k < length self.now) }
        ensures some { IfSome result (W.is wanted.now) }
        ensures none { IfNone result ((k : ℕ) → k < length self.now → hash_at self.now k ≡ hash → W.is wanted.now k → ⊥) }
    {
        let size = self.slots.len();
        for i in 0..size {
            let slot = self.slots[place_of(hash, i, size)];
            if slot == 0 {
                return None;
            }
            let k = slot % ROOM - 1;
            if slot / ROOM == hash / ROOM && wanted.is_at(k) {
                return Some(k);
            }
        }
        None
    }

    /// Enters the next number with the hash. The only error is out of memory.
    pub fn enter(&mut self, hash: u32) -> Result<(), NoMem>
        ensures ok { OnOk result (self.new ≡ self.old ++ hash ∷ []) }
        ensures err { OnErr result (self.new ≡ self.old) }
    {
        let n = self.hashes.len();
        if n + 1 >= ROOM as usize {
            return Err(NoMem);
        }
        if 2 * n >= self.slots.len() {
            self.widen();
        }
        self.hashes.reserve(1)?;
        if !put(&mut self.slots, hash, n as u32) {
            return Err(NoMem);
        }
        self.hashes.push_reserved(hash);
        Ok(())
    }

    // Twice as many slots, if there is memory for them.
    fn widen(&mut self)
        ensures { self.new ≡ self.old }
    {
        let size = self.slots.len();
        if size > 1 << 31 {
            return;
        }
        let Ok(mut slots) = vec![in self.alloc; 0; 2 * size] else {
            return;
        };
        if put_all(&mut slots, &self.hashes) {
            self.slots = slots;
        }
    }
}

// The place of the slot that is looked at after i others.
fn place_of(hash: u32, i: usize, size: usize) -> usize
    requires size { IsSize size }
    requires distance { i < size }
    ensures value { result ≡ place size hash i }
    ensures in_range { result < size }
{
    spot_of(hash, i) & (size - 1)
}

// What is looked at after i others: the 16 of the hash's line, and then those from a far one on.
fn spot_of(hash: u32, i: usize) -> usize
    requires { i < 4294967296 }
    ensures { result ≡ spot hash i }
{
    let hash = hash as usize;
    if i < 16 {
        return hash / 16 * 16 + (hash + i) % 16;
    }
    hash * 2654435761 % 4294967296 / 16 + i
}

// Puts number k into the first empty slot of its hash, if there is one.
fn put(slots: &mut Vec<u32>, hash: u32, k: u32) -> bool
    requires size { IsSize (length slots.old.items) }
    requires room { k + 1 < 67108864 }
    ensures put { IsTrue result → Puts slots.old.items slots.new.items hash k }
    ensures same { result ≡ false → slots.new.items ≡ slots.old.items }
{
    let size = slots.len();
    for i in 0..size {
        let at = place_of(hash, i, size);
        if slots[at] == 0 {
            slots[at] = hash / ROOM * ROOM + (k + 1);
            return true;
        }
    }
    false
}

// Puts all numbers into empty slots, if there is room for them.
fn put_all(slots: &mut Vec<u32>, hashes: &[u32]) -> bool
    requires size { IsSize (length slots.old.items) }
    requires empty { (p : ℕ) → slot_at slots.old.items p ≡ 0 }
    requires few { length hashes.now < 67108864 }
    ensures slots { IsTrue result → HasSlots slots.new.items hashes.now (length hashes.now) }
    ensures size { IsTrue result → length slots.new.items ≡ length slots.old.items }
{
    for k in 0..hashes.len() {
        if !put(slots, hashes[k], k as u32) {
            return false;
        }
    }
    true
}
