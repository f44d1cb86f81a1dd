// Sets of numbers that are emptied at no cost.
ghost use Rattle.std.specs.Prelude.{◌≡◌, ◌<◌, ◌^◌, ◌++◌, ◌∷◌, ℕ, [], false, IfOk, IsTrue, length, slice_index_or};
ghost use Rattle.std.specs.List.Sorted.{IsPermutation};
ghost use Rattle.blic_store.specs.Numbers.{IsOnce, Lacks};
ghost use Rattle.blic_eval.specs.Numbers.{Has, HasPlaces};
ghost use Rattle.blic_eval.specs.Reached.{HasFallingLevels};

use crate::packed::{pack, unpack};
use blic_basic::NoMem;
use blic_store::Store;
use std::alloc::Global;
use std::marker::Model;
use std::vec::Vec;

/// A set of numbers below a bound, in the order in which they were added. `places` says where in the
/// list a number would stand; of a number that isn't in the set it may say anything, so that it is
/// never cleared. `words` is room for sorting.
#[derive(Drop)]
pub(crate) struct NumberSet {
    numbers: Vec<u32>,
    places: Vec<u32>,
    words: Vec<u64>,
}

impl Model for NumberSet {
    ghost use Rattle.std.specs.Prelude.{◌≤◌, vec_capacity, vec_len};
    ghost use Rattle.blic_eval.specs.Numbers.{HasPlaces, Numbers};

    ghost Value = { Numbers };

    ghost view = { λ s. record { room = vec_len s.places; numbers = s.numbers.items } };

    ghost invariant = { λ s. HasPlaces s.numbers.items s.places.items × (vec_len s.places ≤ vec_capacity s.numbers) × (vec_len s.places ≤ vec_capacity s.words) };
}

impl NumberSet {
    /// The empty set, with room for all numbers below `room`.
    pub(crate) fn new(alloc: Global, room: u32) -> Result<NumberSet, NoMem>
        ensures { IfOk result (λ s. s ≡ record { room = room; numbers = [] }) }
    {
        Ok(NumberSet {
            numbers: Vec::with_capacity(alloc, room as usize)?,
            places: vec![in alloc; 0; room as usize]?,
            words: Vec::with_capacity(alloc, room as usize)?,
        })
    }

    /// The numbers, the first one that was added first.
    pub(crate) fn numbers(&self) -> &[u32]
        ensures { result.now ≡ self.now.numbers }
    {
        &self.numbers
    }

    /// Takes out all numbers.
    pub(crate) fn clear(&mut self)
        ensures { self.new ≡ record { room = self.old.room; numbers = [] } }
    {
        self.numbers.clear();
    }

    /// Whether the set has the number.
    pub(crate) fn contains(&self, number: u32) -> bool
        requires { number < self.now.room }
        ensures has { IsTrue result → Has self.now.numbers number }
        ensures lacks { result ≡ false → Lacks self.now.numbers number }
    {
        let place = self.places[number as usize] as usize;
        place < self.numbers.len() && self.numbers[place] == number
    }

    /// Adds a number that the set lacks.
    pub(crate) fn add(&mut self, number: u32)
        requires room { number < self.old.room }
        requires new { Lacks self.old.numbers number }
        ensures { self.new ≡ record { room = self.old.room; numbers = self.old.numbers ++ number ∷ [] } }
    {
        self.places[number as usize] = self.numbers.len() as u32;
        self.numbers.push_reserved(number);
    }

    /// Puts the numbers in the order of their decisions' levels, the greatest level first.
    pub(crate) fn sort_by_level(&mut self, store: &Store)
        requires { (i : ℕ) → i < length self.old.numbers → slice_index_or self.old.numbers i 0 < length store.now.nodes }
        ensures room { self.new.room ≡ self.old.room }
        ensures same { IsPermutation self.old.numbers self.new.numbers }
        ensures falling { HasFallingLevels store.now.nodes self.new.numbers }
    {
        store.canonical_law();
        pack(store, &self.numbers, &mut self.words);
        self.words.sort_unstable();
        unpack(&self.words, &mut self.numbers);
        write_places(&self.numbers, &mut self.places);
    }
}

// Writes the place of each number.
fn write_places(numbers: &[u32], places: &mut [u32])
    requires once { IsOnce numbers.now }
    requires held { (i : ℕ) → i < length numbers.now → slice_index_or numbers.now i 0 < length places.old }
    requires few { length places.old < 2 ^ 32 }
    ensures places { HasPlaces numbers.now places.new }
    ensures room { length places.new ≡ length places.old }
{
    for (place, &number) in numbers.iter().enumerate() {
        places[number as usize] = place as u32;
    }
}
