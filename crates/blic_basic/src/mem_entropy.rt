// Seeds in memory.
ghost use Rattle.std.specs.Prelude.{◌≡◌, ◌↔◌, ◌⊎◌, [], Contains, Some};
ghost use Rattle.blic_basic.specs.Seeding.{Seeds, SeedCounts, seed_at};
ghost use Rattle.blic_basic.specs.Memory.{new_seeds};
ghost use Rattle.blic_basic.specs.Outside.{one_more};

use crate::entropy::{Entropy, Seeded};
use crate::piece::is_listed;
use std::marker::Model;

/// Seeds in memory, each given once. The calls whose numbers are listed fail. Contracts see a
/// `MemorySeeds`.
#[derive(Drop)]
pub struct MemEntropy {
    seeds: Vec<[u8; 32]>,
    at: usize,
    failing: Vec<u64>,
    calls: u64,
    faults: u64,
}

impl Model for MemEntropy {
    ghost use Rattle.std.specs.Prelude.{◌≤◌, length, drop};
    ghost use Rattle.blic_basic.specs.Memory.{MemorySeeds};

    ghost Value = { MemorySeeds };

    ghost view = { λ e. record {
      left = drop e.at e.seeds.items;
      failing = e.failing.items;
      calls = e.calls;
      faults = e.faults;
    } };

    ghost invariant = { λ e. e.at ≤ length e.seeds.items };
}

impl MemEntropy {
    /// These seeds, in their order. The calls of `seed` whose numbers are in `failing`, counted from
    /// 0, fail.
    pub fn new(seeds: Vec<[u8; 32]>, failing: Vec<u64>) -> MemEntropy
        ensures { result ≡ new_seeds seeds.items failing.items }
    {
        MemEntropy {
            seeds,
            at: 0,
            failing,
            calls: 0,
            faults: 0,
        }
    }

    /// How many calls have failed.
    pub fn faults(&self) -> u64
        ensures { result ≡ self.now.faults }
    {
        self.faults
    }
}

impl Entropy for MemEntropy {
    ghost seeds = { λ e. Some (seed_at e.left) };

    ghost faults = { λ e. e.faults };

    /// Gives the next seed. It fails exactly if the call's number is listed or no seed is left.
    fn seed(&mut self) -> Seeded
        ensures seed { Seeds (Some (seed_at self.old.left)) (Some (seed_at self.new.left)) result }
        ensures cause { SeedCounts self.old.faults self.new.faults result }
        ensures failed { (result ≡ Seeded.Failed) ↔ (Contains self.old.failing self.old.calls ⊎ (self.old.left ≡ [])) }
        ensures fault { result ≡ Seeded.Failed → self.new.faults ≡ one_more self.old.faults }
        ensures calls { self.new.calls ≡ one_more self.old.calls }
        ensures same_failing { self.new.failing ≡ self.old.failing }
    {
        let call = self.calls;
        self.calls = self.calls.saturating_add(1);
        if self.at == self.seeds.len() || is_listed(&self.failing, call) {
            self.faults = self.faults.saturating_add(1);
            return Seeded::Failed;
        }
        let seed = self.seeds[self.at];
        self.at += 1;
        Seeded::Seed(seed)
    }
}
