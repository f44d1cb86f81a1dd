// Seeds from the system's random bytes.
ghost use Rattle.std.specs.Prelude.{◌≡◌, None};
ghost use Rattle.blic_basic.specs.Seeding.{Seeds, SeedCounts};
ghost use Rattle.blic_basic.specs.Outside.{one_more};

use crate::entropy::{Entropy, Seeded};
use std::fs::File;
use std::io;
use std::io::Read;
use std::marker::Model;

/// The system's random bytes, from `/dev/urandom`, which each call opens anew. Contracts see how
/// many calls have failed. Which seeds come is not told.
#[derive(Drop)]
pub struct RandomFile<'a, R> {
    rt: &'a R,
    faults: u64,
}

impl<'a, R> Model for RandomFile<'a, R> {
    ghost use Rattle.std.specs.Prelude.{ℕ};

    ghost Value = { ℕ };

    ghost view = { λ f. f.faults };
}

impl<'a, R: std::rt::Files> RandomFile<'a, R> {
    /// The random bytes of the system that the runtime stands for. No call has failed so far.
    pub fn new(rt: &'a R) -> RandomFile<'a, R>
        ensures { result ≡ 0 }
    {
        RandomFile { rt, faults: 0 }
    }

    /// How many calls have failed. The count stops at its last value.
    pub fn faults(&self) -> u64
        ensures { result ≡ self.now }
    {
        self.faults
    }
}

impl<'a, R: std::rt::Files> Entropy for RandomFile<'a, R> {
    ghost seeds = { λ _. None };

    ghost faults = { λ faults. faults };

    fn seed(&mut self) -> Seeded
        ensures seed { Seeds None None result }
        ensures cause { SeedCounts self.old self.new result }
        ensures fault { result ≡ Seeded.Failed → self.new ≡ one_more self.old }
    {
        match random_bytes(self.rt) {
            Ok(seed) => Seeded::Seed(seed),
            Err(_) => {
                self.faults = self.faults.saturating_add(1);
                Seeded::Failed
            }
        }
    }
}

fn random_bytes<R: std::rt::Files>(rt: &R) -> io::Result<[u8; 32]> {
    let mut file = File::open(rt, "/dev/urandom")?;
    let mut bytes = [0; 32];
    file.read_exact(&mut bytes)?;
    Ok(bytes)
}
