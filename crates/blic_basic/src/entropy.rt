// Where seeds come from.
ghost use Rattle.std.specs.Prelude.{ℕ, List, Option};
ghost use Rattle.blic_basic.specs.Seeding.{Seeds, SeedCounts};

/// What a source of seeds answered.
#[derive(Clone, Copy, Debug, PartialEq, Eq)]
pub enum Seeded {
    Seed([u8; 32]),
    /// The seed could not be obtained.
    Failed,
}

/// A source of seeds of 32 bytes.
pub trait Entropy {
    /// The seeds that will come, numbered from 0 at the next one, if contracts can speak of them
    /// (if they are told).
    ghost seeds: { Self → Option (ℕ → Option (List ℕ)) };

    /// How many calls have failed.
    ghost faults: { Self → ℕ };

    /// Takes the next seed.
    fn seed(&mut self) -> Seeded
        ensures seed { Seeds (seeds self.old) (seeds self.new) result }
        ensures cause { SeedCounts (faults self.old) (faults self.new) result };
}
