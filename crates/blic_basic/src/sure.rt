// Forms that never fail.
ghost use Rattle.std.specs.Prelude.{◌≡◌, ◌<◌, Some, None, length, min};
ghost use Rattle.blic_basic.specs.Seeding.{Seeds, SeedCounts};
ghost use Rattle.blic_basic.specs.Outside.{Takes, TakeCounts, IfGot, Gives, GiveCounts};

use crate::entropy::{Entropy, Seeded};
use crate::files::{Files, Opened};
use crate::piece::copy_front;
use crate::sink::{Given, Sink};
use crate::source::{Source, Taken};
use std::marker::Model;

/// Shared bytes, which come in pieces as large as the buffer. Contracts see the bytes that are
/// left.
#[derive(Drop)]
pub struct SureSource<'b> {
    rest: &'b [u8],
}

impl<'b> Model for SureSource<'b> {
    ghost use Rattle.std.specs.Prelude.{List, ℕ};

    ghost Value = { List ℕ };

    ghost view = { λ s. s.rest.now };
}

impl<'b> SureSource<'b> {
    /// A source of these bytes.
    pub fn new(bytes: &'b [u8]) -> SureSource<'b>
        ensures { result ≡ bytes.now }
    {
        SureSource { rest: bytes }
    }
}

impl<'b> Source for SureSource<'b> {
    ghost left = { λ s. Some s };

    ghost faults = { λ _. 0 };

    /// Takes as many bytes as `buf` has room for.
    fn take(&mut self, buf: &mut [u8]) -> Taken
        requires { 0 < length buf.old }
        ensures bytes { Takes (Some self.old) (Some self.new) result buf.new }
        ensures cause { TakeCounts 0 0 result }
        ensures piece { IfGot result (λ n. n ≡ min (length buf.old) (length self.old)) }
    {
        let rest = self.rest;
        if rest.is_empty() {
            return Taken::End;
        }
        let count = copy_front(rest, buf, usize::MAX);
        self.rest = &rest[count..];
        Taken::Got(count)
    }
}

/// The same shared bytes under every name. Contracts see the bytes.
#[derive(Drop)]
pub struct SureFiles<'b> {
    bytes: &'b [u8],
}

impl<'b> Model for SureFiles<'b> {
    ghost use Rattle.std.specs.Prelude.{List, ℕ};

    ghost Value = { List ℕ };

    ghost view = { λ f. f.bytes.now };
}

impl<'b> SureFiles<'b> {
    /// Every file has these bytes.
    pub fn new(bytes: &'b [u8]) -> SureFiles<'b>
        ensures { result ≡ bytes.now }
    {
        SureFiles { bytes }
    }
}

impl<'b> Files for SureFiles<'b> {
    type S = SureSource<'b>;

    ghost files = { λ bytes. Some (λ _. Some bytes) };

    ghost faults = { λ _. 0 };

    fn open_file(&mut self, _name: &str) -> Opened<SureSource<'b>> {
        Opened::Source(SureSource::new(self.bytes))
    }

    fn close_file(&mut self, _source: SureSource<'b>) {}
}

/// A sink that takes everything and keeps nothing.
#[derive(Clone, Copy, Debug, PartialEq, Eq)]
pub struct SureSink;

impl SureSink {
    pub fn new() -> SureSink {
        SureSink
    }
}

impl Sink for SureSink {
    ghost held = { λ _. None };

    ghost faults = { λ _. 0 };

    /// Takes the whole piece.
    fn give(&mut self, piece: &[u8]) -> Given
        requires { 0 < length piece.now }
        ensures bytes { Gives None None result piece.now }
        ensures cause { GiveCounts 0 0 result }
        ensures whole { result ≡ Given.Took (length piece.now) }
    {
        Given::Took(piece.len())
    }
}

/// The same seed at each call. Contracts see the seed.
#[derive(Clone, Copy, Debug, PartialEq, Eq)]
pub struct SureEntropy {
    seed: [u8; 32],
}

impl Model for SureEntropy {
    ghost use Rattle.std.specs.Prelude.{List, ℕ};

    ghost Value = { List ℕ };

    ghost view = { λ e. e.seed };

    ghost inverse = { λ s. record { seed = s } };
}

impl SureEntropy {
    /// Each call gives this seed.
    pub fn new(seed: [u8; 32]) -> SureEntropy
        ensures { result ≡ seed }
    {
        SureEntropy { seed }
    }
}

impl Entropy for SureEntropy {
    ghost seeds = { λ seed. Some (λ n. Some seed) };

    ghost faults = { λ _. 0 };

    /// Gives the seed.
    fn seed(&mut self) -> Seeded
        ensures seed { Seeds (Some (λ n. Some self.old)) (Some (λ n. Some self.new)) result }
        ensures cause { SeedCounts 0 0 result }
        ensures same { self.new ≡ self.old }
        ensures given { result ≡ Seeded.Seed self.old }
    {
        Seeded::Seed(self.seed)
    }
}
