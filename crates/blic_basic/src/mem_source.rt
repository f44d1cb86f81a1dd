// A source in memory.
ghost use Rattle.std.specs.Prelude.{◌≡◌, ◌<◌, ◌≤◌, ◌↔◌, Contains, Some, length, min};
ghost use Rattle.blic_basic.specs.Outside.{Takes, TakeCounts, IfGot, one_more};
ghost use Rattle.blic_basic.specs.Memory.{new_source};

use crate::piece::{copy_front, is_listed};
use crate::source::{Source, Taken};
use std::marker::Model;

/// Bytes in memory, given in pieces of at most `most` bytes. The calls whose numbers are listed
/// fail. Contracts see a `MemorySource`.
#[derive(Drop)]
pub struct MemSource {
    bytes: Vec<u8>,
    at: usize,
    most: usize,
    failing: Vec<u64>,
    calls: u64,
    faults: u64,
}

impl Model for MemSource {
    ghost use Rattle.std.specs.Prelude.{◌≤◌, ◌<◌, length, drop};
    ghost use Rattle.blic_basic.specs.Memory.{MemorySource};

    ghost Value = { MemorySource };

    ghost view = { λ s. record {
      left = drop s.at s.bytes.items;
      most = s.most;
      failing = s.failing.items;
      calls = s.calls;
      faults = s.faults;
    } };

    ghost invariant = { λ s. (s.at ≤ length s.bytes.items) × (1 ≤ s.most) };
}

impl MemSource {
    /// A source of these bytes that gives at most `most` of them in a call; `most` is at least 1. The
    /// calls of `take` whose numbers are in `failing`, counted from 0, fail.
    pub fn new(bytes: Vec<u8>, most: usize, failing: Vec<u64>) -> MemSource
        requires { 1 ≤ most }
        ensures { result ≡ new_source bytes.items most failing.items }
    {
        MemSource {
            bytes,
            at: 0,
            most,
            failing,
            calls: 0,
            faults: 0,
        }
    }

    /// The bytes that were not taken yet.
    pub fn left(&self) -> &[u8]
        ensures { result.now ≡ self.now.left }
    {
        &self.bytes[self.at..]
    }

    /// How many calls have failed.
    pub fn faults(&self) -> u64
        ensures { result ≡ self.now.faults }
    {
        self.faults
    }
}

impl Source for MemSource {
    ghost left = { λ s. Some s.left };

    ghost faults = { λ s. s.faults };

    /// Takes as many bytes as `buf` and `most` allow. It fails exactly if the call's number is
    /// listed.
    fn take(&mut self, buf: &mut [u8]) -> Taken
        requires { 0 < length buf.old }
        ensures bytes { Takes (Some self.old.left) (Some self.new.left) result buf.new }
        ensures cause { TakeCounts self.old.faults self.new.faults result }
        ensures failed { (result ≡ Taken.Failed) ↔ Contains self.old.failing self.old.calls }
        ensures fault { result ≡ Taken.Failed → self.new.faults ≡ one_more self.old.faults }
        ensures piece { IfGot result (λ n. n ≡ min self.old.most (min (length buf.old) (length self.old.left))) }
        ensures calls { self.new.calls ≡ one_more self.old.calls }
        ensures same_most { self.new.most ≡ self.old.most }
        ensures same_failing { self.new.failing ≡ self.old.failing }
    {
        let call = self.calls;
        self.calls = self.calls.saturating_add(1);
        if is_listed(&self.failing, call) {
            self.faults = self.faults.saturating_add(1);
            return Taken::Failed;
        }
        let rest = &self.bytes[self.at..];
        if rest.is_empty() {
            return Taken::End;
        }
        let count = copy_front(rest, buf, self.most);
        self.at += count;
        Taken::Got(count)
    }
}
