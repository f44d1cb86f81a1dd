// A sink in memory.
ghost use Rattle.std.specs.Prelude.{◌≡◌, ◌<◌, ◌≤◌, ◌-◌, ◌↔◌, ◌⊎◌, Contains, Some, IfOk, length, min};
ghost use Rattle.blic_basic.specs.Outside.{Gives, GiveCounts, IfTook, one_more};
ghost use Rattle.blic_basic.specs.Memory.{new_sink};

use crate::NoMem;
use crate::piece::is_listed;
use crate::sink::{Given, Sink};
use std::alloc::Global;
use std::marker::Model;

/// A buffer with room for a fixed number of bytes, which takes at most `most` of them in a call. The
/// calls whose numbers are listed fail. Contracts see a `MemorySink`.
#[derive(Drop)]
pub struct MemSink {
    bytes: Vec<u8>,
    most: usize,
    failing: Vec<u64>,
    room: usize,
    calls: u64,
    faults: u64,
}

impl Model for MemSink {
    ghost use Rattle.std.specs.Prelude.{◌≤◌, vec_len, vec_capacity};
    ghost use Rattle.blic_basic.specs.Memory.{MemorySink};

    ghost Value = { MemorySink };

    ghost view = { λ s. record {
      held = s.bytes.items;
      most = s.most;
      failing = s.failing.items;
      room = s.room;
      calls = s.calls;
      faults = s.faults;
    } };

    ghost invariant = { λ s. (vec_len s.bytes ≤ s.room) × (s.room ≤ vec_capacity s.bytes) × (1 ≤ s.most) };
}

impl MemSink {
    /// An empty sink with room for `room` bytes, whose memory is taken here, and which takes at
    /// most `most` bytes in a call; `most` is at least 1. The calls of `give` whose numbers are in
    /// `failing`, counted from 0, fail.
    pub fn new(alloc: Global, most: usize, failing: Vec<u64>, room: usize) -> Result<MemSink, NoMem>
        requires { 1 ≤ most }
        ensures { IfOk result (λ sink. sink ≡ new_sink most failing.items room) }
    {
        Ok(MemSink {
            bytes: Vec::with_capacity(alloc, room)?,
            most,
            failing,
            room,
            calls: 0,
            faults: 0,
        })
    }

    /// The bytes that were given.
    pub fn bytes(&self) -> &[u8]
        ensures held { result.now ≡ self.now.held }
        ensures within { length self.now.held ≤ self.now.room }
    {
        &self.bytes
    }

    /// How many calls have failed.
    pub fn faults(&self) -> u64
        ensures { result ≡ self.now.faults }
    {
        self.faults
    }
}

impl Sink for MemSink {
    ghost held = { λ s. Some s.held };

    ghost faults = { λ s. s.faults };

    /// Takes as many bytes as `most` and the room that is left allow. It fails exactly if the
    /// call's number is listed or no room is left.
    fn give(&mut self, piece: &[u8]) -> Given
        requires { 0 < length piece.now }
        ensures bytes { Gives (Some self.old.held) (Some self.new.held) result piece.now }
        ensures cause { GiveCounts self.old.faults self.new.faults result }
        ensures failed { (result ≡ Given.Failed) ↔ (Contains self.old.failing self.old.calls ⊎ (self.old.room ≡ length self.old.held)) }
        ensures fault { result ≡ Given.Failed → self.new.faults ≡ one_more self.old.faults }
        ensures piece { IfTook result (λ n. n ≡ min self.old.most (min (length piece.now) (self.old.room - length self.old.held))) }
        ensures calls { self.new.calls ≡ one_more self.old.calls }
        ensures same_most { self.new.most ≡ self.old.most }
        ensures same_failing { self.new.failing ≡ self.old.failing }
        ensures same_room { self.new.room ≡ self.old.room }
    {
        let call = self.calls;
        self.calls = self.calls.saturating_add(1);
        let left = self.room - self.bytes.len();
        if left == 0 || is_listed(&self.failing, call) {
            self.faults = self.faults.saturating_add(1);
            return Given::Failed;
        }
        let count = self.most.min(piece.len().min(left));
        self.bytes.extend_from_slice(&piece[..count]).unwrap();
        Given::Took(count)
    }
}
