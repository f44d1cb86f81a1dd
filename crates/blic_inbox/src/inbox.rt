// Bytes that have come and were not read yet.
ghost use Rattle.std.specs.Prelude.{◌≡◌, ◌≤◌, ℕ, [], true, drop, length, take, IfOk, Option};
ghost use Rattle.blic_link.specs.Passing.{ReceiveCounts};
ghost use Rattle.blic_messages.specs.FrontLaws.{AreBytes};
ghost use Rattle.blic_inbox.specs.Listening.{Fills};

use blic_basic::NoMem;
use blic_link::{Link, Received};
use std::alloc::Global;
use std::marker::Model;

/// The most bytes that are taken from a link at once.
const ROOM: usize = 65_536;

/// The bytes of the last piece that are not read yet. Contracts see these.
#[derive(Drop)]
pub struct Inbox {
    bytes: Vec<u8>,
    start: usize,
    end: usize,
}

impl Model for Inbox {
    ghost use Rattle.std.specs.Prelude.{ℕ, List, ◌≡◌, ◌≤◌, ◌-◌, drop, length, take};

    ghost Value = { List ℕ };

    ghost view = { λ x. drop x.start (take x.end x.bytes.items) };

    ghost invariant = { λ x. (x.start ≤ x.end) × (x.end ≤ length x.bytes.items) × (length x.bytes.items ≡ 65536) };
}

impl Inbox {
    /// With no bytes. Only this call takes memory.
    pub fn new(alloc: Global) -> Result<Inbox, NoMem>
        ensures { IfOk result (λ x. x ≡ []) }
    {
        Ok(Inbox {
            bytes: vec![in alloc; 0; ROOM]?,
            start: 0,
            end: 0,
        })
    }

    /// The bytes that are not read yet.
    pub fn waiting(&self) -> &[u8]
        ensures same { result.now ≡ self.now }
        ensures bytes { AreBytes result.now }
    {
        let waiting = &self.bytes[self.start..self.end];
        bytes_law(waiting);
        waiting
    }

    /// Leaves the first `count` bytes behind.
    pub fn pass(&mut self, count: usize)
        requires { count ≤ length self.old }
        ensures { self.new ≡ drop count self.old }
    {
        self.start += count;
    }

    /// Leaves all bytes behind.
    pub fn clear(&mut self)
        ensures { self.new ≡ [] }
    {
        self.start = 0;
        self.end = 0;
    }

    /// Takes the next piece from the link.
    pub fn fill<K: Link>(&mut self, link: &mut K) -> Received
        requires usable { K.is_usable link.old ≡ true }
        requires empty { self.old ≡ [] }
        ensures bytes { Fills (K.pieces link.old) (K.pieces link.new) (K.coming link.new) result self.new }
        ensures usable { K.is_usable link.new ≡ true }
        ensures cause { ReceiveCounts (K.faults link.old) (K.faults link.new) result }
    {
        self.start = 0;
        self.end = 0;
        let received = link.recv(&mut self.bytes);
        if let Received::Got(count) = received {
            self.end = count;
        }
        received
    }
}

// Bytes are below 256.
fn bytes_law(bytes: &[u8])
    ensures { AreBytes bytes.now }
{}
