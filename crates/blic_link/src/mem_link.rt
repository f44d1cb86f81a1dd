// A link in memory.
ghost use Rattle.std.specs.Prelude.{◌≡◌, ◌<◌, ◌≤◌, ◌+◌, ◌^◌, ◌↔◌, ◌⊎◌, Contains, IsTrue, Some, [], true, false, cond, IfOk, length, min, take, slice_index_or};
ghost use Rattle.blic_basic.specs.Outside.{one_more};
ghost use Rattle.blic_link.specs.Memory.{new_link, no_link, all_fresh};
ghost use Rattle.blic_link.specs.Passing.{Receives, ReceiveCounts, IfReceived, received_count, Sends, SendCounts, IfSent, sent_count, Came, bytes_of, was_sent};

use crate::link::{Link, Received, Sent};
use crate::pieces::Pieces;
use blic_basic::NoMem;
use std::alloc::Global;
use std::marker::Model;

/// A link over which bytes in memory come, and which keeps the pieces that pass, each of at most
/// `most` bytes, while it has room. The calls whose numbers are listed fail. One that can't be used
/// comes from a failed `MemAcceptor::next` alone. Contracts see a `MemoryLink`.
#[derive(Drop)]
pub struct MemLink {
    usable: bool,
    coming: Vec<u8>,
    at: usize,
    most: usize,
    failing: Vec<u64>,
    pieces: Pieces,
    calls: u64,
    faults: u64,
}

impl Model for MemLink {
    ghost use Rattle.std.specs.Prelude.{◌≤◌, ◌<◌, length, drop};
    ghost use Rattle.blic_link.specs.Memory.{MemoryLink};

    ghost Value = { MemoryLink };

    ghost view = { λ l. record {
      is_usable = l.usable;
      pieces = l.pieces.pieces;
      coming = drop l.at l.coming.items;
      most = l.most;
      failing = l.failing.items;
      room = l.pieces.room;
      calls = l.calls;
      faults = l.faults;
    } };

    ghost invariant = { λ l. (l.at ≤ length l.coming.items) × (1 ≤ l.most) };
}

impl MemLink {
    /// A link over which the bytes `coming` come, and which passes at most `most` bytes in a call;
    /// `most` is at least 1. It has room for `room` bytes, fewer than 2^32, received and sent ones
    /// together, whose memory is taken here: 13 bytes for each. The calls of `recv` and `send` whose
    /// numbers are in `failing`, counted together from 0, fail.
    pub fn new(
        alloc: Global,
        coming: Vec<u8>,
        most: usize,
        failing: Vec<u64>,
        room: usize,
    ) -> Result<MemLink, NoMem>
        requires most { 1 ≤ most }
        requires room { room < 2 ^ 32 }
        ensures { IfOk result (λ l. l ≡ new_link coming.items most failing.items room) }
    {
        Ok(MemLink {
            usable: true,
            coming,
            at: 0,
            most,
            failing,
            pieces: Pieces::new(alloc, room)?,
            calls: 0,
            faults: 0,
        })
    }

    /// The link of a client who was not accepted. It can't be used, and takes no memory.
    pub(crate) fn none(alloc: Global) -> MemLink
        ensures { result ≡ no_link }
    {
        MemLink {
            usable: false,
            coming: Vec::new(alloc),
            at: 0,
            most: 1,
            failing: Vec::new(alloc),
            pieces: Pieces::none(alloc),
            calls: 0,
            faults: 0,
        }
    }

    /// The bytes that are still coming.
    pub fn left(&self) -> &[u8]
        ensures { result.now ≡ self.now.coming }
    {
        &self.coming[self.at..]
    }

    /// How many calls have failed.
    pub fn faults(&self) -> u64
        ensures { result ≡ self.now.faults }
    {
        self.faults
    }

    /// How many pieces passed.
    pub fn pieces(&self) -> u32
        ensures { result ≡ length self.now.pieces }
    {
        self.pieces.len()
    }

    /// The bytes of piece `i` of those that passed.
    pub fn piece(&self, i: u32) -> &[u8]
        requires { i < length self.now.pieces }
        ensures { result.now ≡ bytes_of (slice_index_or self.now.pieces i (Came [])) }
    {
        self.pieces.piece(i)
    }

    /// Whether piece `i` of those that passed was sent. Else it was received.
    pub fn piece_was_sent(&self, i: u32) -> bool
        requires { i < length self.now.pieces }
        ensures { result ≡ was_sent (slice_index_or self.now.pieces i (Came [])) }
    {
        self.pieces.was_sent(i)
    }

    // Whether the next call is to fail.
    fn is_to_fail(&self) -> bool
        ensures { IsTrue result ↔ (Contains self.now.failing self.now.calls ⊎ (self.now.room ≡ 0)) }
    {
        self.pieces.room() == 0 || is_listed(&self.failing, self.calls)
    }

    // Counts the call that begins, and says whether it is to fail.
    fn fails(&mut self) -> bool
        ensures cause { IsTrue result ↔ (Contains self.old.failing self.old.calls ⊎ (self.old.room ≡ 0)) }
        ensures fault { self.new.faults ≡ cond result (one_more self.old.faults) self.old.faults }
        ensures later { self.old.faults ≤ self.new.faults }
        ensures open { result ≡ false → 0 < self.old.room }
        ensures rest { self.new ≡ record self.old { calls = one_more self.old.calls; faults = self.new.faults } }
    {
        let fails = self.is_to_fail();
        self.calls = self.calls.saturating_add(1);
        if fails {
            self.faults = self.faults.saturating_add(1);
        }
        fails
    }
}

impl Link for MemLink {
    ghost is_usable = { λ l. l.is_usable };

    ghost pieces = { λ l. Some l.pieces };

    ghost coming = { λ l. Some l.coming };

    ghost faults = { λ l. l.faults };

    fn usable(&self) -> bool {
        self.usable
    }

    /// Takes as many bytes as `buf`, `most` and the room that is left allow. It fails exactly if the
    /// call's number is listed or no room is left, also if nothing is coming.
    #[tactic(auto, using(blic_basic::proofs::Appended::taken_bytes))]
    fn recv(&mut self, buf: &mut [u8]) -> Received
        requires usable { self.old.is_usable ≡ true }
        requires room { 0 < length buf.old }
        ensures bytes { Receives (Some self.old.pieces) (Some self.new.pieces) (Some self.old.coming) (Some self.new.coming) result buf.new }
        ensures cause { ReceiveCounts self.old.faults self.new.faults result }
        ensures failed { (result ≡ Received.Failed) ↔ (Contains self.old.failing self.old.calls ⊎ (self.old.room ≡ 0)) }
        ensures fault { result ≡ Received.Failed → self.new.faults ≡ one_more self.old.faults }
        ensures piece { IfReceived result (λ n. n ≡ min self.old.most (min self.old.room (min (length buf.old) (length self.old.coming)))) }
        ensures left { self.new.room + received_count result ≡ self.old.room }
        ensures same { self.new.is_usable ≡ self.old.is_usable }
        ensures calls { self.new.calls ≡ one_more self.old.calls }
        ensures same_most { self.new.most ≡ self.old.most }
        ensures same_failing { self.new.failing ≡ self.old.failing }
    {
        if self.fails() {
            return Received::Failed;
        }
        let most = self.most.min(self.pieces.room());
        let rest = &self.coming[self.at..];
        if rest.is_empty() {
            return Received::End;
        }
        let count = copy_front(rest, buf, most);
        self.pieces.keep(&buf[..count], false);
        self.at += count;
        Received::Got(count)
    }

    /// Sends as many bytes as `most` and the room that is left allow. It fails exactly if the
    /// call's number is listed or no room is left.
    fn send(&mut self, piece: &[u8]) -> Sent
        requires usable { self.old.is_usable ≡ true }
        requires some { 0 < length piece.now }
        ensures bytes { Sends (Some self.old.pieces) (Some self.new.pieces) result piece.now }
        ensures same_coming { Some self.new.coming ≡ Some self.old.coming }
        ensures cause { SendCounts self.old.faults self.new.faults result }
        ensures failed { (result ≡ Sent.Failed) ↔ (Contains self.old.failing self.old.calls ⊎ (self.old.room ≡ 0)) }
        ensures fault { result ≡ Sent.Failed → self.new.faults ≡ one_more self.old.faults }
        ensures piece { IfSent result (λ n. n ≡ min self.old.most (min self.old.room (length piece.now))) }
        ensures left { self.new.room + sent_count result ≡ self.old.room }
        ensures same { self.new.is_usable ≡ self.old.is_usable }
        ensures calls { self.new.calls ≡ one_more self.old.calls }
        ensures same_most { self.new.most ≡ self.old.most }
        ensures same_failing { self.new.failing ≡ self.old.failing }
    {
        if self.fails() {
            return Sent::Failed;
        }
        let count = self.most.min(self.pieces.room().min(piece.len()));
        self.pieces.keep(&piece[..count], true);
        Sent::Took(count)
    }
}

// Whether the call of that number is to fail.
pub(crate) fn is_listed(failing: &[u64], call: u64) -> bool
    ensures { IsTrue result ↔ Contains failing.now call }
{
    failing.contains(&call)
}

// Whether each of the links can be used, nothing passed over it, and no call of it failed.
pub(crate) fn are_fresh(links: &[MemLink]) -> bool
    ensures { result ≡ all_fresh links.now }
{
    for link in links {
        if !link.usable || link.pieces() != 0 || link.faults() != 0 {
            return false;
        }
    }
    true
}

// Copies a prefix of `rest` to the start of `buf`: as many bytes as both have, and at most `most`.
pub(crate) fn copy_front(rest: &[u8], buf: &mut [u8], most: usize) -> usize
    requires rest { 0 < length rest.now }
    requires buf { 0 < length buf.old }
    requires most { 1 ≤ most }
    ensures some { 0 < result }
    ensures count { result ≡ min most (min (length buf.old) (length rest.now)) }
    ensures fits { result ≤ length buf.new }
    ensures copied { take result buf.new ≡ take result rest.now }
{
    let count = most.min(buf.len().min(rest.len()));
    buf[..count].copy_from_slice(&rest[..count]);
    count
}
