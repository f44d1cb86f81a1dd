// Forms that never fail.
ghost use Rattle.std.specs.Prelude.{◌≡◌, ◌<◌, true, false, Some, None, length, min};
ghost use Rattle.blic_link.specs.Accepting.{Listens, ListenCounts, Accepts, AcceptCounts, IfAccepted};
ghost use Rattle.blic_link.specs.Adapters.{HasReceived};
ghost use Rattle.blic_link.specs.Passing.{Receives, ReceiveCounts, IfReceived, Sends, SendCounts};

use crate::acceptor::{Accepted, Acceptor, Listened};
use crate::link::{Link, Received, Sent};
use crate::mem_link::copy_front;
use blic_basic::Listed;
use std::marker::Model;

/// A link over which shared bytes come, in pieces as large as the buffer, and which takes whatever
/// is sent and keeps nothing. Contracts see the bytes that are still coming; to callers it tells
/// none.
#[derive(Drop)]
pub struct SureLink<'b> {
    rest: &'b [u8],
}

impl<'b> Model for SureLink<'b> {
    ghost use Rattle.std.specs.Prelude.{List, ℕ};

    ghost Value = { List ℕ };

    ghost view = { λ l. l.rest.now };
}

impl<'b> SureLink<'b> {
    /// A link over which these bytes come.
    pub fn new(bytes: &'b [u8]) -> SureLink<'b>
        ensures { result ≡ bytes.now }
    {
        SureLink { rest: bytes }
    }
}

impl<'b> Link for SureLink<'b> {
    ghost is_usable = { λ _. true };

    ghost pieces = { λ _. None };

    ghost coming = { λ _. None };

    ghost faults = { λ _. 0 };

    fn usable(&self) -> bool {
        true
    }

    /// Takes as many bytes as `buf` has room for.
    fn recv(&mut self, buf: &mut [u8]) -> Received
        requires room { 0 < length buf.old }
        ensures bytes { Receives None None None None result buf.new }
        ensures cause { ReceiveCounts 0 0 result }
        ensures taken { HasReceived (Some self.old) (Some self.new) result buf.new }
        ensures piece { IfReceived result (λ n. n ≡ min (length buf.old) (length self.old)) }
    {
        let rest = self.rest;
        if rest.is_empty() {
            return Received::End;
        }
        let count = copy_front(rest, buf, usize::MAX);
        self.rest = &rest[count..];
        Received::Got(count)
    }

    /// Takes the whole piece.
    fn send(&mut self, piece: &[u8]) -> Sent
        requires some { 0 < length piece.now }
        ensures bytes { Sends None None result piece.now }
        ensures cause { SendCounts 0 0 result }
        ensures whole { result ≡ Sent.Took (length piece.now) }
        ensures left { self.new ≡ self.old }
    {
        Sent::Took(piece.len())
    }
}

/// Each client sends the same shared bytes. Contracts see the bytes.
#[derive(Drop)]
pub struct SureAcceptor<'b> {
    bytes: &'b [u8],
}

impl<'b> Model for SureAcceptor<'b> {
    ghost use Rattle.std.specs.Prelude.{List, ℕ};

    ghost Value = { List ℕ };

    ghost view = { λ a. a.bytes.now };
}

impl<'b> SureAcceptor<'b> {
    /// Over each link these bytes come.
    pub fn new(bytes: &'b [u8]) -> SureAcceptor<'b>
        ensures { result ≡ bytes.now }
    {
        SureAcceptor { bytes }
    }
}

impl<'b> Listed for SureAcceptor<'b> {
    ghost use Rattle.std.specs.Prelude.{[]};

    ghost entries = { λ _. [] };

    ghost mark = { λ _. [] };
}

impl<'b> Acceptor for SureAcceptor<'b> {
    type L = SureLink<'b>;

    ghost listening_may_fail = { false };

    ghost accepting_may_fail = { false };

    ghost faults = { λ _. 0 };

    /// Is ready, whatever the address.
    fn listen(&mut self, _address: &str) -> Listened
        ensures may { Listens result false }
        ensures cause { ListenCounts 0 0 result }
        ensures same { self.new ≡ self.old }
    {
        Listened::Ready
    }

    /// Gives a link at once.
    fn next(&mut self) -> Accepted<SureLink<'b>>
        ensures link { Accepts (λ _. true) (λ _. None) (λ _. 0) result false }
        ensures cause { AcceptCounts 0 0 result }
        ensures bytes { IfAccepted result (λ l. l ≡ self.old) }
        ensures same { self.new ≡ self.old }
    {
        Accepted::Link(SureLink::new(self.bytes))
    }
}
