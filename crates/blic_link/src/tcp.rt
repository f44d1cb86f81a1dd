// Links over TCP. What passes over them is not told.
ghost use Rattle.std.specs.Prelude.{◌≡◌, ◌<◌, true, false, Some, None, IsSomeAnd, is_some, length};
ghost use Rattle.blic_basic.specs.Outside.{one_more};
ghost use Rattle.blic_link.specs.Accepting.{Listens, ListenCounts, Accepts, AcceptCounts, was_accepted, IfAccepted, IfNotAccepted};
ghost use Rattle.blic_link.specs.Adapters.{HasReceived, HasSent};
ghost use Rattle.blic_link.specs.Dialing.{Dials, DialCounts};
ghost use Rattle.blic_link.specs.Passing.{Receives, ReceiveCounts, Sends, SendCounts};

use crate::acceptor::{Accepted, Acceptor, Listened};
use crate::dialer::{Dialed, Dialer};
use crate::link::{Link, Received, Sent};
use blic_basic::Listed;
use std::io::{Read, Write};
use std::marker::Model;
use std::net::{Net, OpenListener, OpenStream, TcpListener, TcpStream};

/// A link over a stream, such as one of TCP. Contracts see the stream, and how many calls have failed. A
/// call that was interrupted is a fault like any other. There is no timeout: `recv` waits for the
/// peer as long as the stream does. A link without a stream can't be used, and comes from a failed
/// `TcpAcceptor::next` alone.
#[derive(Drop)]
pub struct TcpLink<S> {
    stream: Option<S>,
    faults: u64,
}

impl<S> Model for TcpLink<S> {
    ghost use Rattle.blic_basic.specs.Adapters.{Counted};
    ghost use Rattle.std.specs.Prelude.{Option};

    ghost Value = { Counted (Option S) };

    ghost view = { λ l. record { inner = l.stream; faults = l.faults } };
}

impl<S> TcpLink<S> {
    // The link of a client who was not accepted.
    fn none() -> TcpLink<S>
        ensures { result ≡ record { inner = None; faults = 0 } }
    {
        TcpLink {
            stream: None,
            faults: 0,
        }
    }
}

impl<S: Read + Write + OpenStream + Drop> TcpLink<S> {
    /// A link over the stream, whose sending delay is turned off (`TCP_NODELAY`). A stream that keeps
    /// its delay is only slower, which is no fault. No call has failed so far.
    pub fn new(stream: S) -> TcpLink<S>
        ensures { result ≡ record { inner = Some stream; faults = 0 } }
    {
        let _ = stream.set_nodelay(true);
        TcpLink {
            stream: Some(stream),
            faults: 0,
        }
    }

    /// How many calls have failed. The count stops at its last value.
    pub fn faults(&self) -> u64
        ensures { result ≡ self.now.faults }
    {
        self.faults
    }
}

impl<S: Read + Write + Drop> Link for TcpLink<S> {
    ghost is_usable = { λ l. is_some l.inner };

    ghost pieces = { λ _. None };

    ghost coming = { λ _. None };

    ghost faults = { λ l. l.faults };

    fn usable(&self) -> bool {
        self.stream.is_some()
    }

    /// Reads from the stream, once. It fails if that does.
    fn recv(&mut self, buf: &mut [u8]) -> Received
        requires usable { is_some self.old.inner ≡ true }
        requires room { 0 < length buf.old }
        ensures bytes { Receives None None None None result buf.new }
        ensures cause { ReceiveCounts self.old.faults self.new.faults result }
        ensures fault { result ≡ Received.Failed → self.new.faults ≡ one_more self.old.faults }
        ensures read { IsSomeAnd self.old.inner (λ was. IsSomeAnd self.new.inner (λ is. HasReceived (S.remaining was) (S.remaining is) result buf.new)) }
    {
        let Some(stream) = &mut self.stream else {
            unreachable!()
        };
        match stream.read(buf) {
            Ok(0) => Received::End,
            Ok(count) => Received::Got(count),
            Err(_) => {
                self.faults = self.faults.saturating_add(1);
                Received::Failed
            }
        }
    }

    /// Writes to the stream, once. It fails if that does, and if no byte was written.
    fn send(&mut self, piece: &[u8]) -> Sent
        requires usable { is_some self.old.inner ≡ true }
        requires some { 0 < length piece.now }
        ensures bytes { Sends None None result piece.now }
        ensures cause { SendCounts self.old.faults self.new.faults result }
        ensures fault { result ≡ Sent.Failed → self.new.faults ≡ one_more self.old.faults }
        ensures written { IsSomeAnd self.old.inner (λ was. IsSomeAnd self.new.inner (λ is. HasSent (S.contents was) (S.contents is) result piece.now)) }
    {
        let Some(stream) = &mut self.stream else {
            unreachable!()
        };
        match stream.write(piece) {
            Ok(count) if 0 < count => Sent::Took(count),
            _ => {
                self.faults = self.faults.saturating_add(1);
                Sent::Failed
            }
        }
    }
}

/// Makes links over TCP, in the network of the runtime. Contracts see a `CountedDialer`.
#[derive(Drop)]
pub struct TcpDialer<'a, N> {
    net: &'a N,
    lent: bool,
    faults: u64,
    missed: u64,
}

impl<'a, N> Model for TcpDialer<'a, N> {
    ghost use Rattle.blic_link.specs.Adapters.{CountedDialer};

    ghost Value = { CountedDialer };

    ghost view = { λ d. record { is_lent = d.lent; faults = d.faults; missed = d.missed } };
}

impl<'a, N: Net> TcpDialer<'a, N> {
    /// A dialer that has lent nothing. No call has failed so far.
    pub fn new(net: &'a N) -> TcpDialer<'a, N>
        ensures { result ≡ record { is_lent = false; faults = 0; missed = 0 } }
    {
        TcpDialer {
            net,
            lent: false,
            faults: 0,
            missed: 0,
        }
    }

    /// How many calls have failed, those of the links that were hung up included. The count stops
    /// at its last value.
    pub fn faults(&self) -> u64
        ensures { result ≡ self.now.faults }
    {
        self.faults
    }

    /// How many dials have failed. The count stops at its last value.
    pub fn missed(&self) -> u64
        ensures { result ≡ self.now.missed }
    {
        self.missed
    }
}

impl<'a, N: Net> Dialer for TcpDialer<'a, N> {
    type L = TcpLink<N::Stream>;

    ghost entries = { λ _. None };

    ghost faults = { λ d. d.faults };

    ghost missed = { λ d. d.missed };

    ghost is_lent = { λ d. d.is_lent };

    fn lent(&self) -> bool {
        self.lent
    }

    /// Connects to the address, a host or an IP address with a colon and a port. It fails if that can't
    /// be resolved, and if no one answers there.
    fn dial(&mut self, address: &str) -> Dialed<TcpLink<N::Stream>>
        requires { self.old.is_lent ≡ false }
        ensures link { Dials (λ l. is_some l.inner) (λ _. None) (λ l. l.faults) result }
        ensures cause { DialCounts self.old.faults self.new.faults self.old.missed self.new.missed self.new.is_lent result }
        ensures fault { result ≡ Dialed.Failed → self.new ≡ record self.old { faults = one_more self.old.faults; missed = one_more self.old.missed } }
    {
        match TcpStream::connect(self.net, address) {
            Ok(stream) => {
                self.lent = true;
                Dialed::Link(TcpLink::new(stream))
            }
            Err(_) => {
                self.faults = self.faults.saturating_add(1);
                self.missed = self.missed.saturating_add(1);
                Dialed::Failed
            }
        }
    }

    /// Closes the link's stream.
    fn hang_up(&mut self, link: TcpLink<N::Stream>) {
        self.lent = false;
        self.faults = self.faults.saturating_add(link.faults());
    }
}

/// Takes links over TCP, in the network of the runtime. Contracts see a `CountedAcceptor`.
#[derive(Drop)]
pub struct TcpAcceptor<'a, N: Net> {
    net: &'a N,
    listener: Option<N::Listener>,
    faults: u64,
}

impl<'a, N: Net> Model for TcpAcceptor<'a, N> {
    ghost use Rattle.std.specs.Prelude.{is_some};
    ghost use Rattle.blic_link.specs.Adapters.{CountedAcceptor};

    ghost Value = { CountedAcceptor };

    ghost view = { λ a. record { is_listening = is_some a.listener; faults = a.faults } };
}

impl<'a, N: Net> TcpAcceptor<'a, N> {
    /// An acceptor that doesn't listen yet. No call has failed so far.
    pub fn new(net: &'a N) -> TcpAcceptor<'a, N>
        ensures { result ≡ record { is_listening = false; faults = 0 } }
    {
        TcpAcceptor {
            net,
            listener: None,
            faults: 0,
        }
    }

    /// How many calls have failed. The count stops at its last value.
    pub fn faults(&self) -> u64
        ensures { result ≡ self.now.faults }
    {
        self.faults
    }
}

impl<'a, N: Net> Listed for TcpAcceptor<'a, N> {
    ghost use Rattle.std.specs.Prelude.{[]};

    ghost entries = { λ _. [] };

    ghost mark = { λ _. [] };
}

impl<'a, N: Net> Acceptor for TcpAcceptor<'a, N> {
    type L = TcpLink<N::Stream>;

    ghost listening_may_fail = { true };

    ghost accepting_may_fail = { true };

    ghost faults = { λ a. a.faults };

    /// Listens at the address, a host or an IP address with a colon and a port, in place of where it
    /// listened before. It fails if that can't be resolved, and if the port is in use; then all
    /// stays.
    fn listen(&mut self, address: &str) -> Listened
        ensures may { Listens result true }
        ensures cause { ListenCounts self.old.faults self.new.faults result }
        ensures ready { result ≡ Listened.Ready → self.new ≡ record self.old { is_listening = true } }
        ensures fault { result ≡ Listened.Failed → self.new ≡ record self.old { faults = one_more self.old.faults } }
    {
        match TcpListener::bind(self.net, address) {
            Ok(listener) => {
                self.listener = Some(listener);
                Listened::Ready
            }
            Err(_) => {
                self.faults = self.faults.saturating_add(1);
                Listened::Failed
            }
        }
    }

    /// Waits for the next connection, without a timeout. It fails if the system can't give one, and if
    /// nothing listens.
    fn next(&mut self) -> Accepted<TcpLink<N::Stream>>
        ensures link { Accepts (λ l. is_some l.inner) (λ _. None) (λ l. l.faults) result true }
        ensures cause { AcceptCounts self.old.faults self.new.faults result }
        ensures deaf { self.old.is_listening ≡ false → was_accepted result ≡ false }
        ensures fault { IfNotAccepted result (λ _. self.new ≡ record self.old { faults = one_more self.old.faults }) }
        ensures same { IfAccepted result (λ _. self.new ≡ self.old) }
    {
        if let Some(listener) = &self.listener
            && let Ok((stream, _)) = listener.accept()
        {
            return Accepted::Link(TcpLink::new(stream));
        }
        self.faults = self.faults.saturating_add(1);
        Accepted::Failed(TcpLink::none())
    }
}
