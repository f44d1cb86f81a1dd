// Links in memory at listed calls, pieces and rooms; dialers and acceptors; links over streams that fail, and over TCP.
ghost use Rattle.std.specs.Prelude.{◌≡◌, ◌≤◌, true, List, IfOk};
ghost use Rattle.blic_link.specs.Passing.{Piece, with_pieces};
ghost use Rattle.blic_link.specs.Pace.{KeepsPace};

use crate::{
    Accepted, Acceptor, Dialed, Dialer, Gate, Link, LinkFault, Listened, MemAcceptor, MemDialer,
    MemLink, OpenGate, Received, Sent, SureAcceptor, TcpAcceptor, TcpDialer, TcpLink, send_all,
};
use blic_basic::NoMem;
use std::alloc::Global;
use std::io;
use std::io::{Read, Write};
use std::net::{Net, OpenStream, TcpListener, TcpStream};
use std::test::Fail;
use std::time::Duration;

// A link over which bytes come, in pieces of at most two bytes.
fn link_of(alloc: Global, coming: &str, failing: &[u64], room: u32) -> Result<MemLink, NoMem>
    ensures { IfOk result (λ link. link.is_usable ≡ true) }
{
    let coming = Vec::from_slice(alloc, coming.as_bytes())?;
    let failing = Vec::from_slice(alloc, failing)?;
    MemLink::new(alloc, coming, 2, failing, room as usize)
}

fn piece_is(link: &MemLink, i: u32, sent: bool, bytes: &str) -> bool {
    i < link.pieces() && link.piece(i) == bytes.as_bytes() && link.piece_was_sent(i) == sent
}

// Sends the bytes, or receives some if there are none.
fn pass<K: Link>(link: &mut K, sent: &str) -> Option<usize> {
    if !link.usable() {
        return None;
    }
    if sent.is_empty() {
        return match link.recv(&mut [0; 3]) {
            Received::Got(count) => Some(count),
            Received::End => Some(0),
            Received::Failed => None,
        };
    }
    match link.send(sent.as_bytes()) {
        Sent::Took(count) => Some(count),
        Sent::Failed => None,
    }
}

#[test]
fn a_link_keeps_the_pieces_that_pass_within_its_room(rt: HostRuntime) -> Result<(), Fail> {
    let mut link = link_of(rt.alloc(), "abcde", &[1, 5], 9)?;
    // what is sent, how many bytes pass, and what is left
    let rows = [
        ("", Some(2), "cde"),
        ("", None, "cde"),
        ("xyz", Some(2), "cde"),
        ("", Some(2), "e"),
        ("", Some(1), ""),
        ("z", None, ""),
        ("", Some(0), ""),
        ("z", Some(1), ""),
        ("xyz", Some(1), ""),
        ("xyz", None, ""),
        ("", None, ""),
    ];
    for (sent, passed, left) in rows {
        assert_eq!(rt;
            pass(&mut link, sent),
            passed,
            "{sent:?} with {left:?} left"
        );
        assert_eq!(rt; link.left(), left.as_bytes());
    }
    let pieces = [
        (false, "ab"),
        (true, "xy"),
        (false, "cd"),
        (false, "e"),
        (true, "z"),
        (true, "x"),
    ];
    for (i, (sent, bytes)) in pieces.into_iter().enumerate() {
        assert!(rt; piece_is(&link, i as u32, sent, bytes), "at {bytes:?}");
    }
    assert_eq!(rt; link.pieces(), 6);
    assert_eq!(rt; link.faults(), 4);
    assert!(rt; !MemDialer::fits(&vec![in rt.alloc(); link]?));
    Ok(())
}

#[test]
fn sending_all_stops_at_a_fault_with_the_exact_prefix(rt: HostRuntime) -> Result<(), Fail> {
    let none: [u64; 0] = [];
    let rows = [
        (none.as_slice(), 9, Ok(()), ["he", "ll", "o"].as_slice()),
        ([3].as_slice(), 9, Ok(()), ["he", "ll", "o"].as_slice()),
        ([1].as_slice(), 9, Err(LinkFault), ["he"].as_slice()),
        ([0].as_slice(), 9, Err(LinkFault), [].as_slice()),
        (none.as_slice(), 3, Err(LinkFault), ["he", "l"].as_slice()),
    ];
    for (failing, room, answer, pieces) in rows {
        let mut link = link_of(rt.alloc(), "", failing, room)?;
        assert!(rt; send_all(&mut link, b"hello") == answer, "with {pieces:?}");
        assert_eq!(rt; link.pieces() as usize, pieces.len());
        for (i, bytes) in pieces.iter().enumerate() {
            assert!(rt; piece_is(&link, i as u32, true, bytes), "at {bytes:?}");
        }
        assert_eq!(rt; link.faults(), u64::from(answer.is_err()));
    }
    Ok(())
}

// Two links, which are dialed by a dialer whose second dial fails.
fn dialer_of(alloc: Global) -> Result<MemDialer, Fail> {
    let first = link_of(alloc, "abc", &[1], 9)?;
    let second = link_of(alloc, "xyz", &[], 9)?;
    let links = vec![in alloc; first, second]?;
    if !MemDialer::fits(&links) {
        return Err(Fail::from("links that were just made"));
    }
    Ok(MemDialer::new(alloc, links, vec![in alloc; 1]?)?)
}

// Whether the link has these bytes left, these faults and these pieces, of which the second was sent.
fn link_is(link: &MemLink, left: &str, faults: u64, pieces: &[&str]) -> bool {
    link.left() == left.as_bytes()
        && link.faults() == faults
        && link.pieces() as usize == pieces.len()
        && pieces
            .iter()
            .enumerate()
            .all(|(i, bytes)| piece_is(link, i as u32, i == 1, bytes))
}

#[test]
fn links_are_dialed_in_their_order_and_kept(rt: HostRuntime) -> Result<(), Fail> {
    let mut dialer = dialer_of(rt.alloc())?;
    // the bytes of the link that is dialed, if there is one; the faults after it is hung up, and the failed dials
    let rows = [
        (Some("abc"), 1, 0),
        (None, 2, 1),
        (Some("xyz"), 2, 1),
        (None, 3, 2),
    ];
    for (coming, faults, missed) in rows {
        if dialer.lent() {
            return Err(Fail::from("a link is lent"));
        }
        match dialer.dial("anywhere") {
            Dialed::Link(mut link) => {
                assert_eq!(rt; Some(link.left()), coming.map(|bytes| bytes.as_bytes()));
                pass(&mut link, "");
                pass(&mut link, "q");
                dialer.hang_up(link);
            }
            Dialed::Failed => assert!(rt; coming.is_none(), "with {faults} faults"),
        }
        assert!(rt; dialer.faults() == faults && dialer.missed() == missed);
    }
    if dialer.entries() != 2 {
        return Err(Fail::from("not two entries"));
    }
    assert!(rt; link_is(dialer.entry(0), "c", 1, &["ab"]));
    assert!(rt; link_is(dialer.entry(1), "z", 0, &["xy", "q"]));
    Ok(())
}

// Two links, of one and of two bytes, which are accepted by an acceptor that fails at a listed call.
fn acceptor_of(alloc: Global, failing: u64) -> Result<MemAcceptor, Fail> {
    let first = link_of(alloc, "a", &[], 9)?;
    let second = link_of(alloc, "bc", &[], 9)?;
    let links = vec![in alloc; first, second]?;
    if !MemAcceptor::fits(&links) {
        return Err(Fail::from("links that were just made"));
    }
    Ok(MemAcceptor::new(links, vec![in alloc; failing]?))
}

// Receives from the next link, which passes nothing if it can't be used.
fn accept<A: Acceptor>(acceptor: &mut A) -> Option<usize> {
    match acceptor.next() {
        Accepted::Link(mut link) => pass(&mut link, ""),
        Accepted::Failed(mut link) => pass(&mut link, ""),
    }
}

#[test]
fn a_failed_call_of_an_acceptor_uses_no_link(rt: HostRuntime) -> Result<(), Fail> {
    // the call that fails, what listening answers, how many bytes the next links give, and the faults
    let rows = [
        (0, Listened::Failed, [Some(1), Some(2), None], 2),
        (1, Listened::Ready, [None, Some(1), Some(2)], 1),
        (2, Listened::Ready, [Some(1), None, Some(2)], 1),
        (3, Listened::Ready, [Some(1), Some(2), None], 1),
    ];
    for (failing, listened, given, faults) in rows {
        let mut acceptor = acceptor_of(rt.alloc(), failing)?;
        assert_eq!(rt; acceptor.listen("anywhere"), listened);
        for count in given {
            assert_eq!(rt; accept(&mut acceptor), count, "call {failing} fails");
        }
        assert_eq!(rt; acceptor.faults(), faults);
    }
    Ok(())
}

#[test]
fn each_sure_link_gives_the_same_bytes(rt: HostRuntime) {
    let mut acceptor = SureAcceptor::new(b"abcde");
    let gate = OpenGate::new();
    assert_eq!(rt; acceptor.listen("anywhere"), Listened::Ready);
    for session in 0..3 {
        gate.before(&rt, session);
        let Accepted::Link(mut link) = acceptor.next() else {
            unreachable!()
        };
        for (sent, passed) in [("", 3), ("hello", 5), ("", 2), ("", 0), ("z", 1)] {
            assert_eq!(rt; pass(&mut link, sent), Some(passed));
        }
        gate.after(&rt, session);
    }
}

// A stream whose delay stays, which gives and takes so many bytes a call, and whose calls fail from one of them on.
#[derive(Drop)]
struct Failing {
    most: usize,
    calls: u32,
}

impl Failing {
    fn call(&mut self, count: usize) -> io::Result<usize>
        ensures { IfOk result (λ n. n ≤ count) }
    {
        if self.calls == 0 {
            return Err(io::Error::from(io::ErrorKind::Interrupted));
        }
        self.calls -= 1;
        Ok(count.min(self.most))
    }
}

impl Read for Failing {
    fn read(&mut self, buf: &mut [u8]) -> io::Result<usize> {
        self.call(buf.len())
    }
}

impl Write for Failing {
    fn write(&mut self, buf: &[u8]) -> io::Result<usize> {
        self.call(buf.len())
    }

    fn flush(&mut self) -> io::Result<()> {
        Ok(())
    }
}

impl OpenStream for Failing {}

#[test]
fn a_call_of_a_stream_that_fails_is_a_fault(rt: HostRuntime) {
    // bytes a call, calls that succeed, what is sent, what passes, and the faults
    let rows = [
        (2, 9, "", Some(2), 0),
        (9, 9, "", Some(3), 0),
        (0, 9, "", Some(0), 0),
        (9, 0, "", None, 1),
        (2, 9, "hello", Some(2), 0),
        (9, 9, "hello", Some(5), 0),
        (0, 9, "hello", None, 1),
        (9, 0, "hello", None, 1),
    ];
    for (most, calls, sent, passed, faults) in rows {
        let mut link = TcpLink::new(Failing { most, calls });
        assert_eq!(rt; pass(&mut link, sent), passed, "{sent:?} of {most} bytes");
        assert_eq!(rt; link.faults(), faults);
    }
}

// A peer that waits for at most ten seconds.
fn accepted(listener: &TcpListener) -> io::Result<TcpStream> {
    let (stream, _) = listener.accept()?;
    stream.set_read_timeout(Some(Duration::from_secs(10)))?;
    Ok(stream)
}

#[test]
fn bytes_pass_both_ways_over_tcp_until_the_peer_closes(rt: HostRuntime) -> Result<(), Fail> {
    let listener = TcpListener::bind(&rt, "127.0.0.1:0")?;
    let address = format!(in rt.alloc(); "{}", listener.local_addr()?)?;
    let mut dialer = TcpDialer::new(&rt);
    let Dialed::Link(mut link) = dialer.dial(address.as_str()) else {
        return Err(Fail::from("the listener was not dialed"));
    };
    let mut peer = accepted(&listener)?;
    let mut buf = [0; 5];
    assert!(rt; send_all(&mut link, b"hello").is_ok());
    peer.read_exact(&mut buf)?;
    assert_eq!(rt; buf.as_slice(), b"hello".as_slice());
    peer.write_all(b"bye")?;
    drop(peer);
    drop(listener);
    assert_eq!(rt; link.recv(&mut buf), Received::Got(3));
    assert_eq!(rt; buf.as_slice(), b"byelo".as_slice());
    assert_eq!(rt; link.recv(&mut buf), Received::End);
    dialer.hang_up(link);
    assert!(rt; dialer.faults() == 0 && !dialer.lent());
    assert!(rt; matches!(dialer.dial(address.as_str()), Dialed::Failed));
    assert!(rt; matches!(dialer.dial("127.0.0.1"), Dialed::Failed));
    assert!(rt; dialer.faults() == 2 && dialer.missed() == 2);
    Ok(())
}

// Listens at the first of ten ports that is free, and says at which.
fn listen_at<N: Net>(acceptor: &mut TcpAcceptor<N>, alloc: Global) -> Result<String, Fail> {
    for port in 47030..47040 {
        let address = format!(in alloc; "127.0.0.1:{port}")?;
        if acceptor.listen(address.as_str()) == Listened::Ready {
            return Ok(address);
        }
    }
    Err(Fail::from("no port is free"))
}

#[test]
fn clients_are_accepted_over_tcp_at_one_port_by_one(rt: HostRuntime) -> Result<(), Fail> {
    let mut acceptor = TcpAcceptor::new(&rt);
    let address = listen_at(&mut acceptor, rt.alloc())?;
    let mut second = TcpAcceptor::new(&rt);
    for address in [address.as_str(), "127.0.0.1"] {
        assert_eq!(rt; second.listen(address), Listened::Failed);
    }
    assert_eq!(rt; accept(&mut second), None);
    assert_eq!(rt; second.faults(), 3);
    let faults = acceptor.faults();
    let mut dialer = TcpDialer::new(&rt);
    let Dialed::Link(mut client) = dialer.dial(address.as_str()) else {
        return Err(Fail::from("the acceptor was not dialed"));
    };
    assert!(rt; send_all(&mut client, b"hello").is_ok());
    dialer.hang_up(client);
    let Accepted::Link(mut server) = acceptor.next() else {
        return Err(Fail::from("the client was not accepted"));
    };
    let mut buf = [0; 5];
    assert_eq!(rt; server.recv(&mut buf), Received::Got(5));
    assert_eq!(rt; buf.as_slice(), b"hello".as_slice());
    assert_eq!(rt; server.recv(&mut buf), Received::End);
    assert_eq!(rt; acceptor.faults(), faults);
    Ok(())
}

// Sends back what comes, until the end or a fault, and at most a hundred times.
fn echo<K: Link>(link: &mut K)
    requires { K.is_usable link.old ≡ true }
    ensures { (pieces : List Piece) × (K.pieces link.new ≡ with_pieces (K.pieces link.old) pieces) × KeepsPace (λ came. came) pieces }
{
    let mut buf = [0; 4];
    for _ in 0..100 {
        let Received::Got(count) = link.recv(&mut buf) else {
            return;
        };
        match send_all(link, &buf[..count]) {
            Ok(()) => {}
            Err(LinkFault) => return,
        }
    }
}

#[test]
fn an_echo_keeps_pace(rt: HostRuntime) -> Result<(), Fail> {
    let mut link = link_of(rt.alloc(), "abc", &[3], 9)?;
    echo(&mut link);
    let pieces = [(false, "ab"), (true, "ab"), (false, "c")];
    for (i, (sent, bytes)) in pieces.into_iter().enumerate() {
        assert!(rt; piece_is(&link, i as u32, sent, bytes), "at {bytes:?}");
    }
    assert_eq!(rt; link.pieces(), 3);
    Ok(())
}
