// Frames over links in memory that come in pieces of listed lengths, end and fail.
use crate::{Heard, Inbox, listen};
use blic_basic::NoMem;
use blic_link::{Link, MemLink};
use blic_messages::{Ask, AskDecoder, Hello, Reply, ReplyDecoder, encode_ask};
use std::alloc::Global;
use std::test::Fail;

// A link over which the bytes come in pieces of at most so many.
fn link_of(alloc: Global, coming: &[u8], most: u8, failing: &[u64]) -> Result<MemLink, NoMem> {
    let coming = Vec::from_slice(alloc, coming)?;
    let failing = Vec::from_slice(alloc, failing)?;
    MemLink::new(alloc, coming, most.max(1) as usize, failing, 99)
}

// What comes of waiting for an ask, the ask, and how many pieces have passed by then.
fn next_ask(inbox: &mut Inbox, link: &mut MemLink) -> (Heard, Option<Ask>, u32) {
    if !link.usable() {
        return (Heard::Failed, None, 0);
    }
    let mut decoder = AskDecoder::new();
    let heard = listen(&mut decoder, inbox, link);
    (heard, decoder.ask(), link.pieces())
}

// What comes of waiting for an answer, the answer, whether it is cut, and how many pieces have passed by then.
fn next_answer(
    decoder: &mut ReplyDecoder,
    inbox: &mut Inbox,
    link: &mut MemLink,
) -> (Heard, Option<bool>, bool, u32) {
    if !link.usable() {
        return (Heard::Failed, None, false, 0);
    }
    decoder.reset();
    let heard = listen(decoder, inbox, link);
    let answer = match decoder.reply() {
        Some(Reply::Answer(bit)) => Some(bit),
        _ => None,
    };
    (heard, answer, decoder.inside(), link.pieces())
}

#[test]
fn asks_in_any_pieces_are_heard_one_after_another(rt: HostRuntime) -> Result<(), Fail> {
    let hello = Ask::Hello(Hello {
        wire: 1,
        circuit: 2,
        order: 259,
        digest: [7; 32],
    });
    let mut bytes = [0; 53];
    encode_ask(&Ask::Go, &mut bytes[..5]);
    encode_ask(&hello, &mut bytes[5..48]);
    encode_ask(&Ask::Bye, &mut bytes[48..]);
    // the most bytes of a piece, and how many have passed when each ask is whole
    let rows = [(1, [5, 48, 53]), (7, [1, 7, 8]), (99, [1, 1, 1])];
    for (most, pieces) in rows {
        let mut link = link_of(rt.alloc(), &bytes, most, &[])?;
        let mut inbox = Inbox::new(rt.alloc())?;
        for (ask, count) in [Ask::Go, hello, Ask::Bye].into_iter().zip(pieces) {
            assert_eq!(rt;
                next_ask(&mut inbox, &mut link),
                (Heard::Frame, Some(ask), count),
                "in pieces of {most}"
            );
        }
        assert_eq!(rt;
            next_ask(&mut inbox, &mut link),
            (Heard::End, None, pieces[2]),
            "in pieces of {most}"
        );
    }
    Ok(())
}

#[test]
fn answers_are_heard_up_to_an_end_or_a_fault(rt: HostRuntime) -> Result<(), Fail> {
    let none: [u64; 0] = [];
    let yes = (Heard::Frame, Some(true), false);
    let no = (Heard::Frame, Some(false), false);
    let end = (Heard::End, None, false);
    let cut = (Heard::End, None, true);
    let failed = (Heard::Failed, None, false);
    let broken_off = (Heard::Failed, None, true);
    // that the answer is true, and that it is false
    let both = [0, 0, 0, 1, 129, 1, 0, 0, 0, 1, 129, 0];
    let one = [0, 0, 0, 1, 129, 1];
    let part = [0, 0, 0, 1, 129, 1, 0, 0];
    // the bytes that come, the most of a piece, the calls that fail, and what two waits hear
    let rows = [
        (both.as_slice(), 1, none.as_slice(), (yes, 6), (no, 12)),
        (both.as_slice(), 7, none.as_slice(), (yes, 1), (no, 2)),
        (both.as_slice(), 99, none.as_slice(), (yes, 1), (no, 1)),
        ([].as_slice(), 7, none.as_slice(), (end, 0), (end, 0)),
        (one.as_slice(), 7, none.as_slice(), (yes, 1), (end, 1)),
        (part.as_slice(), 7, none.as_slice(), (yes, 1), (cut, 2)),
        (part.as_slice(), 99, none.as_slice(), (yes, 1), (cut, 1)),
        (both.as_slice(), 7, [0].as_slice(), (failed, 0), (yes, 1)),
        (
            both.as_slice(),
            7,
            [1].as_slice(),
            (yes, 1),
            (broken_off, 1),
        ),
    ];
    let mut decoder = ReplyDecoder::new(rt.alloc())?;
    for (bytes, most, failing, first, second) in rows {
        let mut link = link_of(rt.alloc(), bytes, most, failing)?;
        let mut inbox = Inbox::new(rt.alloc())?;
        for ((heard, answer, inside), pieces) in [first, second] {
            assert_eq!(rt;
                next_answer(&mut decoder, &mut inbox, &mut link),
                (heard, answer, inside, pieces),
                "{bytes:?} in pieces of {most}"
            );
        }
        assert_eq!(rt; link.faults() as usize, failing.len());
    }
    Ok(())
}

#[test]
fn bytes_that_are_no_frame_are_heard_once_they_are_known(rt: HostRuntime) -> Result<(), Fail> {
    let mut decoder = ReplyDecoder::new(rt.alloc())?;
    // bytes that are no ask and no reply, the most of a piece, and how many pieces are taken
    let rows = [
        ([255, 255, 255, 255, 255, 1].as_slice(), 1, 5),
        ([255, 255, 255, 255, 255, 1].as_slice(), 2, 3),
        ([0, 0, 0, 1, 2, 129].as_slice(), 7, 1),
        ([0, 0, 0, 0, 6, 0].as_slice(), 1, 5),
    ];
    for (bytes, most, pieces) in rows {
        let mut link = link_of(rt.alloc(), bytes, most, &[])?;
        let mut inbox = Inbox::new(rt.alloc())?;
        assert_eq!(rt;
            next_ask(&mut inbox, &mut link),
            (Heard::Frame, None, pieces),
            "{bytes:?} in pieces of {most}"
        );
        let mut link = link_of(rt.alloc(), bytes, most, &[])?;
        let mut inbox = Inbox::new(rt.alloc())?;
        assert_eq!(rt;
            next_answer(&mut decoder, &mut inbox, &mut link),
            (Heard::Frame, None, false, pieces),
            "{bytes:?} in pieces of {most}"
        );
    }
    Ok(())
}
