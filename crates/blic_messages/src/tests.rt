// Frames of the format.
ghost use Rattle.std.specs.Prelude.{◌≤◌, ◌+◌, ◌*◌, length};

use crate::{
    Ask, AskDecoder, Fed, Hello, Refusal, Reply, ReplyDecoder, ask_len, decode_reply, encode_ask,
    encode_reply, reply_len,
};
use blic_field::Fe;
use blic_poly2::Poly2;
use std::test::Fail;

fn element(n: u64) -> Fe {
    match Fe::from_u64(n) {
        Some(e) => e,
        None => Fe::ZERO,
    }
}

fn is(left: &[u8], right: &[u8]) -> bool {
    *left == *right
}

fn hello() -> Hello {
    Hello {
        wire: 1,
        circuit: 2,
        order: 259,
        digest: [7; 32],
    }
}

#[test]
fn asks_are_spelled_as_frames(rt: HostRuntime) {
    let mut out = [9; 64];
    let n = encode_ask(&Ask::Go, &mut out);
    assert!(rt; is(&out[..n], &[0, 0, 0, 0, 2]));
    assert_eq!(rt; out[5], 9);
    let n = encode_ask(&Ask::Draw(element(3)), &mut out);
    assert!(rt; is(&out[..n], &[0, 0, 0, 8, 3, 0, 0, 0, 0, 0, 0, 0, 3]));
    let n = encode_ask(&Ask::Bye, &mut out);
    assert!(rt; is(&out[..n], &[0, 0, 0, 0, 5]));
    let n = encode_ask(&Ask::Hello(hello()), &mut out);
    assert!(rt; is(&out[..12], &[0, 0, 0, 38, 1, 0, 1, 0, 2, 1, 3, 7]));
    assert_eq!(rt; (n, out[42], out[43]), (43, 7, 9));
    assert_eq!(rt; ask_len(&Ask::Hello(hello())), 43);
}

#[test]
fn replies_are_spelled_as_frames(rt: HostRuntime) {
    let mut out = [9; 64];
    let n = encode_reply(&Reply::Answer(true), &mut out);
    assert!(rt; is(&out[..n], &[0, 0, 0, 1, 129, 1]));
    let n = encode_reply(
        &Reply::Values(element(3), element(2305843009213693949)),
        &mut out,
    );
    assert!(rt;
        is(
            &out[..n],
            &[
                0, 0, 0, 16, 131, 0, 0, 0, 0, 0, 0, 0, 3, 31, 255, 255, 255, 255, 255, 255, 253
            ]
        )
    );
    let poly = Poly2 {
        c0: element(1),
        c1: element(2305843009213693950),
        c2: element(1),
    };
    let polys = [poly; 2];
    let reply = Reply::Polys(&polys);
    assert_eq!(rt; reply_len(&reply), 53);
    let n = encode_reply(&reply, &mut out);
    assert!(rt; is(&out[..8], &[0, 0, 0, 48, 130, 0, 0, 0]));
    assert!(rt; is(&out[12..22], &[1, 31, 255, 255, 255, 255, 255, 255, 254, 0]));
    assert_eq!(rt; (n, out[52], out[53]), (53, 1, 9));
    let n = encode_reply(&Reply::Refused(Refusal::OutOfTurn), &mut out);
    assert!(rt; is(&out[..n], &[0, 0, 0, 1, 132, 1]));
    let n = encode_reply(&Reply::Refused(Refusal::NotServed(hello())), &mut out);
    assert!(rt; is(&out[..8], &[0, 0, 0, 39, 132, 3, 0, 1]));
    assert_eq!(rt; (n, out[43]), (44, 7));
}

// A reply of at most three numbers, as its kind with these.
#[derive(Clone, Copy, Debug, PartialEq, Eq, Drop)]
enum Told {
    Nothing,
    Answer(bool),
    Poly(u64, u64, u64),
    Values(u64, u64),
    OutOfTurn,
    Other,
}

fn read(frame: &[u8], polys: &mut [Poly2]) -> Told
    requires { length frame.now ≤ 28 + 24 * length polys.old }
{
    match decode_reply(frame, polys) {
        None => Told::Nothing,
        Some(reply) => told_by(&reply),
    }
}

fn told_by(reply: &Reply<'_>) -> Told {
    match reply {
        Reply::Answer(bit) => Told::Answer(*bit),
        Reply::Polys(polys) => first_of(*polys),
        Reply::Values(first, second) => Told::Values(first.value(), second.value()),
        Reply::Refused(Refusal::OutOfTurn) => Told::OutOfTurn,
        Reply::Refused(_) => Told::Other,
    }
}

fn first_of(polys: &[Poly2]) -> Told {
    if polys.len() == 1 {
        let poly = polys[0];
        Told::Poly(poly.c0.value(), poly.c1.value(), poly.c2.value())
    } else {
        Told::Other
    }
}

#[test]
fn frames_are_read_as_replies(rt: HostRuntime) {
    let zero = Poly2 {
        c0: element(0),
        c1: element(0),
        c2: element(0),
    };
    let mut polys = [zero; 1];
    assert_eq!(rt; read(&[0, 0, 0, 1, 129, 1], &mut polys), Told::Answer(true));
    assert_eq!(rt; read(&[0, 0, 0, 1, 132, 1], &mut polys), Told::OutOfTurn);
    let values = [
        0, 0, 0, 16, 131, 0, 0, 0, 0, 0, 0, 0, 3, 31, 255, 255, 255, 255, 255, 255, 253,
    ];
    assert_eq!(rt;
        read(&values, &mut polys),
        Told::Values(3, 2305843009213693949)
    );
    let poly = [
        0, 0, 0, 24, 130, 0, 0, 0, 0, 0, 0, 0, 1, 31, 255, 255, 255, 255, 255, 255, 254, 0, 0, 0,
        0, 0, 0, 0, 1,
    ];
    assert_eq!(rt;
        read(&poly, &mut polys),
        Told::Poly(1, 2305843009213693950, 1)
    );
    let all_ones = [
        0, 0, 0, 16, 131, 31, 255, 255, 255, 255, 255, 255, 255, 0, 0, 0, 0, 0, 0, 0, 1,
    ];
    assert_eq!(rt; read(&all_ones, &mut polys), Told::Nothing);
    assert_eq!(rt; read(&[0, 0, 0, 1, 129, 2], &mut polys), Told::Nothing);
    assert_eq!(rt; read(&[0, 0, 0, 2, 129, 1], &mut polys), Told::Nothing);
    assert_eq!(rt; read(&[], &mut polys), Told::Nothing);
}

// The ask that a new decoder reads of the frame in pieces of this size, if it is told of no earlier
// piece.
fn ask_in_pieces(frame: &[u8], size: usize) -> Option<Ask>
    requires { 1 ≤ size }
{
    let mut decoder = AskDecoder::new();
    let mut fed = Fed::More;
    for piece in frame.chunks(size) {
        if fed != Fed::More {
            return None;
        }
        fed = decoder.feed(piece);
    }
    decoder.ask()
}

#[test]
fn asks_are_read_in_any_pieces(rt: HostRuntime) {
    let mut out = [0; 43];
    let asks = [
        Ask::Hello(hello()),
        Ask::Go,
        Ask::Draw(element(3)),
        Ask::Bye,
    ];
    for ask in &asks {
        let n = encode_ask(ask, &mut out);
        assert_eq!(rt; ask_in_pieces(&out[..n], 1), Some(*ask));
        assert_eq!(rt; ask_in_pieces(&out[..n], 7), Some(*ask));
        assert_eq!(rt; ask_in_pieces(&out[..n], 43), Some(*ask));
    }
}

#[test]
fn the_ask_behind_a_whole_one_is_left(rt: HostRuntime) {
    let mut decoder = AskDecoder::new();
    let bytes = [0, 0, 0, 0, 2, 0, 0, 0, 8, 3, 0, 0, 0, 0, 0, 0, 0, 3, 0];
    assert_eq!(rt; decoder.feed(&bytes), Fed::Whole(5));
    assert_eq!(rt; decoder.ask(), Some(Ask::Go));
    assert_eq!(rt; decoder.feed(&bytes[5..]), Fed::Whole(13));
    assert_eq!(rt; decoder.ask(), Some(Ask::Draw(element(3))));
    assert_eq!(rt;
        (decoder.inside(), decoder.feed(&bytes[18..])),
        (false, Fed::More)
    );
    assert_eq!(rt; (decoder.inside(), decoder.ask()), (true, None));
}

// Feeds the frame in pieces of this size to a decoder that is as new, and leaves it so.
fn reply_in_pieces(decoder: &mut ReplyDecoder, frame: &[u8], size: usize) -> Told
    requires { 1 ≤ size }
{
    let mut fed = Fed::More;
    for piece in frame.chunks(size) {
        if fed != Fed::More {
            return Told::Other;
        }
        fed = decoder.feed(piece);
    }
    let told = match decoder.reply() {
        None => Told::Nothing,
        Some(reply) => told_by(&reply),
    };
    decoder.reset();
    told
}

#[test]
fn replies_are_read_in_any_pieces(rt: HostRuntime) -> Result<(), Fail> {
    let mut decoder = ReplyDecoder::new(rt.alloc())?;
    let values = [
        0, 0, 0, 16, 131, 0, 0, 0, 0, 0, 0, 0, 3, 31, 255, 255, 255, 255, 255, 255, 253,
    ];
    let poly = [
        0, 0, 0, 24, 130, 0, 0, 0, 0, 0, 0, 0, 1, 31, 255, 255, 255, 255, 255, 255, 254, 0, 0, 0,
        0, 0, 0, 0, 1,
    ];
    for size in [1, 7, 43] {
        assert_eq!(rt;
            reply_in_pieces(&mut decoder, &[0, 0, 0, 1, 129, 1], size),
            Told::Answer(true)
        );
        assert_eq!(rt;
            reply_in_pieces(&mut decoder, &values, size),
            Told::Values(3, 2305843009213693949)
        );
        assert_eq!(rt;
            reply_in_pieces(&mut decoder, &poly, size),
            Told::Poly(1, 2305843009213693950, 1)
        );
        assert_eq!(rt;
            reply_in_pieces(&mut decoder, &[0, 0, 0, 1, 132, 1], size),
            Told::OutOfTurn
        );
    }
    Ok(())
}

// At which byte, counted from 1, a new decoder tells that the stream is broken.
fn breaks_at(decoder: &mut ReplyDecoder, bytes: &[u8]) -> Option<usize> {
    decoder.reset();
    for (i, byte) in bytes.iter().enumerate() {
        if decoder.feed(&[*byte]) == Fed::Broken {
            return Some(i + 1);
        }
    }
    None
}

#[test]
fn a_broken_reply_is_told_at_the_end_of_its_part(rt: HostRuntime) -> Result<(), Fail> {
    let mut decoder = ReplyDecoder::new(rt.alloc())?;
    let not_below = [0, 0, 0, 48, 130, 31, 255, 255, 255, 255, 255, 255, 255];
    assert_eq!(rt; breaks_at(&mut decoder, &not_below), Some(13));
    assert_eq!(rt; breaks_at(&mut decoder, &[0, 0, 0, 32, 130]), Some(5));
    assert_eq!(rt; breaks_at(&mut decoder, &[0, 24, 0, 24, 130]), Some(5));
    assert_eq!(rt;
        breaks_at(&mut decoder, &[255, 255, 255, 255, 255]),
        Some(5)
    );
    assert_eq!(rt; breaks_at(&mut decoder, &[0, 0, 0, 1, 129, 2]), Some(6));
    assert_eq!(rt; breaks_at(&mut decoder, &[0, 0, 0, 1, 132, 3]), Some(6));
    Ok(())
}

#[test]
fn a_broken_stream_stays_so_until_a_reset(rt: HostRuntime) -> Result<(), Fail> {
    let mut replies = ReplyDecoder::new(rt.alloc())?;
    assert_eq!(rt; replies.feed(&[0, 0, 0, 1, 129, 2]), Fed::Broken);
    assert_eq!(rt; replies.feed(&[0, 0, 0, 1, 129, 1]), Fed::Broken);
    replies.reset();
    assert_eq!(rt; replies.feed(&[0, 0, 0, 1, 129, 1]), Fed::Whole(6));
    let mut asks = AskDecoder::new();
    assert_eq!(rt; asks.feed(&[255, 255, 255, 255, 255]), Fed::Broken);
    assert_eq!(rt;
        (asks.feed(&[0, 0, 0, 0, 2]), asks.inside()),
        (Fed::Broken, false)
    );
    asks.reset();
    assert_eq!(rt; asks.feed(&[0, 0, 0, 0, 2]), Fed::Whole(5));
    Ok(())
}

#[test]
fn the_longest_reply_is_read(rt: HostRuntime) -> Result<(), Fail> {
    let mut decoder = ReplyDecoder::new(rt.alloc())?;
    let zeros = [0; 4096];
    assert_eq!(rt; decoder.feed(&[0, 24, 0, 0, 130]), Fed::More);
    for _ in 0..383 {
        assert_eq!(rt; decoder.feed(&zeros), Fed::More);
    }
    assert_eq!(rt; decoder.feed(&zeros), Fed::Whole(4096));
    Ok(())
}
