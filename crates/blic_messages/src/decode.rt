// Replies out of whole frames.
ghost use Rattle.std.specs.Prelude.{◌≡◌, ◌≤◌, ◌+◌, ◌*◌, length, take, option_map};
ghost use Rattle.byteorder.specs.Endian.{big_bytes};
ghost use Rattle.blic_field.specs.Quadratic.{HasElements};
ghost use Rattle.blic_messages.specs.Frames.{framed, hello_body, poly_body};
ghost use Rattle.blic_messages.specs.Fronts.{hello_in};
ghost use Rattle.blic_messages.specs.Parts.{IsElement, IsSpelling};
ghost use Rattle.blic_messages.specs.Replies.{said};
ghost use Rattle.blic_messages.specs.Reading.{IsHello, Reads};

use crate::ask::Hello;
use crate::reply::{Refusal, Reply};
use blic_field::Fe;
use blic_poly2::Poly2;
use byteorder::{BigEndian, ByteOrder};

/// The reply that a whole frame says, or `None` if it is the frame of none. Its polynomials go to the
/// beginning of `polys`, which has room for as many as the frame's length allows.
pub fn decode_reply<'a>(frame: &[u8], polys: &'a mut [Poly2]) -> Option<Reply<'a>>
    requires { length frame.now ≤ 28 + 24 * length polys.old }
    ensures { Reads frame.now (option_map said result) }
{
    if frame.len() < 5 || BigEndian::read_u32(frame) as usize != frame.len() - 5 {
        return None;
    }
    let body = &frame[5..];
    match frame[4] {
        129 => decode_answer(body),
        130 => decode_polys(body, polys),
        131 => decode_values(body),
        132 => decode_refusal(body),
        _ => None,
    }
}

fn decode_answer<'a>(body: &[u8]) -> Option<Reply<'a>>
    ensures { Reads (framed 129 body.now) (option_map said result) }
{
    match body {
        [0] => Some(Reply::Answer(false)),
        [1] => Some(Reply::Answer(true)),
        _ => None,
    }
}

fn decode_values<'a>(body: &[u8]) -> Option<Reply<'a>>
    ensures { Reads (framed 131 body.now) (option_map said result) }
{
    if body.len() != 16 {
        return None;
    }
    let first = read_element(body)?;
    let second = read_element(&body[8..])?;
    Some(Reply::Values(first, second))
}

fn decode_polys<'a>(body: &[u8], polys: &'a mut [Poly2]) -> Option<Reply<'a>>
    requires { length body.now ≤ 24 * length polys.old + 23 }
    ensures { Reads (framed 130 body.now) (option_map said result) }
{
    let count = body.len() / 24;
    if count == 0 || count > 65_536 || 24 * count != body.len() {
        return None;
    }
    for i in 0..count {
        polys[i] = read_poly(&body[24 * i..])?;
    }
    Some(Reply::Polys(&polys[..count]))
}

fn decode_refusal<'a>(body: &[u8]) -> Option<Reply<'a>>
    ensures { Reads (framed 132 body.now) (option_map said result) }
{
    let refusal = match body {
        [1] => Refusal::OutOfTurn,
        [2] => Refusal::NothingLeft,
        [3, served @ ..] => Refusal::NotServed(read_hello(served)?),
        [4] => Refusal::Broken,
        _ => return None,
    };
    Some(Reply::Refused(refusal))
}

fn read_element(bytes: &[u8]) -> Option<Fe>
    requires { 8 ≤ length bytes.now }
    ensures { IsSpelling IsElement (big_bytes 8) (take 8 bytes.now) result }
{
    Fe::from_u64(BigEndian::read_u64(bytes))
}

pub(crate) fn read_poly(bytes: &[u8]) -> Option<Poly2>
    requires { 24 ≤ length bytes.now }
    ensures { IsSpelling HasElements poly_body (take 24 bytes.now) result }
{
    Some(Poly2 {
        c0: read_element(bytes)?,
        c1: read_element(&bytes[8..])?,
        c2: read_element(&bytes[16..])?,
    })
}

fn read_hello(bytes: &[u8]) -> Option<Hello>
    ensures { IsSpelling IsHello hello_body bytes.now result }
{
    if bytes.len() != 38 {
        return None;
    }
    Some(hello_of(bytes))
}

// The hello of a whole body.
pub(crate) fn hello_of(body: &[u8]) -> Hello
    requires { length body.now ≡ 38 }
    ensures { result ≡ hello_in body.now }
{
    let mut digest = [0; 32];
    digest.copy_from_slice(&body[6..]);
    Hello {
        wire: BigEndian::read_u16(body),
        circuit: BigEndian::read_u16(&body[2..]),
        order: BigEndian::read_u16(&body[4..]),
        digest,
    }
}
