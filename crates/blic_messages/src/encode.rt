// Messages as frames.
ghost use Rattle.std.specs.Prelude.{◌≡◌, ◌≤◌, ◌+◌, ◌*◌, ◌++◌, ◌∷◌, [], length, drop, flat_map};
ghost use Rattle.byteorder.specs.Endian.{big_bytes};
ghost use Rattle.blic_messages.specs.Replies.{said, polynomials_in};
ghost use Rattle.blic_messages.specs.Frames.{ask_spelling, reply_spelling, hello_body, poly_body, refusal_body};

use crate::ask::{Ask, Hello};
use crate::reply::{Refusal, Reply};
use blic_field::Fe;
use blic_poly2::Poly2;
use byteorder::{BigEndian, ByteOrder};

/// The length of an ask's frame in bytes.
pub fn ask_len(ask: &Ask) -> usize
    ensures { result ≡ length (ask_spelling ask.now) }
{
    match ask {
        Ask::Hello(hello) => 5 + hello_len(hello),
        Ask::Go | Ask::Bye => 5,
        Ask::Draw(_) => 13,
    }
}

/// Writes an ask's frame at the beginning of `out`, and answers its length.
pub fn encode_ask(ask: &Ask, out: &mut [u8]) -> usize
    requires { length (ask_spelling ask.now) ≤ length out.old }
    ensures written { out.new ≡ ask_spelling ask.now ++ drop result out.old }
    ensures length { result ≡ length (ask_spelling ask.now) }
{
    match ask {
        Ask::Hello(hello) => {
            let len = hello_len(hello);
            write_header(out, len as u32, 1);
            write_hello(hello, &mut out[5..]);
            5 + len
        }
        Ask::Go => {
            write_header(out, 0, 2);
            5
        }
        Ask::Draw(element) => {
            write_header(out, 8, 3);
            BigEndian::write_u64(&mut out[5..], element.value());
            13
        }
        Ask::Bye => {
            write_header(out, 0, 5);
            5
        }
    }
}

// Writes the body's length and the kind.
fn write_header(out: &mut [u8], len: u32, kind: u8)
    requires { 5 ≤ length out.old }
    ensures { out.new ≡ big_bytes 4 len ++ kind ∷ drop 5 out.old }
{
    BigEndian::write_u32(out, len);
    out[4] = kind;
}

// The length of a hello's body.
fn hello_len(hello: &Hello) -> usize
    ensures body { result ≡ length (hello_body hello.now) }
    ensures number { result ≡ 38 }
{
    6 + hello.digest.len()
}

fn write_hello(hello: &Hello, out: &mut [u8])
    requires { 38 ≤ length out.old }
    ensures { out.new ≡ hello_body hello.now ++ drop 38 out.old }
{
    BigEndian::write_u16(out, hello.wire);
    BigEndian::write_u16(&mut out[2..], hello.circuit);
    BigEndian::write_u16(&mut out[4..], hello.order);
    out[6..38].copy_from_slice(&hello.digest);
}

/// The length of a reply's frame in bytes, for at most 65,536 polynomials.
pub fn reply_len(reply: &Reply<'_>) -> usize
    requires { polynomials_in (said reply.now) ≤ 65536 }
    ensures { result ≡ length (reply_spelling (said reply.now)) }
{
    match reply {
        Reply::Answer(_) => 6,
        Reply::Polys(polys) => 5 + polys_len(*polys),
        Reply::Values(_, _) => 21,
        Reply::Refused(refusal) => 5 + refusal_len(refusal),
    }
}

/// Writes a reply's frame at the beginning of `out`, and answers its length. A frame of polynomials
/// is one of the format if there are from 1 to 65,536 of them.
pub fn encode_reply(reply: &Reply<'_>, out: &mut [u8]) -> usize
    requires few { polynomials_in (said reply.now) ≤ 65536 }
    requires room { length (reply_spelling (said reply.now)) ≤ length out.old }
    ensures written { out.new ≡ reply_spelling (said reply.now) ++ drop result out.old }
    ensures length { result ≡ length (reply_spelling (said reply.now)) }
{
    match reply {
        Reply::Answer(bit) => {
            write_header(out, 1, 129);
            out[5] = u8::from(*bit);
            6
        }
        Reply::Polys(polys) => {
            let len = polys_len(*polys);
            write_header(out, len as u32, 130);
            write_polys(*polys, &mut out[5..]);
            5 + len
        }
        Reply::Values(first, second) => {
            write_header(out, 16, 131);
            write_element(*first, &mut out[5..]);
            write_element(*second, &mut out[13..]);
            21
        }
        Reply::Refused(refusal) => {
            let len = refusal_len(refusal);
            write_header(out, len as u32, 132);
            write_refusal(refusal, &mut out[5..]);
            5 + len
        }
    }
}

// The length of the polynomials' body.
fn polys_len(polys: &[Poly2]) -> usize
    requires { length polys.now ≤ 65536 }
    ensures body { result ≡ length (flat_map poly_body polys.now) }
    ensures number { result ≡ 24 * length polys.now }
{
    24 * polys.len()
}

fn write_element(element: Fe, out: &mut [u8])
    requires { 8 ≤ length out.old }
    ensures { out.new ≡ big_bytes 8 element ++ drop 8 out.old }
{
    BigEndian::write_u64(out, element.value());
}

fn write_poly(poly: &Poly2, out: &mut [u8])
    requires { 24 ≤ length out.old }
    ensures { out.new ≡ poly_body poly.now ++ drop 24 out.old }
{
    write_element(poly.c0, out);
    write_element(poly.c1, &mut out[8..]);
    write_element(poly.c2, &mut out[16..]);
}

fn write_polys(polys: &[Poly2], out: &mut [u8])
    requires few { length polys.now ≤ 65536 }
    requires room { 24 * length polys.now ≤ length out.old }
    ensures { out.new ≡ flat_map poly_body polys.now ++ drop (24 * length polys.now) out.old }
{
    for (i, poly) in polys.iter().enumerate() {
        write_poly(poly, &mut out[24 * i..]);
    }
}

// The length of a refusal's body.
fn refusal_len(refusal: &Refusal) -> usize
    ensures body { result ≡ length (refusal_body refusal.now) }
    ensures number { result ≤ 39 }
{
    match refusal {
        Refusal::NotServed(served) => 1 + hello_len(served),
        Refusal::OutOfTurn | Refusal::NothingLeft | Refusal::Broken => 1,
    }
}

fn write_refusal(refusal: &Refusal, out: &mut [u8])
    requires { length (refusal_body refusal.now) ≤ length out.old }
    ensures { out.new ≡ refusal_body refusal.now ++ drop (length (refusal_body refusal.now)) out.old }
{
    match refusal {
        Refusal::OutOfTurn => out[0] = 1,
        Refusal::NothingLeft => out[0] = 2,
        Refusal::NotServed(served) => {
            out[0] = 3;
            let _ = hello_len(served);
            write_hello(served, &mut out[1..]);
        }
        Refusal::Broken => out[0] = 4,
    }
}
