// Replies out of a stream that comes in pieces.
ghost use Rattle.std.specs.Prelude.{◌≡◌, ◌≤◌, ◌-◌, ◌%◌, ◌==◌, ◌&&◌, ℕ, true, false, [], ◌∷◌, length, take, nat_le, option_map, IfOk, Some};
ghost use Rattle.blic_messages.specs.declared.feeding.Fed.TheVariants as feds;
ghost use Rattle.byteorder.specs.Endian.{big_number};
ghost use Rattle.blic_field.specs.Field.{modulus};
ghost use Rattle.blic_messages.specs.Replies.{said};
ghost use Rattle.blic_messages.specs.Grammar.{front, front_of_body, judged, kind_at, Element, Free, OneOf, Partial, Short};
ghost use Rattle.blic_messages.specs.Fronts.{reply_grammar};
ghost use Rattle.blic_messages.specs.Decoding.{Inside, decoding_with, held_by, fed_with, frame_at, is_inside};
ghost use Rattle.blic_messages.specs.ReplyStates.{reply_shown, PolyShown};

use crate::decode::{hello_of, read_poly};
use crate::feeding::Fed;
use crate::reply::{Refusal, Reply};
use blic_basic::NoMem;
use blic_field::Fe;
use blic_poly2::Poly2;
use byteorder::{BigEndian, ByteOrder};
use std::alloc::Global;
use std::marker::Model;

// A whole reply without its polynomials.
#[derive(Clone, Copy, Drop)]
enum Kept {
    Answer(bool),
    Polys,
    Values(Fe, Fe),
    Refused(Refusal),
}

// What bytes begin with.
#[derive(Clone, Copy, Drop)]
enum ReplyFront {
    Whole(Kept, usize),
    Broken,
    Partial,
}

// What bytes without those of polynomials begin with.
fn reply_front(bytes: &[u8]) -> ReplyFront
    requires { kind_at bytes.now ≡ 130 → length bytes.now ≤ 5 }
    ensures { reply_shown result ≡ front reply_grammar bytes.now }
{
    if bytes.len() < 5 {
        return ReplyFront::Partial;
    }
    let body = &bytes[5..];
    let len = BigEndian::read_u32(bytes);
    match bytes[4] {
        129 if len == 1 => answer_front(body),
        130 if is_length_of_polys(len) => ReplyFront::Partial,
        131 if len == 16 => values_front(body),
        132 if len == 1 => refusal_front(body),
        132 if len == 39 => not_served_front(body),
        _ => ReplyFront::Broken,
    }
}

fn is_length_of_polys(len: u32) -> bool
    ensures { result ≡ (len % 24 == 0 && nat_le 24 len && nat_le len 1572864) }
{
    len % 24 == 0 && 24 <= len && len <= 1_572_864
}

fn answer_front(body: &[u8]) -> ReplyFront
    ensures { reply_shown result ≡ front_of_body reply_grammar 129 1 (Some (OneOf (0 ∷ 1 ∷ []) ∷ [])) body.now }
{
    if body.is_empty() {
        return ReplyFront::Partial;
    }
    match body[0] {
        0 => ReplyFront::Whole(Kept::Answer(false), 6),
        1 => ReplyFront::Whole(Kept::Answer(true), 6),
        _ => ReplyFront::Broken,
    }
}

fn values_front(body: &[u8]) -> ReplyFront
    ensures { reply_shown result ≡ front_of_body reply_grammar 131 16 (Some (Element ∷ Element ∷ [])) body.now }
{
    if body.len() < 8 {
        return ReplyFront::Partial;
    }
    match Fe::from_u64(BigEndian::read_u64(body)) {
        None => ReplyFront::Broken,
        Some(first) => second_front(first, body),
    }
}

// With the first value read.
fn second_front(first: Fe, body: &[u8]) -> ReplyFront
    requires room { 8 ≤ length body.now }
    requires first { first ≡ big_number 8 body.now }
    ensures { reply_shown result ≡ front_of_body reply_grammar 131 16 (Some (Element ∷ Element ∷ [])) body.now }
{
    if body.len() < 16 {
        return ReplyFront::Partial;
    }
    match Fe::from_u64(BigEndian::read_u64(&body[8..])) {
        None => ReplyFront::Broken,
        Some(second) => ReplyFront::Whole(Kept::Values(first, second), 21),
    }
}

fn refusal_front(body: &[u8]) -> ReplyFront
    ensures { reply_shown result ≡ front_of_body reply_grammar 132 1 (Some (OneOf (1 ∷ 2 ∷ 4 ∷ []) ∷ [])) body.now }
{
    if body.is_empty() {
        return ReplyFront::Partial;
    }
    match body[0] {
        1 => ReplyFront::Whole(Kept::Refused(Refusal::OutOfTurn), 6),
        2 => ReplyFront::Whole(Kept::Refused(Refusal::NothingLeft), 6),
        4 => ReplyFront::Whole(Kept::Refused(Refusal::Broken), 6),
        _ => ReplyFront::Broken,
    }
}

fn not_served_front(body: &[u8]) -> ReplyFront
    ensures { reply_shown result ≡ front_of_body reply_grammar 132 39 (Some (OneOf (3 ∷ []) ∷ Free 38 ∷ [])) body.now }
{
    if body.is_empty() {
        return ReplyFront::Partial;
    }
    if body[0] != 3 {
        return ReplyFront::Broken;
    }
    if body.len() < 39 {
        return ReplyFront::Partial;
    }
    let served = hello_of(&body[1..39]);
    ReplyFront::Whole(Kept::Refused(Refusal::NotServed(served)), 44)
}

// Whether bytes of polynomials stand behind the header.
fn has_polys(bytes: &[u8]) -> bool
    ensures yes { result ≡ true → (6 ≤ length bytes.now) × (kind_at bytes.now ≡ 130) }
    ensures no { result ≡ false → kind_at bytes.now ≡ 130 → length bytes.now ≤ 5 }
{
    bytes.len() > 5 && bytes[4] == 130
}

// What a byte makes of the bytes of a polynomial.
#[derive(Clone, Copy, Drop)]
enum PolyFront {
    Inside,
    Bad,
    Ends(Poly2),
}

// What the last byte of a polynomial's first bytes makes of them.
fn poly_front(part: &[u8]) -> PolyFront
    requires some { 1 ≤ length part.now }
    requires few { length part.now ≤ 24 }
    requires before { judged (Element ∷ Element ∷ Element ∷ []) (take (length part.now - 1) part.now) ≡ Short }
    ensures { PolyShown result part.now }
{
    if part.len() % 8 != 0 {
        return PolyFront::Inside;
    }
    if part.len() == 24 {
        return whole_poly(part);
    }
    match Fe::from_u64(BigEndian::read_u64(&part[part.len() - 8..])) {
        None => PolyFront::Bad,
        Some(_) => PolyFront::Inside,
    }
}

fn whole_poly(part: &[u8]) -> PolyFront
    requires { length part.now ≡ 24 }
    ensures { PolyShown result part.now }
{
    match read_poly(part) {
        None => PolyFront::Bad,
        Some(poly) => PolyFront::Ends(poly),
    }
}

// How the last piece ended.
#[derive(Clone, Copy, Drop)]
enum ReplyState {
    Open,
    Whole(Kept),
    Broken,
}

/// Takes a stream of replies in pieces of any lengths. Contracts see what it stands for. It takes
/// 1,572,864 bytes for polynomials, and some 80 beside them.
#[derive(Drop)]
pub struct ReplyDecoder {
    // The header, and the bytes behind it that aren't of a whole polynomial.
    held: [u8; 44],
    len: usize,
    polys: Vec<Poly2>,
    state: ReplyState,
}

impl Model for ReplyDecoder {
    ghost use Rattle.std.specs.Prelude.{◌≤◌, length, take, vec_capacity};
    ghost use Rattle.blic_messages.specs.Replies.{Said};
    ghost use Rattle.blic_messages.specs.Decoding.{Decoding};
    ghost use Rattle.blic_messages.specs.ReplyStates.{reply_decoding, IsReplyState};

    ghost Value = { Decoding Said };

    ghost view = { λ d. reply_decoding d.state (take d.len d.held) d.polys.items };

    ghost invariant = { λ d. IsReplyState d.state (take d.len d.held) d.polys.items × (65536 ≤ vec_capacity d.polys) × (d.len ≤ length d.held) };
}

impl ReplyDecoder {
    /// A decoder at the beginning of a stream. Only this call takes memory.
    pub fn new(alloc: Global) -> Result<ReplyDecoder, NoMem>
        ensures { IfOk result (λ decoder. decoder ≡ Inside []) }
    {
        Ok(ReplyDecoder {
            held: [0; 44],
            len: 0,
            polys: Vec::with_capacity(alloc, 65_536)?,
            state: ReplyState::Open,
        })
    }

    /// Takes the next piece of the stream, up to the end of its first frame. A stream is broken as soon
    /// as a part of its bytes is none of a reply's: the header at its fifth byte, an element at its
    /// eighth, the code of an answer or a refusal at once. Every later feed then answers `Broken` too.
    pub fn feed(&mut self, piece: &[u8]) -> Fed
        ensures answer { result ≡ fed_with reply_grammar self.old piece.now }
        ensures state { self.new ≡ decoding_with reply_grammar self.old piece.now }
        ensures taken { (n : ℕ) → result ≡ feds.Whole n → (1 ≤ n) × (n ≤ length piece.now) }
    {
        if let ReplyState::Broken = self.state {
            return Fed::Broken;
        }
        self.begin();
        for (i, byte) in piece.iter().enumerate() {
            match self.take(*byte) {
                Fed::More => {}
                Fed::Whole(_) => return Fed::Whole(i + 1),
                Fed::Broken => return Fed::Broken,
            }
        }
        Fed::More
    }

    // Lets a whole frame go.
    fn begin(&mut self)
        ensures held { self.new ≡ Inside (held_by self.old) }
        ensures partial { front reply_grammar (held_by self.old) ≡ Partial }
    {
        match self.state {
            ReplyState::Open => {}
            _ => self.reset(),
        }
    }

    // Takes a byte of the frame that isn't whole.
    fn take(&mut self, byte: u8) -> Fed
        requires { self.old ≡ Inside (held_by self.old) }
        ensures answer { result ≡ fed_with reply_grammar self.old (byte ∷ []) }
        ensures state { self.new ≡ decoding_with reply_grammar self.old (byte ∷ []) }
    {
        self.held[self.len] = byte;
        self.len += 1;
        if has_polys(&self.held[..self.len]) {
            return match poly_front(&self.held[5..self.len]) {
                PolyFront::Inside => Fed::More,
                PolyFront::Bad => {
                    self.state = ReplyState::Broken;
                    Fed::Broken
                }
                PolyFront::Ends(poly) => {
                    self.polys.push_reserved(poly);
                    self.len = 5;
                    if 24 * self.polys.len() < BigEndian::read_u32(&self.held) as usize {
                        return Fed::More;
                    }
                    self.state = ReplyState::Whole(Kept::Polys);
                    Fed::Whole(1)
                }
            };
        }
        match reply_front(&self.held[..self.len]) {
            ReplyFront::Partial => Fed::More,
            ReplyFront::Whole(kept, _) => {
                self.state = ReplyState::Whole(kept);
                Fed::Whole(1)
            }
            ReplyFront::Broken => {
                self.state = ReplyState::Broken;
                Fed::Broken
            }
        }
    }

    /// The reply that the last feed ended. None before the first feed, and when the last one didn't
    /// answer `Whole`.
    pub fn reply(&self) -> Option<Reply<'_>>
        ensures { option_map said result ≡ frame_at self.now }
    {
        match self.state {
            ReplyState::Whole(Kept::Answer(bit)) => Some(Reply::Answer(bit)),
            ReplyState::Whole(Kept::Polys) => Some(Reply::Polys(&self.polys)),
            ReplyState::Whole(Kept::Values(first, second)) => Some(Reply::Values(first, second)),
            ReplyState::Whole(Kept::Refused(refusal)) => Some(Reply::Refused(refusal)),
            ReplyState::Open | ReplyState::Broken => None,
        }
    }

    /// Whether some bytes of a frame were taken and it isn't whole.
    pub fn inside(&self) -> bool
        ensures { result ≡ is_inside self.now }
    {
        match self.state {
            ReplyState::Open => 0 < self.len,
            ReplyState::Whole(_) | ReplyState::Broken => false,
        }
    }

    /// Makes the decoder as a new one.
    pub fn reset(&mut self)
        ensures { self.new ≡ Inside [] }
    {
        self.len = 0;
        self.polys.clear();
        self.state = ReplyState::Open;
    }
}
