// Asks out of a stream that comes in pieces.
ghost use Rattle.std.specs.Prelude.{◌≡◌, ◌≤◌, ℕ, [], ◌∷◌, length, Some};
ghost use Rattle.blic_messages.specs.declared.feeding.Fed.TheVariants as feds;
ghost use Rattle.blic_messages.specs.Grammar.{front, front_of_body, Element, Free, Partial};
ghost use Rattle.blic_messages.specs.Fronts.{ask_grammar};
ghost use Rattle.blic_messages.specs.Decoding.{Inside, decoding_with, held_by, fed_with, frame_at, is_inside};
ghost use Rattle.blic_messages.specs.AskStates.{front_shown};

use crate::ask::Ask;
use crate::decode::hello_of;
use crate::feeding::Fed;
use blic_field::Fe;
use byteorder::{BigEndian, ByteOrder};
use std::marker::Model;

// What bytes begin with.
#[derive(Clone, Copy)]
enum AskFront {
    Whole(Ask, usize),
    Broken,
    Partial,
}

fn ask_front(bytes: &[u8]) -> AskFront
    ensures { front_shown result ≡ front ask_grammar bytes.now }
{
    if bytes.len() < 5 {
        return AskFront::Partial;
    }
    let body = &bytes[5..];
    let len = BigEndian::read_u32(bytes);
    match bytes[4] {
        1 if len == 38 => hello_front(body),
        2 if len == 0 => AskFront::Whole(Ask::Go, 5),
        3 if len == 8 => draw_front(body),
        5 if len == 0 => AskFront::Whole(Ask::Bye, 5),
        _ => AskFront::Broken,
    }
}

fn hello_front(body: &[u8]) -> AskFront
    ensures { front_shown result ≡ front_of_body ask_grammar 1 38 (Some (Free 38 ∷ [])) body.now }
{
    if body.len() < 38 {
        return AskFront::Partial;
    }
    AskFront::Whole(Ask::Hello(hello_of(&body[..38])), 43)
}

fn draw_front(body: &[u8]) -> AskFront
    ensures { front_shown result ≡ front_of_body ask_grammar 3 8 (Some (Element ∷ [])) body.now }
{
    if body.len() < 8 {
        return AskFront::Partial;
    }
    match Fe::from_u64(BigEndian::read_u64(body)) {
        None => AskFront::Broken,
        Some(element) => AskFront::Whole(Ask::Draw(element), 13),
    }
}

// How the last piece ended.
#[derive(Clone, Copy, Drop)]
enum AskState {
    Open,
    Whole(Ask),
    Broken,
}

/// Takes a stream of asks in pieces of any lengths. Contracts see what it stands for.
#[derive(Drop)]
pub struct AskDecoder {
    held: [u8; 43],
    len: usize,
    state: AskState,
}

impl Model for AskDecoder {
    ghost use Rattle.std.specs.Prelude.{◌≡◌, ◌<◌, ◌≤◌, length, take};
    ghost use Rattle.blic_messages.specs.declared.ask.Ask.{Ask};
    ghost use Rattle.blic_messages.specs.Grammar.{front, Partial};
    ghost use Rattle.blic_messages.specs.Fronts.{ask_grammar};
    ghost use Rattle.blic_messages.specs.Decoding.{Decoding};
    ghost use Rattle.blic_messages.specs.AskStates.{ask_decoding};

    ghost Value = { Decoding Ask };

    ghost view = { λ d. ask_decoding d.state (take d.len d.held) };

    ghost invariant = { λ d. (d.len < 43) × (front ask_grammar (take d.len d.held) ≡ Partial) × (d.len ≤ length d.held) };
}

impl AskDecoder {
    /// A decoder at the beginning of a stream.
    pub fn new() -> AskDecoder
        ensures { result ≡ Inside [] }
    {
        AskDecoder {
            held: [0; 43],
            len: 0,
            state: AskState::Open,
        }
    }

    /// Takes the next piece of the stream, up to the end of its first frame. A stream is broken as soon
    /// as a part of its bytes is none of an ask's: the header at its fifth byte, an element at its
    /// eighth. Every later feed then answers `Broken` too.
    pub fn feed(&mut self, piece: &[u8]) -> Fed
        ensures answer { result ≡ fed_with ask_grammar self.old piece.now }
        ensures state { self.new ≡ decoding_with ask_grammar self.old piece.now }
        ensures taken { (n : ℕ) → result ≡ feds.Whole n → (1 ≤ n) × (n ≤ length piece.now) }
    {
        if let AskState::Broken = self.state {
            return Fed::Broken;
        }
        self.begin();
        for (i, byte) in piece.iter().enumerate() {
            match self.take(*byte) {
                Fed::More => {}
                Fed::Whole(_) => return Fed::Whole(i + 1),
                Fed::Broken => return Fed::Broken,
            }
        }
        Fed::More
    }

    // Lets a whole frame go.
    fn begin(&mut self)
        ensures held { self.new ≡ Inside (held_by self.old) }
        ensures partial { front ask_grammar (held_by self.old) ≡ Partial }
    {
        match self.state {
            AskState::Open => {}
            _ => self.reset(),
        }
    }

    // Takes a byte of the frame that isn't whole.
    fn take(&mut self, byte: u8) -> Fed
        requires { self.old ≡ Inside (held_by self.old) }
        ensures answer { result ≡ fed_with ask_grammar self.old (byte ∷ []) }
        ensures state { self.new ≡ decoding_with ask_grammar self.old (byte ∷ []) }
    {
        self.held[self.len] = byte;
        match ask_front(&self.held[..self.len + 1]) {
            AskFront::Partial => {
                self.len += 1;
                Fed::More
            }
            AskFront::Whole(ask, _) => {
                self.len = 0;
                self.state = AskState::Whole(ask);
                Fed::Whole(1)
            }
            AskFront::Broken => {
                self.len = 0;
                self.state = AskState::Broken;
                Fed::Broken
            }
        }
    }

    /// The ask that the last feed ended. None before the first feed, and when the last one didn't answer
    /// `Whole`.
    pub fn ask(&self) -> Option<Ask>
        ensures { result ≡ frame_at self.now }
    {
        match self.state {
            AskState::Whole(ask) => Some(ask),
            AskState::Open | AskState::Broken => None,
        }
    }

    /// Whether some bytes of a frame were taken and it isn't whole.
    pub fn inside(&self) -> bool
        ensures { result ≡ is_inside self.now }
    {
        match self.state {
            AskState::Open => 0 < self.len,
            AskState::Whole(_) | AskState::Broken => false,
        }
    }

    /// Makes the decoder as a new one.
    pub fn reset(&mut self)
        ensures { self.new ≡ Inside [] }
    {
        self.len = 0;
        self.state = AskState::Open;
    }
}
