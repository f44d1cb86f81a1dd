// The pieces that passed over a link in memory, within a room that is taken at once.
ghost use Rattle.std.specs.Prelude.{◌≡◌, ◌<◌, ◌≤◌, ◌+◌, ◌^◌, ◌++◌, ◌∷◌, [], IfOk, length, slice_index_or};
ghost use Rattle.blic_link.specs.Passing.{Came, bytes_of, piece_of, was_sent};

use blic_basic::NoMem;
use std::alloc::Global;
use std::marker::Model;

/// Where the bytes of a piece stand among those of all pieces, from `start` to before `end`. It
/// takes 12 bytes.
#[derive(Clone, Copy, Debug, PartialEq, Eq)]
pub(crate) struct Mark {
    pub(crate) start: u32,
    pub(crate) end: u32,
    pub(crate) sent: bool,
}

/// Pieces, with room for more bytes. Contracts see a `MemoryPieces`.
#[derive(Drop)]
pub(crate) struct Pieces {
    bytes: Vec<u8>,
    marks: Vec<Mark>,
    room: usize,
}

impl Model for Pieces {
    ghost use Rattle.std.specs.Prelude.{◌≤◌, ◌<◌, ◌-◌, ◌^◌, All, length, vec_len, vec_capacity};
    ghost use Rattle.blic_link.specs.Marks.{MemoryPieces, pieces_at, IsWithin};

    ghost Value = { MemoryPieces };

    ghost view = { λ p. record {
      pieces = pieces_at p.bytes.items p.marks.items;
      room = p.room - length p.bytes.items;
    } };

    ghost invariant = { λ p. (vec_len p.bytes ≤ p.room) × (p.room ≤ vec_capacity p.bytes) × (p.room < 2 ^ 32)
        × (vec_len p.marks ≤ vec_len p.bytes) × (p.room ≤ vec_capacity p.marks)
        × All (IsWithin (length p.bytes.items)) p.marks.items };
}

impl Pieces {
    /// No pieces, with room for `room` bytes, whose memory is taken here.
    pub(crate) fn new(alloc: Global, room: usize) -> Result<Pieces, NoMem>
        requires { room < 2 ^ 32 }
        ensures { IfOk result (λ p. p ≡ record { pieces = []; room = room }) }
    {
        Ok(Pieces {
            bytes: Vec::with_capacity(alloc, room)?,
            marks: Vec::with_capacity(alloc, room)?,
            room,
        })
    }

    /// No pieces, and no room, which takes no memory.
    pub(crate) fn none(alloc: Global) -> Pieces
        ensures { result ≡ record { pieces = []; room = 0 } }
    {
        Pieces {
            bytes: Vec::new(alloc),
            marks: Vec::new(alloc),
            room: 0,
        }
    }

    /// How many bytes more there is room for.
    pub(crate) fn room(&self) -> usize
        ensures { result ≡ self.now.room }
    {
        self.room - self.bytes.len()
    }

    /// Keeps one more piece.
    pub(crate) fn keep(&mut self, bytes: &[u8], sent: bool)
        requires some { 0 < length bytes.now }
        requires fits { length bytes.now ≤ self.old.room }
        ensures kept { self.new.pieces ≡ self.old.pieces ++ piece_of sent bytes.now ∷ [] }
        ensures left { self.new.room + length bytes.now ≡ self.old.room }
    {
        let start = self.bytes.len() as u32;
        self.bytes.extend_from_slice(bytes).unwrap();
        let end = self.bytes.len() as u32;
        self.marks.push_reserved(Mark { start, end, sent });
    }

    /// How many pieces there are.
    pub(crate) fn len(&self) -> u32
        ensures { result ≡ length self.now.pieces }
    {
        self.marks.len() as u32
    }

    /// The bytes of piece `i`.
    pub(crate) fn piece(&self, i: u32) -> &[u8]
        requires { i < length self.now.pieces }
        ensures { result.now ≡ bytes_of (slice_index_or self.now.pieces i (Came [])) }
    {
        let mark = self.marks[i as usize];
        &self.bytes[mark.start as usize..mark.end as usize]
    }

    /// Whether piece `i` was sent.
    pub(crate) fn was_sent(&self, i: u32) -> bool
        requires { i < length self.now.pieces }
        ensures { result ≡ was_sent (slice_index_or self.now.pieces i (Came [])) }
    {
        self.marks[i as usize].sent
    }
}
