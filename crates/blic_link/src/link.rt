// One end of a connection.
ghost use Rattle.std.specs.Prelude.{◌≡◌, ◌<◌, ℕ, Bool, true, List, Option, length};
ghost use Rattle.blic_link.specs.Passing.{Piece, Receives, ReceiveCounts, Sends, SendCounts};

/// What a receiving call answered.
#[derive(Clone, Copy, Debug, PartialEq, Eq)]
pub enum Received {
    /// That many bytes, at least one, stand at the start of the buffer.
    Got(usize),
    /// Nothing more is coming.
    End,
    /// The link failed, and gave nothing.
    Failed,
}

/// What a sending call answered.
#[derive(Clone, Copy, Debug, PartialEq, Eq)]
pub enum Sent {
    /// That many bytes, at least one, were sent.
    Took(usize),
    /// The link failed, and sent nothing.
    Failed,
}

/// One end of a connection, over which bytes pass in pieces.
pub trait Link: Drop {
    /// Whether it can be used.
    ghost is_usable: { Self → Bool };

    /// The pieces that passed over it, in the order of the calls, if contracts can speak of them (if
    /// they are told).
    ghost pieces: { Self → Option (List Piece) };

    /// The bytes that are still coming, if they are told.
    ghost coming: { Self → Option (List ℕ) };

    /// How many of its calls have failed.
    ghost faults: { Self → ℕ };

    /// Whether it can be used, which never changes.
    fn usable(&self) -> bool
        ensures { result ≡ is_usable self.now };

    /// Takes the next bytes to the start of `buf`, which is not empty, as many as the link wants. What
    /// stands in `buf` behind them is not said.
    fn recv(&mut self, buf: &mut [u8]) -> Received
        requires usable { is_usable self.old ≡ true }
        requires room { 0 < length buf.old }
        ensures bytes { Receives (pieces self.old) (pieces self.new) (coming self.old) (coming self.new) result buf.new }
        ensures cause { ReceiveCounts (faults self.old) (faults self.new) result }
        ensures same { is_usable self.new ≡ is_usable self.old };

    /// Sends a prefix of `piece`, which is not empty, as many bytes as the link wants.
    fn send(&mut self, piece: &[u8]) -> Sent
        requires usable { is_usable self.old ≡ true }
        requires some { 0 < length piece.now }
        ensures bytes { Sends (pieces self.old) (pieces self.new) result piece.now }
        ensures same_coming { coming self.new ≡ coming self.old }
        ensures cause { SendCounts (faults self.old) (faults self.new) result }
        ensures same { is_usable self.new ≡ is_usable self.old };
}
