// Where bytes come from.
ghost use Rattle.std.specs.Prelude.{◌<◌, ℕ, List, Option, length};
ghost use Rattle.blic_basic.specs.Outside.{Takes, TakeCounts};

/// What a source answered.
#[derive(Clone, Copy, Debug, PartialEq, Eq)]
pub enum Taken {
    /// That many bytes, at least one, stand at the start of the buffer.
    Got(usize),
    /// Nothing is left.
    End,
    /// The source failed, and gave nothing.
    Failed,
}

/// Bytes that come from outside, piece by piece.
pub trait Source {
    /// The bytes that are left, if contracts can speak of them (if they are told).
    ghost left: { Self → Option (List ℕ) };

    /// How many of its calls have failed.
    ghost faults: { Self → ℕ };

    /// Takes the next bytes to the start of `buf`, which is not empty, as many as the source wants.
    /// What stands in `buf` behind them is not said.
    fn take(&mut self, buf: &mut [u8]) -> Taken
        requires { 0 < length buf.old }
        ensures bytes { Takes (left self.old) (left self.new) result buf.new }
        ensures cause { TakeCounts (faults self.old) (faults self.new) result };
}
