// Where bytes go to.
ghost use Rattle.std.specs.Prelude.{◌<◌, ℕ, List, Option, length};
ghost use Rattle.blic_basic.specs.Outside.{Gives, GiveCounts, Writes, WriteCounts};

/// What a sink answered.
#[derive(Clone, Copy, Debug, PartialEq, Eq)]
pub enum Given {
    /// That many bytes, at least one, were appended.
    Took(usize),
    /// The sink failed, and appended nothing.
    Failed,
}

/// How much of a text was written.
#[derive(Clone, Copy, Debug, PartialEq, Eq)]
pub enum Wrote {
    All,
    /// The sink failed when exactly that many bytes were appended.
    Failed(usize),
}

/// A place that bytes are appended to.
pub trait Sink {
    /// The bytes that it holds, if contracts can speak of them (if they are told).
    ghost held: { Self → Option (List ℕ) };

    /// How many of its calls have failed.
    ghost faults: { Self → ℕ };

    /// Appends a prefix of `piece`, which is not empty, as many bytes as the sink wants.
    fn give(&mut self, piece: &[u8]) -> Given
        requires { 0 < length piece.now }
        ensures bytes { Gives (held self.old) (held self.new) result piece.now }
        ensures cause { GiveCounts (faults self.old) (faults self.new) result };
}

/// Appends all of the bytes, in as many pieces as the sink wants. It stops at the first fault, and
/// answers how many bytes were appended until then.
#[tactic(auto, using(crate::proofs::Appended::append_known_more))]
pub fn write_all_counted<S: Sink>(sink: &mut S, bytes: &[u8]) -> Wrote
    ensures bytes { Writes (S.held sink.old) (S.held sink.new) result bytes.now }
    ensures cause { WriteCounts (S.faults sink.old) (S.faults sink.new) result }
{
    let mut done = 0;
    while done < bytes.len() {
        match sink.give(&bytes[done..]) {
            Given::Took(n) => done += n,
            Given::Failed => return Wrote::Failed(done),
        }
    }
    Wrote::All
}
