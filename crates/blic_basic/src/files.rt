// Files that can be opened by name.
ghost use Rattle.std.specs.Prelude.{◌≡◌, ◌≤◌, ◌+◌, ◌-◌, ◌^◌, ℕ, List, Option, min};
ghost use Rattle.blic_basic.specs.Opening.{Opens, OpenCounts};

use crate::source::Source;

/// What opening a file answered.
#[derive(Drop)]
pub enum Opened<S> {
    Source(S),
    /// There is no such file, or it could not be opened.
    Failed,
}

/// Files that can be read.
pub trait Files {
    type S: Source;

    /// The bytes of each file that there is, by its name, if contracts can speak of them (if they
    /// are told).
    ghost files: { Self → Option (List ℕ → Option (List ℕ)) };

    /// How many calls have failed, those of the sources that were closed included.
    ghost faults: { Self → ℕ };

    /// Opens the file of that name, at its first byte. A missing file is `Failed`.
    fn open_file(&mut self, name: &str) -> Opened<Self::S>
        ensures bytes { Opens Self.S.left Self.S.faults (files self.old) name.now result }
        ensures same { files self.new ≡ files self.old }
        ensures cause { OpenCounts (faults self.old) (faults self.new) result };

    /// Takes a source back, and adds its faults to the count, which stops at 2^64 - 1.
    fn close_file(&mut self, source: Self::S)
        ensures same { files self.new ≡ files self.old }
        ensures later { faults self.old ≤ faults self.new }
        ensures adds { faults self.new ≡ min (faults self.old + Self.S.faults source) (2 ^ 64 - 1) };
}
