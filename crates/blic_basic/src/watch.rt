// What sees frames on their way.
ghost use Rattle.std.specs.Prelude.{◌≡◌, ◌<◌, ◌≤◌, ℕ, Bool, false, List, None, Option, length, take, slice_index};
ghost use Rattle.blic_basic.specs.Watching.{Adds};

/// Sees the frames of a conversation on their way, in its order, and may set bytes of replies.
pub trait Watch {
    /// The frames that it saw, as it left them, if contracts can speak of them (if they are told).
    ghost frames: { Self → Option (List (List ℕ)) };

    /// Whether it may change replies.
    ghost alters: { Self → Bool };

    /// Sees a frame: the length of its body as four bytes, its kind, and its body (docs/FORMATS.md,
    /// "Frames"). A watch leaves the first five bytes, and the whole frame if its kind is below 0x81,
    /// which is that of an ask.
    fn saw(&mut self, frame: &mut [u8])
        requires { 5 ≤ length frame.old }
        ensures head { take 5 frame.new ≡ take 5 frame.old }
        ensures asks { slice_index frame.old 4 < 129 → frame.new ≡ frame.old }
        ensures left { alters self.old ≡ false → frame.new ≡ frame.old }
        ensures same { alters self.new ≡ alters self.old }
        ensures list { Adds (frames self.old) (frames self.new) frame.new };
}

/// Keeps nothing and changes nothing.
#[derive(Clone, Copy, Debug, PartialEq, Eq)]
pub struct NoWatch;

impl NoWatch {
    pub fn new() -> NoWatch {
        NoWatch
    }
}

impl Watch for NoWatch {
    ghost frames = { λ _. None };

    ghost alters = { λ _. false };

    fn saw(&mut self, _frame: &mut [u8]) {}
}
