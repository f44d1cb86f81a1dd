// Replies that are changed on their way.
ghost use Rattle.std.specs.Prelude.{◌≡◌, ◌<◌, ◌≤◌, [], true, false, cond, length, take, slice_index, slice_index_or};
ghost use Rattle.blic_basic.specs.Watching.{Adds, bent, bent_once, is_reply, told_frames};
ghost use Rattle.blic_basic.specs.Outside.{one_more};

use crate::mem_watch::MemWatch;
use crate::watch::Watch;
use std::alloc::Global;
use std::marker::Model;

/// A byte to set in a reply's frame: the one at `place` in the frame of reply number `reply`, both
/// counted from 0, the replies over all of them. A place below 5, or past the frame, sets nothing.
#[derive(Clone, Copy, Debug, PartialEq, Eq)]
pub struct Bend {
    pub reply: u64,
    pub place: u64,
    pub byte: u8,
}

/// Sets bytes of replies, and keeps each frame as it leaves it, as `MemWatch` does. Contracts see a
/// `BendingWatch`.
#[derive(Drop)]
pub struct BendWatch {
    bends: Vec<Bend>,
    replies: u64,
    kept: MemWatch,
}

impl Model for BendWatch {
    ghost use Rattle.blic_basic.specs.Watching.{BendingWatch};

    ghost Value = { BendingWatch };

    ghost view = { λ w. record { bends = w.bends.items; replies = w.replies; kept = w.kept } };
}

impl BendWatch {
    /// A watch that saw nothing. Frames take memory as they come.
    pub fn new(alloc: Global, bends: Vec<Bend>) -> BendWatch
        ensures { result ≡ record { bends = bends.items; replies = 0; kept = record { frames = []; whole = true } } }
    {
        BendWatch {
            bends,
            replies: 0,
            kept: MemWatch::new(alloc),
        }
    }

    /// Whether each frame that came is kept.
    pub fn whole(&self) -> bool
        ensures { result ≡ self.now.kept.whole }
    {
        self.kept.whole()
    }

    /// How many frames are kept.
    pub fn frames(&self) -> u32
        ensures { result ≡ length self.now.kept.frames }
    {
        self.kept.frames()
    }

    /// Frame `i` of those that are kept, counted from 0.
    pub fn frame(&self, i: u32) -> &[u8]
        requires { i < length self.now.kept.frames }
        ensures { result.now ≡ slice_index_or self.now.kept.frames i [] }
    {
        self.kept.frame(i)
    }
}

impl Watch for BendWatch {
    ghost frames = { λ w. told_frames w.kept };

    ghost alters = { λ _. true };

    fn saw(&mut self, frame: &mut [u8])
        requires { 5 ≤ length frame.old }
        ensures head { take 5 frame.new ≡ take 5 frame.old }
        ensures asks { slice_index frame.old 4 < 129 → frame.new ≡ frame.old }
        ensures list { Adds (told_frames self.old.kept) (told_frames self.new.kept) frame.new }
        ensures bent { frame.new ≡ cond (is_reply frame.old) (bent self.old.bends self.old.replies frame.old) frame.old }
        ensures replies { self.new.replies ≡ cond (is_reply frame.old) (one_more self.old.replies) self.old.replies }
        ensures bends { self.new.bends ≡ self.old.bends }
    {
        if frame[4] >= 0x81 {
            apply(&self.bends, self.replies, frame);
            self.replies = self.replies.saturating_add(1);
        }
        self.kept.keep(frame);
    }
}

// Sets the bytes of the bends of the reply, one after another.
fn apply(bends: &[Bend], reply: u64, frame: &mut [u8])
    requires { 5 ≤ length frame.old }
    ensures bent { frame.new ≡ bent bends.now reply frame.old }
    ensures head { take 5 frame.new ≡ take 5 frame.old }
{
    for bend in bends {
        set(bend, reply, frame);
    }
}

// Sets the bend's byte, if it is one of the reply's body.
fn set(bend: &Bend, reply: u64, frame: &mut [u8])
    requires { 5 ≤ length frame.old }
    ensures bent { frame.new ≡ bent_once reply frame.old bend.now }
    ensures head { take 5 frame.new ≡ take 5 frame.old }
{
    if bend.reply == reply && bend.place >= 5 && bend.place < frame.len() as u64 {
        frame[bend.place as usize] = bend.byte;
    }
}
