// Frames kept in memory.
ghost use Rattle.std.specs.Prelude.{◌≡◌, ◌<◌, ◌≤◌, ◌++◌, ◌∷◌, [], false, true, length, take, map, OnOk, OnErr, slice_index, slice_index_or};
ghost use Rattle.blic_basic.specs.Watching.{Adds, told_frames};

use crate::NoMem;
use crate::watch::Watch;
use std::alloc::Global;
use std::marker::Model;

/// Keeps each frame as it is, until there is no memory for one, or one would have number 2^32 - 1,
/// counted from 0. Contracts see a `MemoryWatch`.
#[derive(Drop)]
pub struct MemWatch {
    alloc: Global,
    frames: Vec<Vec<u8>>,
    whole: bool,
}

impl Model for MemWatch {
    ghost use Rattle.std.specs.Prelude.{map, length, ◌<◌, ◌^◌};
    ghost use Rattle.blic_basic.specs.Watching.{MemoryWatch};

    ghost Value = { MemoryWatch };

    ghost view = { λ w. record { frames = map (λ f. f.items) w.frames.items; whole = w.whole } };

    ghost invariant = { λ w. length w.frames.items < 2 ^ 32 };
}

impl MemWatch {
    /// A watch that saw nothing. Frames take memory as they come.
    pub fn new(alloc: Global) -> MemWatch
        ensures { result ≡ record { frames = []; whole = true } }
    {
        MemWatch {
            alloc,
            frames: Vec::new(alloc),
            whole: true,
        }
    }

    /// Whether each frame that came is kept.
    pub fn whole(&self) -> bool
        ensures { result ≡ self.now.whole }
    {
        self.whole
    }

    /// How many frames are kept.
    pub fn frames(&self) -> u32
        ensures { result ≡ length self.now.frames }
    {
        self.frames.len() as u32
    }

    /// Frame `i` of those that are kept, counted from 0.
    pub fn frame(&self, i: u32) -> &[u8]
        requires { i < length self.now.frames }
        ensures { result.now ≡ slice_index_or self.now.frames i [] }
    {
        &self.frames[i as usize]
    }

    // Keeps one more frame, if it can.
    pub(crate) fn keep(&mut self, frame: &[u8])
        ensures kept { self.new.whole ≡ true → (self.old.whole ≡ true) × (self.new.frames ≡ self.old.frames ++ frame.now ∷ []) }
        ensures lost { self.new.whole ≡ false → self.new.frames ≡ self.old.frames }
    {
        if self.whole {
            self.whole = self.push(frame).is_ok();
        }
    }

    fn push(&mut self, frame: &[u8]) -> Result<(), NoMem>
        ensures whole { self.new.whole ≡ self.old.whole }
        ensures ok { OnOk result (self.new.frames ≡ self.old.frames ++ frame.now ∷ []) }
        ensures err { OnErr result (self.new.frames ≡ self.old.frames) }
    {
        if self.frames.len() >= u32::MAX as usize || self.frames.reserve(1).is_err() {
            return Err(NoMem);
        }
        let copy = Vec::from_slice(self.alloc, frame)?;
        self.frames.push_reserved(copy);
        Ok(())
    }
}

impl Watch for MemWatch {
    ghost frames = { told_frames };

    ghost alters = { λ _. false };

    fn saw(&mut self, frame: &mut [u8])
        requires { 5 ≤ length frame.old }
        ensures head { take 5 frame.new ≡ take 5 frame.old }
        ensures asks { slice_index frame.old 4 < 129 → frame.new ≡ frame.old }
        ensures left { frame.new ≡ frame.old }
        ensures list { Adds (told_frames self.old) (told_frames self.new) frame.new }
        ensures lost { self.new.whole ≡ false → self.new.frames ≡ self.old.frames }
    {
        self.keep(frame);
    }
}
