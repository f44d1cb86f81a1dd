// Memory for sources that are opened later.
ghost use Rattle.std.specs.Prelude.{◌≡◌, ◌≤◌, IfOk, length, replicate};
ghost use Rattle.blic_basic.specs.Memory.{new_source};

use crate::NoMem;
use crate::mem_source::MemSource;
use std::alloc::Global;
use std::marker::Model;

/// Memory for one source. Contracts see the number of bytes that it has room for, and the list of
/// the source's calls that are to fail.
#[derive(Drop)]
pub(crate) struct Spare {
    bytes: Vec<u8>,
    room: usize,
    failing: Vec<u64>,
}

impl Model for Spare {
    ghost use Rattle.std.specs.Prelude.{◌≡◌, ◌≤◌, ℕ, List, [], vec_len, vec_capacity};

    ghost Value = { ℕ × List ℕ };

    ghost view = { λ s. (s.room, s.failing.items) };

    ghost invariant = { λ s. (s.bytes.items ≡ []) × (vec_len s.bytes ≡ 0) × (s.room ≤ vec_capacity s.bytes) };
}

impl Spare {
    pub(crate) fn new(alloc: Global, room: usize, failing: &[u64]) -> Result<Spare, NoMem>
        ensures { IfOk result (λ spare. spare ≡ (room, failing.now)) }
    {
        let bytes = Vec::with_capacity(alloc, room)?;
        let failing = Vec::from_slice(alloc, failing)?;
        Ok(Spare {
            bytes,
            room,
            failing,
        })
    }

    /// The memory's source, of these bytes.
    pub(crate) fn fill(self, contents: &[u8], most: usize) -> MemSource
        requires fits { length contents.now ≤ self.0 }
        requires most { 1 ≤ most }
        ensures { result ≡ new_source contents.now most self.1 }
    {
        let Spare {
            mut bytes,
            room: _,
            failing,
        } = self;
        bytes.extend_from_slice(contents).unwrap();
        MemSource::new(bytes, most, failing)
    }
}

/// That many spares.
#[tactic(auto, using(std::proofs::lemmas::List::replicate_more))]
pub(crate) fn spares(
    alloc: Global,
    count: u32,
    room: usize,
    failing: &[u64],
) -> Result<Vec<Spare>, NoMem>
    ensures { IfOk result (λ v. v.items ≡ replicate count (room, failing.now)) }
{
    let mut spares = Vec::new(alloc);
    for _ in 0..count {
        spares.push(Spare::new(alloc, room, failing)?)?;
    }
    Ok(spares)
}
