// Files in memory that are opened by name.
ghost use Rattle.std.specs.Prelude.{◌≡◌, ◌≤◌, ◌+◌, ◌-◌, ◌^◌, ◌↔◌, ◌⊎◌, min, length, All, Contains, Some, None, IfOk, IsSomeAnd, MatchOption};
ghost use Rattle.blic_basic.specs.Opening.{Opens, OpenCounts, IfOpened};
ghost use Rattle.blic_basic.specs.Memory.{new_files, new_source};
ghost use Rattle.blic_basic.specs.Outside.{one_more};
ghost use Rattle.blic_basic.specs.Named.{bytes_of};

use crate::NoMem;
use crate::files::{Files, Opened};
use crate::mem_file::MemFile;
use crate::mem_source::MemSource;
use crate::piece::is_listed;
use crate::spare::{Spare, spares};
use std::alloc::Global;
use std::marker::Model;

/// Files in memory, with memory for the sources that are opened. Contracts see a `MemoryFiles`.
#[derive(Drop)]
pub struct MemFiles {
    files: Vec<MemFile>,
    most: usize,
    failing: Vec<u64>,
    takes_failing: Vec<u64>,
    spares: Vec<Spare>,
    longest: usize,
    calls: u64,
    faults: u64,
}

impl Model for MemFiles {
    ghost use Rattle.std.specs.Prelude.{◌≡◌, ◌≤◌, length, All, replicate, vec_len};
    ghost use Rattle.blic_basic.specs.Memory.{MemoryFiles};

    ghost Value = { MemoryFiles };

    ghost view = { λ f. record {
      files = f.files.items;
      most = f.most;
      failing = f.failing.items;
      takes_failing = f.takes_failing.items;
      room = vec_len f.spares;
      calls = f.calls;
      faults = f.faults;
    } };

    ghost invariant = { λ f. (1 ≤ f.most)
        × (f.spares.items ≡ replicate (vec_len f.spares) (f.longest, f.takes_failing.items))
        × All (λ file. length file.bytes ≤ f.longest) f.files.items };
}

impl MemFiles {
    /// Files of which `room` sources can be opened in all. The memory of these is taken here, so
    /// no later call takes any. The calls of `open_file` whose numbers are in `failing`, counted
    /// from 0, fail, and so do the calls of `take` whose numbers are in `takes_failing`, counted
    /// from 0 in each source. A source gives at most `most` bytes in a call; `most` is at least 1.
    pub fn new(
        alloc: Global,
        files: Vec<MemFile>,
        most: usize,
        failing: Vec<u64>,
        takes_failing: Vec<u64>,
        room: u32,
    ) -> Result<MemFiles, NoMem>
        requires { 1 ≤ most }
        ensures { IfOk result (λ f. f ≡ new_files files.items most failing.items takes_failing.items room) }
    {
        let longest = longest_of(&files);
        let spares = spares(alloc, room, longest, &takes_failing)?;
        Ok(MemFiles {
            files,
            most,
            failing,
            takes_failing,
            spares,
            longest,
            calls: 0,
            faults: 0,
        })
    }

    /// How many calls have failed, those of the sources that were closed included.
    pub fn faults(&self) -> u64
        ensures { result ≡ self.now.faults }
    {
        self.faults
    }
}

// No file has more bytes.
fn longest_of(files: &[MemFile]) -> usize
    ensures { All (λ file. length file.bytes ≤ result) files.now }
{
    let mut longest = 0;
    for file in files {
        longest = longest.max(file.bytes.len());
    }
    longest
}

// The first file of that name.
fn find<'a>(files: &'a [MemFile], name: &str) -> Option<&'a MemFile>
    ensures { MatchOption result (bytes_of files.now name.now ≡ None) (λ file. bytes_of files.now name.now ≡ Some file.now.bytes) }
{
    for file in files {
        if file.name.as_str() == name {
            return Some(file);
        }
    }
    None
}

impl Files for MemFiles {
    type S = MemSource;

    ghost files = { λ f. Some (bytes_of f.files) };

    ghost faults = { λ f. f.faults };

    /// Opens the first file of that name. It fails exactly if the call's number is listed, the
    /// room for sources is used up, or no file has that name.
    fn open_file(&mut self, name: &str) -> Opened<MemSource>
        ensures bytes { Opens (λ s. Some s.left) (λ s. s.faults) (Some (bytes_of self.old.files)) name.now result }
        ensures same { Some (bytes_of self.new.files) ≡ Some (bytes_of self.old.files) }
        ensures cause { OpenCounts self.old.faults self.new.faults result }
        ensures failed { (result ≡ Opened.Failed) ↔ (Contains self.old.failing self.old.calls ⊎ (self.old.room ≡ 0) ⊎ (bytes_of self.old.files name.now ≡ None)) }
        ensures fault { result ≡ Opened.Failed → self.new.faults ≡ one_more self.old.faults }
        ensures source { IfOpened result (λ s. IsSomeAnd (bytes_of self.old.files name.now) (λ bytes. s ≡ new_source bytes self.old.most self.old.takes_failing)) }
        ensures opened_room { IfOpened result (λ _. self.new.room + 1 ≡ self.old.room) }
        ensures failed_room { result ≡ Opened.Failed → self.new.room ≡ self.old.room }
        ensures calls { self.new.calls ≡ one_more self.old.calls }
        ensures same_files { self.new.files ≡ self.old.files }
        ensures same_most { self.new.most ≡ self.old.most }
        ensures same_failing { self.new.failing ≡ self.old.failing }
        ensures same_takes_failing { self.new.takes_failing ≡ self.old.takes_failing }
    {
        let call = self.calls;
        self.calls = self.calls.saturating_add(1);
        if !is_listed(&self.failing, call)
            && let Some(file) = find(&self.files, name)
            && let Some(spare) = self.spares.pop()
        {
            return Opened::Source(spare.fill(&file.bytes, self.most));
        }
        self.faults = self.faults.saturating_add(1);
        Opened::Failed
    }

    /// Takes a source back. Its memory is not used again.
    fn close_file(&mut self, source: MemSource)
        ensures same { Some (bytes_of self.new.files) ≡ Some (bytes_of self.old.files) }
        ensures later { self.old.faults ≤ self.new.faults }
        ensures adds { self.new.faults ≡ min (self.old.faults + source.faults) (2 ^ 64 - 1) }
        ensures others { self.new ≡ record self.old { faults = self.new.faults } }
    {
        self.faults = self.faults.saturating_add(source.faults());
    }
}
