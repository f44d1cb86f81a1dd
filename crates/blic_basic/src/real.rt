// Adapters over the readers, files and writers of the system. What these hold is not told.
ghost use Rattle.std.specs.Prelude.{◌≡◌, ◌<◌, ◌≤◌, IfOk, None, length};
ghost use Rattle.blic_basic.specs.Adapters.{HasFlushed, HasRead, HasWritten};
ghost use Rattle.blic_basic.specs.Outside.{Takes, TakeCounts, Gives, GiveCounts, one_more};
ghost use Rattle.blic_basic.specs.Opening.{Opens, OpenCounts};

use crate::files::{Files, Opened};
use crate::sink::{Given, Sink};
use crate::source::{Source, Taken};
use std::fs::File;
use std::io;
use std::io::{Read, Write};
use std::marker::Model;

/// A source over a reader, such as a file. Contracts see the reader, and how many calls have failed. A read that was interrupted is
/// a fault like any other.
#[derive(Drop)]
pub struct RealSource<R> {
    reader: R,
    faults: u64,
}

impl<R> Model for RealSource<R> {
    ghost use Rattle.blic_basic.specs.Adapters.{Counted};

    ghost Value = { Counted R };

    ghost view = { λ s. record { inner = s.reader; faults = s.faults } };
}

impl<R: Read> RealSource<R> {
    /// A source of what the reader reads. No call has failed so far.
    pub fn new(reader: R) -> RealSource<R>
        ensures { result ≡ record { inner = reader; faults = 0 } }
    {
        RealSource { reader, faults: 0 }
    }

    /// How many calls have failed. The count stops at its last value.
    pub fn faults(&self) -> u64
        ensures { result ≡ self.now.faults }
    {
        self.faults
    }
}

impl<R: Read> Source for RealSource<R> {
    ghost left = { λ _. None };

    ghost faults = { λ s. s.faults };

    fn take(&mut self, buf: &mut [u8]) -> Taken
        requires { 0 < length buf.old }
        ensures bytes { Takes None None result buf.new }
        ensures cause { TakeCounts self.old.faults self.new.faults result }
        ensures fault { result ≡ Taken.Failed → self.new.faults ≡ one_more self.old.faults }
        ensures read { HasRead (R.remaining self.old.inner) (R.remaining self.new.inner) result buf.new }
    {
        match self.reader.read(buf) {
            Ok(0) => Taken::End,
            Ok(count) => Taken::Got(count),
            Err(_) => {
                self.faults = self.faults.saturating_add(1);
                Taken::Failed
            }
        }
    }
}

/// The files of the system. Contracts see how many calls have failed, those of the sources that
/// were closed included.
#[derive(Drop)]
pub struct RealFiles<'a, R> {
    rt: &'a R,
    faults: u64,
}

impl<'a, R> Model for RealFiles<'a, R> {
    ghost use Rattle.std.specs.Prelude.{ℕ};

    ghost Value = { ℕ };

    ghost view = { λ f. f.faults };
}

impl<'a, R: std::rt::Files> RealFiles<'a, R> {
    /// The files that the runtime opens. No call has failed so far.
    pub fn new(rt: &'a R) -> RealFiles<'a, R>
        ensures { result ≡ 0 }
    {
        RealFiles { rt, faults: 0 }
    }

    /// How many calls have failed. The count stops at its last value.
    pub fn faults(&self) -> u64
        ensures { result ≡ self.now }
    {
        self.faults
    }
}

impl<'a, R: std::rt::Files> Files for RealFiles<'a, R> {
    type S = RealSource<R::File>;

    ghost files = { λ _. None };

    ghost faults = { λ faults. faults };

    fn open_file(&mut self, name: &str) -> Opened<RealSource<R::File>>
        ensures bytes { Opens (λ _. None) (λ s. s.faults) None name.now result }
        ensures cause { OpenCounts self.old self.new result }
        ensures fault { result ≡ Opened.Failed → self.new ≡ one_more self.old }
    {
        match File::open(self.rt, name) {
            Ok(file) => Opened::Source(RealSource::new(file)),
            Err(_) => {
                self.faults = self.faults.saturating_add(1);
                Opened::Failed
            }
        }
    }

    fn close_file(&mut self, source: RealSource<R::File>) {
        self.faults = self.faults.saturating_add(source.faults());
    }
}

/// A sink over a writer, such as standard output. Each call writes and flushes. Contracts see the writer, and how many calls have
/// failed.
#[derive(Drop)]
pub struct StdoutSink<W> {
    writer: W,
    faults: u64,
}

impl<W> Model for StdoutSink<W> {
    ghost use Rattle.blic_basic.specs.Adapters.{Counted};

    ghost Value = { Counted W };

    ghost view = { λ s. record { inner = s.writer; faults = s.faults } };
}

impl<W: Write> StdoutSink<W> {
    /// A sink to the writer. No call has failed so far.
    pub fn new(writer: W) -> StdoutSink<W>
        ensures { result ≡ record { inner = writer; faults = 0 } }
    {
        StdoutSink { writer, faults: 0 }
    }

    /// How many calls have failed. The count stops at its last value.
    pub fn faults(&self) -> u64
        ensures { result ≡ self.now.faults }
    {
        self.faults
    }
}

impl<W: Write> StdoutSink<W> {
    /// The writer.
    pub fn into_writer(self) -> W
        ensures { result ≡ self.inner }
    {
        self.writer
    }
}

impl<W: Write> Sink for StdoutSink<W> {
    ghost held = { λ _. None };

    ghost faults = { λ s. s.faults };

    /// Writes the piece, or a prefix of it, and flushes. It fails if either fails, and if no byte was
    /// written. After a flush that failed, some of the bytes may have been written.
    fn give(&mut self, piece: &[u8]) -> Given
        requires { 0 < length piece.now }
        ensures bytes { Gives None None result piece.now }
        ensures cause { GiveCounts self.old.faults self.new.faults result }
        ensures fault { result ≡ Given.Failed → self.new.faults ≡ one_more self.old.faults }
        ensures written { HasWritten (W.contents self.old.inner) (W.contents self.new.inner) result piece.now }
    {
        match write_and_flush(&mut self.writer, piece) {
            Ok(count) if 0 < count => Given::Took(count),
            _ => {
                self.faults = self.faults.saturating_add(1);
                Given::Failed
            }
        }
    }
}

// How many bytes were written.
fn write_and_flush<W: Write>(writer: &mut W, piece: &[u8]) -> io::Result<usize>
    ensures bound { IfOk result (λ count. count ≤ length piece.now) }
    ensures written { HasFlushed (W.contents writer.old) (W.contents writer.new) result piece.now }
{
    let count = writer.write(piece)?;
    writer.flush()?;
    Ok(count)
}
