// Bytes on their way to an output, in a buffer of a fixed size.
ghost use Rattle.std.specs.Prelude.{◌≡◌, ◌≤◌, ◌+◌, ◌++◌, [], length, OnOk};
ghost use Rattle.blic_print.specs.Gathering.{Gathers};
ghost use Rattle.blic_print.specs.Printing.{PrintCounts, Prints};

use crate::write_fault::WriteFault;
use blic_basic::{Sink, Wrote, write_all_counted};
use std::marker::Model;

const ROOM: usize = 4096;

/// The end of a text that was put here, of which all before is written. Contracts see the bytes that wait.
#[derive(Drop)]
pub(crate) struct Gathered {
    bytes: [u8; ROOM],
    count: usize,
}

impl Model for Gathered {
    ghost use Rattle.std.specs.Prelude.{ℕ, List, ◌≤◌, take};

    ghost Value = { List ℕ };

    ghost view = { λ g. take g.count g.bytes };

    ghost invariant = { λ g. g.count ≤ 4096 };
}

impl Gathered {
    /// Nothing waits.
    pub(crate) fn new() -> Gathered
        ensures { result ≡ [] }
    {
        Gathered {
            bytes: [0; ROOM],
            count: 0,
        }
    }

    /// Puts the bytes behind those that wait. If there is no room, those that wait are written first.
    pub(crate) fn put<O: Sink>(&mut self, out: &mut O, bytes: &[u8]) -> Result<(), WriteFault>
        ensures bytes { Gathers (O.held out.old) (O.held out.new) result (self.old ++ bytes.now) self.new }
        ensures cause { PrintCounts (O.faults out.old) (O.faults out.new) result }
    {
        if bytes.len() > ROOM - self.len() {
            match self.write(out) {
                Ok(()) => {}
                Err(fault) => return Err(fault),
            }
            if bytes.len() > ROOM {
                return write_bytes(out, bytes);
            }
        }
        self.append(bytes);
        Ok(())
    }

    /// Writes the bytes that wait.
    pub(crate) fn write<O: Sink>(&mut self, out: &mut O) -> Result<(), WriteFault>
        ensures bytes { Prints (O.held out.old) (O.held out.new) result self.old }
        ensures cause { PrintCounts (O.faults out.old) (O.faults out.new) result }
        ensures empty { OnOk result (self.new ≡ []) }
    {
        let written = write_bytes(out, &self.bytes[..self.count]);
        self.count = 0;
        written
    }

    // How many bytes wait.
    fn len(&self) -> usize
        ensures len { result ≡ length self.now }
        ensures within { result ≤ 4096 }
    {
        self.count
    }

    // Puts bytes for which there is room behind those that wait.
    fn append(&mut self, bytes: &[u8])
        requires { length self.old + length bytes.now ≤ 4096 }
        ensures { self.new ≡ self.old ++ bytes.now }
    {
        let end = self.count + bytes.len();
        self.bytes[self.count..end].copy_from_slice(bytes);
        self.count = end;
    }
}

// Writes the bytes at once.
fn write_bytes<O: Sink>(out: &mut O, bytes: &[u8]) -> Result<(), WriteFault>
    ensures bytes { Prints (O.held out.old) (O.held out.new) result bytes.now }
    ensures cause { PrintCounts (O.faults out.old) (O.faults out.new) result }
{
    match write_all_counted(out, bytes) {
        Wrote::All => Ok(()),
        Wrote::Failed(_) => Err(WriteFault),
    }
}
