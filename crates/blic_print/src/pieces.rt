// Texts that are made of pieces.
ghost use Rattle.std.specs.Prelude.{◌≡◌, ◌++◌};
ghost use Rattle.blic_print.specs.Gathering.{Gathers};
ghost use Rattle.blic_print.specs.Printing.{PrintCounts, Prints, piece_text, text_of_pieces};

use crate::frame::put_digits;
use crate::gathered::Gathered;
use crate::write_fault::WriteFault;
use blic_basic::Sink;
use itoa::Buffer;

/// A piece of a text.
#[derive(Clone, Copy, Debug)]
pub enum Piece<'a> {
    /// These bytes, as they are.
    Bytes(&'a [u8]),
    /// This number, in decimal.
    Number(u64),
    /// These bytes in hexadecimal, two digits each, in lower case.
    Hex(&'a [u8]),
}

/// Appends the texts of the pieces to the output, one behind another, and takes no memory for it. A text of at most 4,096 bytes is
/// one write. It stops at the first fault of the output, which then holds a prefix of the text; no other error comes.
pub fn print_pieces<'a, O: Sink>(out: &mut O, pieces: &'a [Piece<'a>]) -> Result<(), WriteFault>
    ensures bytes { Prints (O.held out.old) (O.held out.new) result (text_of_pieces pieces.now) }
    ensures cause { PrintCounts (O.faults out.old) (O.faults out.new) result }
{
    let mut gathered = Gathered::new();
    for piece in pieces {
        match put_piece(&mut gathered, out, piece) {
            Ok(()) => {}
            Err(fault) => return Err(fault),
        }
    }
    gathered.write(out)
}

// Puts the text of a piece behind what waits.
fn put_piece<'a, O: Sink>(
    gathered: &mut Gathered,
    out: &mut O,
    piece: &'a Piece<'a>,
) -> Result<(), WriteFault>
    ensures bytes { Gathers (O.held out.old) (O.held out.new) result (gathered.old ++ piece_text piece.now) gathered.new }
    ensures cause { PrintCounts (O.faults out.old) (O.faults out.new) result }
{
    match piece {
        Piece::Bytes(bytes) => gathered.put(out, bytes),
        Piece::Number(number) => gathered.put(out, Buffer::new().format(*number).as_bytes()),
        Piece::Hex(bytes) => put_digits(gathered, out, bytes),
    }
}
