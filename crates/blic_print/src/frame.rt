// The line of a frame.
ghost use Rattle.std.specs.Prelude.{◌≡◌, ◌*◌, ◌++◌, codes, cond, length};
ghost use Rattle.hex.specs.Hex.{encode_lower};
ghost use Rattle.blic_basic.specs.Watching.{is_reply};
ghost use Rattle.blic_print.specs.Gathering.{Gathers};
ghost use Rattle.blic_print.specs.Printing.{PrintCounts, Prints, frame_line};

use crate::gathered::Gathered;
use crate::write_fault::WriteFault;
use blic_basic::Sink;

/// The kind of the first reply: an ask has a lower one.
const FIRST_REPLY: u8 = 0x81;

const CHUNK: usize = 256;

/// Appends a frame's line to the output, and takes no memory for it: `> ` for an ask or `< ` for a reply, the bytes of the frame as
/// hexadecimal digits in lower case, and the end of the line. The frame is a reply if its fifth byte, the kind, is 0x81 or more. A
/// line of at most 4,096 bytes is one write. It stops at the first fault of the output, which then holds a prefix of the line; no
/// other error comes.
pub fn print_frame<O: Sink>(out: &mut O, frame: &[u8]) -> Result<(), WriteFault>
    ensures bytes { Prints (O.held out.old) (O.held out.new) result (frame_line frame.now) }
    ensures cause { PrintCounts (O.faults out.old) (O.faults out.new) result }
{
    let mut gathered = Gathered::new();
    match put_line(&mut gathered, out, frame) {
        Ok(()) => gathered.write(out),
        Err(fault) => Err(fault),
    }
}

// Puts a frame's line behind what waits.
fn put_line<O: Sink>(gathered: &mut Gathered, out: &mut O, frame: &[u8]) -> Result<(), WriteFault>
    ensures bytes { Gathers (O.held out.old) (O.held out.new) result (gathered.old ++ frame_line frame.now) gathered.new }
    ensures cause { PrintCounts (O.faults out.old) (O.faults out.new) result }
{
    match gathered.put(out, mark_of(frame)) {
        Ok(()) => {}
        Err(fault) => return Err(fault),
    }
    match put_digits(gathered, out, frame) {
        Ok(()) => gathered.put(out, b"\n"),
        Err(fault) => Err(fault),
    }
}

// Puts the digits of the bytes behind what waits.
pub(crate) fn put_digits<O: Sink>(
    gathered: &mut Gathered,
    out: &mut O,
    bytes: &[u8],
) -> Result<(), WriteFault>
    ensures bytes { Gathers (O.held out.old) (O.held out.new) result (gathered.old ++ encode_lower bytes.now) gathered.new }
    ensures cause { PrintCounts (O.faults out.old) (O.faults out.new) result }
{
    let mut digits = [0; 2 * CHUNK];
    let mut done = 0;
    'chunks: while done < bytes.len() {
        let end = done + CHUNK.min(bytes.len() - done);
        let text = &mut digits[..2 * (end - done)];
        encode(&bytes[done..end], &mut *text);
        match gathered.put(out, &*text) {
            Ok(()) => done = end,
            Err(fault) => return Err(fault),
        }
    }
    Ok(())
}

// The mark for an ask or a reply.
fn mark_of(frame: &[u8]) -> &'static [u8]
    ensures { result.now ≡ cond (is_reply frame.now) (codes "< ") (codes "> ") }
{
    if frame.len() > 4 && frame[4] >= FIRST_REPLY {
        b"< "
    } else {
        b"> "
    }
}

// The bytes in hexadecimal.
fn encode(bytes: &[u8], digits: &mut [u8])
    requires { length digits.old ≡ 2 * length bytes.now }
    ensures { digits.new ≡ encode_lower bytes.now }
{
    // The length fits, so this can't fail.
    let _ = hex::encode_to_slice(bytes, digits);
}
