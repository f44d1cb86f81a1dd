// The lines of a conversation's frames.
ghost use Rattle.std.specs.Prelude.{◌≡◌, ◌∷◌, [], cond};
ghost use Rattle.blic_print.specs.Printing.{Prints, PrintCounts, talk_text};
ghost use Rattle.blic_talk.specs.Talking.{turn_text};

use blic_basic::Sink;
use blic_print::{WriteFault, print_frame};
use blic_verifier::{Ending, Following};

/// Prints the lines of an ask and of its reply, by what followed: a reply that is no frame has none.
pub(crate) fn print_turn<O: Sink>(
    out: &mut O,
    asked: &[u8],
    came: &[u8],
    following: &Following,
) -> Result<(), WriteFault>
    ensures bytes { Prints (O.held out.old) (O.held out.new) result (turn_text following.now asked.now came.now) }
    ensures cause { PrintCounts (O.faults out.old) (O.faults out.new) result }
{
    match following {
        Following::Ends(Ending::NotFrame) => print_frame(out, asked),
        _ => print_frames(out, asked, came),
    }
}

// Prints the lines of two frames.
fn print_frames<O: Sink>(out: &mut O, asked: &[u8], came: &[u8]) -> Result<(), WriteFault>
    ensures bytes { Prints (O.held out.old) (O.held out.new) result (talk_text (asked.now ∷ came.now ∷ [])) }
    ensures cause { PrintCounts (O.faults out.old) (O.faults out.new) result }
{
    match print_frame(out, asked) {
        Ok(()) => print_frame(out, came),
        Err(fault) => Err(fault),
    }
}
