// Waiting for a frame.
ghost use Rattle.std.specs.Prelude.{◌≡◌, ◌++◌, [], true, List};
ghost use Rattle.blic_link.specs.Passing.{Piece, got, with_pieces};
ghost use Rattle.blic_messages.specs.Decoding.{Inside};
ghost use Rattle.blic_messages.specs.FrontLaws.{AreBytes};
ghost use Rattle.blic_inbox.specs.Listening.{HasHeard, HeardCounts, Listens};

use crate::decoder::Decoder;
use crate::inbox::Inbox;
use blic_link::{Link, Received};
use blic_messages::Fed;

/// What came of waiting for a frame.
#[derive(Clone, Copy, Debug, PartialEq, Eq)]
pub enum Heard {
    /// A whole frame, or bytes that are none.
    Frame,
    /// Nothing more is coming, and the frame isn't whole.
    End,
    /// The link failed before the frame was whole.
    Failed,
}

/// Takes bytes from the link until a frame is whole, or the stream is broken. The frame stands in the decoder, and the bytes behind it
/// in the inbox. Bytes that wait in the inbox are read before more are taken.
pub fn listen<D: Decoder, K: Link>(decoder: &mut D, inbox: &mut Inbox, link: &mut K) -> Heard
    requires usable { K.is_usable link.old ≡ true }
    requires fresh { D.decoding decoder.old ≡ Inside [] }
    ensures heard { (pieces : List Piece) × (K.pieces link.new ≡ with_pieces (K.pieces link.old) pieces) × Listens D.grammar inbox.old pieces
        × HasHeard D.grammar result (inbox.old ++ got pieces) (D.decoding decoder.new) inbox.new (K.coming link.new) × AreBytes (inbox.old ++ got pieces) }
    ensures usable { K.is_usable link.new ≡ true }
    ensures cause { HeardCounts (K.faults link.old) (K.faults link.new) result }
{
    // Each piece has a byte, and as many bytes as the longest frame has decide.
    for _ in 0..decoder.longest() + 2 {
        match decoder.feed(inbox.waiting()) {
            Fed::Whole(count) => {
                inbox.pass(count);
                return Heard::Frame;
            }
            Fed::Broken => return Heard::Frame,
            Fed::More => inbox.clear(),
        }
        match inbox.fill(link) {
            Received::Got(_) => {}
            Received::End => return Heard::End,
            Received::Failed => return Heard::Failed,
        }
    }
    // Not reached.
    Heard::Failed
}
