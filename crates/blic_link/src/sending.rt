// Sending whole frames.
ghost use Rattle.std.specs.Prelude.{◌≡◌, true, ℕ, List, [], length};
ghost use Rattle.blic_link.specs.Passing.{Piece, with_pieces};
ghost use Rattle.blic_link.specs.Sending.{IsSending, SendAllCounts};

use crate::link::{Link, Sent};
use thiserror::Error;

/// A call on the link failed, and its count rose.
#[derive(Clone, Copy, Debug, PartialEq, Eq, Error)]
#[error("a call on the link failed")]
pub struct LinkFault;

/// Sends all of the bytes, in as many pieces as the link wants. It stops at the first fault; then a
/// prefix of the bytes was sent.
pub fn send_all<K: Link>(link: &mut K, bytes: &[u8]) -> Result<(), LinkFault>
    requires usable { K.is_usable link.old ≡ true }
    ensures pieces { (pieces : List Piece) × (K.pieces link.new ≡ with_pieces (K.pieces link.old) pieces) × IsSending result pieces bytes.now }
    ensures coming { K.coming link.new ≡ K.coming link.old }
    ensures usable { K.is_usable link.new ≡ true }
    ensures cause { SendAllCounts (K.faults link.old) (K.faults link.new) result }
{
    let mut done = 0;
    while done < bytes.len() {
        match link.send(&bytes[done..]) {
            Sent::Took(n) => done += n,
            Sent::Failed => return Err(LinkFault),
        }
    }
    Ok(())
}
