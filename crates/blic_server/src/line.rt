// The buffers of a connection.
ghost use Rattle.std.specs.Prelude.{◌≡◌, ◌≤◌, IfOk, length};

use blic_basic::NoMem;
use blic_inbox::Inbox;
use blic_messages::AskDecoder;
use std::alloc::Global;
use std::marker::Model;

/// The length of the longest reply's frame.
const LONGEST_REPLY: usize = 5 + 24 * 65_536;

/// The buffers of one connection at a time: for bytes that came, and for the frame of a reply. They take
/// 1.7 MB. Contracts see nothing of them.
#[derive(Drop)]
pub struct Line {
    pub(crate) buffers: Buffers,
}

/// What a line is made of.
#[derive(Drop)]
pub(crate) struct Buffers {
    pub(crate) decoder: AskDecoder,
    pub(crate) inbox: Inbox,
    pub(crate) frame: Vec<u8>,
}

impl Model for Line {
    ghost use Rattle.std.specs.Prelude.{◌≤◌, length};

    ghost Value = { Unit {0} };

    ghost view = { λ l. tt };

    ghost invariant = { λ l. 1572869 ≤ length l.buffers.frame.items };
}

impl Line {
    /// Empty buffers. No other call takes memory.
    pub fn new(alloc: Global) -> Result<Line, NoMem> {
        Ok(Line {
            buffers: Buffers {
                decoder: AskDecoder::new(),
                inbox: Inbox::new(alloc)?,
                frame: vec![in alloc; 0; LONGEST_REPLY]?,
            },
        })
    }
}
