// How a conversation over a link ends.
use blic_verifier::Ending;

/// How a conversation over a link ended.
#[derive(Clone, Copy, Debug, PartialEq, Eq)]
pub enum Verdict {
    /// The bytes that came decided it.
    Ended(Ending),
    /// The link ended while a reply was awaited.
    Cut,
    /// A call on the link failed while a reply was awaited, or while an ask was sent.
    LinkFault,
    /// A line could not be printed.
    WriteFault,
}
