// How a session ends.
use blic_messages::Hello;

/// How a session ended.
#[derive(Clone, Copy, Debug, PartialEq, Eq, Drop)]
pub enum Ended {
    /// The client said Bye, or the link ended between two frames.
    Closed,
    /// The bytes were no frame.
    Broken,
    /// The link ended inside a frame.
    Cut,
    /// An ask didn't stand there.
    OutOfTurn,
    /// An ask came after the last reply of a conversation.
    NothingLeft,
    /// Something else was asked for than is served.
    NotServed { served: Hello, asked: Hello },
    /// A call on the link failed.
    Gone,
}

/// What came of a session: how many asks were answered whose replies were sent whole, and how it ended.
#[derive(Clone, Copy, Debug, PartialEq, Eq, Drop)]
pub struct Served {
    pub asks: u64,
    pub ended: Ended,
}
