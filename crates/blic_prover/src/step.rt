// What a prover answers to an ask.
use blic_field::Fe;
use blic_messages::Hello;

/// The answer to an ask: a reply, or why there is none.
#[derive(Clone, Copy, Debug, PartialEq, Eq, Drop)]
pub enum Step {
    /// The honest reply, which `Prover::shown` shows until the next ask.
    Reply(Given),
    /// The ask is not the one that stands next.
    OutOfTurn,
    /// Every reply of the conversation was given.
    NothingLeft,
    /// What is served is not what was asked for.
    NotServed { served: Hello, asked: Hello },
    /// The session is over.
    Ended,
}

/// A reply: an answer, polynomials, which the prover keeps, or the values of a node's two operands.
#[derive(Clone, Copy, Debug, PartialEq, Eq, Drop)]
pub enum Given {
    Answer(bool),
    Polys,
    Values(Fe, Fe),
}
