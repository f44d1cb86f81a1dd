// What a prover or a server replies.
use crate::ask::Hello;
use blic_field::Fe;
use blic_poly2::Poly2;

/// Why a server goes on no further.
#[derive(Clone, Copy, Debug, PartialEq, Eq, Drop)]
pub enum Refusal {
    /// The ask doesn't stand there.
    OutOfTurn,
    /// Every reply of the conversation was given.
    NothingLeft,
    /// Something else is served, which this says.
    NotServed(Hello),
    /// The bytes are no frame.
    Broken,
}

/// A reply, seen by contracts as its kind with its numbers.
#[derive(Clone, Copy, Drop)]
pub enum Reply<'a> {
    /// The formula's truth, as the prover claims it.
    Answer(bool),
    /// A polynomial for each claim on the node, in the claims' order.
    Polys(&'a [Poly2]),
    /// The values of a binary node's two operands.
    Values(Fe, Fe),
    Refused(Refusal),
}
