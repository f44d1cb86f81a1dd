// What a verifier asks.
use blic_field::Fe;

/// What a conversation is about: the wire's version, the circuit's version, the number of the
/// order, and the digest that names the formula.
#[derive(Clone, Copy, Debug, PartialEq, Eq, Drop)]
pub struct Hello {
    pub wire: u16,
    pub circuit: u16,
    pub order: u16,
    pub digest: [u8; 32],
}

/// An ask of the verifier. Each but `Bye` has one reply.
#[derive(Clone, Copy, Debug, PartialEq, Eq, Drop)]
pub enum Ask {
    /// Asks for the answer.
    Hello(Hello),
    /// Asks for the first reply about the next binary node.
    Go,
    /// Tells the draw for the polynomials just got, and asks for the node's next reply.
    Draw(Fe),
    /// Ends the conversation.
    Bye,
}
