//! What prover and verifier say to each other.
#![tactic(auto)]

mod ask;
mod ask_decoder;
mod decode;
mod encode;
mod feeding;
mod laws;
mod reply;
mod reply_decoder;

pub use ask::{Ask, Hello};
pub use ask_decoder::AskDecoder;
pub use decode::decode_reply;
pub use encode::{ask_len, encode_ask, encode_reply, reply_len};
pub use feeding::Fed;
pub use laws::{ask_front_law, frames_law, reply_front_law};
pub use reply::{Refusal, Reply};
pub use reply_decoder::ReplyDecoder;

#[cfg(test)]
mod tests;
