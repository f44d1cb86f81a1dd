// What makes frames of bytes.
ghost use Rattle.std.specs.Prelude.{◌≡◌, ◌≤◌, ◌<◌, ◌^◌, ℕ, List, length};
ghost use Rattle.blic_messages.specs.Decoding.{Decoding, decoding_with, fed_with};
ghost use Rattle.blic_messages.specs.Grammar.{Grammar, Partial, front};
ghost use Rattle.blic_messages.specs.declared.feeding.Fed.TheVariants as feds;

use blic_messages::{AskDecoder, Fed, ReplyDecoder};

/// Takes a stream of frames in pieces of any lengths: a decoder of asks or of replies.
pub trait Decoder {
    /// What a frame says.
    ghost Frame: { Type 0 };

    /// Which bytes are frames.
    ghost grammar: { Grammar Frame };

    /// What it stands for.
    ghost decoding: { Self → Decoding Frame };

    /// The length of the longest frame in bytes.
    fn longest(&self) -> usize
        ensures enough { (bytes : List ℕ) → front grammar bytes ≡ Partial → length bytes < result }
        ensures small { result < 2 ^ 32 };

    /// Takes the next piece of the stream, up to the end of its first frame.
    fn feed(&mut self, piece: &[u8]) -> Fed
        ensures answer { result ≡ fed_with grammar (decoding self.old) piece.now }
        ensures state { decoding self.new ≡ decoding_with grammar (decoding self.old) piece.now }
        ensures taken { (n : ℕ) → result ≡ feds.Whole n → (1 ≤ n) × (n ≤ length piece.now) };
}

impl Decoder for AskDecoder {
    ghost use Rattle.blic_messages.specs.Fronts.{ask_grammar};
    ghost use Rattle.blic_messages.specs.declared.ask.Ask.{Ask};

    ghost Frame = { Ask };

    ghost grammar = { ask_grammar };

    ghost decoding = { λ d. d };

    fn longest(&self) -> usize {
        43
    }

    fn feed(&mut self, piece: &[u8]) -> Fed {
        AskDecoder::feed(self, piece)
    }
}

impl Decoder for ReplyDecoder {
    ghost use Rattle.blic_messages.specs.Fronts.{reply_grammar};
    ghost use Rattle.blic_messages.specs.Replies.{Said};

    ghost Frame = { Said };

    ghost grammar = { reply_grammar };

    ghost decoding = { λ d. d };

    fn longest(&self) -> usize {
        5 + 24 * 65_536
    }

    fn feed(&mut self, piece: &[u8]) -> Fed {
        ReplyDecoder::feed(self, piece)
    }
}
