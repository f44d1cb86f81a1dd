// Frames of asks and of replies, and what a watch leaves of them.
ghost use Rattle.std.specs.Prelude.{◌≡◌, ◌≤◌, ◌+◌, ◌<◌, ◌∷◌, ◌++◌, [], ℕ, List, Option, None, length, take, option_map, slice_index};
ghost use Rattle.blic_basic.specs.Watching.{Adds};
ghost use Rattle.blic_messages.specs.Frames.{ask_spelling, reply_spelling};
ghost use Rattle.blic_messages.specs.Reading.{Reads};
ghost use Rattle.blic_messages.specs.Replies.{Said, said};
ghost use Rattle.blic_messages.specs.declared.ask.Ask.{Ask as AskOf};
ghost use Rattle.blic_messages.specs.declared.ask.Hello.{Hello as HelloOf};
ghost use Rattle.blic_prover.specs.Standing.{GoesOn, ServesFor};
ghost use Rattle.blic_verifier.specs.Asking.{IsSaidAt};
ghost use Rattle.blic_verifier.specs.Asking.{IsAt as AskerIsAt};
ghost use Rattle.blic_verifier.specs.Conversation.{Position, honest_reply};
ghost use Rattle.blic_verifier.specs.Verdict.{Talk};
ghost use Rattle.blic_talk.specs.Talking.{HasFrameRoom, IsAsked, position_by};
ghost use Rattle.blic_talk.specs.Wire.{IsCarried};

use blic_basic::{Steps, Watch};
use blic_claims::{Answers, claims_law};
use blic_messages::{Ask, Hello, Reply, decode_reply, encode_ask, encode_reply};
use blic_model::Circuit;
use blic_poly2::Poly2;
use blic_prover::{Prover, Step};
use blic_verifier::{Asker, Following, honest_reply_law};
use std::sync::ledger::Ledger;

/// The length of the longest ask's frame.
pub(crate) const LONGEST_ASK: usize = 43;

/// The greatest number of polynomials in a reply.
pub(crate) const MOST_POLYS: usize = 65_536;

/// The length of the longest reply's frame.
const LONGEST_REPLY: usize = 5 + 24 * MOST_POLYS;

/// Shows an ask's frame to the watch. It stands at the start of the buffer, and its length is answered.
pub(crate) fn show_ask<W: Watch>(ask: &Ask, frame: &mut [u8], watch: &mut W) -> usize
    requires { 43 ≤ length frame.old }
    ensures length { result ≤ length frame.new }
    ensures written { take result frame.new ≡ ask_spelling ask.now }
    ensures alters { W.alters watch.new ≡ W.alters watch.old }
    ensures list { Adds (W.frames watch.old) (W.frames watch.new) (ask_spelling ask.now) }
{
    ask_frame_law(ask);
    let len = encode_ask(ask, frame);
    show(frame, len, watch);
    len
}

/// Shows the frame at the start of the buffer to the watch, which leaves it there.
pub(crate) fn show<W: Watch>(frame: &mut [u8], len: usize, watch: &mut W)
    requires { (5 ≤ len) × (len ≤ length frame.old) }
    ensures length { length frame.new ≡ length frame.old }
    ensures asks { slice_index frame.old 4 < 129 → take len frame.new ≡ take len frame.old }
    ensures carried { IsCarried (W.alters watch.old) (take len frame.old) (take len frame.new) }
    ensures alters { W.alters watch.new ≡ W.alters watch.old }
    ensures list { Adds (W.frames watch.old) (W.frames watch.new) (take len frame.new) }
{
    watch.saw(&mut frame[..len]);
}

// The length and the kind of an ask's frame.
fn ask_frame_law(ask: &Ask)
    ensures { (5 ≤ length (ask_spelling ask.now)) × (length (ask_spelling ask.now) ≤ 43) × (slice_index (ask_spelling ask.now) 4 < 129) }
{
    if let Ask::Hello(hello) = ask {
        let _ = digest_len(hello);
    }
}

fn digest_len(hello: &Hello) -> usize
    ensures length { result ≡ length hello.now.digest }
    ensures number { result ≡ 32 }
{
    let digest = hello.digest;
    digest.len()
}

/// Puts the frame of the prover's reply at the start of the buffer. Answers its length.
pub(crate) fn reply<A: Answers, L: Ledger>(
    prover: &mut Prover<'_>,
    circuit: &Circuit,
    answers: &mut A,
    ask: &Ask,
    frame: &mut [u8],
    steps: &mut Steps<L>,
) -> usize
    requires circuit { prover.old.circuit ≡ circuit.now }
    requires answers { A.circuit answers.old ≡ circuit.now }
    requires room { (polys : ℕ) × HasFrameRoom circuit.now (length frame.old) polys }
    requires asked { (asks : List AskOf) × (t : Talk) × (n : ℕ) × IsAsked prover.old asks ask.now t n }
    requires goes_on { GoesOn (A.goes_on answers.old) prover.old }
    ensures circuit { prover.new.circuit ≡ prover.old.circuit }
    ensures served { prover.new.served ≡ prover.old.served }
    ensures answers { A.circuit answers.new ≡ A.circuit answers.old }
    ensures goes_on { GoesOn (A.goes_on answers.new) prover.new }
    ensures stands { (asks : List AskOf) → ServesFor prover.old asks → ServesFor prover.new (asks ++ ask.now ∷ []) }
    ensures room { length frame.new ≡ length frame.old }
    ensures length { (5 ≤ result) × (result + 15 ≤ length frame.new) }
    ensures written { (asks : List AskOf) (t : Talk) (n : ℕ) → IsAsked prover.old asks ask.now t n
        → (hello : HelloOf) → take result frame.new ≡ reply_spelling (honest_reply (record { circuit = circuit.now; hello = hello }) t) }
{
    circuit.is_within_limits();
    claims_law();
    honest_reply_law();
    match prover.step(answers, ask, steps) {
        Step::Reply(given) => encode_reply(&prover.shown(given), frame),
        // The ask is the one that stands next.
        _ => 0,
    }
}

/// Has the asker hear what a frame of any length says, whose polynomials go to the beginning of `polys`.
pub(crate) fn hear_frame<L: Ledger>(
    asker: &mut Asker<'_>,
    frame: &[u8],
    polys: &mut [Poly2],
    steps: &mut Steps<L>,
) -> Following
    requires room { 65536 ≤ length polys.old }
    ensures room { length polys.new ≡ length polys.old }
    ensures about { asker.new.about ≡ asker.old.about }
    ensures source { asker.new.draws.source ≡ asker.old.draws.source }
    ensures follows { asker.old.ended ≡ None → (says : Option Said) × Reads frame.now says
        × ((p : Position) → AskerIsAt asker.old p → AskerIsAt asker.new (position_by asker.old p says) × IsSaidAt result (position_by asker.old p says)) }
{
    let reading = read(frame, polys);
    asker.hear(reading.as_ref(), steps)
}

// The reply that a frame of any length says.
fn read<'a>(frame: &[u8], polys: &'a mut [Poly2]) -> Option<Reply<'a>>
    requires { 65536 ≤ length polys.old }
    ensures { Reads frame.now (option_map said result) }
{
    if frame.len() > LONGEST_REPLY {
        return None;
    }
    decode_reply(frame, polys)
}
