// A session over a link.
ghost use Rattle.std.specs.Prelude.{◌≡◌, ◌≤◌, ◌<◌, ◌++◌, ℕ, List, [], IsTrue, length, true};
ghost use Rattle.blic_link.specs.Passing.{Piece, got, with_pieces};
ghost use Rattle.blic_link.specs.Sending.{all_sent};
ghost use Rattle.blic_messages.specs.Frames.{reply_spelling};
ghost use Rattle.blic_messages.specs.FrontLaws.{AreBytes};
ghost use Rattle.blic_messages.specs.Fronts.{ask_grammar};
ghost use Rattle.blic_messages.specs.Replies.{said, polynomials_in, Refused};
ghost use Rattle.blic_inbox.specs.Listening.{Listens};
ghost use Rattle.blic_prover.specs.Standing.{GoesOn};
ghost use Rattle.blic_server.specs.Serving.{IsServed, ServeCounts};
ghost use Rattle.blic_server.specs.UnderWay.{IsRefused, IsSent, IsTurn, RefusalCounts, TurnCounts};

use crate::line::{Buffers, Line};
use crate::served::{Ended, Served};
use blic_basic::Steps;
use blic_claims::Answers;
use blic_inbox::{Heard, listen};
use blic_link::{Link, LinkFault, send_all};
use blic_messages::{Hello, Refusal, Reply, encode_reply};
use blic_prover::{Prover, Step};
use std::marker::Brand;
use std::sync::ledger::{Blank, Ledger};

/// Serves one session over the link: answers its asks in their order by the honest prover's replies, from
/// the first on, until the client says Bye, the link ends or fails, or an ask has no reply, which a
/// refusal says. It answers all asks that have come before it takes more bytes, and looks at none behind
/// the end. Whatever the prover and the line were used for before, it begins anew. It takes no memory, and
/// waits as long as the link does.
pub fn serve_link<A: Answers, K: Link>(
    prover: &mut Prover<'_>,
    answers: &mut A,
    line: &mut Line,
    link: &mut K,
) -> Served
    requires answers { A.circuit answers.old ≡ prover.old.circuit }
    requires usable { K.is_usable link.old ≡ true }
    ensures circuit { prover.new.circuit ≡ prover.old.circuit }
    ensures served { prover.new.served ≡ prover.old.served }
    ensures answers { A.circuit answers.new ≡ A.circuit answers.old }
    ensures usable { K.is_usable link.new ≡ true }
    ensures session { (pieces : List Piece) × (K.pieces link.new ≡ with_pieces (K.pieces link.old) pieces)
        × IsServed prover.old.circuit prover.old.served pieces (K.coming link.new) result }
    ensures cause { ServeCounts (K.faults link.old) (K.faults link.new) result.ended }
{
    serve::<A, K, Brand>(prover, answers, &mut line.buffers, link, Blank::new(1))
}

// The same, with a count of products for contracts alone.
fn serve<A: Answers, K: Link, L: Ledger>(
    prover: &mut Prover<'_>,
    answers: &mut A,
    buffers: &mut Buffers,
    link: &mut K,
    blank: Blank,
) -> Served
    requires name { blank.name ≡ L.name }
    requires parts { blank.parts ≡ L.parts }
    requires some { 0 < L.parts }
    requires answers { A.circuit answers.old ≡ prover.old.circuit }
    requires usable { K.is_usable link.old ≡ true }
    requires room { 1572869 ≤ length buffers.old.frame.items }
    ensures room { 1572869 ≤ length buffers.new.frame.items }
    ensures circuit { prover.new.circuit ≡ prover.old.circuit }
    ensures served { prover.new.served ≡ prover.old.served }
    ensures answers { A.circuit answers.new ≡ A.circuit answers.old }
    ensures usable { K.is_usable link.new ≡ true }
    ensures session { (pieces : List Piece) × (K.pieces link.new ≡ with_pieces (K.pieces link.old) pieces)
        × IsServed prover.old.circuit prover.old.served pieces (K.coming link.new) result }
    ensures cause { ServeCounts (K.faults link.old) (K.faults link.new) result.ended }
{
    let mut steps = Steps::<L>::new(blank);
    prover.reset();
    buffers.inbox.clear();
    let replies = prover.replies();
    let mut asks: u64 = 0;
    for _ in 0..=replies {
        match turn(prover, answers, buffers, link, &mut steps) {
            None => asks += 1,
            Some(ended) => return Served { asks, ended },
        }
    }
    // Not reached: there are no more replies.
    Served {
        asks,
        ended: Ended::Gone,
    }
}

// Waits for an ask, and answers it. None if the reply was sent whole, else how the session ended.
fn turn<A: Answers, K: Link, L: Ledger>(
    prover: &mut Prover<'_>,
    answers: &mut A,
    buffers: &mut Buffers,
    link: &mut K,
    steps: &mut Steps<L>,
) -> Option<Ended>
    requires answers { A.circuit answers.old ≡ prover.old.circuit }
    requires goes_on { GoesOn (A.goes_on answers.old) prover.old }
    requires usable { K.is_usable link.old ≡ true }
    requires room { 1572869 ≤ length buffers.old.frame.items }
    ensures room { length buffers.new.frame.items ≡ length buffers.old.frame.items }
    ensures circuit { prover.new.circuit ≡ prover.old.circuit }
    ensures served { prover.new.served ≡ prover.old.served }
    ensures answers { A.circuit answers.new ≡ A.circuit answers.old }
    ensures goes_on { GoesOn (A.goes_on answers.new) prover.new }
    ensures usable { K.is_usable link.new ≡ true }
    ensures turn { (heard : List Piece) × (went : List Piece) × (K.pieces link.new ≡ with_pieces (K.pieces link.old) (heard ++ went))
        × Listens ask_grammar buffers.old.inbox heard × IsTrue (all_sent went)
        × IsTurn prover.old prover.new (buffers.old.inbox ++ got heard) buffers.new.inbox (K.coming link.new) went result }
    ensures cause { TurnCounts (K.faults link.old) (K.faults link.new) result }
{
    buffers.decoder.reset();
    match listen(&mut buffers.decoder, &mut buffers.inbox, link) {
        Heard::Frame => {}
        Heard::End if buffers.decoder.inside() => return Some(Ended::Cut),
        Heard::End => return Some(Ended::Closed),
        Heard::Failed => return Some(Ended::Gone),
    }
    let frame = &mut buffers.frame;
    let Some(ask) = buffers.decoder.ask() else {
        return Some(refuse(Refusal::Broken, Ended::Broken, frame, link));
    };
    match prover.step(answers, &ask, steps) {
        Step::Reply(given) => send(&prover.shown(given), frame, link),
        Step::OutOfTurn => Some(refuse(Refusal::OutOfTurn, Ended::OutOfTurn, frame, link)),
        Step::NothingLeft => Some(refuse(Refusal::NothingLeft, Ended::NothingLeft, frame, link)),
        Step::NotServed { served, asked } => Some(refuse(
            Refusal::NotServed(served),
            Ended::NotServed { served, asked },
            frame,
            link,
        )),
        Step::Ended => Some(Ended::Closed),
    }
}

// Sends a reply. None if it was sent whole, else how the session ended.
fn send<K: Link>(reply: &Reply<'_>, frame: &mut Vec<u8>, link: &mut K) -> Option<Ended>
    requires few { polynomials_in (said reply.now) ≤ 65536 }
    requires room { 1572869 ≤ length frame.old.items }
    requires usable { K.is_usable link.old ≡ true }
    ensures room { length frame.new.items ≡ length frame.old.items }
    ensures usable { K.is_usable link.new ≡ true }
    ensures coming { K.coming link.new ≡ K.coming link.old }
    ensures sent { (pieces : List Piece) × (K.pieces link.new ≡ with_pieces (K.pieces link.old) pieces) × IsTrue (all_sent pieces)
        × IsSent (reply_spelling (said reply.now)) pieces result }
    ensures cause { TurnCounts (K.faults link.old) (K.faults link.new) result }
{
    reply_room(reply);
    let len = encode_reply(reply, frame);
    match send_all(link, &frame[..len]) {
        Ok(()) => None,
        Err(LinkFault) => Some(Ended::Gone),
    }
}

// There is room for each reply.
fn reply_room(reply: &Reply<'_>)
    requires { polynomials_in (said reply.now) ≤ 65536 }
    ensures { length (reply_spelling (said reply.now)) ≤ 1572869 }
{
    match reply {
        Reply::Answer(_) | Reply::Values(..) => {}
        Reply::Polys(_) => {}
        Reply::Refused(refusal) => refusal_room(refusal),
    }
}

fn refusal_room(refusal: &Refusal)
    ensures { length (reply_spelling (Refused refusal.now)) ≤ 44 }
{
    if let Refusal::NotServed(hello) = refusal {
        let _ = digest_len(hello);
    }
}

fn digest_len(hello: &Hello) -> usize
    ensures length { result ≡ length hello.now.digest }
    ensures number { result ≡ 32 }
{
    let digest = hello.digest;
    digest.len()
}

// Says why an ask has no reply. Answers how the session ended.
fn refuse<K: Link>(refusal: Refusal, ended: Ended, frame: &mut Vec<u8>, link: &mut K) -> Ended
    requires room { 1572869 ≤ length frame.old.items }
    requires usable { K.is_usable link.old ≡ true }
    ensures room { length frame.new.items ≡ length frame.old.items }
    ensures usable { K.is_usable link.new ≡ true }
    ensures coming { K.coming link.new ≡ K.coming link.old }
    ensures sent { (pieces : List Piece) × (K.pieces link.new ≡ with_pieces (K.pieces link.old) pieces) × IsTrue (all_sent pieces)
        × IsRefused (reply_spelling (Refused refusal)) pieces ended result }
    ensures cause { RefusalCounts (K.faults link.old) (K.faults link.new) ended result }
{
    match send(&Reply::Refused(refusal), frame, link) {
        None => ended,
        Some(gone) => gone,
    }
}
