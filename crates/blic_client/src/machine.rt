// The parts of a client, and how they lead a conversation.
ghost use Rattle.std.specs.Prelude.{◌≡◌, ◌≤◌, ◌^◌, ◌++◌, ℕ, List, [], length, IfOk, IfSome, IsTrue, None, option_map, true};
ghost use Rattle.blic_claims.specs.Places.{layout_of};
ghost use Rattle.blic_draw.specs.DrawRun.{draw_from};
ghost use Rattle.blic_inbox.specs.Listening.{Listens};
ghost use Rattle.blic_link.specs.Passing.{Piece, got, sent_bytes, with_pieces};
ghost use Rattle.blic_link.specs.Sending.{all_sent};
ghost use Rattle.blic_messages.specs.Frames.{ask_spelling};
ghost use Rattle.blic_messages.specs.FrontLaws.{AreBytes};
ghost use Rattle.blic_messages.specs.Fronts.{reply_grammar};
ghost use Rattle.blic_messages.specs.Reading.{IsReply};
ghost use Rattle.blic_messages.specs.Replies.{said};
ghost use Rattle.blic_messages.specs.declared.ask.Ask.TheVariants.{Hello as AskHello};
ghost use Rattle.blic_verifier.specs.Asking.{IsAt};
ghost use Rattle.blic_verifier.specs.Conversation.{beginning};
ghost use Rattle.blic_verifier.specs.Hearing.{record_frames};
ghost use Rattle.blic_client.specs.Linked.{IsHeld, IsRecorded, LinkCounts, WriteCounts};
ghost use Rattle.blic_client.specs.UnderWay.{AreFitted, IsHearing, IsParting, IsPrinted, IsSaying, LinkRises, WriteRises, linking, reply_line};

use crate::verdict::Verdict;
use blic_basic::{NoMem, Sink, Steps};
use blic_claims::Layout;
use blic_inbox::{Heard, Inbox, listen};
use blic_link::{Link, LinkFault, send_all};
use blic_messages::{Ask, Hello, Reply, ReplyDecoder, encode_ask, encode_reply};
use blic_model::Circuit;
use blic_print::{WriteFault, print_frame};
use blic_verifier::{Asker, Ending, Following};
use std::alloc::Global;
use std::sync::ledger::Ledger;

/// The length of the longest ask's frame.
const LONGEST_ASK: usize = 43;

/// The length of the longest reply's frame.
const LONGEST_REPLY: usize = 5 + 24 * 65_536;

/// What a client is made of, with all the memory that its conversations take.
#[derive(Drop)]
pub(crate) struct Machine<'c> {
    pub(crate) circuit: &'c Circuit,
    pub(crate) turns: u64,
    pub(crate) asker: Asker<'c>,
    pub(crate) decoder: ReplyDecoder,
    pub(crate) inbox: Inbox,
    // Room for the frame of a reply whose line is printed.
    pub(crate) frame: Vec<u8>,
    pub(crate) talk: bool,
}

impl<'c> Machine<'c> {
    /// That of the circuit, which `hello` names. With `talk` a line is printed for each frame. No other call takes memory.
    pub(crate) fn new(
        alloc: Global,
        circuit: &'c Circuit,
        layout: &'c Layout,
        hello: Hello,
        talk: bool,
    ) -> Result<Machine<'c>, NoMem>
        requires { layout.now ≡ layout_of circuit.now }
        ensures fitted { IfOk result (λ m. AreFitted m) }
        ensures about { IfOk result (λ m. linking m ≡ record { about = record { circuit = circuit.now; hello = hello }; talk = talk }) }
    {
        let room = if talk { LONGEST_REPLY } else { 0 };
        Ok(Machine {
            circuit,
            turns: layout.replies(),
            asker: Asker::new(alloc, circuit, layout, hello)?,
            decoder: ReplyDecoder::new(alloc)?,
            inbox: Inbox::new(alloc)?,
            frame: vec![in alloc; 0; room]?,
            talk,
        })
    }

    /// Begins a conversation with the draws of the seed from draw `first` on. Answers its first ask.
    pub(crate) fn begin(&mut self, seed: [u8; 32], first: u64) -> Ask
        requires fitted { AreFitted self.old }
        requires first { first ≤ 2 ^ 61 }
        ensures fitted { AreFitted self.new }
        ensures same { linking self.new ≡ linking self.old }
        ensures source { self.new.asker.draws.source ≡ record { seed = seed; first = first } }
        ensures ask { result ≡ AskHello self.old.asker.about.hello }
        ensures at { IsAt self.new.asker (beginning self.old.asker.about) }
        ensures empty { self.new.inbox ≡ [] }
    {
        self.inbox.clear();
        self.asker.begin(seed, first)
    }

    /// Leads the conversation from its first ask on.
    pub(crate) fn run<K: Link, O: Sink, L: Ledger>(
        &mut self,
        hello: &Ask,
        link: &mut K,
        out: &mut O,
        steps: &mut Steps<L>,
    ) -> Verdict
        requires fitted { AreFitted self.old }
        requires usable { K.is_usable link.old ≡ true }
        requires hello { hello.now ≡ AskHello self.old.asker.about.hello }
        requires at { IsAt self.old.asker (beginning self.old.asker.about) }
        requires empty { self.old.inbox ≡ [] }
        ensures fitted { AreFitted self.new }
        ensures same { linking self.new ≡ linking self.old }
        ensures usable { K.is_usable link.new ≡ true }
        ensures held { (pieces : List Piece) × (K.pieces link.new ≡ with_pieces (K.pieces link.old) pieces)
            × IsHeld (linking self.old) (draw_from self.old.asker.draws.source) pieces (K.coming link.new) (K.faults link.old) (K.faults link.new) result
            × IsRecorded (linking self.old) (record_frames self.old.asker.about (draw_from self.old.asker.draws.source) (got pieces) (sent_bytes pieces)) (O.held out.old) (O.held out.new) result }
        ensures link_cause { LinkCounts (K.faults link.old) (K.faults link.new) result }
        ensures write_cause { WriteCounts (O.faults out.old) (O.faults out.new) result }
    {
        self.circuit.is_within_limits();
        let mut ask = *hello;
        for _ in 0..=self.turns {
            match say(&ask, self.talk, link, out) {
                Ok(()) => {}
                Err(verdict) => return verdict,
            }
            match self.hear(link, out, steps) {
                Ok(Following::Asks(next)) => ask = next,
                Ok(Following::Ends(ending)) => return part(ending, self.talk, link, out),
                Err(verdict) => return verdict,
            }
        }
        // Not reached: there are no more turns.
        Verdict::LinkFault
    }

    // Waits for the reply to an ask, prints its line if it is to be, and judges it.
    fn hear<K: Link, O: Sink, L: Ledger>(
        &mut self,
        link: &mut K,
        out: &mut O,
        steps: &mut Steps<L>,
    ) -> Result<Following, Verdict>
        requires fitted { AreFitted self.old }
        requires usable { K.is_usable link.old ≡ true }
        requires open { self.old.asker.ended ≡ None }
        ensures fitted { AreFitted self.new }
        ensures same { linking self.new ≡ linking self.old }
        ensures source { self.new.asker.draws.source ≡ self.old.asker.draws.source }
        ensures usable { K.is_usable link.new ≡ true }
        ensures heard { (pieces : List Piece) × (K.pieces link.new ≡ with_pieces (K.pieces link.old) pieces) × Listens reply_grammar self.old.inbox pieces
            × AreBytes (self.old.inbox ++ got pieces)
            × IsHearing self.old self.new (self.old.inbox ++ got pieces) (K.coming link.new) (O.held out.old) (O.held out.new) result }
        ensures link_cause { LinkRises (K.faults link.old) (K.faults link.new) result }
        ensures write_cause { WriteRises (O.faults out.old) (O.faults out.new) result }
    {
        self.decoder.reset();
        match listen(&mut self.decoder, &mut self.inbox, link) {
            Heard::Frame => {}
            Heard::End => return Err(Verdict::Cut),
            Heard::Failed => return Err(Verdict::LinkFault),
        }
        let reading = self.decoder.reply();
        match print_reply(reading.as_ref(), self.talk, &mut self.frame, out) {
            Ok(()) => Ok(self.asker.hear(reading.as_ref(), steps)),
            Err(verdict) => Err(verdict),
        }
    }
}

// Prints the line of a reply, if there is one and it is to be printed.
fn print_reply<O: Sink>(
    reading: Option<&Reply<'_>>,
    talk: bool,
    frame: &mut Vec<u8>,
    out: &mut O,
) -> Result<(), Verdict>
    requires reply { IfSome (option_map (λ r. said r.now) reading) IsReply }
    requires room { talk ≡ true → 1572869 ≤ length frame.old.items }
    ensures room { length frame.new.items ≡ length frame.old.items }
    ensures lines { IsPrinted talk (reply_line (option_map (λ r. said r.now) reading.entry)) result (O.held out.old) (O.held out.new) }
    ensures cause { WriteRises (O.faults out.old) (O.faults out.new) result }
{
    let Some(reply) = reading else {
        return Ok(());
    };
    if !talk {
        return Ok(());
    }
    let len = encode_reply(reply, frame);
    match print_frame(out, &frame[..len]) {
        Ok(()) => Ok(()),
        Err(WriteFault) => Err(Verdict::WriteFault),
    }
}

// Sends an ask, and prints its line if it is to be.
fn say<K: Link, O: Sink>(ask: &Ask, talk: bool, link: &mut K, out: &mut O) -> Result<(), Verdict>
    requires usable { K.is_usable link.old ≡ true }
    ensures usable { K.is_usable link.new ≡ true }
    ensures coming { K.coming link.new ≡ K.coming link.old }
    ensures said { (pieces : List Piece) × (K.pieces link.new ≡ with_pieces (K.pieces link.old) pieces) × IsTrue (all_sent pieces)
        × IsSaying talk (ask_spelling ask.now) result pieces (O.held out.old) (O.held out.new) }
    ensures link_cause { LinkRises (K.faults link.old) (K.faults link.new) result }
    ensures write_cause { WriteRises (O.faults out.old) (O.faults out.new) result }
{
    ask_room(ask);
    let mut frame = [0; LONGEST_ASK];
    let len = encode_ask(ask, &mut frame);
    match send_all(link, &frame[..len]) {
        Ok(()) => {}
        Err(LinkFault) => return Err(Verdict::LinkFault),
    }
    if !talk {
        return Ok(());
    }
    match print_frame(out, &frame[..len]) {
        Ok(()) => Ok(()),
        Err(WriteFault) => Err(Verdict::WriteFault),
    }
}

// There is room for each ask.
fn ask_room(ask: &Ask)
    ensures { length (ask_spelling ask.now) ≤ 43 }
{
    if let Ask::Hello(hello) = ask {
        let _ = digest_len(hello);
    }
}

fn digest_len(hello: &Hello) -> usize
    ensures length { result ≡ length hello.now.digest }
    ensures number { result ≡ 32 }
{
    let digest = hello.digest;
    digest.len()
}

// Says Bye if the answer was accepted.
fn part<K: Link, O: Sink>(ending: Ending, talk: bool, link: &mut K, out: &mut O) -> Verdict
    requires usable { K.is_usable link.old ≡ true }
    ensures usable { K.is_usable link.new ≡ true }
    ensures parted { (pieces : List Piece) × (K.pieces link.new ≡ with_pieces (K.pieces link.old) pieces) × IsTrue (all_sent pieces)
        × IsParting ending talk (K.faults link.old) (K.faults link.new) pieces (O.held out.old) (O.held out.new) result }
    ensures link_cause { LinkCounts (K.faults link.old) (K.faults link.new) result }
    ensures write_cause { WriteCounts (O.faults out.old) (O.faults out.new) result }
{
    let Ending::Certified(_) = ending else {
        return Verdict::Ended(ending);
    };
    match say(&Ask::Bye, talk, link, out) {
        Ok(()) => Verdict::Ended(ending),
        Err(Verdict::WriteFault) => Verdict::WriteFault,
        Err(_) => Verdict::Ended(ending),
    }
}
