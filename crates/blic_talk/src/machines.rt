// A prover and a verifier's end that talk with each other.
ghost use Rattle.std.specs.Prelude.{◌≡◌, ◌≤◌, ◌+◌, ◌<◌, ◌^◌, ◌∷◌, ◌++◌, [], ℕ, List, Option, Some, None, cond, length, take, true, IfErr, IfOk};
ghost use Rattle.blic_basic.specs.Watching.{Adds};
ghost use Rattle.blic_claims.specs.Places.{layout_of};
ghost use Rattle.blic_draw.specs.DrawRun.{draw_from};
ghost use Rattle.blic_messages.specs.Frames.{ask_spelling, reply_spelling};
ghost use Rattle.blic_messages.specs.Reading.{Reads};
ghost use Rattle.blic_messages.specs.Replies.{Said};
ghost use Rattle.blic_messages.specs.declared.ask.Ask.{Ask as AskOf};
ghost use Rattle.blic_messages.specs.declared.ask.Hello.{Hello as HelloOf};
ghost use Rattle.blic_messages.specs.declared.ask.Ask.TheVariants.{Bye as AskBye};
ghost use Rattle.blic_print.specs.Printing.{Prints, PrintCounts, talk_text};
ghost use Rattle.blic_prover.specs.Standing.{GoesOn, ServesFor};
ghost use Rattle.blic_verifier.specs.Conversation.{honest_reply};
ghost use Rattle.blic_verifier.specs.Verdict.{Talk};
ghost use Rattle.blic_talk.specs.Talking.{ArePrinted, HasCome, IsAsked, IsAt, IsBegun, AreFitted, IsParted, IsSame, IsWay, TurnCounts, conversing, position_of, turn_text};
ghost use Rattle.blic_talk.specs.Holding.{EndCounts, IsTalk};
ghost use Rattle.blic_talk.specs.Wire.{IsCarried, Shows, spoken_at};

use crate::frames::{LONGEST_ASK, MOST_POLYS, hear_frame, reply, show, show_ask};
use crate::lines::print_turn;
use blic_basic::{NoMem, Sink, Steps, Watch};
use blic_claims::{Answers, Layout, claims_law};
use blic_field::Fe;
use blic_messages::{Ask, Hello};
use blic_model::Circuit;
use blic_poly2::Poly2;
use blic_print::{WriteFault, print_frame};
use blic_prover::Prover;
use blic_verifier::{Asker, Ending, Following};
use std::alloc::Global;
use std::sync::ledger::Ledger;

/// A prover and a verifier's end of one circuit, with all the memory that their conversations take.
#[derive(Drop)]
pub(crate) struct Machines<'c> {
    pub(crate) circuit: &'c Circuit,
    pub(crate) turns: u64,
    pub(crate) prover: Prover<'c>,
    pub(crate) asker: Asker<'c>,
    pub(crate) frame: Vec<u8>,
    pub(crate) polys: Vec<Poly2>,
    pub(crate) talk: bool,
}

impl<'c> Machines<'c> {
    /// Those of the circuit, which `hello` names. With `talk` a line is printed for each frame. No other call takes memory.
    pub(crate) fn new(
        alloc: Global,
        circuit: &'c Circuit,
        layout: &'c Layout,
        hello: Hello,
        talk: bool,
    ) -> Result<Machines<'c>, NoMem>
        requires { layout.now ≡ layout_of circuit.now }
        ensures fitted { IfOk result (λ x. AreFitted x) }
        ensures about { IfOk result (λ x. conversing x ≡ record { about = record { circuit = circuit.now; hello = hello }; talk = talk }) }
    {
        let most = layout.most_claims(circuit) as usize;
        let none = Poly2 {
            c0: Fe::ZERO,
            c1: Fe::ZERO,
            c2: Fe::ZERO,
        };
        Ok(Machines {
            circuit,
            turns: layout.replies(),
            prover: Prover::new(alloc, circuit, layout, hello)?,
            asker: Asker::new(alloc, circuit, layout, hello)?,
            frame: vec![in alloc; 0; LONGEST_ASK + 24 * most]?,
            polys: vec![in alloc; none; MOST_POLYS]?,
            talk,
        })
    }

    /// Begins a conversation with the draws of the seed from draw `first` on. Answers its first ask.
    pub(crate) fn begin(&mut self, seed: [u8; 32], first: u64) -> Ask
        requires fitted { AreFitted self.old }
        requires first { first ≤ 2 ^ 61 }
        ensures fitted { AreFitted self.new }
        ensures same { IsSame self.old self.new }
        ensures begun { IsBegun self.new result }
        ensures source { self.new.asker.draws.source ≡ record { seed = seed; first = first } }
    {
        self.prover.reset();
        self.asker.begin(seed, first)
    }

    /// Holds the conversation from its first ask on, with what `answers` knows of the circuit.
    pub(crate) fn run<A: Answers, W: Watch, O: Sink, L: Ledger>(
        &mut self,
        hello: &Ask,
        answers: &mut A,
        watch: &mut W,
        out: &mut O,
        steps: &mut Steps<L>,
    ) -> Option<Ending>
        requires fitted { AreFitted self.old }
        requires answers { A.circuit answers.old ≡ self.old.asker.about.circuit }
        requires begun { IsBegun self.old hello.now }
        ensures fitted { AreFitted self.new }
        ensures same { IsSame self.old self.new }
        ensures answers { A.circuit answers.new ≡ A.circuit answers.old }
        ensures alters { W.alters watch.new ≡ W.alters watch.old }
        ensures talk { (frames : List (List ℕ)) × Shows (W.frames watch.old) (W.frames watch.new) frames
            × IsTalk (conversing self.old) (draw_from self.old.asker.draws.source) (W.alters watch.old) frames (O.held out.old) (O.held out.new) result }
        ensures cause { EndCounts (O.faults out.old) (O.faults out.new) result }
    {
        match self.turns(hello, answers, watch, out, steps) {
            Some(Ending::Certified(answer)) => self.say_bye(answer, watch, out),
            ending => ending,
        }
    }

    // One turn after another, as long as the conversation goes on.
    fn turns<A: Answers, W: Watch, O: Sink, L: Ledger>(
        &mut self,
        hello: &Ask,
        answers: &mut A,
        watch: &mut W,
        out: &mut O,
        steps: &mut Steps<L>,
    ) -> Option<Ending>
        requires fitted { AreFitted self.old }
        requires answers { A.circuit answers.old ≡ self.old.asker.about.circuit }
        requires begun { IsBegun self.old hello.now }
        ensures fitted { AreFitted self.new }
        ensures same { IsSame self.old self.new }
        ensures answers { A.circuit answers.new ≡ A.circuit answers.old }
        ensures alters { W.alters watch.new ≡ W.alters watch.old }
        ensures way { (way : List (List ℕ)) × Shows (W.frames watch.old) (W.frames watch.new) way
            × IsWay (conversing self.old) (draw_from self.old.asker.draws.source) (W.alters watch.old) way (O.held out.old) (O.held out.new) result }
        ensures cause { EndCounts (O.faults out.old) (O.faults out.new) result }
    {
        let mut ask = *hello;
        for _ in 0..=self.turns {
            match self.turn(&ask, answers, watch, out, steps) {
                Some(Following::Asks(next)) => ask = next,
                Some(Following::Ends(ending)) => return Some(ending),
                None => return None,
            }
        }
        // Not reached: there are no more turns.
        None
    }

    // An ask and its reply, which the verifier judges as it came. `None` if a line could not be printed.
    fn turn<A: Answers, W: Watch, O: Sink, L: Ledger>(
        &mut self,
        ask: &Ask,
        answers: &mut A,
        watch: &mut W,
        out: &mut O,
        steps: &mut Steps<L>,
    ) -> Option<Following>
        requires fitted { AreFitted self.old }
        requires answers { A.circuit answers.old ≡ self.old.asker.about.circuit }
        requires at { (asks : List AskOf) × (t : Talk) × IsAt self.old asks ask.now t }
        requires goes_on { GoesOn (A.goes_on answers.old) self.old.prover }
        ensures fitted { AreFitted self.new }
        ensures same { IsSame self.old self.new }
        ensures source { self.new.asker.draws.source ≡ self.old.asker.draws.source }
        ensures answers { A.circuit answers.new ≡ A.circuit answers.old }
        ensures goes_on { GoesOn (A.goes_on answers.new) self.new.prover }
        ensures alters { W.alters watch.new ≡ W.alters watch.old }
        ensures turned { (asks : List AskOf) (t : Talk) → IsAt self.old asks ask.now t
            → (came : List ℕ) × (says : Option Said) × Shows (W.frames watch.old) (W.frames watch.new) (ask_spelling ask.now ∷ came ∷ [])
            × HasCome self.old self.new (W.alters watch.old) asks ask.now t came says result
            × ArePrinted (O.held out.old) (O.held out.new) self.old.talk
            (talk_text (spoken_at (position_of self.old ask.now t says) (ask_spelling ask.now ∷ came ∷ []))) result }
        ensures cause { TurnCounts (O.faults out.old) (O.faults out.new) result }
    {
        let mut asked = [0; LONGEST_ASK];
        let asked_len = show_ask(ask, &mut asked, watch);
        let came_len = self.show_reply(ask, answers, watch, steps);
        let following = hear_frame(
            &mut self.asker,
            &self.frame[..came_len],
            &mut self.polys,
            steps,
        );
        match self.print(&asked[..asked_len], came_len, &following, out) {
            Ok(()) => Some(following),
            Err(WriteFault) => None,
        }
    }

    // Shows the prover's reply to the watch, which leaves it at the start of the buffer. Answers its length.
    fn show_reply<A: Answers, W: Watch, L: Ledger>(
        &mut self,
        ask: &Ask,
        answers: &mut A,
        watch: &mut W,
        steps: &mut Steps<L>,
    ) -> usize
        requires fitted { AreFitted self.old }
        requires answers { A.circuit answers.old ≡ self.old.asker.about.circuit }
        requires asked { (asks : List AskOf) × (t : Talk) × (n : ℕ) × IsAsked self.old.prover asks ask.now t n }
        requires goes_on { GoesOn (A.goes_on answers.old) self.old.prover }
        ensures fitted { AreFitted self.new }
        ensures talk { self.new.talk ≡ self.old.talk }
        ensures asker { self.new.asker ≡ self.old.asker }
        ensures answers { A.circuit answers.new ≡ A.circuit answers.old }
        ensures goes_on { GoesOn (A.goes_on answers.new) self.new.prover }
        ensures length { (5 ≤ result) × (result ≤ length self.new.frame.items) }
        ensures stands { (asks : List AskOf) → ServesFor self.old.prover asks → ServesFor self.new.prover (asks ++ ask.now ∷ []) }
        ensures alters { W.alters watch.new ≡ W.alters watch.old }
        ensures list { Adds (W.frames watch.old) (W.frames watch.new) (take result self.new.frame.items) }
        ensures carried { (asks : List AskOf) (t : Talk) (n : ℕ) → IsAsked self.old.prover asks ask.now t n → (hello : HelloOf)
            → IsCarried (W.alters watch.old) (reply_spelling (honest_reply (record { circuit = self.old.circuit.now; hello = hello }) t)) (take result self.new.frame.items) }
    {
        let len = reply(
            &mut self.prover,
            self.circuit,
            answers,
            ask,
            &mut self.frame,
            steps,
        );
        show(&mut self.frame, len, watch);
        len
    }

    // Prints the line of an ask's frame, and that of the reply at the start of the buffer if it is a frame.
    fn print<O: Sink>(
        &self,
        asked: &[u8],
        came_len: usize,
        following: &Following,
        out: &mut O,
    ) -> Result<(), WriteFault>
        requires came { came_len ≤ length self.now.frame.items }
        ensures bytes { Prints (O.held out.old) (O.held out.new) result (cond self.now.talk (turn_text following.now asked.now (take came_len self.now.frame.items)) []) }
        ensures talking { IfErr result (λ e. self.now.talk ≡ true) }
        ensures cause { PrintCounts (O.faults out.old) (O.faults out.new) result }
    {
        if !self.talk {
            return Ok(());
        }
        print_turn(out, asked, &self.frame[..came_len], following)
    }

    // The verifier ends the conversation, whose answer it accepted.
    fn say_bye<W: Watch, O: Sink>(&self, answer: bool, watch: &mut W, out: &mut O) -> Option<Ending>
        ensures alters { W.alters watch.new ≡ W.alters watch.old }
        ensures list { Adds (W.frames watch.old) (W.frames watch.new) (ask_spelling AskBye) }
        ensures told { IsParted (O.held out.old) (O.held out.new) self.now.talk (talk_text (ask_spelling AskBye ∷ [])) answer result }
        ensures cause { EndCounts (O.faults out.old) (O.faults out.new) result }
    {
        let mut asked = [0; LONGEST_ASK];
        let len = show_ask(&Ask::Bye, &mut asked, watch);
        if !self.talk {
            return Some(Ending::Certified(answer));
        }
        match print_frame(out, &asked[..len]) {
            Ok(()) => Some(Ending::Certified(answer)),
            Err(WriteFault) => None,
        }
    }
}
