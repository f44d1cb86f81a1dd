// Conversations as their callers see them.
ghost use Rattle.std.specs.Prelude.{◌≡◌, ◌≤◌, ◌<◌, ◌^◌, ℕ, List, Some, IfOk};
ghost use Rattle.blic_claims.specs.Places.{layout_of};
ghost use Rattle.blic_draw.specs.DrawRun.{draw_from};
ghost use Rattle.blic_talk.specs.Talking.{AreFitted, IsSame, conversing};
ghost use Rattle.blic_messages.specs.declared.reply.Refusal.{Refusal as RefusalOf};
ghost use Rattle.blic_talk.specs.Holding.{EndCounts, IsTalk};
ghost use Rattle.blic_talk.specs.Wire.{Shows};

use crate::machines::Machines;
use blic_basic::{NoMem, Sink, Steps, Watch};
use blic_claims::{Answers, Layout};
use blic_messages::Hello;
use blic_model::Circuit;
use blic_verifier::Ending;
use std::alloc::Global;
use std::marker::{Brand, Model};
use std::sync::ledger::{Blank, Ledger};

/// A prover and a verifier of one circuit, with all the memory that their conversations take, one at a time.
#[derive(Drop)]
pub struct Conversation<'c> {
    machines: Machines<'c>,
}

impl<'c> Model for Conversation<'c> {
    ghost use Rattle.blic_talk.specs.Talking.{AreFitted};
    ghost use Rattle.blic_talk.specs.Holding.{Conversing};

    ghost Value = { Conversing };

    ghost view = { λ c. record { about = c.machines.asker.about; talk = c.machines.talk } };

    ghost invariant = { λ c. AreFitted c.machines };
}

impl<'c> Conversation<'c> {
    /// A conversation about the circuit, which `hello` names. With `talk` a line is printed for each frame. No other call takes
    /// memory.
    pub fn new(
        alloc: Global,
        circuit: &'c Circuit,
        layout: &'c Layout,
        hello: Hello,
        talk: bool,
    ) -> Result<Conversation<'c>, NoMem>
        requires { layout.now ≡ layout_of circuit.now }
        ensures { IfOk result (λ c. c ≡ record { about = record { circuit = circuit.now; hello = hello }; talk = talk }) }
    {
        Ok(Conversation {
            machines: Machines::new(alloc, circuit, layout, hello, talk)?,
        })
    }

    /// Holds a conversation from its first ask on, with the draws (challenges) of the seed from draw `first` on, which is at most 2^61,
    /// and with what `answers` knows of the circuit. Each frame is shown to `watch`, and the verifier judges each reply as `watch` left
    /// it. Answers how the conversation ended, and `None` if a line could not be printed. Its products are not counted.
    pub fn run<A: Answers, W: Watch, O: Sink>(
        &mut self,
        answers: &mut A,
        seed: [u8; 32],
        first: u64,
        watch: &mut W,
        out: &mut O,
    ) -> Option<Ending>
        requires answers { A.circuit answers.old ≡ self.old.about.circuit }
        requires first { first ≤ 2 ^ 61 }
        ensures same { self.new ≡ self.old }
        ensures answers { A.circuit answers.new ≡ A.circuit answers.old }
        ensures alters { W.alters watch.new ≡ W.alters watch.old }
        ensures talk { (frames : List (List ℕ)) × Shows (W.frames watch.old) (W.frames watch.new) frames
            × IsTalk self.old (draw_from (record { seed = seed; first = first })) (W.alters watch.old) frames (O.held out.old) (O.held out.new) result }
        ensures served { (r : RefusalOf) → result ≡ Some (Ending.ServerRefused r) → ⊥ }
        ensures cause { EndCounts (O.faults out.old) (O.faults out.new) result }
    {
        hold::<A, W, O, Brand>(
            &mut self.machines,
            answers,
            (seed, first),
            watch,
            out,
            Blank::new(1),
        )
    }
}

// The same, with a count of products for contracts alone.
fn hold<A: Answers, W: Watch, O: Sink, L: Ledger>(
    machines: &mut Machines<'_>,
    answers: &mut A,
    draws: ([u8; 32], u64),
    watch: &mut W,
    out: &mut O,
    blank: Blank,
) -> Option<Ending>
    requires name { blank.name ≡ L.name }
    requires parts { blank.parts ≡ L.parts }
    requires some { 0 < L.parts }
    requires fitted { AreFitted machines.old }
    requires answers { A.circuit answers.old ≡ machines.old.asker.about.circuit }
    requires first { draws.1 ≤ 2 ^ 61 }
    ensures fitted { AreFitted machines.new }
    ensures same { IsSame machines.old machines.new }
    ensures answers { A.circuit answers.new ≡ A.circuit answers.old }
    ensures alters { W.alters watch.new ≡ W.alters watch.old }
    ensures talk { (frames : List (List ℕ)) × Shows (W.frames watch.old) (W.frames watch.new) frames
        × IsTalk (conversing machines.old) (draw_from (record { seed = draws.0; first = draws.1 })) (W.alters watch.old) frames (O.held out.old) (O.held out.new) result }
    ensures cause { EndCounts (O.faults out.old) (O.faults out.new) result }
{
    let mut steps = Steps::<L>::new(blank);
    let hello = machines.begin(draws.0, draws.1);
    machines.run(&hello, answers, watch, out, &mut steps)
}
