// The verifier's end of a conversation, over replies and nothing else.
ghost use Rattle.std.specs.Prelude.{◌≡◌, ◌≢◌, ◌≤◌, ◌<◌, ◌^◌, Option, None, Some, option_map, true, IfOk};
ghost use Rattle.blic_claims.specs.Places.{layout_of};
ghost use Rattle.blic_draw.specs.DrawRun.{draw_from};
ghost use Rattle.blic_messages.specs.Replies.{said};
ghost use Rattle.blic_messages.specs.declared.ask.Hello.{Hello as HelloOf};
ghost use Rattle.blic_messages.specs.declared.ask.Ask.{Ask as AskOf};
ghost use Rattle.blic_messages.specs.declared.ask.Ask.TheVariants.{Hello as AskHello};
ghost use Rattle.blic_verifier.specs.Asking.{IsAt, IsWaiting, IsSaidAt};
ghost use Rattle.blic_verifier.specs.Placed.{IsFollowed};
ghost use Rattle.blic_verifier.specs.Conversation.{Position, Awaits, beginning, go_on as goes_on, read_on};
ghost use Rattle.blic_verifier.specs.declared.ending.Ending.{Ending as EndingOf};
ghost use Rattle.blic_verifier.specs.Fitted.{Agrees};
ghost use Rattle.blic_verifier.specs.Standing.{StandsFor};
ghost use Rattle.blic_verifier.specs.Verdict.{Talk, Verdict, is_in_turn, next_of};

use crate::ending::Ending;
use crate::next::Next;
use crate::verifier::Verifier;
use blic_basic::{NoMem, Steps};
use blic_claims::{Layout, claims_law};
use blic_draw::DrawRun;
use blic_messages::{Ask, Hello, Reply};
use blic_model::Circuit;
use std::alloc::Global;
use std::marker::Model;
use std::sync::ledger::Ledger;

/// What follows on what came.
#[derive(Clone, Copy, Debug, PartialEq, Eq)]
pub enum Following {
    /// The ask that stands next.
    Asks(Ask),
    /// The conversation has ended.
    Ends(Ending),
}

/// The verifier's end of one conversation at a time about a circuit: it says each ask, makes each draw, and judges
/// each reply that comes.
#[derive(Drop)]
pub struct Asker<'c> {
    circuit: &'c Circuit,
    hello: Hello,
    draws: DrawRun,
    verifier: Verifier<'c>,
    ended: Option<Ending>,
}

impl<'c> Model for Asker<'c> {
    ghost use Rattle.blic_verifier.specs.Asking.{Asking};
    ghost use Rattle.blic_verifier.specs.Placed.{IsPlaced};

    ghost Value = { Asking };

    ghost view = { λ a. record { about = record { circuit = a.circuit.now; hello = a.hello }; draws = a.draws; verifier = a.verifier; ended = a.ended } };

    ghost invariant = { λ a. IsPlaced (record { about = record { circuit = a.circuit.now; hello = a.hello }; draws = a.draws; verifier = a.verifier; ended = a.ended }) };
}

impl<'c> Asker<'c> {
    /// An asker about the circuit, which `hello` names, at the beginning of a conversation. Which draws it begins with is not said.
    /// No other call takes memory.
    pub fn new(
        alloc: Global,
        circuit: &'c Circuit,
        layout: &'c Layout,
        hello: Hello,
    ) -> Result<Asker<'c>, NoMem>
        requires { layout.now ≡ layout_of circuit.now }
        ensures about { IfOk result (λ a. a.about ≡ record { circuit = circuit.now; hello = hello }) }
        ensures at { IfOk result (λ a. IsAt a (beginning a.about)) }
    {
        let verifier = Verifier::new(alloc, circuit, layout)?;
        Ok(Asker {
            circuit,
            hello,
            draws: DrawRun::new([0; 32], 0),
            verifier,
            ended: None,
        })
    }

    /// Begins a conversation, with the draws (challenges) of the seed from draw `first` on, which is at most 2^61. Answers its first ask.
    pub fn begin(&mut self, seed: [u8; 32], first: u64) -> Ask
        requires { first ≤ 2 ^ 61 }
        ensures ask { result ≡ AskHello self.old.about.hello }
        ensures about { self.new.about ≡ self.old.about }
        ensures source { self.new.draws.source ≡ record { seed = seed; first = first } }
        ensures at { IsAt self.new (beginning self.old.about) }
    {
        self.verifier.reset();
        self.draws = DrawRun::new(seed, first);
        self.ended = None;
        Ask::Hello(self.hello)
    }

    /// Hears what came after the ask: a reply, or with `None` bytes that are none. Says what follows. After the end it says how the
    /// conversation ended.
    pub fn hear<L: Ledger>(
        &mut self,
        reading: Option<&Reply<'_>>,
        steps: &mut Steps<L>,
    ) -> Following
        ensures about { self.new.about ≡ self.old.about }
        ensures source { self.new.draws.source ≡ self.old.draws.source }
        ensures over { (e : EndingOf) → self.old.ended ≡ Some e → (result ≡ Following.Ends e) × (self.new ≡ self.old) }
        ensures follows { self.old.ended ≡ None → (p : Position) → IsAt self.old p
            → IsAt self.new (read_on self.old.about (draw_from self.old.draws.source) p (option_map (λ r. said r.now) reading.entry))
            × IsSaidAt result (read_on self.old.about (draw_from self.old.draws.source) p (option_map (λ r. said r.now) reading.entry)) }
    {
        claims_law();
        self.circuit.is_within_limits();
        if let Some(ending) = self.ended {
            return Following::Ends(ending);
        }
        let following = follow(&mut self.verifier, &mut self.draws, reading, steps);
        match following {
            Following::Asks(_) => {}
            Following::Ends(ending) => self.ended = Some(ending),
        }
        following
    }
}

// What follows on what came while the conversation goes on.
fn follow<L: Ledger>(
    verifier: &mut Verifier<'_>,
    draws: &mut DrawRun,
    reading: Option<&Reply<'_>>,
    steps: &mut Steps<L>,
) -> Following
    requires waiting { IsWaiting verifier.old }
    requires talked { (t : Talk) × StandsFor verifier.old t }
    requires place { draws.old.place < 2 ^ 60 }
    ensures circuit { verifier.new.circuit ≡ verifier.old.circuit }
    ensures source { draws.new.source ≡ draws.old.source }
    ensures follows { (hello : HelloOf) (ask : AskOf) (t : Talk) → StandsFor verifier.old t
        → IsFollowed verifier.new draws.new (read_on (record { circuit = verifier.old.circuit; hello = hello }) (draw_from draws.old.source) (Awaits ask t draws.old.place) (option_map (λ r. said r.now) reading.entry)) result }
{
    match reading {
        None => Following::Ends(Ending::NotFrame),
        Some(reply) => judge(verifier, draws, reply, steps),
    }
}

// What follows on a reply.
fn judge<L: Ledger>(
    verifier: &mut Verifier<'_>,
    draws: &mut DrawRun,
    reply: &Reply<'_>,
    steps: &mut Steps<L>,
) -> Following
    requires waiting { IsWaiting verifier.old }
    requires talked { (t : Talk) × StandsFor verifier.old t }
    requires place { draws.old.place < 2 ^ 60 }
    ensures circuit { verifier.new.circuit ≡ verifier.old.circuit }
    ensures source { draws.new.source ≡ draws.old.source }
    ensures follows { (hello : HelloOf) (ask : AskOf) (t : Talk) → StandsFor verifier.old t
        → IsFollowed verifier.new draws.new (read_on (record { circuit = verifier.old.circuit; hello = hello }) (draw_from draws.old.source) (Awaits ask t draws.old.place) (Some (said reply.now))) result }
{
    if let Reply::Refused(refusal) = reply {
        return Following::Ends(Ending::ServerRefused(*refusal));
    }
    let next = verifier.take(reply, steps);
    go_on(verifier, next, draws, steps)
}

// What follows on what the verifier said. A draw is made if one stands next.
fn go_on<L: Ledger>(
    verifier: &mut Verifier<'_>,
    next: Next,
    draws: &mut DrawRun,
    steps: &mut Steps<L>,
) -> Following
    requires draws { draws.old.place < 2 ^ 60 }
    requires said { Agrees next verifier.old.stage }
    requires going { next ≢ Next.Over }
    ensures circuit { verifier.new.circuit ≡ verifier.old.circuit }
    ensures source { draws.new.source ≡ draws.old.source }
    ensures follows { (y : Verdict) → next ≡ next_of y → (t : Talk) → (is_in_turn next ≡ true → StandsFor verifier.old t)
        → IsFollowed verifier.new draws.new (goes_on (draw_from draws.old.source) t draws.old.place y) result }
{
    match next {
        Next::Draw => {
            let r = draws.next();
            verifier.drawn(r, steps);
            Following::Asks(Ask::Draw(r))
        }
        Next::Go => Following::Asks(Ask::Go),
        Next::Done(answer) => Following::Ends(Ending::Certified(answer)),
        Next::Rejected(place) => Following::Ends(Ending::Rejected(place)),
        Next::WrongKind { turn } => Following::Ends(Ending::WrongKind { turn }),
        Next::WrongCount { turn, want, got } => {
            Following::Ends(Ending::WrongCount { turn, want, got })
        }
        Next::Over => Following::Asks(Ask::Bye),
    }
}
