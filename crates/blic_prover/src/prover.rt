// The honest prover.
ghost use Rattle.std.specs.Prelude.{◌≡◌, ◌+◌, ◌*◌, ◌<◌, ◌≤◌, ◌++◌, ◌∷◌, [], ℕ, IsTrue, List, suc, true, false, length, IfOk, slice_index_or};
ghost use Rattle.blic_model.specs.Circuit.{free};
ghost use Rattle.blic_model.specs.Counts.{claims as claims_of};
ghost use Rattle.blic_claims.specs.Places.{layout_of};
ghost use Rattle.blic_claims.specs.Turns.{turns, no_reply, reply_by, Polys as PolysReply, Values as ValuesReply};
ghost use Rattle.blic_claims.specs.Honest.{honest_answer, honest_replies};
ghost use Rattle.blic_messages.specs.Replies.{said, polynomials_in, Polys, Values};
ghost use Rattle.blic_messages.specs.declared.ask.Ask.{Ask as AskOf};
ghost use Rattle.blic_messages.specs.declared.ask.Ask.TheVariants.{Hello as AskHello, Go as AskGo, Draw as AskDraw};
ghost use Rattle.blic_prover.specs.Fitted.{IsAtWork};
ghost use Rattle.blic_prover.specs.Honest.{Progress, Running, Replied, honest, move_at, progress_with, same_hello, changes};
ghost use Rattle.blic_prover.specs.Moves.{move_of, said_by};
ghost use Rattle.blic_prover.specs.Standing.{GoesOn, IsReady, IsWalking, ServesAt, ServesFor, WantsNoDraw, products_at};

use crate::room::fill;
use crate::stage::Stage;
use crate::step::{Given, Step};
use crate::walk::walk;
use blic_basic::{NoMem, Steps};
use blic_claims::{Answers, Layout, Points, claims_law};
use blic_field::Fe;
use blic_messages::{Ask, Hello, Reply};
use blic_model::Circuit;
use blic_poly2::Poly2;
use std::alloc::Global;
use std::marker::Model;
use std::sync::ledger::Ledger;

/// The honest prover of one circuit, in one session at a time.
#[derive(Drop)]
pub struct Prover<'c> {
    circuit: &'c Circuit,
    layout: &'c Layout,
    served: Hello,
    points: Points,
    polys: Vec<Poly2>,
    count: usize,
    stage: Stage,
}

impl<'c> Model for Prover<'c> {
    ghost use Rattle.std.specs.Prelude.{length, take};
    ghost use Rattle.blic_prover.specs.Standing.{Proving};
    ghost use Rattle.blic_prover.specs.Fitted.{ProverFits};

    ghost Value = { Proving };

    ghost view = { λ p. record { circuit = p.circuit.now; served = p.served; points = p.points; stage = p.stage; kept = take p.count p.polys.items } };

    ghost invariant = { λ p. ProverFits p.circuit.now p.layout.now p.points (length p.polys.items) p.count p.stage };
}

impl<'c> Prover<'c> {
    /// A prover in a session in which nothing was asked; it serves `served` alone. No other call takes memory.
    pub fn new(
        alloc: Global,
        circuit: &'c Circuit,
        layout: &'c Layout,
        served: Hello,
    ) -> Result<Prover<'c>, NoMem>
        requires { layout.now ≡ layout_of circuit.now }
        ensures circuit { IfOk result (λ p. p.circuit ≡ circuit.now) }
        ensures served { IfOk result (λ p. p.served ≡ served) }
        ensures fresh { IfOk result (λ p. p.stage ≡ Stage.Fresh) }
        ensures silent { IfOk result (λ p. ServesFor p []) }
    {
        circuit.is_within_limits();
        let points = Points::new(alloc, circuit, layout)?;
        let none = Poly2 {
            c0: Fe::ZERO,
            c1: Fe::ZERO,
            c2: Fe::ZERO,
        };
        let Ok(polys) = vec![in alloc; none; layout.most_claims(circuit) as usize] else {
            return Err(NoMem);
        };
        Ok(Prover {
            circuit,
            layout,
            served,
            points,
            polys,
            count: 0,
            stage: Stage::Fresh,
        })
    }

    /// Answers an ask: by the honest reply if the ask stands next, else by why there is none; then
    /// the prover stays as it was, but for a session's end. It takes the products of one call of
    /// `answers` at most.
    pub fn step<A: Answers, L: Ledger>(
        &mut self,
        answers: &mut A,
        ask: &Ask,
        steps: &mut Steps<L>,
    ) -> Step
        requires answers { A.circuit answers.old ≡ self.old.circuit }
        requires goes_on { GoesOn (A.goes_on answers.old) self.old }
        ensures circuit { self.new.circuit ≡ self.old.circuit }
        ensures served { self.new.served ≡ self.old.served }
        ensures answers { A.circuit answers.new ≡ A.circuit answers.old }
        ensures goes_on { GoesOn (A.goes_on answers.new) self.new }
        ensures honest { (asks : List AskOf) → ServesFor self.old asks → move_of self.new.kept result ≡ honest self.old.circuit self.old.served asks ask.now }
        ensures stands { (asks : List AskOf) → ServesFor self.old asks → ServesFor self.new (asks ++ ask.now ∷ []) }
        ensures unchanged { changes (move_of self.new.kept result) ≡ false → self.new ≡ self.old }
        ensures at_most { steps.new ≤ steps.old + products_at self.old.circuit (A.most answers.old) self.old.stage }
        ensures at_least { steps.old ≤ steps.new }
    {
        match ask {
            Ask::Hello(asked) => self.hello(answers, asked),
            Ask::Go => self.go(answers, steps),
            Ask::Draw(r) => self.drawn(answers, *r, steps),
            Ask::Bye => {
                self.stage = Stage::Over;
                Step::Ended
            }
        }
    }

    /// How many replies a session has at most: the answer, and one for each turn.
    pub fn replies(&self) -> u64
        ensures { result ≡ suc (length (turns self.now.circuit.nodes (length self.now.circuit.order))) }
    {
        self.circuit.is_within_limits();
        claims_law();
        self.layout.replies() + 1
    }

    /// The reply that a step answered as `given`, with the polynomials that were given last, of which there are at most as many as a
    /// frame has.
    pub fn shown(&self, given: Given) -> Reply<'_>
        ensures said { said result ≡ said_by self.now.kept given }
        ensures few { polynomials_in (said result) ≤ 65536 }
    {
        match given {
            Given::Answer(answer) => Reply::Answer(answer),
            Given::Polys => Reply::Polys(&self.polys[..self.count]),
            Given::Values(u, w) => Reply::Values(u, w),
        }
    }

    /// Begins a new session. All else stays as it was, the polynomials that were given last too.
    pub fn reset(&mut self)
        ensures exact { self.new ≡ record self.old { stage = Stage.Fresh } }
        ensures silent { ServesFor self.new [] }
    {
        self.stage = Stage::Fresh;
    }

    fn hello<A: Answers>(&mut self, answers: &mut A, asked: &Hello) -> Step
        requires answers { A.circuit answers.old ≡ self.old.circuit }
        requires goes_on { GoesOn (A.goes_on answers.old) self.old }
        ensures circuit { self.new.circuit ≡ self.old.circuit }
        ensures served { self.new.served ≡ self.old.served }
        ensures answers { A.circuit answers.new ≡ A.circuit answers.old }
        ensures goes_on { GoesOn (A.goes_on answers.new) self.new }
        ensures honest { (p : Progress) → ServesAt self.old self.old.stage p → move_of self.new.kept result ≡ move_at self.old.circuit self.old.served p (AskHello asked.now) }
        ensures stands { (p : Progress) → ServesAt self.old self.old.stage p → ServesAt self.new self.new.stage (progress_with p (AskHello asked.now) (move_of self.new.kept result)) }
        ensures unchanged { changes (move_of self.new.kept result) ≡ false → self.new ≡ self.old }
    {
        match self.stage {
            Stage::Over => Step::Ended,
            Stage::Fresh => {
                if is_same(&self.served, asked) {
                    Step::Reply(Given::Answer(self.start(answers)))
                } else {
                    Step::NotServed {
                        served: self.served,
                        asked: *asked,
                    }
                }
            }
            _ => Step::OutOfTurn,
        }
    }

    fn go<A: Answers, L: Ledger>(&mut self, answers: &mut A, steps: &mut Steps<L>) -> Step
        requires answers { A.circuit answers.old ≡ self.old.circuit }
        requires goes_on { GoesOn (A.goes_on answers.old) self.old }
        ensures circuit { self.new.circuit ≡ self.old.circuit }
        ensures served { self.new.served ≡ self.old.served }
        ensures answers { A.circuit answers.new ≡ A.circuit answers.old }
        ensures goes_on { GoesOn (A.goes_on answers.new) self.new }
        ensures honest { (p : Progress) → ServesAt self.old self.old.stage p → move_of self.new.kept result ≡ move_at self.old.circuit self.old.served p AskGo }
        ensures stands { (p : Progress) → ServesAt self.old self.old.stage p → ServesAt self.new self.new.stage (progress_with p AskGo (move_of self.new.kept result)) }
        ensures unchanged { changes (move_of self.new.kept result) ≡ false → self.new ≡ self.old }
        ensures at_most { steps.new ≤ steps.old + products_at self.old.circuit (A.most answers.old) self.old.stage }
        ensures at_least { steps.old ≤ steps.new }
    {
        match self.stage {
            Stage::Going { node } => {
                let left = self.layout.row(node).width;
                self.reply(answers, node, left, false, steps)
            }
            Stage::Fresh | Stage::Drawing { .. } => Step::OutOfTurn,
            Stage::Finished => Step::NothingLeft,
            Stage::Over => Step::Ended,
        }
    }

    fn drawn<A: Answers, L: Ledger>(&mut self, answers: &mut A, r: Fe, steps: &mut Steps<L>) -> Step
        requires answers { A.circuit answers.old ≡ self.old.circuit }
        requires goes_on { GoesOn (A.goes_on answers.old) self.old }
        ensures circuit { self.new.circuit ≡ self.old.circuit }
        ensures served { self.new.served ≡ self.old.served }
        ensures answers { A.circuit answers.new ≡ A.circuit answers.old }
        ensures goes_on { GoesOn (A.goes_on answers.new) self.new }
        ensures honest { (p : Progress) → ServesAt self.old self.old.stage p → move_of self.new.kept result ≡ move_at self.old.circuit self.old.served p (AskDraw r) }
        ensures stands { (p : Progress) → ServesAt self.old self.old.stage p → ServesAt self.new self.new.stage (progress_with p (AskDraw r) (move_of self.new.kept result)) }
        ensures unchanged { changes (move_of self.new.kept result) ≡ false → self.new ≡ self.old }
        ensures at_most { steps.new ≤ steps.old + products_at self.old.circuit (A.most answers.old) self.old.stage }
        ensures at_least { steps.old ≤ steps.new }
    {
        match self.stage {
            Stage::Drawing { node, level } => {
                self.points.draw(node, level, r);
                self.reply(answers, node, level, true, steps)
            }
            Stage::Fresh | Stage::Going { .. } => Step::OutOfTurn,
            Stage::Finished => Step::NothingLeft,
            Stage::Over => Step::Ended,
        }
    }

    // The answer; the first binary node's reply stands next.
    fn start<A: Answers>(&mut self, answers: &mut A) -> bool
        requires answers { A.circuit answers.old ≡ self.old.circuit }
        ensures circuit { self.new.circuit ≡ self.old.circuit }
        ensures served { self.new.served ≡ self.old.served }
        ensures answers { A.circuit answers.new ≡ A.circuit answers.old }
        ensures answer { result ≡ honest_answer self.old.circuit.nodes (length self.old.circuit.order) }
        ensures stands { ServesAt self.new self.new.stage (Running 0 []) }
    {
        self.circuit.is_within_limits();
        let answer = answers.answer();
        let root = self.circuit.root();
        self.go_on(root + 1);
        answer
    }

    // The reply of a node with so many free levels left.
    fn reply<A: Answers, L: Ledger>(
        &mut self,
        answers: &mut A,
        node: u32,
        left: u32,
        on: bool,
        steps: &mut Steps<L>,
    ) -> Step
        requires answers { A.circuit answers.old ≡ self.old.circuit }
        requires on { IsTrue on → A.goes_on answers.old self.old.points node left }
        requires at_work { IsAtWork self.old.circuit self.old.points node left }
        ensures circuit { self.new.circuit ≡ self.old.circuit }
        ensures served { self.new.served ≡ self.old.served }
        ensures answers { A.circuit answers.new ≡ A.circuit answers.old }
        ensures goes_on { GoesOn (A.goes_on answers.new) self.new }
        ensures replied { changes (move_of self.new.kept result) ≡ true }
        ensures honest { (draws : List ℕ) (t : ℕ) → IsReady self.old.circuit draws t node left self.old.points → move_of self.new.kept result ≡ Replied (reply_by Polys Values
            (slice_index_or (honest_replies self.old.circuit.nodes (length self.old.circuit.order) draws (suc t)) t no_reply)) }
        ensures stands { (draws : List ℕ) (t : ℕ) → IsReady self.old.circuit draws t node left self.old.points → ServesAt self.new self.new.stage (Running (suc t) draws) }
        ensures at_most { steps.new ≤ steps.old + claims_of self.old.circuit.nodes node * A.most answers.old node }
        ensures at_least { steps.old ≤ steps.new }
    {
        self.circuit.is_within_limits();
        if left == 0 {
            let (u, w) = self.values(answers, node, on, steps);
            Step::Reply(Given::Values(u, w))
        } else {
            self.polys(answers, node, left - 1, on, steps);
            Step::Reply(Given::Polys)
        }
    }

    // The polynomials of a node's claims in a free level; its draw stands next.
    fn polys<A: Answers, L: Ledger>(
        &mut self,
        answers: &mut A,
        node: u32,
        level: u32,
        on: bool,
        steps: &mut Steps<L>,
    )
        requires answers { A.circuit answers.old ≡ self.old.circuit }
        requires on { IsTrue on → A.goes_on answers.old self.old.points node (suc level) }
        requires at_work { IsAtWork self.old.circuit self.old.points node (suc level) }
        ensures circuit { self.new.circuit ≡ self.old.circuit }
        ensures served { self.new.served ≡ self.old.served }
        ensures answers { A.circuit answers.new ≡ A.circuit answers.old }
        ensures goes_on { GoesOn (A.goes_on answers.new) self.new }
        ensures honest { (draws : List ℕ) (t : ℕ) → IsReady self.old.circuit draws t node (suc level) self.old.points
            → PolysReply self.new.kept ≡ slice_index_or (honest_replies self.old.circuit.nodes (length self.old.circuit.order) draws (suc t)) t no_reply }
        ensures stands { (draws : List ℕ) (t : ℕ) → IsReady self.old.circuit draws t node (suc level) self.old.points
            → ServesAt self.new self.new.stage (Running (suc t) draws) }
        ensures at_most { steps.new ≤ steps.old + claims_of self.old.circuit.nodes node * A.most answers.old node }
        ensures at_least { steps.old ≤ steps.new }
    {
        self.circuit.is_within_limits();
        let count = self.layout.row(node).claims as usize;
        fill(
            &mut self.polys,
            count,
            answers,
            &self.points,
            node,
            level,
            on,
            steps,
        );
        self.count = count;
        self.stage = Stage::Drawing { node, level };
    }

    // The values of a node's operands; the next binary node's reply stands next.
    fn values<A: Answers, L: Ledger>(
        &mut self,
        answers: &mut A,
        node: u32,
        on: bool,
        steps: &mut Steps<L>,
    ) -> (Fe, Fe)
        requires answers { A.circuit answers.old ≡ self.old.circuit }
        requires on { IsTrue on → A.goes_on answers.old self.old.points node 0 }
        requires at_work { IsAtWork self.old.circuit self.old.points node 0 }
        ensures circuit { self.new.circuit ≡ self.old.circuit }
        ensures served { self.new.served ≡ self.old.served }
        ensures answers { A.circuit answers.new ≡ A.circuit answers.old }
        ensures goes_on { GoesOn (A.goes_on answers.new) self.new }
        ensures honest { (draws : List ℕ) (t : ℕ) → IsReady self.old.circuit draws t node 0 self.old.points
            → ValuesReply result.0 result.1 ≡ slice_index_or (honest_replies self.old.circuit.nodes (length self.old.circuit.order) draws (suc t)) t no_reply }
        ensures stands { (draws : List ℕ) (t : ℕ) → IsReady self.old.circuit draws t node 0 self.old.points
            → ServesAt self.new self.new.stage (Running (suc t) draws) }
        ensures at_most { steps.new ≤ steps.old + A.most answers.old node }
        ensures at_least { steps.old ≤ steps.new }
    {
        self.circuit.is_within_limits();
        let (u, w) = answers.values(&self.points, node, on, steps);
        self.stage = Stage::Finished;
        self.points.hand_down(self.circuit, self.layout, node);
        self.go_on(node);
        (u, w)
    }

    // Goes down to the next binary node below `top`, whose reply stands next, if there is one.
    fn go_on(&mut self, top: u32)
        requires { top ≤ length self.old.circuit.nodes }
        ensures circuit { self.new.circuit ≡ self.old.circuit }
        ensures undrawn { WantsNoDraw self.new.stage }
        ensures served { self.new.served ≡ self.old.served }
        ensures stands { (draws : List ℕ) (t : ℕ) → IsWalking self.old.circuit draws t top self.old.points → ServesAt self.new self.new.stage (Running t draws) }
    {
        self.stage = match walk(&mut self.points, self.circuit, self.layout, top) {
            Some(node) => Stage::Going { node },
            None => Stage::Finished,
        };
    }
}

// Whether two Hellos are equal in each field.
fn is_same(served: &Hello, asked: &Hello) -> bool
    ensures { result ≡ same_hello served.now asked.now }
{
    served.wire == asked.wire
        && served.circuit == asked.circuit
        && served.order == asked.order
        && served.digest == asked.digest
}
