// A verifier: it takes one reply at a time and keeps the claims.
ghost use Rattle.std.specs.Prelude.{◌≡◌, ◌≤◌, ◌+◌, ◌*◌, ◌↔◌, ℕ, Bool, List, [], true, false, length, IfOk, IsTrue};
ghost use Rattle.blic_claims.specs.Places.{layout_of};
ghost use Rattle.blic_claims.specs.Turns.{Reply as ReplyOf};
ghost use Rattle.blic_messages.specs.Replies.{said, Polys, Values};
ghost use Rattle.blic_verifier.specs.Accepting.{IsWorth};
ghost use Rattle.blic_verifier.specs.Verdict.{products_for, Talk, Silent, Talked, judged, next_after, next_of, with_reply, with_draw, is_in_turn, is_verdict, IsAcceptedAs};
ghost use Rattle.blic_verifier.specs.Standing.{HoldsFor, StandsAt, StandsFor, is_over, wants_draw as wants_draw_at, claims_waiting};
ghost use Rattle.blic_verifier.specs.Fitted.{Agrees, IsOnWalk};

use crate::binary::combined;
use crate::elements::{has_elements, is_element};
use crate::held::Held;
use crate::kept::keep;
use crate::next::Next;
use crate::place::{Part, Place};
use crate::stage::Stage;
use crate::walk::Walked;
use blic_basic::{NoMem, Steps};
use blic_claims::Layout;
use blic_field::Fe;
use blic_messages::Reply;
use blic_model::Circuit;
use blic_poly2::Poly2;
use std::alloc::Global;
use std::marker::Model;
use std::sync::ledger::Ledger;

/// A verifier of one conversation at a time about a circuit.
#[derive(Drop)]
pub struct Verifier<'c> {
    circuit: &'c Circuit,
    layout: &'c Layout,
    held: Held,
    polys: Vec<Poly2>,
    stage: Stage,
    answer: bool,
    turn: u64,
}

impl<'c> Model for Verifier<'c> {
    ghost use Rattle.std.specs.Prelude.{length};
    ghost use Rattle.blic_verifier.specs.Standing.{Verifying};
    ghost use Rattle.blic_verifier.specs.Fitted.{IsFitted};

    ghost Value = { Verifying };

    ghost view = { λ v. record { circuit = v.circuit.now; points = v.held.points; values = v.held.values.items; polys = v.polys.items; stage = v.stage; answer = v.answer; turn = v.turn } };

    ghost invariant = { λ v. IsFitted v.circuit.now v.layout.now v.held.points v.held.values.items (length v.polys.items) v.stage };
}

impl<'c> Verifier<'c> {
    /// A verifier to which nothing was said. No other call takes memory.
    pub fn new(
        alloc: Global,
        circuit: &'c Circuit,
        layout: &'c Layout,
    ) -> Result<Verifier<'c>, NoMem>
        requires { layout.now ≡ layout_of circuit.now }
        ensures circuit { IfOk result (λ v. v.circuit ≡ circuit.now) }
        ensures silent { IfOk result (λ v. StandsFor v Silent) }
        ensures open { IfOk result (λ v. (is_over v.stage ≡ false) × (wants_draw_at v.stage ≡ false)) }
    {
        circuit.is_within_limits();
        let held = Held::new(alloc, circuit, layout)?;
        let none = Poly2 {
            c0: Fe::ZERO,
            c1: Fe::ZERO,
            c2: Fe::ZERO,
        };
        let Ok(polys) = vec![in alloc; none; layout.most_claims(circuit) as usize] else {
            return Err(NoMem);
        };
        Ok(Verifier {
            circuit,
            layout,
            held,
            polys,
            stage: Stage::Fresh,
            answer: false,
            turn: 0,
        })
    }

    /// Takes the reply that stands next, and says what comes after it. For a reply that fits its turn
    /// that is the first check that fails, or acceptance of the whole conversation, or else what is to
    /// be sent. After a verdict (`Done`, `Rejected`, `WrongKind` or `WrongCount`) it is `Over`.
    /// At most one product of elements for each polynomial of the reply, or one for values.
    pub fn take<L: Ledger>(&mut self, reply: &Reply<'_>, steps: &mut Steps<L>) -> Next
        requires { wants_draw_at self.old.stage ≡ false }
        ensures circuit { self.new.circuit ≡ self.old.circuit }
        ensures over { is_over self.old.stage ≡ true → (result ≡ Next.Over) × (self.new ≡ self.old) }
        ensures says { is_over self.old.stage ≡ false → (t : Talk) → StandsFor self.old t
            → result ≡ next_of (next_after self.old.circuit.nodes (length self.old.circuit.order) t (said reply.now)) }
        ensures taken { is_over self.old.stage ≡ false → (t : Talk) → StandsFor self.old t → is_in_turn result ≡ true
            → StandsFor self.new (with_reply t (said reply.now)) }
        ensures accepted { is_over self.old.stage ≡ false → (t : Talk) → StandsFor self.old t → (b : Bool) → result ≡ Next.Done b
            → IsAcceptedAs self.old.circuit b (with_reply t (said reply.now)) }
        ensures worth { is_over self.old.stage ≡ false → (t : Talk) → StandsFor self.old t → (b : Bool) → result ≡ Next.Done b
            → IsWorth self.old.circuit b (with_reply t (said reply.now)) }
        ensures draws { IsTrue (wants_draw_at self.new.stage) ↔ (result ≡ Next.Draw) }
        ensures ends { is_over self.new.stage ≡ is_verdict result }
        ensures at_most { steps.new ≤ steps.old + products_for (said reply.now) }
        ensures at_least { steps.old ≤ steps.new }
    {
        self.circuit.is_within_limits();
        has_elements(reply);
        self.judge(reply, steps)
    }

    // The same of what is held, but for what acceptance is worth.
    fn judge<L: Ledger>(&mut self, reply: &Reply<'_>, steps: &mut Steps<L>) -> Next
        requires { wants_draw_at self.old.stage ≡ false }
        ensures circuit { self.new.circuit ≡ self.old.circuit }
        ensures over { is_over self.old.stage ≡ true → (result ≡ Next.Over) × (self.new ≡ self.old) }
        ensures says { is_over self.old.stage ≡ false → (t : Talk) → HoldsFor self.old t
            → result ≡ next_of (next_after self.old.circuit.nodes (length self.old.circuit.order) t (said reply.now)) }
        ensures taken { is_over self.old.stage ≡ false → (t : Talk) → HoldsFor self.old t → is_in_turn result ≡ true
            → HoldsFor self.new (with_reply t (said reply.now)) }
        ensures accepted { is_over self.old.stage ≡ false → (t : Talk) → HoldsFor self.old t → (b : Bool) → result ≡ Next.Done b
            → IsAcceptedAs self.old.circuit b (with_reply t (said reply.now)) }
        ensures draws { IsTrue (wants_draw_at self.new.stage) ↔ (result ≡ Next.Draw) }
        ensures ends { is_over self.new.stage ≡ is_verdict result }
        ensures at_most { steps.new ≤ steps.old + products_for (said reply.now) }
        ensures at_least { steps.old ≤ steps.new }
    {
        match self.stage {
            Stage::Over | Stage::Drawing { .. } => Next::Over,
            Stage::Fresh => match reply {
                Reply::Answer(answer) => self.take_answer(*answer),
                _ => self.wrong_kind(),
            },
            Stage::Ready { node, left } => {
                if left == 0 {
                    match reply {
                        Reply::Values(u, w) => self.take_values(node, *u, *w, steps),
                        _ => self.wrong_kind(),
                    }
                } else {
                    match reply {
                        Reply::Polys(polys) => self.take_polys(node, left - 1, polys, steps),
                        _ => self.wrong_kind(),
                    }
                }
            }
        }
    }

    /// Takes the draw that stands next. At most two products of elements for each claim on the node.
    pub fn drawn<L: Ledger>(&mut self, r: Fe, steps: &mut Steps<L>)
        requires { wants_draw_at self.old.stage ≡ true }
        ensures circuit { self.new.circuit ≡ self.old.circuit }
        ensures drawn { (t : Talk) → StandsFor self.old t → StandsFor self.new (with_draw t r) }
        ensures open { (is_over self.new.stage ≡ false) × (wants_draw_at self.new.stage ≡ false) }
        ensures at_most { steps.new ≤ steps.old + 2 * claims_waiting self.old.circuit.nodes self.old.stage }
        ensures at_least { steps.old ≤ steps.new }
    {
        is_element(r);
        if let Stage::Drawing { node, level } = self.stage {
            let row = self.layout.row(node);
            self.held.draw(node, row, level, &self.polys, r, steps);
            self.stage = Stage::Ready { node, left: level };
        }
    }

    /// Whether a draw stands next: exactly after `Next::Draw`.
    pub fn wants_draw(&self) -> bool
        ensures { result ≡ wants_draw_at self.now.stage }
    {
        matches!(self.stage, Stage::Drawing { .. })
    }

    /// Whether a verdict was given since `new` or `reset`.
    pub fn is_over(&self) -> bool
        ensures { result ≡ is_over self.now.stage }
    {
        matches!(self.stage, Stage::Over)
    }

    /// Begins a new conversation. All else stays as it was.
    pub fn reset(&mut self)
        ensures exact { self.new ≡ record self.old { stage = Stage.Fresh; turn = 0 } }
        ensures silent { StandsFor self.new Silent }
        ensures open { (is_over self.new.stage ≡ false) × (wants_draw_at self.new.stage ≡ false) }
    {
        self.stage = Stage::Fresh;
        self.turn = 0;
    }

    fn take_answer(&mut self, answer: bool) -> Next
        requires { self.old.stage ≡ Stage.Fresh }
        ensures circuit { self.new.circuit ≡ self.old.circuit }
        ensures says { result ≡ next_of (judged self.old.circuit.nodes (length self.old.circuit.order) answer [] []) }
        ensures stands { StandsAt self.new self.new.stage answer [] [] }
        ensures accepted { (b : Bool) → result ≡ Next.Done b → IsAcceptedAs self.old.circuit b (Talked answer [] []) }
        ensures agrees { Agrees result self.new.stage }
    {
        self.circuit.is_within_limits();
        self.answer = answer;
        self.turn = 1;
        let root = self.circuit.root();
        let place = self.layout.row(root).first;
        self.held.values[place] = Fe::from_bit(answer);
        self.go_on(root + 1)
    }

    fn take_polys<L: Ledger>(
        &mut self,
        node: u32,
        level: u32,
        polys: &[Poly2],
        steps: &mut Steps<L>,
    ) -> Next
        requires { self.old.stage ≡ Stage.Ready node (level + 1) }
        ensures circuit { self.new.circuit ≡ self.old.circuit }
        ensures says { (t : Talk) → HoldsFor self.old t → result ≡ next_of (next_after self.old.circuit.nodes (length self.old.circuit.order) t (Polys polys.now)) }
        ensures taken { (t : Talk) → HoldsFor self.old t → is_in_turn result ≡ true → HoldsFor self.new (with_reply t (Polys polys.now)) }
        ensures not_done { (b : Bool) → result ≡ Next.Done b → ⊥ }
        ensures agrees { Agrees result self.new.stage }
        ensures at_most { steps.new ≤ steps.old + length polys.now }
        ensures at_least { steps.old ≤ steps.new }
    {
        let row = self.layout.row(node);
        if polys.len() != row.claims as usize {
            return self.wrong_count(row.claims, polys.len().min(u32::MAX as usize) as u32);
        }
        match self.held.first_unreduced(node, row, level, polys, steps) {
            Some(claim) => self.reject(node, Part::Poly(level), claim),
            None => {
                keep(&mut self.polys, polys);
                self.turn = self.turn.saturating_add(1);
                self.stage = Stage::Drawing { node, level };
                Next::Draw
            }
        }
    }

    fn take_values<L: Ledger>(&mut self, node: u32, u: Fe, w: Fe, steps: &mut Steps<L>) -> Next
        requires { self.old.stage ≡ Stage.Ready node 0 }
        ensures circuit { self.new.circuit ≡ self.old.circuit }
        ensures says { (t : Talk) → HoldsFor self.old t → result ≡ next_of (next_after self.old.circuit.nodes (length self.old.circuit.order) t (Values u w)) }
        ensures taken { (t : Talk) → HoldsFor self.old t → HoldsFor self.new (with_reply t (Values u w)) }
        ensures accepted { (t : Talk) → HoldsFor self.old t → (b : Bool) → result ≡ Next.Done b → IsAcceptedAs self.old.circuit b (with_reply t (Values u w)) }
        ensures agrees { Agrees result self.new.stage }
        ensures at_most { steps.new ≤ steps.old + 1 }
        ensures at_least { steps.old ≤ steps.new }
    {
        self.circuit.is_within_limits();
        let row = self.layout.row(node);
        let value = self.held.values[row.first];
        if let Some(claim) = self.held.first_other(row, value) {
            return self.reject(node, Part::Ends, claim);
        }
        if combined(self.circuit.node(node), u, w, steps) != value {
            return self.reject(node, Part::Combine, 0);
        }
        self.held.hand_down(self.circuit, self.layout, node, u, w);
        self.turn = self.turn.saturating_add(1);
        self.go_on(node)
    }

    // Takes the nodes below `top` down to the next binary node, and says what comes after.
    fn go_on(&mut self, top: u32) -> Next
        requires { top ≤ length self.old.circuit.nodes }
        ensures circuit { self.new.circuit ≡ self.old.circuit }
        ensures says { (answer : Bool) (draws : List ℕ) (replies : List ReplyOf) → IsOnWalk self.old answer draws replies top
            → result ≡ next_of (judged self.old.circuit.nodes (length self.old.circuit.order) answer draws replies) }
        ensures stands { (answer : Bool) (draws : List ℕ) (replies : List ReplyOf) → IsOnWalk self.old answer draws replies top
            → StandsAt self.new self.new.stage answer draws replies }
        ensures accepted { (answer : Bool) (draws : List ℕ) (replies : List ReplyOf) → IsOnWalk self.old answer draws replies top
            → (b : Bool) → result ≡ Next.Done b → IsAcceptedAs self.old.circuit b (Talked answer draws replies) }
        ensures agrees { Agrees result self.new.stage }
    {
        match self.held.walk(self.circuit, self.layout, top) {
            Walked::Binary(node) => {
                let left = self.layout.row(node).width;
                self.stage = Stage::Ready { node, left };
                Next::Go
            }
            Walked::Fault(place) => {
                self.stage = Stage::Over;
                Next::Rejected(place)
            }
            Walked::End => {
                self.stage = Stage::Over;
                Next::Done(self.answer)
            }
        }
    }

    fn reject(&mut self, node: u32, part: Part, claim: u32) -> Next
        ensures circuit { self.new.circuit ≡ self.old.circuit }
        ensures stage { self.new.stage ≡ Stage.Over }
        ensures says { result ≡ Next.Rejected (record { node = node; part = part; claim = claim }) }
    {
        self.stage = Stage::Over;
        Next::Rejected(Place { node, part, claim })
    }

    fn wrong_kind(&mut self) -> Next
        ensures circuit { self.new.circuit ≡ self.old.circuit }
        ensures stage { self.new.stage ≡ Stage.Over }
        ensures says { result ≡ Next.WrongKind self.old.turn }
    {
        self.stage = Stage::Over;
        Next::WrongKind { turn: self.turn }
    }

    fn wrong_count(&mut self, want: u32, got: u32) -> Next
        ensures circuit { self.new.circuit ≡ self.old.circuit }
        ensures stage { self.new.stage ≡ Stage.Over }
        ensures says { result ≡ Next.WrongCount self.old.turn want got }
    {
        self.stage = Stage::Over;
        Next::WrongCount {
            turn: self.turn,
            want,
            got,
        }
    }
}
