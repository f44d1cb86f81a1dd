// An acceptor in memory.
ghost use Rattle.std.specs.Prelude.{◌≡◌, ◌∷◌, ◌↔◌, ◌⊎◌, [], Contains, IsTrue, Some, true, false};
ghost use Rattle.blic_basic.specs.Outside.{one_more};
ghost use Rattle.blic_link.specs.Accepting.{Listens, ListenCounts, Accepts, AcceptCounts, was_accepted, IfAccepted, IfNotAccepted};
ghost use Rattle.blic_link.specs.Memory.{all_fresh, new_acceptor, no_link};

use crate::acceptor::{Accepted, Acceptor, Listened};
use crate::mem_link::{MemLink, are_fresh, is_listed};
use blic_basic::Listed;
use std::marker::Model;

/// Links in memory, each accepted once, in their order. The calls whose numbers are listed fail.
/// Contracts see a `MemoryAcceptor`.
#[derive(Drop)]
pub struct MemAcceptor {
    links: Vec<MemLink>,
    failing: Vec<u64>,
    calls: u64,
    faults: u64,
}

impl Model for MemAcceptor {
    ghost use Rattle.std.specs.Prelude.{IsTrue};
    ghost use Rattle.blic_link.specs.Memory.{MemoryAcceptor, all_fresh};

    ghost Value = { MemoryAcceptor };

    ghost view = { λ a. record {
      links = a.links.items;
      failing = a.failing.items;
      calls = a.calls;
      faults = a.faults;
    } };

    ghost invariant = { λ a. IsTrue (all_fresh a.links.items) };
}

impl MemAcceptor {
    /// An acceptor of these links. No call takes memory. The calls of `listen` and `next` whose
    /// numbers are in `failing`, counted together from 0, fail, and so does each `next` that finds
    /// no link left. A `next` that fails uses none of the links.
    pub fn new(links: Vec<MemLink>, failing: Vec<u64>) -> MemAcceptor
        requires { IsTrue (all_fresh links.items) }
        ensures { result ≡ new_acceptor links.items failing.items }
    {
        MemAcceptor {
            links,
            failing,
            calls: 0,
            faults: 0,
        }
    }

    /// Whether an acceptor can be made of these links: each can be used, nothing passed over one of
    /// them, and no call of them failed, which holds of links that were just made.
    pub fn fits(links: &[MemLink]) -> bool
        ensures { result ≡ all_fresh links.now }
    {
        are_fresh(links)
    }

    /// How many calls have failed.
    pub fn faults(&self) -> u64
        ensures { result ≡ self.now.faults }
    {
        self.faults
    }

    // Counts the call that begins, and says whether its number is listed.
    fn call_is_listed(&mut self) -> bool
        ensures listed { IsTrue result ↔ Contains self.old.failing self.old.calls }
        ensures counted { self.new ≡ record self.old { calls = one_more self.old.calls } }
    {
        let fails = is_listed(&self.failing, self.calls);
        self.calls = self.calls.saturating_add(1);
        fails
    }
}

impl Listed for MemAcceptor {
    ghost use Rattle.std.specs.Prelude.{[]};

    ghost entries = { λ _. [] };

    ghost mark = { λ _. [] };
}

impl Acceptor for MemAcceptor {
    type L = MemLink;

    ghost listening_may_fail = { true };

    ghost accepting_may_fail = { true };

    ghost faults = { λ a. a.faults };

    /// Is ready, whatever the address. It fails exactly if the call's number is listed.
    fn listen(&mut self, _address: &str) -> Listened
        ensures may { Listens result true }
        ensures cause { ListenCounts self.old.faults self.new.faults result }
        ensures failed { (result ≡ Listened.Failed) ↔ Contains self.old.failing self.old.calls }
        ensures fault { result ≡ Listened.Failed → self.new ≡ record self.old { calls = one_more self.old.calls; faults = one_more self.old.faults } }
        ensures others { result ≡ Listened.Ready → self.new ≡ record self.old { calls = one_more self.old.calls } }
    {
        if self.call_is_listed() {
            self.faults = self.faults.saturating_add(1);
            return Listened::Failed;
        }
        Listened::Ready
    }

    /// Gives the next of the links. It fails exactly if the call's number is listed or no link is
    /// left.
    #[tactic(auto, using(std::proofs::lemmas::List::nil_from_length))]
    fn next(&mut self) -> Accepted<MemLink>
        ensures link { Accepts (λ l. l.is_usable) (λ l. Some l.pieces) (λ l. l.faults) result true }
        ensures cause { AcceptCounts self.old.faults self.new.faults result }
        ensures failed { (was_accepted result ≡ false) ↔ (Contains self.old.failing self.old.calls ⊎ (self.old.links ≡ [])) }
        ensures fault { IfNotAccepted result (λ l. (l ≡ no_link) × (self.new ≡ record self.old { calls = one_more self.old.calls; faults = one_more self.old.faults })) }
        ensures next { IfAccepted result (λ l. self.old.links ≡ l ∷ self.new.links) }
        ensures others { IfAccepted result (λ _. self.new ≡ record self.old { links = self.new.links; calls = one_more self.old.calls }) }
    {
        if self.call_is_listed() || self.links.is_empty() {
            self.faults = self.faults.saturating_add(1);
            return Accepted::Failed(MemLink::none(*self.links.allocator()));
        }
        Accepted::Link(self.links.remove(0))
    }
}
