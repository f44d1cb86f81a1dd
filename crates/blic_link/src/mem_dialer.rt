// A dialer in memory.
ghost use Rattle.std.specs.Prelude.{◌≡◌, ◌<◌, ◌≤◌, ◌+◌, ◌-◌, ◌^◌, ◌++◌, ◌∷◌, ◌↔◌, ◌⊎◌, [], Contains, IsTrue, Some, IfOk, true, false, length, min, slice_index_or};
ghost use Rattle.blic_basic.specs.Outside.{one_more};
ghost use Rattle.blic_link.specs.Dialing.{Dials, DialCounts, HangsUp, IfDialed};
ghost use Rattle.blic_link.specs.Memory.{fit_dialer, new_dialer, entries_of};

use crate::dialer::{Dialed, Dialer};
use crate::mem_link::{MemLink, are_fresh, is_listed};
use blic_basic::NoMem;
use std::alloc::Global;
use std::marker::Model;

/// Links in memory, each dialed once, in their order. The dials whose numbers are listed fail.
/// Contracts see a `MemoryDialer`.
#[derive(Drop)]
pub struct MemDialer {
    links: Vec<MemLink>,
    ended: Vec<MemLink>,
    lent: bool,
    failing: Vec<u64>,
    calls: u64,
    faults: u64,
    missed: u64,
}

impl Model for MemDialer {
    ghost use Rattle.std.specs.Prelude.{◌≤◌, ◌<◌, ◌+◌, ◌^◌, IsTrue, cond, length, vec_len, vec_capacity};
    ghost use Rattle.blic_link.specs.Memory.{MemoryDialer, all_fresh};

    ghost Value = { MemoryDialer };

    ghost view = { λ d. record {
      links = d.links.items;
      ended = d.ended.items;
      is_lent = d.lent;
      failing = d.failing.items;
      calls = d.calls;
      faults = d.faults;
      missed = d.missed;
    } };

    ghost invariant = { λ d. IsTrue (all_fresh d.links.items)
        × (vec_len d.ended + vec_len d.links + cond d.lent 1 0 ≤ vec_capacity d.ended)
        × (vec_len d.ended + vec_len d.links + cond d.lent 1 0 < 2 ^ 32) };
}

impl MemDialer {
    /// A dialer of these links. The memory for keeping them once they are hung up is taken here.
    /// The calls of `dial` whose numbers are in `failing`, counted from 0, fail, and so does each
    /// that finds no link left. A dial that fails uses none of the links.
    pub fn new(alloc: Global, links: Vec<MemLink>, failing: Vec<u64>) -> Result<MemDialer, NoMem>
        requires { IsTrue (fit_dialer links.items) }
        ensures { IfOk result (λ d. d ≡ new_dialer links.items failing.items) }
    {
        let ended = Vec::with_capacity(alloc, links.len())?;
        Ok(MemDialer {
            links,
            ended,
            lent: false,
            failing,
            calls: 0,
            faults: 0,
            missed: 0,
        })
    }

    /// Whether a dialer can be made of these links: there are fewer than 2^32, each can be used,
    /// nothing passed over one of them, and no call of them failed, which holds of links that were
    /// just made.
    pub fn fits(links: &[MemLink]) -> bool
        ensures { result ≡ fit_dialer links.now }
    {
        links.len() <= u32::MAX as usize && are_fresh(links)
    }

    // Whether the next dial is to fail.
    #[tactic(auto, using(std::proofs::lemmas::List::nil_from_length))]
    fn is_to_fail(&self) -> bool
        ensures { IsTrue result ↔ (Contains self.now.failing self.now.calls ⊎ (self.now.links ≡ [])) }
    {
        is_listed(&self.failing, self.calls) || self.links.is_empty()
    }

    /// How many links were hung up.
    pub fn entries(&self) -> u32
        ensures { result ≡ length self.now.ended }
    {
        self.ended.len() as u32
    }

    /// Link `i` of those that were hung up, in the order in which they were.
    pub fn entry(&self, i: u32) -> &MemLink
        requires { i < length self.now.ended }
        ensures { result.now ≡ slice_index_or self.now.ended i result.now }
    {
        &self.ended[i as usize]
    }

    /// How many calls have failed, those of the links that were hung up included.
    pub fn faults(&self) -> u64
        ensures { result ≡ self.now.faults }
    {
        self.faults
    }

    /// How many dials have failed.
    pub fn missed(&self) -> u64
        ensures { result ≡ self.now.missed }
    {
        self.missed
    }
}

impl Dialer for MemDialer {
    type L = MemLink;

    ghost entries = { λ d. Some (entries_of d) };

    ghost faults = { λ d. d.faults };

    ghost missed = { λ d. d.missed };

    ghost is_lent = { λ d. d.is_lent };

    fn lent(&self) -> bool {
        self.lent
    }

    /// Gives the next of the links, whatever the address. It fails exactly if the call's number is
    /// listed or no link is left.
    fn dial(&mut self, _address: &str) -> Dialed<MemLink>
        requires { self.old.is_lent ≡ false }
        ensures link { Dials (λ l. l.is_usable) (λ l. Some l.pieces) (λ l. l.faults) result }
        ensures cause { DialCounts self.old.faults self.new.faults self.old.missed self.new.missed self.new.is_lent result }
        ensures same { Some (entries_of self.new) ≡ Some (entries_of self.old) }
        ensures failed { (result ≡ Dialed.Failed) ↔ (Contains self.old.failing self.old.calls ⊎ (self.old.links ≡ [])) }
        ensures fault { result ≡ Dialed.Failed → self.new ≡ record self.old { calls = one_more self.old.calls; faults = one_more self.old.faults; missed = one_more self.old.missed } }
        ensures next { IfDialed result (λ l. self.old.links ≡ l ∷ self.new.links) }
        ensures others { IfDialed result (λ _. self.new ≡ record self.old { links = self.new.links; is_lent = true; calls = one_more self.old.calls }) }
    {
        let fails = self.is_to_fail();
        self.calls = self.calls.saturating_add(1);
        if fails {
            self.faults = self.faults.saturating_add(1);
            self.missed = self.missed.saturating_add(1);
            return Dialed::Failed;
        }
        self.lent = true;
        Dialed::Link(self.links.remove(0))
    }

    /// Keeps the link.
    fn hang_up(&mut self, link: MemLink)
        requires { self.old.is_lent ≡ true }
        ensures free { self.new.is_lent ≡ false }
        ensures entry { HangsUp (Some (entries_of self.old)) (Some (entries_of self.new)) (Some link.pieces) (Some link.coming) link.faults }
        ensures later { self.old.faults ≤ self.new.faults }
        ensures adds { self.new.faults ≡ min (self.old.faults + link.faults) (2 ^ 64 - 1) }
        ensures same { self.new.missed ≡ self.old.missed }
        ensures others { self.new ≡ record self.old { ended = self.old.ended ++ link ∷ []; is_lent = false; faults = self.new.faults } }
    {
        self.lent = false;
        self.faults = self.faults.saturating_add(link.faults());
        self.ended.push_reserved(link);
    }
}
