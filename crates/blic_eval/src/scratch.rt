// The room that evaluating takes, and what is kept in it.
ghost use Rattle.std.specs.Prelude.{◌≡◌, ◌+◌, ◌<◌, ◌≤◌, ℕ, [], suc, IfOk, length, slice_index_or};
ghost use Rattle.blic_model.specs.Value.{Point};
ghost use Rattle.blic_store.specs.Diagram.{IsRef, decision_at};
ghost use Rattle.blic_eval.specs.Kept.{HasKept, IsDownTo, IsWhole};
ghost use Rattle.blic_eval.specs.Lines.{HasLevels};
ghost use Rattle.blic_eval.specs.Reached.{IsReached, IsReachedBySome};

use crate::number_set::NumberSet;
use crate::reached::reach;
use crate::values::{fill_level, next_level};
use blic_basic::{NoMem, Steps};
use blic_field::Fe;
use blic_poly2::{Lin, Poly2};
use blic_store::{Ref, Store};
use std::alloc::Global;
use std::marker::Model;
use std::sync::ledger::Ledger;
use std::vec::Vec;

/// Room for evaluating functions of a store: no other call of this crate takes memory. Contracts see
/// how many decisions (nodes of BDDs) and how many pairs it has room for, the decisions that it is
/// about, by falling level, and the values that it keeps of the first of these.
///
/// Once it is about two functions, it serves any number of their polynomials and values: their
/// decisions are not looked for again, and the values of a level are computed once.
#[derive(Drop)]
pub struct Scratch {
    pub(crate) reached: NumberSet,
    pub(crate) kept: u32,
    pub(crate) lines: Vec<Lin>,
    pub(crate) polys: Vec<Poly2>,
    path: Vec<Ref>,
}

impl Model for Scratch {
    ghost use Rattle.std.specs.Prelude.{◌≡◌, ◌≤◌, vec_capacity, vec_len};
    ghost use Rattle.blic_eval.specs.Kept.{IsKept, kept_in};
    ghost use Rattle.blic_eval.specs.Room.{Room};

    ghost Value = { Room };

    ghost view = { λ s. record {
      nodes = vec_len s.lines;
      pairs = vec_len s.polys;
      reached = s.reached.numbers;
      kept = kept_in s.lines.items s.reached.numbers s.kept;
    } };

    ghost invariant = { λ s. (s.reached.room ≡ vec_len s.lines) × (vec_len s.lines ≤ vec_capacity s.path)
        × IsKept s.lines.items s.reached.numbers s.kept };
}

impl Scratch {
    /// Room for stores of up to `nodes` decisions, and for graphs of up to `pairs` pairs. It is about
    /// two constants at first.
    pub fn new(alloc: Global, nodes: u32, pairs: u32) -> Result<Scratch, NoMem>
        ensures { IfOk result (λ s. s ≡ record { nodes = nodes; pairs = pairs; reached = []; kept = [] }) }
    {
        let line = Lin {
            c0: Fe::ZERO,
            c1: Fe::ZERO,
        };
        let poly = Poly2 {
            c0: Fe::ZERO,
            c1: Fe::ZERO,
            c2: Fe::ZERO,
        };
        Ok(Scratch {
            reached: NumberSet::new(alloc, nodes)?,
            kept: 0,
            lines: vec![in alloc; line; nodes as usize]?,
            polys: vec![in alloc; poly; pairs as usize]?,
            path: Vec::with_capacity(alloc, nodes as usize)?,
        })
    }

    /// Makes the scratch be about two functions of a store: the decisions that they lead to, and no
    /// others, are worked through from then on. None of their values is kept. It takes time linear in
    /// these decisions, but for sorting them, no memory, and no product of elements.
    pub fn begin(&mut self, store: &Store, a: Ref, b: Ref)
        requires a_held { IsRef store.now.nodes a }
        requires b_held { IsRef store.now.nodes b }
        requires room { length store.now.nodes ≤ self.old.nodes }
        ensures reached { IsReached store.now.nodes a b self.new.reached }
        ensures kept { self.new.kept ≡ [] }
        ensures nodes { self.new.nodes ≡ self.old.nodes }
        ensures pairs { self.new.pairs ≡ self.old.pairs }
    {
        store.canonical_law();
        self.kept = 0;
        reach(store, a, b, &mut self.reached, &mut self.path);
        self.reached.sort_by_level(store);
    }

    /// Keeps no value any more.
    pub fn forget(&mut self)
        ensures { self.new ≡ record { nodes = self.old.nodes; pairs = self.old.pairs; reached = self.old.reached; kept = [] } }
    {
        self.kept = 0;
    }

    /// How many values are kept.
    pub fn kept(&self) -> u32
        ensures { result ≡ length self.now.kept }
    {
        self.kept
    }

    /// Keeps the values of the level's decisions too, with element `r` for the level. The values of all
    /// decisions of greater levels are kept already. It makes one product of elements for each value.
    pub fn keep<L: Ledger>(&mut self, store: &Store, level: u32, r: Fe, steps: &mut Steps<L>)
        requires reached { IsReachedBySome store.now.nodes self.old.reached }
        requires above { IsDownTo store.now.nodes self.old.reached (length self.old.kept) (suc level) }
        ensures down { IsDownTo store.now.nodes self.new.reached (length self.new.kept) level }
        ensures values { (levels : ℕ) (s : Point) → HasLevels store.now.nodes levels → s level ≡ r
            → HasKept store.now.nodes levels s self.old.reached self.old.kept → HasKept store.now.nodes levels s self.new.reached self.new.kept }
        ensures reached { self.new.reached ≡ self.old.reached }
        ensures nodes { self.new.nodes ≡ self.old.nodes }
        ensures pairs { self.new.pairs ≡ self.old.pairs }
        ensures count { steps.new + length self.old.kept ≡ steps.old + length self.new.kept }
    {
        let reached = self.reached.numbers();
        self.kept = fill_level(store, reached, self.kept, level, r, &mut self.lines, steps);
    }

    /// Keeps the values, at the point, of all decisions whose level is `level` or greater. Where some
    /// are kept already, none of them has a smaller level, and no level is kept in part. It makes one
    /// product of elements for each value that it computes.
    pub fn keep_down<L: Ledger>(
        &mut self,
        store: &Store,
        level: u64,
        point: &[Fe],
        steps: &mut Steps<L>,
    )
        requires reached { IsReachedBySome store.now.nodes self.old.reached }
        requires levels { (k : ℕ) → k < length store.now.nodes → (decision_at store.now.nodes k).level < length point.now }
        requires whole { IsWhole store.now.nodes self.old.reached (length self.old.kept) level }
        requires values { HasKept store.now.nodes (length point.now) (λ x. slice_index_or point.now x 0) self.old.reached self.old.kept }
        ensures down { IsDownTo store.now.nodes self.new.reached (length self.new.kept) level }
        ensures values { HasKept store.now.nodes (length point.now) (λ x. slice_index_or point.now x 0) self.new.reached self.new.kept }
        ensures reached { self.new.reached ≡ self.old.reached }
        ensures nodes { self.new.nodes ≡ self.old.nodes }
        ensures pairs { self.new.pairs ≡ self.old.pairs }
        ensures count { steps.new + length self.old.kept ≡ steps.old + length self.new.kept }
    {
        'down: while let Some(own) = next_level(store, self.reached.numbers(), self.kept) {
            if u64::from(own) < level {
                return;
            }
            self.keep(store, own, point[own as usize], steps);
        }
    }
}
