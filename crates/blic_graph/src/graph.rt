// The graph: all pairs of two functions.
ghost use Rattle.std.specs.Prelude.{◌≡◌, ◌<◌, ◌≤◌, ◌^◌, ◌↔◌, ℕ, List, [], length, map, Err, IfOk, IsTrue};
ghost use Rattle.blic_graph.specs.Packing.{unpacked};
ghost use Rattle.blic_graph.specs.Pairs.{IsGraph, PassesMost, pair_at};
ghost use Rattle.blic_store.specs.Diagram.{IsRef};

use crate::lister::Lister;
use crate::packed::{Packed, unpack};
use crate::pair::Side;
use blic_store::{Ref, Store};
use std::alloc::Global;
use std::marker::Model;
use std::vec::Vec;
use thiserror::Error;

/// Why the pairs were not listed.
#[derive(Clone, Copy, Debug, PartialEq, Eq, Error)]
pub enum GraphError {
    /// There are more pairs than were allowed.
    #[error("there are more pairs than were allowed")]
    PairsFull,
    /// Memory ran out.
    #[error("memory ran out")]
    NoMem,
}

/// The pairs of two functions of a store, each once, in rising order of level. A pair is what both
/// functions become if the same topmost levels are fixed, neither constant. A pair takes 20 bytes.
#[derive(Drop)]
pub struct Graph {
    pairs: Vec<Packed>,
}

impl Model for Graph {
    ghost use Rattle.std.specs.Prelude.{List, map, ◌<◌, ◌^◌, length};
    ghost use Rattle.blic_graph.specs.Packing.{unpacked};
    ghost use Rattle.blic_graph.specs.declared.pair.Pair.{Pair};

    ghost Value = { List Pair };

    ghost view = { λ g. map unpacked g.pairs.items };

    ghost invariant = { λ g. length g.pairs.items < 2 ^ 32 };
}

impl Graph {
    /// Lists the pairs of two functions of the store, that of the two themselves first; if one of
    /// them is constant there is none. The time grows with the number of pairs, and by the logarithm
    /// of the number of levels that wait at once.
    ///
    /// Refuses with `PairsFull` exactly if there are more than `most` pairs: no list within
    /// `most` has them all (`pairs_full_law`).
    pub fn list(
        alloc: Global,
        store: &Store,
        a: Ref,
        b: Ref,
        most: u64,
    ) -> Result<Graph, GraphError>
        requires a_held { IsRef store.now.nodes a }
        requires b_held { IsRef store.now.nodes b }
        requires most { most < 2 ^ 32 }
        ensures graph { IfOk result (λ graph. IsGraph store.now.nodes a b graph) }
        ensures within { IfOk result (λ graph. length graph ≤ most) }
        ensures full { result ≡ Err GraphError.PairsFull → PassesMost store.now.nodes a b most }
    {
        Lister::new(alloc)?.list(store, a, b, most)
    }

    /// The graph of two functions without pairs.
    pub(crate) fn none(alloc: Global) -> Graph
        ensures { result ≡ [] }
    {
        Graph {
            pairs: Vec::new(alloc),
        }
    }

    /// The graph of pairs.
    pub(crate) fn of(pairs: Vec<Packed>) -> Graph
        requires { length pairs.items < 2 ^ 32 }
        ensures { result ≡ map unpacked pairs.items }
    {
        Graph { pairs }
    }

    /// The pairs' buffer.
    pub(crate) fn into_buffer(self) -> Vec<Packed>
        ensures { map unpacked result.items ≡ self }
    {
        self.pairs
    }

    /// Gives up room for pairs that the graph has no more.
    pub fn shrink(&mut self)
        ensures { self.new ≡ self.old }
    {
        self.pairs.shrink_to_fit();
    }

    /// The number of pairs.
    pub fn len(&self) -> u32
        ensures { result ≡ length self.now }
    {
        self.pairs.len() as u32
    }

    /// The functions of pair `k`.
    pub fn pair(&self, k: u32) -> (Ref, Ref)
        requires { k < length self.now }
        ensures first { result.0 ≡ (pair_at self.now k).first }
        ensures second { result.1 ≡ (pair_at self.now k).second }
    {
        let pair = &self.pairs[k as usize];
        (pair.first, pair.second)
    }

    /// The level of pair `k`: the topmost at which one of its functions decides.
    pub fn level(&self, k: u32) -> u32
        requires { k < length self.now }
        ensures { result ≡ (pair_at self.now k).level }
    {
        self.pairs[k as usize].level
    }

    /// What pair `k` becomes if its level's bit is 0, and if it is 1. The pairs that are named
    /// come later in the list.
    pub fn children(&self, k: u32) -> (Side, Side)
        requires { k < length self.now }
        ensures low { result.0 ≡ (pair_at self.now k).low }
        ensures high { result.1 ≡ (pair_at self.now k).high }
    {
        let pair = &self.pairs[k as usize];
        (unpack(pair.low), unpack(pair.high))
    }

    /// Whether pair `k` depends on no level above the given one.
    pub fn settled(&self, k: u32, level: u32) -> bool
        requires { k < length self.now }
        ensures { IsTrue result ↔ (level ≤ (pair_at self.now k).level) }
    {
        level <= self.pairs[k as usize].level
    }
}
