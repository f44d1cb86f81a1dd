// The lister, which lists the pairs of one two functions after the other.
ghost use Rattle.std.specs.Prelude.{◌≡◌, ◌^◌, ◌<◌, ◌≤◌, ℕ, length, Err, IfErr, IfOk};
ghost use Rattle.blic_graph.specs.Listing.{Found};
ghost use Rattle.blic_graph.specs.Pairs.{IsGraph, IsInner, PassesMost};
ghost use Rattle.blic_store.specs.Diagram.{IsRef};

use crate::graph::{Graph, GraphError};
use crate::pair_list::PairList;
use blic_store::{Ref, Store};
use std::alloc::Global;

/// Lists the pairs of two functions, as `Graph::list` does, and keeps its buffers for the next two.
#[derive(Drop)]
pub struct Lister {
    list: PairList,
}

impl Lister {
    /// A lister.
    pub fn new(alloc: Global) -> Result<Lister, GraphError>
        ensures { IfErr result (λ e. e ≡ GraphError.NoMem) }
    {
        Ok(Lister {
            list: PairList::new(alloc)?,
        })
    }

    /// Lists the pairs of two functions of the store, as `Graph::list` does, and refuses as it does.
    /// The time grows with the number of pairs, and by the logarithm of the number of levels that
    /// wait at once. What was listed before says nothing of the next list.
    pub fn list(&mut self, store: &Store, a: Ref, b: Ref, most: u64) -> Result<Graph, GraphError>
        requires a_held { IsRef store.now.nodes a }
        requires b_held { IsRef store.now.nodes b }
        requires most { most < 2 ^ 32 }
        ensures graph { IfOk result (λ graph. IsGraph store.now.nodes a b graph) }
        ensures within { IfOk result (λ graph. length graph ≤ most) }
        ensures full { result ≡ Err GraphError.PairsFull → PassesMost store.now.nodes a b most }
    {
        store.canonical_law();
        if a.is_const() || b.is_const() {
            return Ok(Graph::none(self.list.allocator()));
        }
        fill(&mut self.list, store, a, b, most)?;
        Ok(self.list.take_pairs())
    }

    /// Takes the buffer of a graph that is done with for the next list.
    pub fn reuse(&mut self, graph: Graph) {
        self.list.reuse(graph);
    }
}

// Finds all pairs of two functions, neither constant, by level.
fn fill(list: &mut PairList, store: &Store, a: Ref, b: Ref, most: u64) -> Result<(), GraphError>
    requires a_inner { IsInner store.now.nodes a }
    requires b_inner { IsInner store.now.nodes b }
    requires few { most < 2 ^ 32 }
    ensures graph { IfOk result (λ _. IsGraph store.now.nodes a b list.new.pairs) }
    ensures within { IfOk result (λ _. length list.new.pairs ≤ most) }
    ensures full { result ≡ Err GraphError.PairsFull → PassesMost store.now.nodes a b most }
{
    store.canonical_law();
    list.begin(a, b, most, store.level(a).min(store.level(b)));
    list.add(store, a, b)?;
    'requests: while let Some(request) = list.next() {
        list.answer(store, request)?;
    }
    Ok(())
}
