// The operations.
ghost use Rattle.std.specs.Prelude.{◌≡◌, ◌<◌, min, Err, IfOk, OnErr};
ghost use Rattle.blic_store.specs.Diagram.{IsRef, function};
ghost use Rattle.blic_store.specs.Growth.{Adds, Answers, PassesLimit};
ghost use Rattle.blic_graph.specs.Pairs.{IsGraph};
ghost use Rattle.blic_apply.specs.Combining.{InRange, IsLeaf, IsResult, unit_of};
ghost use Rattle.blic_apply.specs.Operations.{combined, negated, fixed};

use crate::change::Change;
use crate::part_table::PartTable;
use crate::rewriting::{Waiting, rewrite};
use blic_graph::{Graph, Side};
use blic_store::{Ref, Store, StoreError};
use std::alloc::Global;
use std::vec::Vec;

/// How two functions are combined.
#[derive(Clone, Copy, Debug, PartialEq, Eq)]
pub enum Op {
    And,
    Or,
}

impl Op {
    // The constant with which the other function stays itself.
    fn unit(self) -> Ref
        ensures { result ≡ unit_of self }
    {
        match self {
            Op::And => Ref::TRUE,
            Op::Or => Ref::FALSE,
        }
    }

    // The two functions combined, one of them constant.
    fn leaf(self, first: Ref, second: Ref) -> Ref
        requires { min first second < 2 }
        ensures { IsLeaf self first second result }
    {
        let unit = self.unit();
        if first == unit {
            return second;
        }
        if second == unit {
            return first;
        }
        // The other constant decides.
        if first.is_const() {
            return first;
        }
        second
    }

    // The result of a side, from those of the pairs.
    fn result(self, side: Side, results: &[Ref]) -> Ref
        requires { InRange side results.now }
        ensures { IsResult self side results.now result }
    {
        match side {
            Side::Pair(k) => results[k as usize],
            Side::Done(first, second) => self.leaf(first, second),
        }
    }
}

/// The two functions combined; `graph` lists their pairs. It takes time linear in the pairs.
///
/// Refuses with `Full` exactly if the store's decisions and those of the answer's parts are together more than its
/// limit. After a refusal the store may hold some of the answer's parts; its functions are as before.
pub fn combine(
    alloc: Global,
    store: &mut Store,
    graph: &Graph,
    op: Op,
    a: Ref,
    b: Ref,
) -> Result<Ref, StoreError>
    requires a_held { IsRef store.old.nodes a }
    requires b_held { IsRef store.old.nodes b }
    requires graph { IsGraph store.old.nodes a b graph.now }
    ensures ok { IfOk result (λ r. Answers (combined op (function store.old.nodes a) (function store.old.nodes b)) store.old store.new r) }
    ensures full { result ≡ Err StoreError.Full → PassesLimit (combined op (function store.old.nodes a) (function store.old.nodes b)) store.old }
    ensures err { OnErr result (Adds (combined op (function store.old.nodes a) (function store.old.nodes b)) store.old.nodes store.new.nodes) }
    ensures limit { store.new.limit ≡ store.old.limit }
{
    store.canonical_law();
    let len = graph.len();
    if len == 0 {
        return Ok(op.leaf(a, b));
    }
    let Ok(mut results) = vec![in alloc; Ref::FALSE; len as usize] else {
        return Err(StoreError::NoMem);
    };
    let mut k = len;
    'up: while k > 0 {
        k -= 1;
        let (low, high) = graph.children(k);
        let low = op.result(low, &results);
        let high = op.result(high, &results);
        results[k as usize] = store.make(graph.level(k), low, high)?;
    }
    Ok(results[0])
}

/// Negates functions and fixes their levels, and keeps its buffers from one to the next.
#[derive(Drop)]
pub struct Rewriter {
    made: PartTable,
    waiting: Vec<Waiting>,
}

impl Rewriter {
    /// A rewriter.
    pub fn new(alloc: Global) -> Rewriter {
        Rewriter {
            made: PartTable::new(alloc),
            waiting: Vec::new(alloc),
        }
    }

    /// The function with the other value at each point. It takes time linear in its parts.
    ///
    /// Refuses as `combine` does.
    pub fn negate(&mut self, store: &mut Store, a: Ref) -> Result<Ref, StoreError>
        requires { IsRef store.old.nodes a }
        ensures ok { IfOk result (λ r. Answers (negated (function store.old.nodes a)) store.old store.new r) }
        ensures full { result ≡ Err StoreError.Full → PassesLimit (negated (function store.old.nodes a)) store.old }
        ensures err { OnErr result (Adds (negated (function store.old.nodes a)) store.old.nodes store.new.nodes) }
        ensures limit { store.new.limit ≡ store.old.limit }
    {
        let change = Change::Negate;
        rewrite(&mut self.made, &mut self.waiting, store, change, a)
    }

    /// The function with a level's bit fixed. It takes time linear in its parts.
    ///
    /// Refuses as `combine` does.
    pub fn fix(
        &mut self,
        store: &mut Store,
        a: Ref,
        level: u32,
        bit: bool,
    ) -> Result<Ref, StoreError>
        requires { IsRef store.old.nodes a }
        ensures ok { IfOk result (λ r. Answers (fixed level bit (function store.old.nodes a)) store.old store.new r) }
        ensures full { result ≡ Err StoreError.Full → PassesLimit (fixed level bit (function store.old.nodes a)) store.old }
        ensures err { OnErr result (Adds (fixed level bit (function store.old.nodes a)) store.old.nodes store.new.nodes) }
        ensures limit { store.new.limit ≡ store.old.limit }
    {
        let change = Change::Fix { level, bit };
        rewrite(&mut self.made, &mut self.waiting, store, change, a)
    }
}

/// The function with the other value at each point. It takes time linear in its parts.
///
/// Refuses as `combine` does.
pub fn negate(alloc: Global, store: &mut Store, a: Ref) -> Result<Ref, StoreError>
    requires { IsRef store.old.nodes a }
    ensures ok { IfOk result (λ r. Answers (negated (function store.old.nodes a)) store.old store.new r) }
    ensures full { result ≡ Err StoreError.Full → PassesLimit (negated (function store.old.nodes a)) store.old }
    ensures err { OnErr result (Adds (negated (function store.old.nodes a)) store.old.nodes store.new.nodes) }
    ensures limit { store.new.limit ≡ store.old.limit }
{
    Rewriter::new(alloc).negate(store, a)
}

/// The function with a level's bit fixed. It takes time linear in its parts.
///
/// Refuses as `combine` does.
pub fn fix(
    alloc: Global,
    store: &mut Store,
    a: Ref,
    level: u32,
    bit: bool,
) -> Result<Ref, StoreError>
    requires { IsRef store.old.nodes a }
    ensures ok { IfOk result (λ r. Answers (fixed level bit (function store.old.nodes a)) store.old store.new r) }
    ensures full { result ≡ Err StoreError.Full → PassesLimit (fixed level bit (function store.old.nodes a)) store.old }
    ensures err { OnErr result (Adds (fixed level bit (function store.old.nodes a)) store.old.nodes store.new.nodes) }
    ensures limit { store.new.limit ≡ store.old.limit }
{
    Rewriter::new(alloc).fix(store, a, level, bit)
}
