// Where the claims on each node are kept.
ghost use Rattle.std.specs.Prelude.{◌≡◌, ◌<◌, length, IfOk};
ghost use Rattle.blic_model.specs.Circuit.{OrderedCircuit};
ghost use Rattle.blic_model.specs.Counts.{claims as claims_of, draws as draws_of, bad as bad_of};
ghost use Rattle.blic_claims.specs.Turns.{turns};
ghost use Rattle.blic_claims.specs.Counters.{all_claims, rows_below, totals_below};
ghost use Rattle.blic_claims.specs.Places.{layout_of, row_at, first_place, second_place, HasMostClaims, IsClaimsOfBinary};

use crate::counters::hand_all_down;
use crate::totals::Totals;
use blic_basic::NoMem;
use blic_model::{Circuit, Node};
use std::alloc::Global;
use std::marker::Model;

/// The claims on a node: their coordinates start at `start` and their values at `first`, there are
/// `claims` of them, and each has `width` coordinates.
#[derive(Clone, Copy, Debug, PartialEq, Eq)]
pub struct Row {
    pub start: usize,
    pub first: usize,
    pub claims: u32,
    pub width: u32,
}

/// Where the claims of a circuit are kept: they follow each other node by node, and the claims that a
/// node hands down have their fixed places.
#[derive(Drop)]
pub struct Layout {
    rows: Vec<Row>,
    handed: Vec<(u32, u32)>,
    draws: u64,
    bad: u64,
    replies: u64,
}

impl Model for Layout {
    ghost use Rattle.std.specs.Prelude.{◌<◌, ◌^◌, length, map};
    ghost use Rattle.blic_claims.specs.Places.{Places};

    ghost Value = { Places };

    ghost view = { λ l. record {
      rows = l.rows.items;
      handed = map (λ s. (s.0, s.1)) l.handed.items;
      draws = l.draws;
      bad = l.bad;
      replies = l.replies;
    } };

    ghost invariant = { λ l. length l.rows.items < 2 ^ 32 };
}

impl Layout {
    /// The layout of a circuit. A count that fits no machine word, which no formula's circuit has, is
    /// reported as out of memory.
    pub fn new(alloc: Global, circuit: &Circuit) -> Result<Layout, NoMem>
        ensures { IfOk result (λ l. l ≡ layout_of circuit.now) }
    {
        circuit.is_within_limits();
        let (counts, handed) = hand_all_down(alloc, circuit)?;
        let (rows, totals) = rows_of(alloc, circuit, &counts)?;
        Ok(Layout {
            rows,
            handed,
            draws: totals.draws,
            bad: 2 * totals.points,
            replies: totals.replies,
        })
    }

    /// The number of nodes.
    pub fn nodes(&self) -> u32
        ensures { (c : OrderedCircuit) → self.now ≡ layout_of c → result ≡ length c.nodes }
    {
        self.rows.len() as u32
    }

    /// The row of a node.
    pub fn row(&self, node: u32) -> Row
        requires { node < length self.now.rows }
        ensures { result ≡ row_at self.now.rows node }
    {
        self.rows[node as usize]
    }

    /// The rows of all nodes.
    pub(crate) fn rows(&self) -> &[Row]
        ensures { result.now ≡ self.now.rows }
    {
        &self.rows
    }

    /// The places, among the claims on its children, of the first claim that a node hands down to each;
    /// 0 for a child that it lacks.
    pub fn handed(&self, node: u32) -> (u32, u32)
        requires { node < length self.now.handed }
        ensures first { result.0 ≡ first_place self.now node }
        ensures second { result.1 ≡ second_place self.now node }
    {
        self.handed[node as usize]
    }

    /// The number of claims on a node.
    pub fn claims(&self, node: u32) -> u32
        requires { node < length self.now.rows }
        ensures { (c : OrderedCircuit) → self.now ≡ layout_of c → result ≡ claims_of c.nodes node }
    {
        self.row(node).claims
    }

    /// The greatest number of claims on a binary node of the circuit, 0 if there is none.
    pub fn most_claims(&self, circuit: &Circuit) -> u32
        requires { self.now ≡ layout_of circuit.now }
        ensures most { HasMostClaims circuit.now result }
        ensures exact { IsClaimsOfBinary circuit.now result }
    {
        let mut most = 0;
        for node in 0..circuit.nodes() {
            if let Node::And(..) | Node::Or(..) = circuit.node(node) {
                most = most.max(self.claims(node));
            }
        }
        most
    }

    /// The number of draws (challenges) in a conversation.
    pub fn draws(&self) -> u64
        ensures { (c : OrderedCircuit) → self.now ≡ layout_of c → result ≡ draws_of c.nodes (length c.order) }
    {
        self.draws
    }

    /// How many bad elements there are at most, over all draws of a conversation.
    pub fn bad(&self) -> u64
        ensures { (c : OrderedCircuit) → self.now ≡ layout_of c → result ≡ bad_of c.nodes (length c.order) }
    {
        self.bad
    }

    /// The number of replies after the answer.
    pub fn replies(&self) -> u64
        ensures { (c : OrderedCircuit) → self.now ≡ layout_of c → result ≡ length (turns c.nodes (length c.order)) }
    {
        self.replies
    }
}

// The rows of the nodes, one behind the other, and the sums over all of them.
fn rows_of(alloc: Global, circuit: &Circuit, counts: &[u32]) -> Result<(Vec<Row>, Totals), NoMem>
    requires { counts.now ≡ all_claims circuit.now.nodes }
    ensures rows { IfOk result (λ made. made.0.items ≡ rows_below circuit.now.nodes (length circuit.now.order) (length circuit.now.nodes)) }
    ensures totals { IfOk result (λ made. made.1 ≡ totals_below circuit.now.nodes (length circuit.now.order) (length circuit.now.nodes)) }
{
    let mut rows = Vec::with_capacity(alloc, counts.len())?;
    let mut totals = Totals::NONE;
    for k in 0..circuit.nodes() {
        let claims = counts[k as usize];
        let width = circuit.free_count(k);
        rows.push(Row {
            start: totals.coordinates as usize,
            first: totals.claims as usize,
            claims,
            width,
        })?;
        totals = totals.plus(Totals::of(claims, width, circuit.node(k)))?;
    }
    Ok((rows, totals))
}
