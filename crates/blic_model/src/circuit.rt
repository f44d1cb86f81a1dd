// Circuits that a conversation can be held about.
ghost use Rattle.std.specs.Prelude.{◌≡◌, ◌<◌, ◌≤◌, length, IfOk, IfErr, IsTrue, ◌↔◌, slice_index, slice_index_or, []};
ghost use Rattle.blic_model.specs.Circuit.{node_at, root as root_of, free as free_levels_of};
ghost use Rattle.blic_model.specs.Shape.{IsShaped};
ghost use Rattle.blic_model.specs.CircuitLimits.{IsWithinLimits};
ghost use Rattle.blic_model.specs.Refusals.{IsCause};

use crate::circuit_limits::{MOST_POINTS, count_points, greatest_over};
use crate::claim_counts::count_claims;
use crate::free_levels::free_levels;
use crate::level_lists::LevelLists;
use crate::node::Node;
use crate::shape::is_shaped;
use blic_basic::NoMem;
use std::alloc::Global;
use std::marker::Model;
use thiserror::Error;

/// Why nodes make no circuit that a conversation is held about.
#[derive(Clone, Copy, Debug, PartialEq, Eq, Error)]
pub enum CircuitError {
    /// A binary node has more than 65,536 claims: the greatest such node, and how many it has.
    #[error("node {node} has {claims} claims, and may have 65536")]
    TooManyClaims { node: u32, claims: u64 },
    /// No node has too many claims, but there are more than 16,777,216 points: how many.
    #[error("the claims have {points} points, and may have 16777216")]
    TooManyPoints { points: u64 },
    /// Memory ran out.
    #[error("memory ran out")]
    NoMem,
}

/// A circuit: nodes of which each child comes before its parents and the root is the last, over an
/// order that gives each level its variable. It is within the limits of a conversation: at most
/// 65,536 claims on a binary node, and 16,777,216 points.
#[derive(Drop)]
pub struct Circuit {
    nodes: Vec<Node>,
    order: Vec<u32>,
    version: u16,
    free: LevelLists,
}

impl Model for Circuit {
    ghost use Rattle.std.specs.Prelude.{length};
    ghost use Rattle.blic_model.specs.Circuit.{OrderedCircuit};
    ghost use Rattle.blic_model.specs.CircuitTables.{IsKept};

    ghost Value = { OrderedCircuit };

    ghost view = { λ c. record { nodes = c.nodes.items; order = c.order.items; version = c.version } };

    ghost invariant = { λ c. IsKept c.nodes.items (length c.order.items) c.free };
}

impl Circuit {
    /// The circuit of these nodes over an order from level to variable. `shaped` tests the
    /// condition. Too many claims are reported before too many points.
    #[tactic(auto, using(crate::proofs::KeptLists::tabled_read, crate::proofs::KeptLists::levels_read))]
    pub fn new(
        alloc: Global,
        nodes: Vec<Node>,
        order: Vec<u32>,
        version: u16,
    ) -> Result<Circuit, CircuitError>
        requires { IsShaped nodes.items (length order.items) }
        ensures circuit { IfOk result (λ c. (c ≡ record { nodes = nodes.items; order = order.items; version = version }) × IsWithinLimits nodes.items (length order.items)) }
        ensures refused { IfErr result (IsCause nodes.items (length order.items)) }
    {
        let Ok(counts) = count_claims(alloc, &nodes) else {
            return Err(CircuitError::NoMem);
        };
        if let Some(node) = greatest_over(&nodes, &counts) {
            return Err(CircuitError::TooManyClaims {
                node,
                claims: u64::from(counts[node as usize]),
            });
        }
        let Ok(points) = count_points(alloc, &nodes, &counts, order.len()) else {
            return Err(CircuitError::NoMem);
        };
        if points > MOST_POINTS {
            return Err(CircuitError::TooManyPoints { points });
        }
        let Ok(free) = free_levels(alloc, &nodes) else {
            return Err(CircuitError::NoMem);
        };
        Ok(Circuit {
            nodes,
            order,
            version,
            free,
        })
    }

    /// Whether the nodes are a circuit over this order: from 1 to 4,194,304 nodes, no two of them
    /// equal, over fewer than 2^32 levels. Each node's children have smaller numbers, each node but
    /// the last is a child of another, and the last depends on no level.
    pub fn shaped(alloc: Global, nodes: &Vec<Node>, order: &Vec<u32>) -> Result<bool, NoMem>
        ensures { IfOk result (λ answer. IsTrue answer ↔ IsShaped nodes.now.items (length order.now.items)) }
    {
        is_shaped(alloc, nodes, order.len())
    }

    /// The number of nodes.
    pub fn nodes(&self) -> u32
        ensures { result ≡ length self.now.nodes }
    {
        self.nodes.len() as u32
    }

    /// Node `i`, counted from 0.
    pub fn node(&self, i: u32) -> Node
        requires { i < length self.now.nodes }
        ensures { result ≡ node_at self.now.nodes i }
    {
        self.nodes[i as usize]
    }

    /// The number of the root, the last node.
    pub fn root(&self) -> u32
        ensures { result ≡ root_of self.now.nodes }
    {
        self.nodes.len() as u32 - 1
    }

    /// The number of levels.
    pub fn levels(&self) -> u32
        ensures { result ≡ length self.now.order }
    {
        self.order.len() as u32
    }

    /// The variable of a level.
    pub fn variable(&self, level: u32) -> u32
        requires { level < length self.now.order }
        ensures { result ≡ slice_index self.now.order level }
    {
        self.order[level as usize]
    }

    /// The version of the rules by which the circuit was made.
    pub fn version(&self) -> u16
        ensures { result ≡ self.now.version }
    {
        self.version
    }

    /// How many levels node `i` depends on: its free levels (the support).
    pub fn free_count(&self, i: u32) -> u32
        requires { i < length self.now.nodes }
        ensures { result ≡ length (free_levels_of self.now.nodes (length self.now.order) i) }
    {
        self.free.len(i as usize) as u32
    }

    /// Free level `j` of node `i`; the topmost is free level 0.
    pub fn free_at(&self, i: u32, j: u32) -> u32
        requires node { i < length self.now.nodes }
        requires level { j < length (free_levels_of self.now.nodes (length self.now.order) i) }
        ensures { result ≡ slice_index (free_levels_of self.now.nodes (length self.now.order) i) j }
    {
        self.free.level(i as usize, j as usize)
    }

    /// A law: each circuit has a circuit's shape, and is within the limits.
    pub fn is_within_limits(&self)
        ensures shaped { IsShaped self.now.nodes (length self.now.order) }
        ensures limits { IsWithinLimits self.now.nodes (length self.now.order) }
    {
        let _fields = &self.nodes;
    }
}
