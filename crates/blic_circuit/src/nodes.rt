// A list of nodes without two equal ones.
ghost use Rattle.std.specs.Prelude.{◌≡◌, ◌^◌, ◌+◌, ◌<◌, ◌∷◌, [], length, IfOk, OnOk, IsTrue, ◌≤◌};
ghost use Rattle.blic_model.specs.Building.{Added, add_node, same_node};
ghost use Rattle.blic_model.specs.Shape.{all_differ};
ghost use Rattle.blic_circuit.specs.Numbers.{hash_of, mix, number_of};

use blic_basic::NoMem;
use blic_model::Node;
use blic_store::UniqueTable;
use std::alloc::Global;
use std::marker::Model;

/// A list of nodes, no two of which are equal, with a table in which each one is found by its hash.
#[derive(Drop)]
pub(crate) struct NodeList {
    nodes: Vec<Node>,
    table: UniqueTable,
}

impl Model for NodeList {
    ghost use Rattle.std.specs.Prelude.{List};
    ghost use Rattle.blic_model.specs.declared.node.Node.{Node};
    ghost use Rattle.blic_circuit.specs.Numbers.{IsEntered};

    ghost Value = { List Node };

    ghost view = { λ l. l.nodes.items };

    ghost invariant = { λ l. IsEntered l.nodes.items l.table };
}

impl NodeList {
    /// A list without nodes.
    pub(crate) fn new(alloc: Global) -> Result<NodeList, NoMem>
        ensures { IfOk result (λ list. list ≡ []) }
    {
        Ok(NodeList {
            nodes: Vec::new(alloc),
            table: UniqueTable::new(alloc)?,
        })
    }

    /// The number of the node's equal in the list, to which the node is appended if there is none.
    pub(crate) fn add(&mut self, node: Node) -> Result<u32, NoMem>
        requires { length self.old + 1 < 2 ^ 32 }
        ensures nodes { IfOk result (λ number. record { nodes = self.new; number = number } ≡ add_node node self.old) }
        ensures grown { OnOk result (length self.new ≤ length self.old + 1) }
    {
        if let Some(number) = self.find(node) {
            return Ok(number);
        }
        let number = self.nodes.len() as u32;
        self.nodes.reserve(1)?;
        self.table.enter(hash(node))?;
        self.nodes.push_reserved(node);
        Ok(number)
    }

    // The number of the node's equal in the list.
    fn find(&self, node: Node) -> Option<u32>
        ensures { result ≡ number_of self.now node }
    {
        let mut candidate = self.table.newest(hash(node));
        while let Some(k) = candidate {
            if is_same(node, self.nodes[k as usize]) {
                return Some(k);
            }
            candidate = self.table.older(k);
        }
        None
    }

    /// The nodes of the list, no two of which are equal.
    pub(crate) fn into_nodes(self) -> Vec<Node>
        ensures nodes { result.items ≡ self }
        ensures distinct { IsTrue (all_differ result.items) }
    {
        self.nodes
    }
}

fn is_same(left: Node, right: Node) -> bool
    ensures { result ≡ same_node left right }
{
    left == right
}

// The hash of a node. Nodes of one kind whose first children stand near each other mostly have near hashes.
fn hash(node: Node) -> u32
    ensures { result ≡ hash_of node }
{
    match node {
        Node::Const(bit) => mixed(0, u32::from(bit), 0),
        Node::Var(level) => mixed(1, level, 0),
        Node::Not(child) => mixed(2, child, 0),
        Node::Fix { level, bit, child } => mixed(3 + u32::from(bit), child, level),
        Node::And(left, right) => mixed(5, left, right),
        Node::Or(left, right) => mixed(6, left, right),
    }
}

fn mixed(kind: u32, first: u32, second: u32) -> u32
    requires { kind < 8 }
    ensures { result ≡ mix kind first second }
{
    let sum = u64::from(first) + u64::from(second) * 2654435761 + u64::from(kind) * 2246822519;
    (sum % 4294967296) as u32
}
