// How many claims each node of a circuit has.
ghost use Rattle.std.specs.Prelude.{◌≡◌, ◌≤◌, ◌<◌, ◌+◌, ◌^◌, ◌==◌, ℕ, length, take, sum, cond, true, IfOk, slice_index, slice_set};
ghost use Rattle.blic_model.specs.Counts.{handed_down, is_binary};
ghost use Rattle.blic_model.specs.Circuit.{root};
ghost use Rattle.blic_model.specs.Shape.{children_below};
ghost use Rattle.blic_model.specs.CircuitTables.{IsTabled, HasClaims};

use crate::node::Node;
use blic_basic::NoMem;
use std::alloc::Global;

/// The number of claims on each node.
pub(crate) fn count_claims(alloc: Global, nodes: &[Node]) -> Result<Vec<u32>, NoMem>
    requires { IsTabled nodes.now }
    ensures { IfOk result (λ counts. HasClaims nodes.now counts.items) }
{
    let root = nodes.len() - 1;
    let Ok(mut counts) = vec![in alloc; 0; nodes.len()] else {
        return Err(NoMem);
    };
    counts[root] = 1;
    hand_all_down(nodes, &mut counts);
    Ok(counts)
}

// Hands the root's claim down, one node after another.
fn hand_all_down(nodes: &[Node], counts: &mut [u32])
    requires nodes { IsTabled nodes.now }
    requires long { length counts.old ≡ length nodes.now }
    requires start { (k : ℕ) → slice_index counts.old k ≡ cond (k == root nodes.now) 1 0 }
    requires one { sum counts.old ≡ 1 }
    ensures { HasClaims nodes.now counts.new }
{
    let mut i = nodes.len();
    while 0 < i {
        i -= 1;
        hand_down(counts, i, nodes[i]);
    }
}

// Hands the claims of parent `i` down to its children.
fn hand_down(counts: &mut [u32], i: usize, parent: Node)
    requires inside { i < length counts.old }
    requires children { children_below i parent ≡ true }
    requires room { sum (take (i + 1) counts.old) ≤ 16777216 }
    ensures each { (k : ℕ) → slice_index counts.new k ≡ slice_index counts.old k + handed_down parent (slice_index counts.old i) k }
    ensures few { sum (take i counts.new) + cond (is_binary parent) (slice_index counts.old i) 0 ≤ sum (take i counts.old) + slice_index counts.old i + 2 }
{
    match parent {
        Node::Const(_) | Node::Var(_) => {}
        Node::Not(child) | Node::Fix { child, .. } => {
            let claims = counts[i];
            add(counts, child as usize, claims);
        }
        Node::And(left, right) | Node::Or(left, right) => {
            add(counts, left as usize, 1);
            add(counts, right as usize, 1);
        }
    }
}

fn add(counts: &mut [u32], at: usize, claims: u32)
    requires inside { at < length counts.old }
    requires room { slice_index counts.old at + claims < 2 ^ 32 }
    ensures { counts.new ≡ slice_set counts.old at (slice_index counts.old at + claims) }
{
    counts[at] += claims;
}
