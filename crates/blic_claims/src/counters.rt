// The claims on each node, counted from the root down.
ghost use Rattle.std.specs.Prelude.{◌≡◌, ◌<◌, ◌+◌, ◌^◌, ℕ, true, length, map, slice_index, slice_set, IfOk, OnOk};
ghost use Rattle.blic_model.specs.Counts.{handed_down};
ghost use Rattle.blic_model.specs.Shape.{children_below};
ghost use Rattle.blic_claims.specs.Counters.{all_claims, all_places, counted_places};

use blic_basic::NoMem;
use blic_model::{Circuit, Node};
use std::alloc::Global;

/// The number of claims on each node, and the places, among the claims on its children, of the
/// first claim that it hands down to each.
pub(crate) fn hand_all_down(
    alloc: Global,
    circuit: &Circuit,
) -> Result<(Vec<u32>, Vec<(u32, u32)>), NoMem>
    ensures counts { IfOk result (λ made. made.0.items ≡ all_claims circuit.now.nodes) }
    ensures places { IfOk result (λ made. map (λ s. (s.0, s.1)) made.1.items ≡ all_places circuit.now.nodes) }
{
    circuit.is_within_limits();
    let nodes = circuit.nodes();
    let mut counts = vec![in alloc; 0; nodes as usize]?;
    let mut places = vec![in alloc; (0, 0); nodes as usize]?;
    counts[nodes as usize - 1] = 1;
    let mut k = nodes;
    while 0 < k {
        k -= 1;
        places[k as usize] = hand_down(&mut counts, k as usize, circuit.node(k))?;
    }
    Ok((counts, places))
}

// Counts the claims that node `k` hands down; the answer is the place of the first for each child.
fn hand_down(counts: &mut [u32], k: usize, node: Node) -> Result<(u32, u32), NoMem>
    requires inside { k < length counts.old }
    requires children { children_below k node ≡ true }
    ensures each { OnOk result ((a : ℕ) → slice_index counts.new a ≡ slice_index counts.old a + handed_down node (slice_index counts.old k) a) }
    ensures places { IfOk result (λ places. (places.0, places.1) ≡ counted_places (slice_index counts.old) node) }
{
    match node {
        Node::Const(_) | Node::Var(_) => Ok((0, 0)),
        Node::Not(child) | Node::Fix { child, .. } => {
            let claims = counts[k];
            let first = add(counts, child as usize, claims)?;
            Ok((first, 0))
        }
        Node::And(left, right) | Node::Or(left, right) => {
            let first = add(counts, left as usize, 1)?;
            let second = add(counts, right as usize, 1)?;
            Ok((first, second))
        }
    }
}

// Counts so many claims more on a node; the answer is how many there were.
fn add(counts: &mut [u32], node: usize, claims: u32) -> Result<u32, NoMem>
    requires { node < length counts.old }
    ensures first { IfOk result (λ first. first ≡ slice_index counts.old node) }
    ensures more { OnOk result (counts.new ≡ slice_set counts.old node (slice_index counts.old node + claims)) }
{
    let first = counts[node];
    let Some(more) = first.checked_add(claims) else {
        return Err(NoMem);
    };
    counts[node] = more;
    Ok(first)
}
