// Which node's operands a scratch is about.
ghost use Rattle.std.specs.Prelude.{◌≡◌, ◌<◌, ◌≤◌, IfSome, length, true};
ghost use Rattle.blic_model.specs.Circuit.{node_at, root};
ghost use Rattle.blic_model.specs.Counts.{is_binary};
ghost use Rattle.blic_model.specs.Subfunctions.{size};
ghost use Rattle.blic_solve.specs.Plan.{IsPlan};
ghost use Rattle.blic_engine.specs.Rooms.{IsAbout};

use crate::join::join_of;
use blic_eval::Scratch;
use blic_model::Circuit;
use blic_solve::Plan;

/// Makes the scratch be about the operands of a binary node. If it is already, it isn't touched.
pub(crate) fn begin(
    circuit: &Circuit,
    plan: &Plan,
    node: u32,
    about: &mut Option<u32>,
    scratch: &mut Scratch,
)
    requires plan { IsPlan circuit.now.nodes (length circuit.now.order) plan.now }
    requires node { node < length circuit.now.nodes }
    requires binary { is_binary (node_at circuit.now.nodes node) ≡ true }
    requires room { size circuit.now.nodes (length circuit.now.order) (root circuit.now.nodes) ≤ scratch.old.nodes }
    requires about { IfSome about.old (λ k. IsAbout circuit.now.nodes plan.now k scratch.old.reached) }
    ensures about { about.new ≡ Some node }
    ensures reached { IsAbout circuit.now.nodes plan.now node scratch.new.reached }
    ensures nodes { scratch.new.nodes ≡ scratch.old.nodes }
    ensures pairs { scratch.new.pairs ≡ scratch.old.pairs }
{
    circuit.is_within_limits();
    if *about == Some(node) {
        return;
    }
    let Some(join) = join_of(circuit.node(node)) else {
        return;
    };
    let (first, second) = (plan.root(join.first), plan.root(join.second));
    scratch.begin(plan.store(), first, second);
    *about = Some(node);
}
