// Conversations over links as their callers see them.
ghost use Rattle.std.specs.Prelude.{◌≡◌, ◌≤◌, ◌<◌, ◌^◌, ℕ, List, IfOk, true};
ghost use Rattle.blic_claims.specs.Places.{layout_of};
ghost use Rattle.blic_draw.specs.DrawRun.{draw_from};
ghost use Rattle.blic_link.specs.Passing.{Piece, got, sent_bytes, with_pieces};
ghost use Rattle.blic_verifier.specs.Hearing.{record_frames};
ghost use Rattle.blic_client.specs.Linked.{IsHeld, IsRecorded, LinkCounts, WriteCounts};
ghost use Rattle.blic_client.specs.UnderWay.{AreFitted, linking};

use crate::machine::Machine;
use crate::verdict::Verdict;
use blic_basic::{NoMem, Sink, Steps};
use blic_claims::Layout;
use blic_link::Link;
use blic_messages::Hello;
use blic_model::Circuit;
use std::alloc::Global;
use std::marker::{Brand, Model};
use std::sync::ledger::{Blank, Ledger};

/// The client's end of one conversation at a time about a circuit, with all the memory that it takes: 1.6 MB, as much again if lines
/// are printed, and the verifier's.
#[derive(Drop)]
pub struct Client<'c> {
    machine: Machine<'c>,
}

impl<'c> Model for Client<'c> {
    ghost use Rattle.blic_client.specs.Linked.{Linking};
    ghost use Rattle.blic_client.specs.UnderWay.{AreFitted, linking};

    ghost Value = { Linking };

    ghost view = { λ c. linking c.machine };

    ghost invariant = { λ c. AreFitted c.machine };
}

impl<'c> Client<'c> {
    /// A client about the circuit, which `hello` names. With `talk` a line is printed for each frame. No other call takes memory.
    pub fn new(
        alloc: Global,
        circuit: &'c Circuit,
        layout: &'c Layout,
        hello: Hello,
        talk: bool,
    ) -> Result<Client<'c>, NoMem>
        requires { layout.now ≡ layout_of circuit.now }
        ensures { IfOk result (λ c. c ≡ record { about = record { circuit = circuit.now; hello = hello }; talk = talk }) }
    {
        Ok(Client {
            machine: Machine::new(alloc, circuit, layout, hello, talk)?,
        })
    }
}

/// Leads a conversation over the link, from its first ask to its end, with the draws (challenges) of the seed `draws.0` from draw
/// `draws.1` on, which is at most 2^61. It sends an ask once the reply before it has come whole, takes bytes once all asks so far were
/// sent, and sends Bye if the answer was accepted; a fault of that call changes nothing. Bytes behind the last reply aren't judged.
/// A client that was made with `talk` prints a line for each frame as soon as it is whole. The call waits as long as the link does.
pub fn verify_link<K: Link, O: Sink>(
    client: &mut Client<'_>,
    link: &mut K,
    draws: ([u8; 32], u64),
    out: &mut O,
) -> Verdict
    requires usable { K.is_usable link.old ≡ true }
    requires first { draws.1 ≤ 2 ^ 61 }
    ensures same { client.new ≡ client.old }
    ensures usable { K.is_usable link.new ≡ true }
    ensures held { (pieces : List Piece) × (K.pieces link.new ≡ with_pieces (K.pieces link.old) pieces)
        × IsHeld client.old (draw_from (record { seed = draws.0; first = draws.1 })) pieces (K.coming link.new) (K.faults link.old) (K.faults link.new) result
        × IsRecorded client.old (record_frames client.old.about (draw_from (record { seed = draws.0; first = draws.1 })) (got pieces) (sent_bytes pieces)) (O.held out.old) (O.held out.new) result }
    ensures link_cause { LinkCounts (K.faults link.old) (K.faults link.new) result }
    ensures write_cause { WriteCounts (O.faults out.old) (O.faults out.new) result }
{
    lead::<K, O, Brand>(&mut client.machine, link, draws, out, Blank::new(1))
}

// The same, with a count of products for contracts alone.
fn lead<K: Link, O: Sink, L: Ledger>(
    machine: &mut Machine<'_>,
    link: &mut K,
    draws: ([u8; 32], u64),
    out: &mut O,
    blank: Blank,
) -> Verdict
    requires name { blank.name ≡ L.name }
    requires parts { blank.parts ≡ L.parts }
    requires some { 0 < L.parts }
    requires fitted { AreFitted machine.old }
    requires usable { K.is_usable link.old ≡ true }
    requires first { draws.1 ≤ 2 ^ 61 }
    ensures fitted { AreFitted machine.new }
    ensures same { linking machine.new ≡ linking machine.old }
    ensures usable { K.is_usable link.new ≡ true }
    ensures held { (pieces : List Piece) × (K.pieces link.new ≡ with_pieces (K.pieces link.old) pieces)
        × IsHeld (linking machine.old) (draw_from (record { seed = draws.0; first = draws.1 })) pieces (K.coming link.new) (K.faults link.old) (K.faults link.new) result
        × IsRecorded (linking machine.old) (record_frames (linking machine.old).about (draw_from (record { seed = draws.0; first = draws.1 })) (got pieces) (sent_bytes pieces)) (O.held out.old) (O.held out.new) result }
    ensures link_cause { LinkCounts (K.faults link.old) (K.faults link.new) result }
    ensures write_cause { WriteCounts (O.faults out.old) (O.faults out.new) result }
{
    let mut steps = Steps::<L>::new(blank);
    let hello = machine.begin(draws.0, draws.1);
    machine.run(&hello, link, out, &mut steps)
}
