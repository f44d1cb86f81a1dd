// Certifying the answer of a prover at the other end of a link.
ghost use Rattle.std.specs.Prelude.{◌≡◌, ◌≤◌, ◌<◌, ◌*◌, ◌+◌, ◌^◌, Bool, ℕ, None, Some, false};
ghost use Rattle.blic_input.specs.Faults.{Counts, Entropy as TheEntropy, Files as TheFiles};
ghost use Rattle.blic_input.specs.Problem.{instance_of};
ghost use Rattle.blic_input.specs.Stops.{CanStart};
ghost use Rattle.blic_input.specs.Tasks.{Made};
ghost use Rattle.blic_top.specs.Conversing.{OverLink, Records};
ghost use Rattle.blic_top.specs.Deciding.{Decides, DecidesAll};
ghost use Rattle.blic_top.specs.Deed.{Deed, Trace};
ghost use Rattle.blic_top.specs.Faults.{WriteCounts, fault_in};
ghost use Rattle.blic_top.specs.Jobs.{series_of, verify_job};
ghost use Rattle.blic_top.specs.Series.{draws_about, draws_of};
ghost use Rattle.blic_top.specs.Turning.{Comes, CourseCounts, IsDialed, IsDoneOver, IsTurn};
ghost use Rattle.blic_words.specs.Requests.{HasRepeat, Verify};

use crate::certify::said_of;
use crate::conversations::{Course, Draws, agree, settled};
use crate::outcome::Outcome;
use blic_basic::{Entropy, Files, Sink};
use blic_claims::{Layout, claims_law};
use blic_client::{Client, Verdict, verify_link};
use blic_input::{Problem, seed_of};
use blic_link::{Dialed, Dialer};
use blic_verifier::hearing_law;
use blic_words::Options;
use std::alloc::Global;

/// What `verify` is asked for: a file, an address, and the options.
#[derive(Clone, Copy)]
pub(crate) struct Target<'w> {
    pub(crate) file: &'w str,
    pub(crate) address: &'w str,
    pub(crate) options: Options,
}

/// Checks the answer of the prover at an address for the formula of a file. `None` if a line of a conversation could not be printed.
pub(crate) fn verify<F: Files, D: Dialer, E: Entropy, O: Sink>(
    alloc: Global,
    target: Target<'_>,
    files: &mut F,
    dialer: &mut D,
    entropy: &mut E,
    out: &mut O,
) -> Option<Outcome>
    requires free { D.is_lent dialer.old ≡ false }
    requires repeat { HasRepeat target.options }
    ensures free { D.is_lent dialer.new ≡ false }
    ensures decides { (deed : Deed) × IsDoneOver (E.seeds entropy.old) (E.seeds entropy.new)
        (record { ended = D.entries dialer.old; missed = D.missed dialer.old; faults = D.faults dialer.old })
        (record { ended = D.entries dialer.new; missed = D.missed dialer.new; faults = D.faults dialer.new }) deed
        × ((alters : Bool) → DecidesAll (Some (Verify target.entry.file.now target.entry.address.now target.entry.options)) (record { files = F.files files.old; alters = alters }) deed (O.held out.old) (O.held out.new) result) }
    ensures read_cause { Counts TheFiles (fault_in result) (F.faults files.old) (F.faults files.new) }
    ensures entropy_cause { Counts TheEntropy (fault_in result) (E.faults entropy.old) (E.faults entropy.new) }
    ensures write_cause { WriteCounts result (O.faults out.old) (O.faults out.new) }
{
    match Problem::of_file(alloc, target.file, files) {
        Ok(problem) => verify_problem(alloc, &problem, target, dialer, entropy, out),
        Err(stop) => Some(Outcome::Stopped(stop)),
    }
}

// Takes all the memory, then the seed, and leads the conversations.
fn verify_problem<D: Dialer, E: Entropy, O: Sink>(
    alloc: Global,
    problem: &Problem,
    target: Target<'_>,
    dialer: &mut D,
    entropy: &mut E,
    out: &mut O,
) -> Option<Outcome>
    requires free { D.is_lent dialer.old ≡ false }
    requires repeat { HasRepeat target.options }
    ensures free { D.is_lent dialer.new ≡ false }
    ensures decides { (deed : Deed) × IsDoneOver (E.seeds entropy.old) (E.seeds entropy.new)
        (record { ended = D.entries dialer.old; missed = D.missed dialer.old; faults = D.faults dialer.old })
        (record { ended = D.entries dialer.new; missed = D.missed dialer.new; faults = D.faults dialer.new }) deed
        × ((alters : Bool) → Decides (verify_job (Made problem.now) (series_of target.entry.options)) (record { files = None; alters = alters }) deed (O.held out.old) (O.held out.new) result) }
    ensures entropy_cause { Counts TheEntropy (fault_in result) (E.faults entropy.old) (E.faults entropy.new) }
    ensures write_cause { WriteCounts result (O.faults out.old) (O.faults out.new) }
    ensures no_read_fault { (n : ℕ) → Counts TheFiles (fault_in result) n n }
{
    let circuit = problem.circuit();
    problem.truth_law();
    circuit.is_within_limits();
    claims_law();
    let Options {
        seed,
        talk,
        repeat,
        ..
    } = target.options;
    let Ok(layout) = Layout::new(alloc, circuit) else {
        return Some(Outcome::NoMemory);
    };
    let Ok(hello) = problem.hello(alloc) else {
        return Some(Outcome::NoMemory);
    };
    let Ok(mut client) = Client::new(alloc, circuit, &layout, hello, talk) else {
        return Some(Outcome::NoMemory);
    };
    let seed = match seed_of(seed, entropy) {
        Ok(seed) => seed,
        Err(stop) => return Some(Outcome::Stopped(stop)),
    };
    let draws = Draws {
        seed,
        first: 0,
        each: layout.draws(),
        count: repeat,
    };
    let course = lead(&mut client, problem, draws, target.address, dialer, out);
    said_of(course, problem, hello, draws, layout.bad())
}

// Leads conversations about a problem, each over a link of its own, until one isn't certified with the answer of the first.
fn lead<D: Dialer, O: Sink>(
    client: &mut Client<'_>,
    problem: &Problem,
    draws: Draws,
    address: &str,
    dialer: &mut D,
    out: &mut O,
) -> Course
    requires free { D.is_lent dialer.old ≡ false }
    requires about { client.old.about ≡ instance_of problem.now }
    requires some { 0 < draws.count }
    requires each { draws.each ≡ draws_about problem.now }
    requires few { draws.first + draws.count * draws.each ≤ 2 ^ 61 }
    ensures free { D.is_lent dialer.new ≡ false }
    ensures comes { (trace : Trace)
        × IsDialed (record { ended = D.entries dialer.old; missed = D.missed dialer.old; faults = D.faults dialer.old })
        (record { ended = D.entries dialer.new; missed = D.missed dialer.new; faults = D.faults dialer.new }) trace
        × Comes (OverLink problem.now (draws_of problem.now draws.seed draws.first) client.old.talk)
        (Records problem.now (draws_of problem.now draws.seed draws.first) client.old.talk) draws.count trace (O.held out.old) (O.held out.new) result }
    ensures cause { CourseCounts (O.faults out.old) (O.faults out.new) result }
{
    let mut agreed = None;
    for number in 0..draws.count {
        let verdict = lead_one(client, problem, (draws, number), address, dialer, out);
        match agree(agreed, verdict) {
            Ok(truth) => agreed = Some(truth),
            Err(course) => return course,
        }
    }
    settled(agreed)
}

// Leads the conversation of this number, and hangs up.
fn lead_one<D: Dialer, O: Sink>(
    client: &mut Client<'_>,
    problem: &Problem,
    at: (Draws, u32),
    address: &str,
    dialer: &mut D,
    out: &mut O,
) -> Verdict
    requires free { D.is_lent dialer.old ≡ false }
    requires about { client.old.about ≡ instance_of problem.now }
    requires each { at.0.each ≡ draws_about problem.now }
    requires few { at.0.first + at.1 * at.0.each ≤ 2 ^ 61 }
    ensures free { D.is_lent dialer.new ≡ false }
    ensures same { client.new ≡ client.old }
    ensures turn { (trace : Trace)
        × IsDialed (record { ended = D.entries dialer.old; missed = D.missed dialer.old; faults = D.faults dialer.old })
        (record { ended = D.entries dialer.new; missed = D.missed dialer.new; faults = D.faults dialer.new }) trace
        × IsTurn (OverLink problem.now (draws_of problem.now at.0.seed at.0.first) client.old.talk)
        (Records problem.now (draws_of problem.now at.0.seed at.0.first) client.old.talk) at.1 trace (O.held out.old) (O.held out.new) result }
    ensures cause { CourseCounts (O.faults out.old) (O.faults out.new) (Course.Failed result) }
{
    problem.truth_law();
    problem.circuit().is_within_limits();
    hearing_law();
    let (
        Draws {
            seed,
            first,
            each,
            ..
        },
        number,
    ) = at;
    let Dialed::Link(mut link) = dialer.dial(address) else {
        return Verdict::LinkFault;
    };
    let first = first + number as u64 * each;
    let verdict = verify_link(client, &mut link, (seed, first), out);
    dialer.hang_up(link);
    verdict
}
