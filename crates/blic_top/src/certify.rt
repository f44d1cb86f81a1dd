// Certifying a formula by conversations in one process.
ghost use Rattle.std.specs.Prelude.{◌≡◌, ◌≤◌, ◌^◌, ℕ, None};
ghost use Rattle.blic_input.specs.Faults.{Counts, Entropy as TheEntropy, Files as TheFiles};
ghost use Rattle.blic_input.specs.Stops.{CanStart};
ghost use Rattle.blic_top.specs.Deciding.{Decides, IsFailureOf, IsSaidOf, job_by};
ghost use Rattle.blic_top.specs.Deed.{Deed};
ghost use Rattle.blic_top.specs.Faults.{WriteCounts, fault_in};
ghost use Rattle.blic_top.specs.Jobs.{limits_of};
ghost use Rattle.blic_top.specs.Turning.{IsDoneHere};
ghost use Rattle.blic_words.specs.Requests.{HasRepeat};

use crate::conversations::{Course, Draws, hold};
use crate::outcome::{Answer, End, Failure, Outcome, Tally};
use blic_basic::{Entropy, Sink, Watch};
use blic_claims::{Layout, claims_law};
use blic_client::Verdict;
use blic_engine::{Desk, Engine};
use blic_input::{Problem, SolveLimits, Stop, seed_of};
use blic_messages::Hello;
use blic_talk::Conversation;
use blic_verifier::Ending;
use blic_words::Options;
use std::alloc::Global;

/// How many cells an engine is asked for. This version's engine uses none.
const CELLS: u32 = 4096;

/// How a formula is certified: the options, and which of the seed's draws is the first.
#[derive(Clone, Copy)]
pub(crate) struct CertifyOptions {
    pub(crate) options: Options,
    pub(crate) first: u64,
}

/// Certifies the problem, if it can be solved within the limits. `None` if a line of a conversation could not be printed.
pub(crate) fn certify_problem<E: Entropy, W: Watch, O: Sink>(
    alloc: Global,
    problem: &Problem,
    options: &CertifyOptions,
    entropy: &mut E,
    watch: &mut W,
    out: &mut O,
) -> Option<Outcome>
    requires first { options.now.first ≤ 2 ^ 60 }
    requires repeat { HasRepeat options.now.options }
    ensures alters { W.alters watch.new ≡ W.alters watch.old }
    ensures decides { (deed : Deed) × IsDoneHere (E.seeds entropy.old) (E.seeds entropy.new) (W.frames watch.old) (W.frames watch.new) deed
        × Decides (job_by problem.now options.now) (record { files = None; alters = W.alters watch.old }) deed (O.held out.old) (O.held out.new) result }
    ensures entropy_cause { Counts TheEntropy (fault_in result) (E.faults entropy.old) (E.faults entropy.new) }
    ensures write_cause { WriteCounts result (O.faults out.old) (O.faults out.new) }
    ensures no_read_fault { (n : ℕ) → Counts TheFiles (fault_in result) n n }
{
    problem.truth_law();
    let SolveLimits { nodes, pairs } = limits_by(&options.options);
    match Engine::new(alloc, problem.circuit(), nodes, pairs, CELLS) {
        Ok(engine) => converse(alloc, problem, &engine, options, entropy, watch, out),
        Err(error) => Some(Outcome::Stopped(Stop::NotSolved(error))),
    }
}

// Takes the memory of the conversations, then the seed, and holds them.
fn converse<E: Entropy, W: Watch, O: Sink>(
    alloc: Global,
    problem: &Problem,
    engine: &Engine<'_>,
    options: &CertifyOptions,
    entropy: &mut E,
    watch: &mut W,
    out: &mut O,
) -> Option<Outcome>
    requires engine { engine.now ≡ problem.now.circuit }
    requires can { CanStart problem.now (job_by problem.now options.now).task }
    requires first { options.now.first ≤ 2 ^ 60 }
    requires repeat { HasRepeat options.now.options }
    ensures alters { W.alters watch.new ≡ W.alters watch.old }
    ensures decides { (deed : Deed) × IsDoneHere (E.seeds entropy.old) (E.seeds entropy.new) (W.frames watch.old) (W.frames watch.new) deed
        × Decides (job_by problem.now options.now) (record { files = None; alters = W.alters watch.old }) deed (O.held out.old) (O.held out.new) result }
    ensures entropy_cause { Counts TheEntropy (fault_in result) (E.faults entropy.old) (E.faults entropy.new) }
    ensures write_cause { WriteCounts result (O.faults out.old) (O.faults out.new) }
    ensures no_read_fault { (n : ℕ) → Counts TheFiles (fault_in result) n n }
{
    let circuit = problem.circuit();
    circuit.is_within_limits();
    claims_law();
    let Options {
        seed,
        talk,
        repeat,
        ..
    } = options.options;
    let Ok(layout) = Layout::new(alloc, circuit) else {
        return Some(Outcome::NoMemory);
    };
    let Ok(hello) = problem.hello(alloc) else {
        return Some(Outcome::NoMemory);
    };
    let Ok(mut conversation) = Conversation::new(alloc, circuit, &layout, hello, talk) else {
        return Some(Outcome::NoMemory);
    };
    let Ok(mut answers) = Desk::new(alloc, &*engine, 0) else {
        return Some(Outcome::NoMemory);
    };
    let seed = match seed_of(seed, entropy) {
        Ok(seed) => seed,
        Err(stop) => return Some(Outcome::Stopped(stop)),
    };
    let draws = Draws {
        seed,
        first: options.first,
        each: layout.draws(),
        count: repeat,
    };
    let course = hold(&mut conversation, problem, draws, &mut answers, watch, out);
    said_of(course, problem, hello, draws, layout.bad())
}

/// What is said of what conversations came to. `None` if a line could not be printed.
pub(crate) fn said_of(
    course: Course,
    problem: &Problem,
    hello: Hello,
    draws: Draws,
    bad: u64,
) -> Option<Outcome>
    ensures { IsSaidOf course problem.now hello draws bad result }
{
    match course {
        Course::Agreed(truth) => Some(Outcome::Done(End::Certified(
            Answer {
                truth,
                vars: problem.vars(),
                clauses: problem.clauses(),
            },
            Tally {
                runs: draws.count,
                draws: draws.each,
                bad,
            },
        ))),
        Course::Differ => Some(Outcome::Done(End::Differ)),
        Course::Failed(verdict) => match failure_of(verdict, hello) {
            Some(failure) => Some(Outcome::Done(End::Failed(failure))),
            None => None,
        },
    }
}

/// How far the options let solving go.
pub(crate) fn limits_by(options: &Options) -> SolveLimits
    ensures { result ≡ limits_of options.now }
{
    SolveLimits {
        nodes: options.nodes,
        pairs: options.pairs,
    }
}

// The failure that a verdict tells, by which nothing was certified. `None` if a line could not be printed.
fn failure_of(verdict: Verdict, ours: Hello) -> Option<Failure>
    ensures { IsFailureOf verdict ours result }
{
    match verdict {
        Verdict::Ended(Ending::Rejected(place)) => Some(Failure::Rejected(place)),
        Verdict::Ended(Ending::WrongKind { turn }) => Some(Failure::WrongKind(turn)),
        Verdict::Ended(Ending::WrongCount { turn, want, got }) => {
            Some(Failure::WrongCount(turn, want, got))
        }
        Verdict::Ended(Ending::NotFrame) => Some(Failure::NotFrame),
        Verdict::Ended(Ending::ServerRefused(refusal)) => Some(Failure::Refused(refusal, ours)),
        Verdict::Cut => Some(Failure::Cut),
        Verdict::LinkFault => Some(Failure::LinkFault),
        // An accepted answer is no failure.
        Verdict::WriteFault | Verdict::Ended(Ending::Certified(_)) => None,
    }
}
