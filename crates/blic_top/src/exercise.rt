// Certifying two large formulas that are made from a number, one after the other.
ghost use Rattle.std.specs.Prelude.{◌≡◌, ◌≤◌, ◌^◌, ℕ, None, Some};
ghost use Rattle.blic_top.specs.Deciding.{Decides, DecidesAll, exercised_draws, of_one};
ghost use Rattle.blic_top.specs.Deed.{Deed};
ghost use Rattle.blic_input.specs.Faults.{Counts, Entropy as TheEntropy, Files as TheFiles};
ghost use Rattle.blic_input.specs.Stops.{ToldFiles};
ghost use Rattle.blic_top.specs.Faults.{WriteCounts, fault_in};
ghost use Rattle.blic_top.specs.Jobs.{exercise_job};
ghost use Rattle.blic_top.specs.Turning.{IsDoneHere};
ghost use Rattle.blic_words.specs.Requests.{Exercise};

use crate::certify::{CertifyOptions, certify_problem};
use crate::outcome::{End, Outcome};
use blic_basic::{Entropy, Sink, Watch};
use blic_claims::claims_law;
use blic_gen::{chain_law, xor_chain};
use blic_input::Problem;
use blic_model::circuit_law;
use blic_print::WriteFault;
use blic_words::Options;
use std::alloc::Global;

/// Certifies a true formula and then a false one. The line of the first is printed before the second is made. `None`
/// if it could not be printed.
pub(crate) fn exercise<E: Entropy, W: Watch, O: Sink>(
    alloc: Global,
    pairs: u32,
    options: &Options,
    entropy: &mut E,
    watch: &mut W,
    out: &mut O,
) -> Option<Outcome>
    requires pairs { (1 ≤ pairs) × (pairs ≤ 500) }
    ensures decides { (deed : Deed) × IsDoneHere (E.seeds entropy.old) (E.seeds entropy.new) (W.frames watch.old) (W.frames watch.new) deed
        × ((files : ToldFiles) → DecidesAll (Some (Exercise pairs options.now))
        (record { files = files; alters = W.alters watch.old }) deed (O.held out.old) (O.held out.new) result) }
    ensures entropy_cause { Counts TheEntropy (fault_in result) (E.faults entropy.old) (E.faults entropy.new) }
    ensures write_cause { WriteCounts result (O.faults out.old) (O.faults out.new) }
    ensures no_read_fault { (n : ℕ) → Counts TheFiles (fault_in result) n n }
{
    chain_law();
    circuit_law();
    claims_law();
    let Some(first) = exercise_one(alloc, pairs, options, true, 0, entropy, watch, out) else {
        return None;
    };
    let Some(draws) = draws_of(first) else {
        return Some(first);
    };
    match first.print(out) {
        Ok(()) => exercise_one(alloc, pairs, options, false, draws, entropy, watch, out),
        Err(WriteFault) => None,
    }
}

// The number of draws in the line of a formula.
fn draws_of(outcome: Outcome) -> Option<u64>
    ensures { result ≡ exercised_draws outcome }
{
    match outcome {
        Outcome::Done(End::Exercised(_, tally)) => Some(tally.draws),
        _ => None,
    }
}

// Certifies one of the formulas, with the draws of the seed from the first on. Nothing is printed.
fn exercise_one<E: Entropy, W: Watch, O: Sink>(
    alloc: Global,
    pairs: u32,
    options: &Options,
    truth: bool,
    first: u64,
    entropy: &mut E,
    watch: &mut W,
    out: &mut O,
) -> Option<Outcome>
    requires pairs { (1 ≤ pairs) × (pairs ≤ 500) }
    requires first { first ≤ 2 ^ 60 }
    ensures alters { W.alters watch.new ≡ W.alters watch.old }
    ensures decides { (deed : Deed) × IsDoneHere (E.seeds entropy.old) (E.seeds entropy.new) (W.frames watch.old) (W.frames watch.new) deed
        × Decides (exercise_job pairs options.now truth first) (record { files = None; alters = W.alters watch.old }) deed (O.held out.old) (O.held out.new) result }
    ensures entropy_cause { Counts TheEntropy (fault_in result) (E.faults entropy.old) (E.faults entropy.new) }
    ensures write_cause { WriteCounts result (O.faults out.old) (O.faults out.new) }
    ensures no_read_fault { (n : ℕ) → Counts TheFiles (fault_in result) n n }
{
    let Ok(formula) = xor_chain(alloc, pairs, truth) else {
        return Some(Outcome::NoMemory);
    };
    let problem = match Problem::of_formula(alloc, formula) {
        Ok(problem) => problem,
        Err(stop) => return Some(Outcome::Stopped(stop)),
    };
    let seed = options.seed.unwrap_or([0; 32]);
    let options = CertifyOptions {
        options: Options {
            seed: Some(seed),
            repeat: 1,
            talk: false,
            ..*options
        },
        first,
    };
    match certify_problem(alloc, &problem, &options, entropy, watch, out) {
        Some(outcome) => Some(said_of_one(outcome)),
        None => None,
    }
}

// What is said of a formula that was certified is its line; the rest is the same.
fn said_of_one(outcome: Outcome) -> Outcome
    ensures { result ≡ of_one outcome }
{
    match outcome {
        Outcome::Done(End::Certified(answer, tally)) => {
            Outcome::Done(End::Exercised(answer, tally))
        }
        other => other,
    }
}
