// The program's work.
ghost use Rattle.std.specs.Prelude.{◌≡◌, ◌≢◌, ℕ, Bool, Some, None, Option, false, map, string_bytes};
ghost use Rattle.blic_basic.specs.Outside.{Rose};
ghost use Rattle.blic_input.specs.Faults.{Counts, Entropy as TheEntropy, Files as TheFiles};
ghost use Rattle.blic_input.specs.Tasks.{Made};
ghost use Rattle.blic_words.specs.Requests.{Certify, HasRepeat, Solve, request_of};
ghost use Rattle.blic_top.specs.Deciding.{DecidesAll};
ghost use Rattle.blic_top.specs.Deed.{Deed, nothing, IsDeed};
ghost use Rattle.blic_top.specs.Ends.{Says};
ghost use Rattle.blic_top.specs.Faults.{WriteCounts, fault_in, fault_of};
ghost use Rattle.blic_top.specs.Jobs.{first_job, limits_of, solve_job};
ghost use Rattle.blic_top.specs.Means.{Runs};
ghost use Rattle.blic_top.specs.Turning.{IsDoneHere};
ghost use Rattle.blic_top.specs.Promises.{Certifies, Exercises, IsOrNoMemory, Limits, LimitsSecond, Refuses, Solves, Tells, TellsCertified, Verifies};

use crate::certify::{CertifyOptions, certify_problem, limits_by};
use crate::exercise::exercise;
use crate::outcome::{Answer, End, Outcome};
use crate::verify::{Target, verify};
use blic_basic::{Entropy, Files, NoMem, Sink, Watch};
use blic_input::Problem;
use blic_link::Dialer;
use blic_print::WriteFault;
use blic_words::{Options, Request, parse};
use std::alloc::Global;

/// Does all that the program does with its arguments, the words, which are without its name. Answers
/// the exit status. Every line goes to `out`.
///
/// `solve FILE` reads the formula of a QDIMACS file and prints its truth, as
/// `s cnf 1 V C` with status 10 or `s cnf 0 V C` with status 20. `--nodes N` and `--pairs P` say
/// how many decisions (nodes of BDDs) and pairs (the product construction) solving may take: N from
/// 1 to 2^24, by default 2^22, and P from 1 to 2^25, by default 2^24.
///
/// `certify FILE` solves the formula within the same limits, and has a prover, who answers by what was
/// solved, and a verifier hold a conversation about the formula's circuit. Each frame is shown to `watch`, and
/// the verifier judges each reply as `watch` left it. If it accepts, the answer line is printed with the statuses of `solve`,
/// and then `runs K`, `draws D` and `bad B`. The draws (challenges) are those of the seed that `--seed` gives as 64 hexadecimal
/// digits, or of the next one of `entropy`. With `--talk` a line for each frame comes first: the transcript. With `--repeat K`, from 1
/// to 1,000, as many conversations are held, each with draws of its own, and all have to certify the same answer.
///
/// `verify FILE ADDR` solves nothing: the prover is a server at an address such as `host:port`, which nobody has to trust. A link is
/// dialed by `dialer` for each conversation, and hung up after it. All memory is taken before the seed, and the seed before the first
/// dial. A call on a link waits as long as the server does. The options are `--seed`, `--talk` and `--repeat`.
///
/// `exercise N` certifies two formulas of `N` pairs of variables, from 1 to 500, as `certify` does within the
/// default limits: `xor_chain` of `blic_gen`, the true one and then the false one. It prints a line for each as soon as it is
/// certified, `true vars V clauses C draws D bad B` or the same with `false`, by the certified answer. The seed is one of 32 zeros if
/// `--seed` gives none, and the draws go on from the first conversation to the second.
///
/// | status | if |
/// |---|---|
/// | 0 | `exercise` printed both lines |
/// | 1 | the arguments don't fit |
/// | 2 | the file spells no formula within the limits |
/// | 3 | a call on the files or on the opened file failed |
/// | 4 | a call on `out` failed; it holds a prefix of what was to be printed |
/// | 5 | a dial or a call on a link failed |
/// | 6 | the verifier refused a reply: the server's, or one that `watch` had altered |
/// | 7 | the server refused to go on |
/// | 8 | the formula's circuit passes a limit of circuits, or else one of solving |
/// | 9 | out of memory |
/// | 11 | `entropy` failed |
/// | 12 | a link ended while a reply was awaited |
/// | 13 | a reply is no frame |
/// | 15 | a conversation was accepted with another answer than the first |
pub fn run<F: Files, D: Dialer, E: Entropy, W: Watch, O: Sink>(
    alloc: Global,
    words: &Vec<String>,
    files: &mut F,
    dialer: &mut D,
    entropy: &mut E,
    watch: &mut W,
    out: &mut O,
) -> u8
    // No link is lent.
    requires free { D.is_lent dialer.old ≡ false }
    ensures free { D.is_lent dialer.new ≡ false }

    // 10 and 20 of `solve` tell the truth of the formula that the file spells, whatever failed; so do they of `certify`, if the watch
    // alters nothing.
    ensures tells { Tells (request_of (map string_bytes words.now.items)) (F.files files.old) result }
    ensures tells_certified { TellsCertified (request_of (map string_bytes words.now.items)) (record { files = F.files files.old; alters = W.alters watch.old }) result }

    // Everything printed is true, and belongs to what was done outside.
    ensures says { (deed : Deed) × IsDeed (record { seeds = E.seeds entropy.old; seen = W.frames watch.old; dialer = record { ended = D.entries dialer.old; missed = D.missed dialer.old; faults = D.faults dialer.old } })
        (record { seeds = E.seeds entropy.new; seen = W.frames watch.new; dialer = record { ended = D.entries dialer.new; missed = D.missed dialer.new; faults = D.faults dialer.new } }) deed
        × Runs (request_of (map string_bytes words.now.items)) (record { files = F.files files.old; alters = W.alters watch.old }) deed result (O.held out.old) (O.held out.new) }

    // A fault is told only if there was one, and none is passed over.
    ensures read_fault { result ≡ 3 → Rose (F.faults files.old) (F.faults files.new) }
    ensures write_fault { result ≡ 4 → Rose (O.faults out.old) (O.faults out.new) }
    ensures link_fault { result ≡ 5 → Rose (D.faults dialer.old) (D.faults dialer.new) }
    ensures entropy_fault { result ≡ 11 → Rose (E.faults entropy.old) (E.faults entropy.new) }
    ensures passes_no_fault { result ≢ 3 → result ≢ 4 → F.faults files.new ≡ F.faults files.old }
    ensures passes_no_entropy_fault { result ≢ 11 → result ≢ 4 → E.faults entropy.new ≡ E.faults entropy.old }
    ensures passes_no_write_fault { result ≢ 4 → O.faults out.new ≡ O.faults out.old }

    // If nothing failed, the status follows from the arguments and the file.
    ensures usage { ¬ (Rose (O.faults out.old) (O.faults out.new)) → request_of (map string_bytes words.now.items) ≡ None → IsOrNoMemory result 1 }
    ensures solves { ¬ (Rose (F.faults files.old) (F.faults files.new)) → ¬ (Rose (O.faults out.old) (O.faults out.new))
        → Solves (request_of (map string_bytes words.now.items)) (record { files = F.files files.old; alters = W.alters watch.old }) result }
    ensures certifies { ¬ (Rose (F.faults files.old) (F.faults files.new)) → ¬ (Rose (O.faults out.old) (O.faults out.new))
        → ¬ (Rose (E.faults entropy.old) (E.faults entropy.new)) → W.alters watch.old ≡ false
        → Certifies (request_of (map string_bytes words.now.items)) (record { files = F.files files.old; alters = W.alters watch.old }) result }
    ensures verifies { ¬ (Rose (F.faults files.old) (F.faults files.new)) → ¬ (Rose (O.faults out.old) (O.faults out.new))
        → ¬ (Rose (E.faults entropy.old) (E.faults entropy.new)) → ¬ (Rose (D.faults dialer.old) (D.faults dialer.new))
        → Verifies (request_of (map string_bytes words.now.items)) (record { files = F.files files.old; alters = W.alters watch.old })
        (record { seeds = E.seeds entropy.old; seen = W.frames watch.old; dialer = record { ended = D.entries dialer.old; missed = D.missed dialer.old; faults = D.faults dialer.old } })
        (record { seeds = E.seeds entropy.new; seen = W.frames watch.new; dialer = record { ended = D.entries dialer.new; missed = D.missed dialer.new; faults = D.faults dialer.new } }) result }
    ensures exercises { ¬ (Rose (O.faults out.old) (O.faults out.new)) → W.alters watch.old ≡ false
        → Exercises (request_of (map string_bytes words.now.items)) result }
    ensures limits_second { ¬ (Rose (O.faults out.old) (O.faults out.new)) → W.alters watch.old ≡ false
        → LimitsSecond (request_of (map string_bytes words.now.items)) result }
    ensures limits { ¬ (Rose (F.faults files.old) (F.faults files.new)) → ¬ (Rose (O.faults out.old) (O.faults out.new))
        → Limits (request_of (map string_bytes words.now.items)) (record { files = F.files files.old; alters = W.alters watch.old }) result }
    ensures refuses { ¬ (Rose (F.faults files.old) (F.faults files.new)) → ¬ (Rose (O.faults out.old) (O.faults out.new))
        → Refuses (request_of (map string_bytes words.now.items)) (record { files = F.files files.old; alters = W.alters watch.old }) result }
{
    perform(alloc, words, files, dialer, entropy, watch, out)
}

// What `run` does, with what it says and the causes of its faults.
fn perform<F: Files, D: Dialer, E: Entropy, W: Watch, O: Sink>(
    alloc: Global,
    words: &[String],
    files: &mut F,
    dialer: &mut D,
    entropy: &mut E,
    watch: &mut W,
    out: &mut O,
) -> u8
    requires free { D.is_lent dialer.old ≡ false }
    ensures free { D.is_lent dialer.new ≡ false }
    ensures says { (deed : Deed) × IsDeed (record { seeds = E.seeds entropy.old; seen = W.frames watch.old; dialer = record { ended = D.entries dialer.old; missed = D.missed dialer.old; faults = D.faults dialer.old } })
        (record { seeds = E.seeds entropy.new; seen = W.frames watch.new; dialer = record { ended = D.entries dialer.new; missed = D.missed dialer.new; faults = D.faults dialer.new } }) deed
        × Runs (request_of (map string_bytes words.now)) (record { files = F.files files.old; alters = W.alters watch.old }) deed result (O.held out.old) (O.held out.new) }
    ensures read_fault { result ≡ 3 → Rose (F.faults files.old) (F.faults files.new) }
    ensures write_fault { result ≡ 4 → Rose (O.faults out.old) (O.faults out.new) }
    ensures entropy_fault { result ≡ 11 → Rose (E.faults entropy.old) (E.faults entropy.new) }
    ensures passes_no_fault { result ≢ 3 → result ≢ 4 → F.faults files.new ≡ F.faults files.old }
    ensures passes_no_entropy_fault { result ≢ 11 → result ≢ 4 → E.faults entropy.new ≡ E.faults entropy.old }
    ensures passes_no_write_fault { result ≢ 4 → O.faults out.new ≡ O.faults out.old }
{
    match decide(alloc, words, files, dialer, entropy, watch, out) {
        Some(outcome) => match outcome.print(out) {
            Ok(()) => outcome.status(),
            Err(WriteFault) => 4,
        },
        None => 4,
    }
}

// What there is to say, once the lines that come before it are printed. `None` if one could not be printed.
fn decide<F: Files, D: Dialer, E: Entropy, W: Watch, O: Sink>(
    alloc: Global,
    words: &[String],
    files: &mut F,
    dialer: &mut D,
    entropy: &mut E,
    watch: &mut W,
    out: &mut O,
) -> Option<Outcome>
    requires free { D.is_lent dialer.old ≡ false }
    ensures free { D.is_lent dialer.new ≡ false }
    ensures decides { (deed : Deed) × IsDeed (record { seeds = E.seeds entropy.old; seen = W.frames watch.old; dialer = record { ended = D.entries dialer.old; missed = D.missed dialer.old; faults = D.faults dialer.old } })
        (record { seeds = E.seeds entropy.new; seen = W.frames watch.new; dialer = record { ended = D.entries dialer.new; missed = D.missed dialer.new; faults = D.faults dialer.new } }) deed
        × DecidesAll (request_of (map string_bytes words.now)) (record { files = F.files files.old; alters = W.alters watch.old }) deed (O.held out.old) (O.held out.new) result }
    ensures read_cause { Counts TheFiles (fault_in result) (F.faults files.old) (F.faults files.new) }
    ensures entropy_cause { Counts TheEntropy (fault_in result) (E.faults entropy.old) (E.faults entropy.new) }
    ensures write_cause { WriteCounts result (O.faults out.old) (O.faults out.new) }
{
    match parse(alloc, words) {
        Ok(Some(Request::Solve { file, options })) => Some(solve(alloc, file, &options, files)),
        Ok(Some(Request::Certify { file, options })) => {
            certify(alloc, file, &options, files, entropy, watch, out)
        }
        Ok(
            Some(
                Request::Verify {
                    file,
                    address,
                    options,
                },
            ),
        ) => {
            let target = Target {
                file,
                address,
                options,
            };
            verify(alloc, target, files, dialer, entropy, out)
        }
        Ok(Some(Request::Exercise { pairs, options })) => {
            exercise(alloc, pairs, &options, entropy, watch, out)
        }
        Ok(None) => Some(Outcome::Usage),
        Err(NoMem) => Some(Outcome::NoMemory),
    }
}

// Certifies the formula of the file that is asked for.
fn certify<F: Files, E: Entropy, W: Watch, O: Sink>(
    alloc: Global,
    file: &str,
    options: &Options,
    files: &mut F,
    entropy: &mut E,
    watch: &mut W,
    out: &mut O,
) -> Option<Outcome>
    requires repeat { HasRepeat options.now }
    ensures decides { (deed : Deed) × IsDoneHere (E.seeds entropy.old) (E.seeds entropy.new) (W.frames watch.old) (W.frames watch.new) deed
        × DecidesAll (Some (Certify file.now options.now)) (record { files = F.files files.old; alters = W.alters watch.old }) deed (O.held out.old) (O.held out.new) result }
    ensures read_cause { Counts TheFiles (fault_in result) (F.faults files.old) (F.faults files.new) }
    ensures entropy_cause { Counts TheEntropy (fault_in result) (E.faults entropy.old) (E.faults entropy.new) }
    ensures write_cause { WriteCounts result (O.faults out.old) (O.faults out.new) }
{
    match Problem::of_file(alloc, file, files) {
        Ok(problem) => {
            let options = CertifyOptions {
                options: *options,
                first: 0,
            };
            certify_problem(alloc, &problem, &options, entropy, watch, out)
        }
        Err(stop) => Some(Outcome::Stopped(stop)),
    }
}

// Solves the formula of the file that is asked for.
fn solve<F: Files>(alloc: Global, file: &str, options: &Options, files: &mut F) -> Outcome
    ensures says { (alters : Bool) → Says (first_job (Solve file.now options.now)) (record { files = F.files files.old; alters = alters }) nothing result }
    ensures read_cause { Counts TheFiles (fault_of result) (F.faults files.old) (F.faults files.new) }
    ensures no_seed_fault { (n : ℕ) → Counts TheEntropy (fault_of result) n n }
{
    match Problem::of_file(alloc, file, files) {
        Ok(problem) => solve_problem(alloc, &problem, options),
        Err(stop) => Outcome::Stopped(stop),
    }
}

// Solves a problem.
fn solve_problem(alloc: Global, problem: &Problem, options: &Options) -> Outcome
    ensures says { (alters : Bool) → Says (solve_job (Made problem.now) (limits_of options.now)) (record { files = None; alters = alters }) nothing result }
    ensures calm { fault_of result ≡ None }
{
    problem.truth_law();
    match problem.solve(alloc, limits_by(options)) {
        Ok(truth) => Outcome::Done(End::Solved(Answer {
            truth,
            vars: problem.vars(),
            clauses: problem.clauses(),
        })),
        Err(stop) => Outcome::Stopped(stop),
    }
}
