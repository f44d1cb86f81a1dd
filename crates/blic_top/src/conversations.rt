// Conversations one after another, in one process.
ghost use Rattle.std.specs.Prelude.{◌≡◌, ◌≤◌, ◌<◌, ◌*◌, ◌+◌, ◌^◌, Bool, None, Some};
ghost use Rattle.blic_input.specs.Problem.{instance_of};
ghost use Rattle.blic_top.specs.Conversing.{InProcess, Steps};
ghost use Rattle.blic_top.specs.Deed.{Trace};
ghost use Rattle.blic_top.specs.Series.{draws_about, draws_of};
ghost use Rattle.blic_top.specs.Turning.{Agrees, Comes, CourseCounts, IsSeen, IsTurn};

use blic_basic::{Sink, Watch};
use blic_claims::{Answers, claims_law};
use blic_client::Verdict;
use blic_input::Problem;
use blic_messages::frames_law;
use blic_talk::Conversation;
use blic_verifier::{Ending, acceptance_law, certified_law, honest_reply_law};

/// The draws of conversations, one after another: the seed, which of its draws is the first, how many each conversation has, and how
/// many conversations there are.
#[derive(Clone, Copy)]
pub(crate) struct Draws {
    pub(crate) seed: [u8; 32],
    pub(crate) first: u64,
    pub(crate) each: u64,
    pub(crate) count: u32,
}

/// What conversations came to.
#[derive(Clone, Copy)]
pub(crate) enum Course {
    /// All were certified with this answer.
    Agreed(bool),
    /// One was certified with another answer than the first.
    Differ,
    /// One came to this verdict.
    Failed(Verdict),
}

/// Holds conversations about a problem, one after another, until one isn't certified with the answer of the first. Each frame is shown
/// to `watch`, and the verifier judges each reply as `watch` left it.
pub(crate) fn hold<A: Answers, W: Watch, O: Sink>(
    conversation: &mut Conversation<'_>,
    problem: &Problem,
    draws: Draws,
    answers: &mut A,
    watch: &mut W,
    out: &mut O,
) -> Course
    requires about { conversation.old.about ≡ instance_of problem.now }
    requires answers { A.circuit answers.old ≡ problem.now.circuit }
    requires some { 0 < draws.count }
    requires each { draws.each ≡ draws_about problem.now }
    requires few { draws.first + draws.count * draws.each ≤ 2 ^ 61 }
    ensures alters { W.alters watch.new ≡ W.alters watch.old }
    ensures comes { (trace : Trace) × IsSeen (W.frames watch.old) (W.frames watch.new) trace
        × Comes (InProcess problem.now (draws_of problem.now draws.seed draws.first) (W.alters watch.old) conversation.old.talk)
        (Steps problem.now (draws_of problem.now draws.seed draws.first) (W.alters watch.old) conversation.old.talk) draws.count trace (O.held out.old) (O.held out.new) result }
    ensures cause { CourseCounts (O.faults out.old) (O.faults out.new) result }
{
    let mut agreed = None;
    for number in 0..draws.count {
        let verdict = hold_one(conversation, problem, draws, number, answers, watch, out);
        match agree(agreed, verdict) {
            Ok(truth) => agreed = Some(truth),
            Err(course) => return course,
        }
    }
    settled(agreed)
}

// Holds the conversation of this number.
fn hold_one<A: Answers, W: Watch, O: Sink>(
    conversation: &mut Conversation<'_>,
    problem: &Problem,
    draws: Draws,
    number: u32,
    answers: &mut A,
    watch: &mut W,
    out: &mut O,
) -> Verdict
    requires about { conversation.old.about ≡ instance_of problem.now }
    requires answers { A.circuit answers.old ≡ problem.now.circuit }
    requires each { draws.each ≡ draws_about problem.now }
    requires few { draws.first + number * draws.each ≤ 2 ^ 61 }
    ensures same { conversation.new ≡ conversation.old }
    ensures answers { A.circuit answers.new ≡ A.circuit answers.old }
    ensures alters { W.alters watch.new ≡ W.alters watch.old }
    ensures turn { (trace : Trace) × IsSeen (W.frames watch.old) (W.frames watch.new) trace
        × IsTurn (InProcess problem.now (draws_of problem.now draws.seed draws.first) (W.alters watch.old) conversation.old.talk)
        (Steps problem.now (draws_of problem.now draws.seed draws.first) (W.alters watch.old) conversation.old.talk) number trace (O.held out.old) (O.held out.new) result }
    ensures cause { CourseCounts (O.faults out.old) (O.faults out.new) (Course.Failed result) }
{
    problem.truth_law();
    problem.circuit().is_within_limits();
    claims_law();
    frames_law();
    honest_reply_law();
    acceptance_law();
    certified_law();
    let first = draws.first + number as u64 * draws.each;
    match conversation.run(answers, draws.seed, first, watch, out) {
        Some(ending) => Verdict::Ended(ending),
        None => Verdict::WriteFault,
    }
}

/// Whether the next verdict certifies the answer on which those before it agreed, if there are any.
pub(crate) fn agree(agreed: Option<bool>, verdict: Verdict) -> Result<bool, Course>
    ensures { Agrees agreed verdict result }
{
    match (verdict, agreed) {
        (Verdict::Ended(Ending::Certified(truth)), None) => Ok(truth),
        (Verdict::Ended(Ending::Certified(truth)), Some(answer)) => {
            if truth == answer {
                Ok(truth)
            } else {
                Err(Course::Differ)
            }
        }
        _ => Err(Course::Failed(verdict)),
    }
}

/// What conversations came to that all agreed.
pub(crate) fn settled(agreed: Option<bool>) -> Course
    requires some { agreed ≡ None → ⊥ }
    ensures { (b : Bool) → agreed ≡ Some b → result ≡ Course.Agreed b }
{
    match agreed {
        Some(truth) => Course::Agreed(truth),
        // Not reached: there was one at least.
        None => Course::Differ,
    }
}
