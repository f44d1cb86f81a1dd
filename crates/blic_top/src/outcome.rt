// What the program has to say, with its status and its text.
ghost use Rattle.std.specs.Prelude.{◌≡◌, ◌++◌, cond, codes, decimal};
ghost use Rattle.blic_input.specs.StopTexts.{line_end};
ghost use Rattle.blic_verifier.specs.declared.place.Part.TheVariants.{Poly as PolyOf};
ghost use Rattle.blic_top.specs.Outcome.{answer_text, check_text, end_status, end_text, failure_status as status_of_failure, failure_text, refusal_text, status_of, tally_text, text_of, truth_status as status_of_truth};
ghost use Rattle.blic_messages.specs.declared.reply.Refusal.TheVariants.{NotServed as NotServedOf};
ghost use Rattle.blic_print.specs.Printing.{Prints, PrintCounts};

use blic_basic::Sink;
use blic_input::Stop;
use blic_messages::{Hello, Refusal};
use blic_print::{Piece, WriteFault, print_pieces};
use blic_verifier::{Part, Place};

/// How a conversation failed.
#[derive(Clone, Copy, Debug, PartialEq, Eq)]
pub enum Failure {
    /// The first check that fails.
    Rejected(Place),
    /// The reply at this turn is of another kind than the one that stands there.
    WrongKind(u64),
    /// The reply at this turn, how many polynomials stand there, and how many it has.
    WrongCount(u64, u32, u32),
    /// A reply is no frame.
    NotFrame,
    /// The server refused to go on. Beside it stands what it was asked for.
    Refused(Refusal, Hello),
    /// The link ended while a reply was awaited.
    Cut,
    /// A call on the link failed, or no link could be made.
    LinkFault,
}

/// What the answer line of QDIMACS says: the truth, and the numbers of variables and of clauses.
#[derive(Clone, Copy, Debug, PartialEq, Eq)]
pub struct Answer {
    pub truth: bool,
    pub vars: u32,
    pub clauses: u32,
}

/// How many conversations there were, how many draws each has, and at most how many bad elements those have in all.
#[derive(Clone, Copy, Debug, PartialEq, Eq)]
pub struct Tally {
    pub runs: u32,
    pub draws: u64,
    pub bad: u64,
}

/// How the work on a formula ended.
#[derive(Clone, Copy, Debug, PartialEq, Eq)]
pub enum End {
    /// It was solved.
    Solved(Answer),
    /// This answer was certified.
    Certified(Answer, Tally),
    /// The same, of a formula of an exercise.
    Exercised(Answer, Tally),
    /// A conversation was not accepted.
    Failed(Failure),
    /// A conversation was accepted with another answer than the first one.
    Differ,
}

/// How a command ended.
#[derive(Clone, Copy, Debug, PartialEq, Eq)]
pub enum Outcome {
    /// The arguments don't fit.
    Usage,
    /// Memory ran out.
    NoMemory,
    /// Something could not be obtained.
    Stopped(Stop),
    /// The work ended.
    Done(End),
}

impl Outcome {
    /// The exit status.
    pub(crate) fn status(self) -> u8
        ensures { result ≡ status_of self }
    {
        match self {
            Outcome::Usage => 1,
            Outcome::NoMemory => 9,
            Outcome::Stopped(stop) => stop.status(),
            Outcome::Done(end) => end.status(),
        }
    }

    /// Prints the whole text, and takes no memory.
    pub(crate) fn print<O: Sink>(self, out: &mut O) -> Result<(), WriteFault>
        ensures bytes { Prints (O.held out.old) (O.held out.new) result (text_of self) }
        ensures cause { PrintCounts (O.faults out.old) (O.faults out.new) result }
    {
        match self {
            Outcome::Usage => print_pieces(
                out,
                &[Piece::Bytes(
                    b"usage: blic solve FILE, certify FILE, verify FILE ADDR or exercise N\n",
                )],
            ),
            Outcome::NoMemory => print_pieces(out, &[Piece::Bytes(b"c want of memory\n")]),
            Outcome::Stopped(stop) => stop.print(out),
            Outcome::Done(end) => end.print(out),
        }
    }
}

impl End {
    fn status(self) -> u8
        ensures { result ≡ end_status self }
    {
        match self {
            End::Solved(answer) => truth_status(answer.truth),
            End::Certified(answer, _) => truth_status(answer.truth),
            End::Exercised(_, _) => 0,
            End::Failed(failure) => failure_status(failure),
            End::Differ => 15,
        }
    }

    fn print<O: Sink>(self, out: &mut O) -> Result<(), WriteFault>
        ensures bytes { Prints (O.held out.old) (O.held out.new) result (end_text self) }
        ensures cause { PrintCounts (O.faults out.old) (O.faults out.new) result }
    {
        match self {
            End::Solved(answer) => print_pieces(
                out,
                &[
                    Piece::Bytes(answer_head(answer.truth)),
                    Piece::Number(answer.vars as u64),
                    Piece::Bytes(b" "),
                    Piece::Number(answer.clauses as u64),
                    Piece::Bytes(b"\n"),
                ],
            ),
            End::Certified(answer, tally) => print_certified(out, answer, tally),
            End::Exercised(answer, tally) => print_pieces(
                out,
                &[
                    Piece::Bytes(word(answer.truth)),
                    Piece::Bytes(b" vars "),
                    Piece::Number(answer.vars as u64),
                    Piece::Bytes(b" clauses "),
                    Piece::Number(answer.clauses as u64),
                    Piece::Bytes(b" draws "),
                    Piece::Number(tally.draws),
                    Piece::Bytes(b" bad "),
                    Piece::Number(tally.bad),
                    Piece::Bytes(b"\n"),
                ],
            ),
            End::Failed(failure) => print_failure(out, failure),
            End::Differ => print_pieces(out, &[Piece::Bytes(b"c runs differ\n")]),
        }
    }
}

// 10 for true and 20 for false.
fn truth_status(truth: bool) -> u8
    ensures { result ≡ status_of_truth truth }
{
    if truth { 10 } else { 20 }
}

// 13 for what is no frame, 6 for a reply that the verifier refuses, 7 for a refusal of the server, 12 for a link that ended, 5 for one
// that failed.
fn failure_status(failure: Failure) -> u8
    ensures { result ≡ status_of_failure failure }
{
    match failure {
        Failure::Rejected(_) => 6,
        Failure::WrongKind(_) => 6,
        Failure::WrongCount(_, _, _) => 6,
        Failure::NotFrame => 13,
        Failure::Refused(_, _) => 7,
        Failure::Cut => 12,
        Failure::LinkFault => 5,
    }
}

// How the answer line of QDIMACS begins.
fn answer_head(truth: bool) -> &'static [u8]
    ensures { result.now ≡ cond truth (codes "s cnf 1 ") (codes "s cnf 0 ") }
{
    if truth { b"s cnf 1 " } else { b"s cnf 0 " }
}

// The word for a truth value.
fn word(truth: bool) -> &'static [u8]
    ensures { result.now ≡ cond truth (codes "true") (codes "false") }
{
    if truth { b"true" } else { b"false" }
}

// The answer line, and the numbers of the conversation that certified it.
fn print_certified<O: Sink>(out: &mut O, answer: Answer, tally: Tally) -> Result<(), WriteFault>
    ensures bytes { Prints (O.held out.old) (O.held out.new) result (answer_text answer ++ tally_text tally) }
    ensures cause { PrintCounts (O.faults out.old) (O.faults out.new) result }
{
    print_pieces(
        out,
        &[
            Piece::Bytes(answer_head(answer.truth)),
            Piece::Number(answer.vars as u64),
            Piece::Bytes(b" "),
            Piece::Number(answer.clauses as u64),
            Piece::Bytes(b"\nruns "),
            Piece::Number(tally.runs as u64),
            Piece::Bytes(b"\ndraws "),
            Piece::Number(tally.draws),
            Piece::Bytes(b"\nbad "),
            Piece::Number(tally.bad),
            Piece::Bytes(b"\n"),
        ],
    )
}

// How a conversation failed.
fn print_failure<O: Sink>(out: &mut O, failure: Failure) -> Result<(), WriteFault>
    ensures bytes { Prints (O.held out.old) (O.held out.new) result (failure_text failure) }
    ensures cause { PrintCounts (O.faults out.old) (O.faults out.new) result }
{
    match failure {
        Failure::Rejected(place) => print_rejected(out, place.node, place.part, place.claim),
        Failure::WrongKind(turn) => print_pieces(
            out,
            &[
                Piece::Bytes(b"c rejected kind turn "),
                Piece::Number(turn),
                Piece::Bytes(b"\n"),
            ],
        ),
        Failure::WrongCount(turn, want, got) => print_pieces(
            out,
            &[
                Piece::Bytes(b"c rejected count turn "),
                Piece::Number(turn),
                Piece::Bytes(b" want "),
                Piece::Number(want as u64),
                Piece::Bytes(b" got "),
                Piece::Number(got as u64),
                Piece::Bytes(b"\n"),
            ],
        ),
        Failure::NotFrame => print_pieces(out, &[Piece::Bytes(b"c not a frame\n")]),
        Failure::Refused(refusal, ours) => print_refusal(out, refusal, ours),
        Failure::Cut => print_pieces(out, &[Piece::Bytes(b"c link cut\n")]),
        Failure::LinkFault => print_pieces(out, &[Piece::Bytes(b"c link fault\n")]),
    }
}

// Why a server went on no further.
fn print_refusal<O: Sink>(out: &mut O, refusal: Refusal, ours: Hello) -> Result<(), WriteFault>
    ensures bytes { Prints (O.held out.old) (O.held out.new) result (codes "c server refused " ++ refusal_text refusal ours ++ line_end) }
    ensures cause { PrintCounts (O.faults out.old) (O.faults out.new) result }
{
    match refusal {
        Refusal::OutOfTurn => print_pieces(out, &[Piece::Bytes(b"c server refused OutOfTurn\n")]),
        Refusal::NothingLeft => print_pieces(
            out,
            &[Piece::Bytes(b"c server refused NothingLeft\n")],
        ),
        Refusal::NotServed(theirs) => print_not_served(out, &ours, &theirs),
        Refusal::Broken => print_pieces(out, &[Piece::Bytes(b"c server refused Broken\n")]),
    }
}

// What was asked for, and what the server says that it serves.
fn print_not_served<'h, O: Sink>(
    out: &mut O,
    ours: &'h Hello,
    theirs: &'h Hello,
) -> Result<(), WriteFault>
    ensures bytes { Prints (O.held out.old) (O.held out.new) result (codes "c server refused " ++ refusal_text (NotServedOf theirs.now) ours.now ++ line_end) }
    ensures cause { PrintCounts (O.faults out.old) (O.faults out.new) result }
{
    print_pieces(
        out,
        &[
            Piece::Bytes(b"c server refused NotServed ours "),
            Piece::Number(ours.wire as u64),
            Piece::Bytes(b" "),
            Piece::Number(ours.circuit as u64),
            Piece::Bytes(b" "),
            Piece::Number(ours.order as u64),
            Piece::Bytes(b" "),
            Piece::Hex(&ours.digest),
            Piece::Bytes(b" theirs "),
            Piece::Number(theirs.wire as u64),
            Piece::Bytes(b" "),
            Piece::Number(theirs.circuit as u64),
            Piece::Bytes(b" "),
            Piece::Number(theirs.order as u64),
            Piece::Bytes(b" "),
            Piece::Hex(&theirs.digest),
            Piece::Bytes(b"\n"),
        ],
    )
}

// The first check that fails.
fn print_rejected<O: Sink>(out: &mut O, node: u32, part: Part, claim: u32) -> Result<(), WriteFault>
    ensures bytes { Prints (O.held out.old) (O.held out.new) result (codes "c rejected node " ++ decimal node ++ check_text part claim ++ line_end) }
    ensures cause { PrintCounts (O.faults out.old) (O.faults out.new) result }
{
    match part {
        Part::Poly(level) => print_poly(out, node, level, claim),
        Part::Ends => print_pieces(
            out,
            &[
                Piece::Bytes(b"c rejected node "),
                Piece::Number(node as u64),
                Piece::Bytes(b" ends claim "),
                Piece::Number(claim as u64),
                Piece::Bytes(b"\n"),
            ],
        ),
        Part::Combine => print_pieces(
            out,
            &[
                Piece::Bytes(b"c rejected node "),
                Piece::Number(node as u64),
                Piece::Bytes(b" combine\n"),
            ],
        ),
        Part::Leaf => print_pieces(
            out,
            &[
                Piece::Bytes(b"c rejected node "),
                Piece::Number(node as u64),
                Piece::Bytes(b" leaf claim "),
                Piece::Number(claim as u64),
                Piece::Bytes(b"\n"),
            ],
        ),
    }
}

// That a polynomial fails its check.
fn print_poly<O: Sink>(out: &mut O, node: u32, level: u32, claim: u32) -> Result<(), WriteFault>
    ensures bytes { Prints (O.held out.old) (O.held out.new) result (codes "c rejected node " ++ decimal node ++ check_text (PolyOf level) claim ++ line_end) }
    ensures cause { PrintCounts (O.faults out.old) (O.faults out.new) result }
{
    print_pieces(
        out,
        &[
            Piece::Bytes(b"c rejected node "),
            Piece::Number(node as u64),
            Piece::Bytes(b" poly "),
            Piece::Number(level as u64),
            Piece::Bytes(b" claim "),
            Piece::Number(claim as u64),
            Piece::Bytes(b"\n"),
        ],
    )
}
