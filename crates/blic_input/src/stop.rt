// Why a task stops, with its status and its text.
ghost use Rattle.std.specs.Prelude.{◌≡◌};
ghost use Rattle.blic_input.specs.StopTexts.{circuit_status as status_of_circuit, circuit_text, read_status as status_of_reading, refusal_text, refused_at, solving_status as status_of_solving, solving_text, stop_status, stop_text};
ghost use Rattle.blic_print.specs.Printing.{Prints, PrintCounts};

use blic_basic::Sink;
use blic_model::CircuitError;
use blic_print::{Piece, WriteFault, print_pieces};
use blic_qdimacs::ReadError;
use blic_solve::SolveError;
use thiserror::Error;

/// Why nothing is answered: the first thing that could not be obtained.
#[derive(Clone, Copy, Debug, PartialEq, Eq, Error)]
pub enum Stop {
    /// The file holds no formula, or could not be read.
    #[error("no formula was read: {0}")]
    NotRead(ReadError),
    /// The formula's circuit passes a limit.
    #[error("no circuit was built: {0}")]
    NotBuilt(CircuitError),
    /// The circuit passes a limit of solving.
    #[error("the formula was not solved: {0}")]
    NotSolved(SolveError),
    /// No seed could be obtained.
    #[error("no seed could be had")]
    NoSeed,
}

impl Stop {
    /// The exit status of a program that stops so: 2 for a file that is refused, 3 for one that can't be read, 8 for a limit, 9 for out
    /// of memory, 11 if no seed comes.
    pub fn status(self) -> u8
        ensures { result ≡ stop_status self }
    {
        match self {
            Stop::NotRead(error) => read_status(error),
            Stop::NotBuilt(error) => circuit_status(error),
            Stop::NotSolved(error) => solving_status(error),
            Stop::NoSeed => 11,
        }
    }

    /// Prints the line that says why, and takes no memory.
    pub fn print<O: Sink>(self, out: &mut O) -> Result<(), WriteFault>
        ensures bytes { Prints (O.held out.old) (O.held out.new) result (stop_text self) }
        ensures cause { PrintCounts (O.faults out.old) (O.faults out.new) result }
    {
        match self {
            Stop::NotRead(error) => print_refusal(out, error),
            Stop::NotBuilt(error) => print_circuit(out, error),
            Stop::NotSolved(error) => print_solving(out, error),
            Stop::NoSeed => print_pieces(out, &[Piece::Bytes(b"c entropy fault\n")]),
        }
    }
}

// 3 for a fault, 9 for out of memory, 2 for a refused file.
fn read_status(error: ReadError) -> u8
    ensures { result ≡ status_of_reading error }
{
    match error {
        ReadError::Fault => 3,
        ReadError::NoMem => 9,
        _ => 2,
    }
}

// 9 for out of memory, 8 for a limit.
fn circuit_status(error: CircuitError) -> u8
    ensures { result ≡ status_of_circuit error }
{
    match error {
        CircuitError::NoMem => 9,
        _ => 8,
    }
}

fn solving_status(error: SolveError) -> u8
    ensures { result ≡ status_of_solving error }
{
    match error {
        SolveError::NoMem => 9,
        _ => 8,
    }
}

// The limit of circuits that is passed.
fn print_circuit<O: Sink>(out: &mut O, error: CircuitError) -> Result<(), WriteFault>
    ensures bytes { Prints (O.held out.old) (O.held out.new) result (circuit_text error) }
    ensures cause { PrintCounts (O.faults out.old) (O.faults out.new) result }
{
    match error {
        CircuitError::TooManyClaims { node, claims } => print_pieces(
            out,
            &[
                Piece::Bytes(b"c limit claims at "),
                Piece::Number(node as u64),
                Piece::Bytes(b" count "),
                Piece::Number(claims),
                Piece::Bytes(b"\n"),
            ],
        ),
        CircuitError::TooManyPoints { points } => print_pieces(
            out,
            &[
                Piece::Bytes(b"c limit points count "),
                Piece::Number(points),
                Piece::Bytes(b"\n"),
            ],
        ),
        CircuitError::NoMem => print_pieces(out, &[Piece::Bytes(b"c want of memory\n")]),
    }
}

// The limit of solving that is passed.
fn print_solving<O: Sink>(out: &mut O, error: SolveError) -> Result<(), WriteFault>
    ensures bytes { Prints (O.held out.old) (O.held out.new) result (solving_text error) }
    ensures cause { PrintCounts (O.faults out.old) (O.faults out.new) result }
{
    match error {
        SolveError::PairLimit { node } => print_pieces(
            out,
            &[
                Piece::Bytes(b"c limit pairs at "),
                Piece::Number(node as u64),
                Piece::Bytes(b"\n"),
            ],
        ),
        SolveError::NodeLimit { node } => print_pieces(
            out,
            &[
                Piece::Bytes(b"c limit nodes at "),
                Piece::Number(node as u64),
                Piece::Bytes(b"\n"),
            ],
        ),
        SolveError::NoMem => print_pieces(out, &[Piece::Bytes(b"c want of memory\n")]),
    }
}

// What is said if no formula was read.
fn print_refusal<O: Sink>(out: &mut O, error: ReadError) -> Result<(), WriteFault>
    ensures bytes { Prints (O.held out.old) (O.held out.new) result (refusal_text error) }
    ensures cause { PrintCounts (O.faults out.old) (O.faults out.new) result }
{
    match error {
        ReadError::NoProblemLine { line } => print_refused(out, b"NoProblemLine", line),
        ReadError::BadProblemLine { line } => print_refused(out, b"BadProblemLine", line),
        ReadError::BadToken { line } => print_refused(out, b"BadToken", line),
        ReadError::NumberTooLarge { line } => print_refused(out, b"NumberTooLarge", line),
        ReadError::VariableTooLarge { line } => print_refused(out, b"VariableTooLarge", line),
        ReadError::BoundTwice { line } => print_refused(out, b"BoundTwice", line),
        ReadError::SetAfterClause { line } => print_refused(out, b"SetAfterClause", line),
        ReadError::TooManyClauses { line } => print_refused(out, b"TooManyClauses", line),
        ReadError::TooFewClauses { line } => print_refused(out, b"TooFewClauses", line),
        ReadError::Unended { line } => print_refused(out, b"Unended", line),
        ReadError::TooManyVariables { line } => print_refused(out, b"TooManyVariables", line),
        ReadError::TooManyLiterals { line } => print_refused(out, b"TooManyLiterals", line),
        ReadError::ClauseLimit { line } => print_refused(out, b"ClauseLimit", line),
        ReadError::TooLong { line } => print_refused(out, b"TooLong", line),
        ReadError::Fault => print_pieces(out, &[Piece::Bytes(b"c read fault\n")]),
        ReadError::NoMem => print_pieces(out, &[Piece::Bytes(b"c want of memory\n")]),
    }
}

// The name of a refusal and its line.
fn print_refused<O: Sink>(out: &mut O, name: &[u8], line: u32) -> Result<(), WriteFault>
    ensures bytes { Prints (O.held out.old) (O.held out.new) result (refused_at name.now line) }
    ensures cause { PrintCounts (O.faults out.old) (O.faults out.new) result }
{
    print_pieces(
        out,
        &[
            Piece::Bytes(b"c refused "),
            Piece::Bytes(name),
            Piece::Bytes(b" line "),
            Piece::Number(line as u64),
            Piece::Bytes(b"\n"),
        ],
    )
}
