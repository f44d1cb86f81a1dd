// The reader, byte by byte, for pieces that are cut anywhere. It keeps no byte: of a word that is open it keeps what was seen.
ghost use Rattle.std.specs.Prelude.{◌≡◌, ◌≤◌, ◌+◌, ◌<◌, ◌^◌, ℕ, IfOk, IfErr, MatchResult, length};
ghost use Rattle.std.specs.Option.{ForSome};
ghost use Rattle.blic_model.specs.Limits.{IsFormula};
ghost use Rattle.blic_qdimacs.specs.Header.{within_limits as limits_of};
ghost use Rattle.blic_qdimacs.specs.Sound.{Sound};
ghost use Rattle.blic_qdimacs.specs.Machine.{Ends, finished, start, header_of, Steps, word_ended, header_ended, line_judged, inside, after_byte, after_bytes};

use crate::error::ReadError;
use crate::items::{ItemReader, Problem};
use crate::seen::{HeaderSeen, Seen};
use blic_model::Formula;
use std::alloc::Global;

/// What was seen of the line.
#[derive(Clone, Copy, Debug, PartialEq, Eq)]
pub enum Mode {
    /// Blanks alone.
    Start,
    Comment,
    Text,
}

/// What the reader knows between two bytes.
#[derive(Drop)]
pub struct ByteReader {
    pub alloc: Global,
    pub line: u32,
    pub mode: Mode,
    pub word: Seen,
    pub header: HeaderSeen,
    pub problem: Option<Problem>,
    pub items: ItemReader,
    ghost few: { ForSome problem (λ p. p.vars ≤ 65535) },
}

const MOST_VARIABLES: u32 = 65_535;

const MOST_CLAUSES: u32 = 1_048_576;

const MOST_NUMBER: u32 = 2_147_483_647;

// The problem line with these numbers.
fn within_limits(line: u32, vars: u32, clauses: u32) -> Result<Problem, ReadError>
    ensures limits { MatchResult result (λ p. limits_of line vars clauses ≡ Ok (header_of p)) (λ e. limits_of line vars clauses ≡ Err e) }
    ensures few { IfOk result (λ p. p.vars ≤ 65535) }
{
    if MOST_NUMBER < vars || MOST_NUMBER < clauses {
        return Err(ReadError::NumberTooLarge { line });
    }
    if MOST_VARIABLES < vars {
        return Err(ReadError::TooManyVariables { line });
    }
    if MOST_CLAUSES < clauses {
        return Err(ReadError::ClauseLimit { line });
    }
    Ok(Problem { vars, clauses })
}

impl ByteReader {
    ghost use Rattle.blic_qdimacs.specs.View.{machine_of};

    // The word that is open ends, if there is one.
    fn word_end(&mut self) -> Result<(), ReadError>
        ensures steps { Steps result (machine_of self.new) (word_ended (machine_of self.old)) }
        ensures line { self.new.line ≡ self.old.line }
    {
        if self.word == Seen::Nothing {
            return Ok(());
        }
        let word = self.word;
        self.word = Seen::Nothing;
        match self.problem {
            None => {
                self.header = self.header.with(word);
                Ok(())
            }
            Some(problem) => self.items.word(self.alloc, problem, word, self.line),
        }
    }

    // The words of a problem line are judged.
    fn header_end(&mut self) -> Result<(), ReadError>
        ensures steps { Steps result (machine_of self.new) (header_ended (machine_of self.old).problem (machine_of self.old)) }
        ensures line { self.new.line ≡ self.old.line }
    {
        if self.problem.is_some() {
            return Ok(());
        }
        let line = self.line;
        match self.header {
            HeaderSeen::Empty => Ok(()),
            HeaderSeen::NotProblem => Err(ReadError::NoProblemLine { line }),
            HeaderSeen::Both { vars, clauses } => {
                let problem = within_limits(line, vars, clauses)?;
                self.problem = Some(problem);
                self.items.line = line;
                Ok(())
            }
            _ => Err(ReadError::BadProblemLine { line }),
        }
    }

    // What stands before the line's end is judged.
    fn line_judge(&mut self) -> Result<(), ReadError>
        ensures steps { Steps result (machine_of self.new) (line_judged (machine_of self.old)) }
        ensures line { self.new.line ≡ self.old.line }
    {
        self.word_end()?;
        self.header_end()
    }

    // A byte that is no blank.
    fn inside(&mut self, byte: u8)
        ensures step { machine_of self.new ≡ inside self.old.mode byte (machine_of self.old) }
        ensures line { self.new.line ≡ self.old.line }
    {
        match self.mode {
            Mode::Comment => {}
            Mode::Start if byte == b'c' => self.mode = Mode::Comment,
            Mode::Start => {
                self.mode = Mode::Text;
                self.word = self.word.with(byte);
            }
            Mode::Text => self.word = self.word.with(byte),
        }
    }

    // Takes a byte.
    fn byte(&mut self, byte: u8) -> Result<(), ReadError>
        requires { self.old.line + 1 < 2 ^ 32 }
        ensures steps { Steps result (machine_of self.new) (after_byte byte (machine_of self.old)) }
        ensures line { self.new.line ≤ self.old.line + 1 }
    {
        match byte {
            b'\n' => {
                self.line_judge()?;
                self.line += 1;
                self.mode = Mode::Start;
                Ok(())
            }
            b' ' | b'\t' | b'\r' => self.word_end(),
            _ => {
                self.inside(byte);
                Ok(())
            }
        }
    }

    /// Takes a piece of the source.
    pub fn feed(&mut self, piece: &[u8]) -> Result<(), ReadError>
        requires { self.old.line + length piece.now < 2 ^ 32 }
        ensures bytes { Steps result (machine_of self.new) (after_bytes (machine_of self.old) piece.now) }
        ensures line { self.new.line ≤ self.old.line + length piece.now }
    {
        for byte in piece {
            self.byte(*byte)?;
        }
        Ok(())
    }

    /// The reader before the first byte.
    pub fn new(alloc: Global) -> Result<ByteReader, ReadError>
        ensures start { IfOk result (λ reader. machine_of reader ≡ start) }
        ensures err { IfErr result (λ e. e ≡ ReadError.NoMem) }
    {
        let items = ItemReader::new(alloc)?;
        Ok(ByteReader {
            alloc,
            line: 1,
            mode: Mode::Start,
            word: Seen::Nothing,
            header: HeaderSeen::Empty,
            problem: None,
            items,
        })
    }

    /// The formula, once the source has ended; or what is wrong or missing at the end.
    pub fn finish(mut self) -> Result<Formula, ReadError>
        requires { Sound (machine_of self) }
        ensures answer { Ends result (finished (machine_of self)) }
        ensures formula { IfOk result (λ formula. IsFormula formula) }
    {
        self.line_judge()?;
        match self.problem {
            None => Err(ReadError::NoProblemLine { line: 0 }),
            Some(problem) => self.items.finish(self.alloc, problem),
        }
    }
}
