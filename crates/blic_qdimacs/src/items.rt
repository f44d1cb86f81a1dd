// The sets and clauses after the problem line.
ghost use Rattle.std.specs.Prelude.{◌≡◌, ◌≤◌, ◌+◌, ◌<◌, ◌++◌, ◌∷◌, [], ℕ, sum_by, length, slice_get, Some, false, OnOk, IfOk, map, ◌==◌};
ghost use Rattle.std.specs.List.{list_any};
ghost use Rattle.blic_qdimacs.specs.Meaning.{ended};
ghost use Rattle.blic_model.specs.Limits.{is_bound, IsFormula};
ghost use Rattle.blic_qdimacs.specs.Sound.{SoundItems};
ghost use Rattle.blic_qdimacs.specs.Machine.{kind_seen, header_of, Steps, Ends};
ghost use Rattle.blic_qdimacs.specs.Items.{after_letter, after_number, after_word, in_set, in_clause};

use crate::error::ReadError;
use crate::free::{TABLE, no_marks, whole_prefix};
use crate::seen::{Seen, VALUE_CAP};
use blic_model::{Bound, Formula, Lit, Quant};
use std::alloc::{AllocError, Global};
use std::mem;

/// The numbers of the problem line.
#[derive(Clone, Copy, Debug, PartialEq, Eq)]
pub struct Problem {
    pub vars: u32,
    pub clauses: u32,
}

/// Where the reader stands.
#[derive(Clone, Copy, Debug, PartialEq, Eq)]
pub enum Place {
    Between,
    InSet(Quant),
    InClause,
}

const MOST_LITERALS: u32 = 1_048_576;

/// What was read after the problem line.
#[derive(Drop)]
pub struct ItemReader {
    pub place: Place,
    pub sets: Vec<Bound>,
    pub clauses: Vec<Vec<Lit>>,
    pub clause: Vec<Lit>,
    pub line: u32,
    pub literals: u32,
    pub bound: Vec<bool>,
    ghost counted: { literals ≡ sum_by (λ c. length c.items) clauses.items + length clause.items },
    ghost table: { (v : ℕ) → v < length bound.items → slice_get bound.items v ≡ Some (is_bound sets.items v) },
    ghost size: { length bound.items ≡ 65536 },
}

impl ItemReader {
    ghost use Rattle.blic_qdimacs.specs.View.{items_of};

    // Takes `e` or `a`.
    fn letter(&mut self, quant: Quant, line: u32) -> Result<(), ReadError>
        ensures { Steps result (items_of self.new) (after_letter quant line self.old.place (items_of self.old)) }
    {
        match self.place {
            Place::InSet(_) => return Err(ReadError::BadToken { line }),
            Place::InClause => return Err(ReadError::SetAfterClause { line }),
            Place::Between => {}
        }
        if !self.clauses.is_empty() {
            return Err(ReadError::SetAfterClause { line });
        }
        self.place = Place::InSet(quant);
        self.line = line;
        Ok(())
    }

    // Takes a number in a set.
    fn in_set(
        &mut self,
        problem: Problem,
        quant: Quant,
        negative: bool,
        value: u32,
        line: u32,
    ) -> Result<(), ReadError>
        requires { problem.vars ≤ 65535 }
        ensures { Steps result (items_of self.new) (in_set (header_of problem) quant negative value line (items_of self.old)) }
    {
        if negative {
            return Err(ReadError::BadToken { line });
        }
        if value == 0 {
            self.place = Place::Between;
            self.line = line;
            return Ok(());
        }
        if problem.vars < value {
            return Err(ReadError::VariableTooLarge { line });
        }
        if self.is_bound(value) {
            return Err(ReadError::BoundTwice { line });
        }
        self.bind(Bound { quant, var: value })?;
        self.line = line;
        Ok(())
    }

    // Whether a variable is in a set.
    fn is_bound(&self, var: u32) -> bool
        requires { var ≤ 65535 }
        ensures { result ≡ is_bound self.now.sets.items var }
    {
        self.bound[var as usize]
    }

    // Adds a variable to the sets.
    fn bind(&mut self, bound: Bound) -> Result<(), AllocError>
        requires { bound.var ≤ 65535 }
        ensures { OnOk result (items_of self.new ≡ record (items_of self.old) { sets = self.old.sets.items ++ bound ∷ [] }) }
    {
        self.sets.push(bound)?;
        self.bound[bound.var as usize] = true;
        Ok(())
    }

    // Ends the clause that is open.
    fn end_clause(&mut self, alloc: Global) -> Result<(), AllocError>
        ensures { OnOk result (items_of self.new ≡ record (items_of self.old) { clauses = (items_of self.old).clauses ++ self.old.clause.items ∷ []; clause = [] }) }
    {
        let clause = mem::replace(&mut self.clause, Vec::new(alloc));
        match self.clauses.push(clause) {
            Ok(()) => Ok(()),
            Err(failed) => {
                self.clause = failed.value;
                Err(AllocError)
            }
        }
    }

    // Takes a number in a clause, or the first one of a clause.
    fn in_clause(
        &mut self,
        alloc: Global,
        problem: Problem,
        negative: bool,
        value: u32,
        line: u32,
    ) -> Result<(), ReadError>
        ensures { Steps result (items_of self.new) (in_clause (header_of problem) negative value line (items_of self.old)) }
    {
        if value == 0 {
            self.end_clause(alloc)?;
            self.place = Place::Between;
            self.line = line;
            return Ok(());
        }
        if problem.vars < value {
            return Err(ReadError::VariableTooLarge { line });
        }
        if MOST_LITERALS <= self.literals {
            return Err(ReadError::TooManyLiterals { line });
        }
        self.clause.push(Lit {
            var: value,
            negative,
        })?;
        self.literals += 1;
        self.place = Place::InClause;
        self.line = line;
        Ok(())
    }

    // Takes a number.
    fn number(
        &mut self,
        alloc: Global,
        problem: Problem,
        negative: bool,
        value: u32,
        line: u32,
    ) -> Result<(), ReadError>
        requires { problem.vars ≤ 65535 }
        ensures { Steps result (items_of self.new) (after_number (header_of problem) negative value line self.old.place (items_of self.old)) }
    {
        match self.place {
            Place::InSet(quant) => self.in_set(problem, quant, negative, value, line),
            Place::InClause => self.in_clause(alloc, problem, negative, value, line),
            Place::Between if problem.clauses as usize <= self.clauses.len() => {
                Err(ReadError::TooManyClauses { line })
            }
            Place::Between => self.in_clause(alloc, problem, negative, value, line),
        }
    }

    /// Takes a word.
    pub fn word(
        &mut self,
        alloc: Global,
        problem: Problem,
        word: Seen,
        line: u32,
    ) -> Result<(), ReadError>
        requires { problem.vars ≤ 65535 }
        ensures { Steps result (items_of self.new) (after_word (header_of problem) line (kind_seen word) (items_of self.old)) }
    {
        match word {
            Seen::Letter(quant) => self.letter(quant, line),
            Seen::Digits {
                negative: true,
                value: 0,
            } => Err(ReadError::BadToken { line }),
            Seen::Digits { negative, value } => {
                if VALUE_CAP <= value {
                    return Err(ReadError::NumberTooLarge { line });
                }
                self.number(alloc, problem, negative, value, line)
            }
            _ => Err(ReadError::BadToken { line }),
        }
    }

    /// Nothing was read yet.
    pub fn new(alloc: Global) -> Result<ItemReader, AllocError>
        ensures { IfOk result (λ r. items_of r ≡ record { place = Place.Between; sets = []; clauses = []; clause = []; line = 0 }) }
    {
        let bound = no_marks(alloc, TABLE)?;
        Ok(ItemReader {
            place: Place::Between,
            sets: Vec::new(alloc),
            clauses: Vec::new(alloc),
            clause: Vec::new(alloc),
            line: 0,
            literals: 0,
            bound,
        })
    }

    /// The formula, once the source has ended; or what is missing at the end.
    pub fn finish(self, alloc: Global, problem: Problem) -> Result<Formula, ReadError>
        requires { SoundItems (header_of problem) (items_of self) }
        ensures answer { Ends result (ended (header_of problem) (items_of self) self.place) }
        ensures formula { IfOk result (λ formula. IsFormula formula) }
    {
        let line = self.line;
        if self.place != Place::Between {
            return Err(ReadError::Unended { line });
        }
        if self.clauses.len() < problem.clauses as usize {
            return Err(ReadError::TooFewClauses { line });
        }
        let prefix = whole_prefix(alloc, problem.vars, &self.bound, &self.sets, &self.clauses)?;
        Ok(Formula::new(problem.vars, prefix, self.clauses))
    }
}
