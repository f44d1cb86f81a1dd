// Why no formula was read.
use blic_basic::NoMem;
use std::alloc::{AllocError, AllocFailed};
use thiserror::Error;

/// Why no formula was read. Each refusal but the last two is the first that stands in the bytes,
/// with its line, counted from 1.
#[derive(Clone, Copy, Debug, PartialEq, Eq, Error)]
pub enum ReadError {
    /// There is no token, which is line 0, or the first one is not `p`.
    #[error("line {line}: no problem line")]
    NoProblemLine { line: u32 },
    /// The first line with a token is not `p cnf` and two plain numbers.
    #[error("line {line}: the problem line is not `p cnf` and two numbers")]
    BadProblemLine { line: u32 },
    /// A token has no place there.
    #[error("line {line}: this token has no place here")]
    BadToken { line: u32 },
    /// A number is above 2,147,483,647.
    #[error("line {line}: a number is above 2147483647")]
    NumberTooLarge { line: u32 },
    /// A variable is above the number of variables.
    #[error("line {line}: a variable is above the number of variables")]
    VariableTooLarge { line: u32 },
    /// A variable of a set is already in a set.
    #[error("line {line}: a variable is bound twice")]
    BoundTwice { line: u32 },
    /// A set comes after a clause has begun.
    #[error("line {line}: a quantifier set comes after a clause")]
    SetAfterClause { line: u32 },
    /// One clause more begins than there are.
    #[error("line {line}: there are more clauses than the problem line says")]
    TooManyClauses { line: u32 },
    /// The end comes before the last clause. The line is that of the last token.
    #[error("line {line}: there are fewer clauses than the problem line says")]
    TooFewClauses { line: u32 },
    /// The end comes inside a set or a clause. The line is that of the last token.
    #[error("line {line}: the file ends inside a set or a clause")]
    Unended { line: u32 },
    /// There are more than 65,535 variables.
    #[error("line {line}: there are more than 65535 variables")]
    TooManyVariables { line: u32 },
    /// There are more than 1,048,576 literals.
    #[error("line {line}: there are more than 1048576 literals")]
    TooManyLiterals { line: u32 },
    /// There are more than 1,048,576 clauses.
    #[error("line {line}: there are more than 1048576 clauses")]
    ClauseLimit { line: u32 },
    /// The source gave byte number 67,108,865, which stands on this line.
    #[error("line {line}: the file is longer than 67108864 bytes")]
    TooLong { line: u32 },
    /// The source failed.
    #[error("the source failed")]
    Fault,
    /// Memory ran out.
    #[error("memory ran out")]
    NoMem,
}

impl From<NoMem> for ReadError {
    ghost use Rattle.std.specs.Prelude.{◌≡◌};
    ghost use Rattle.blic_qdimacs.specs.declared.error.ReadError.TheVariants as errors;

    ghost from_gives = { λ _ e. e ≡ errors.NoMem };

    fn from(_: NoMem) -> Self {
        ReadError::NoMem
    }
}

impl From<AllocError> for ReadError {
    ghost use Rattle.std.specs.Prelude.{◌≡◌};
    ghost use Rattle.blic_qdimacs.specs.declared.error.ReadError.TheVariants as errors;

    ghost from_gives = { λ _ e. e ≡ errors.NoMem };

    fn from(_: AllocError) -> Self {
        ReadError::NoMem
    }
}

impl<T: Drop> From<AllocFailed<T>> for ReadError {
    ghost use Rattle.std.specs.Prelude.{◌≡◌};
    ghost use Rattle.blic_qdimacs.specs.declared.error.ReadError.TheVariants as errors;

    ghost from_gives = { λ _ e. e ≡ errors.NoMem };

    fn from(_: AllocFailed<T>) -> Self {
        ReadError::NoMem
    }
}
