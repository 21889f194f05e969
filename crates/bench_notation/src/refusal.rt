//! Why a text of the notation is not read.
ghost use Rattle.std.specs.Prelude.{◌≡◌};

use std::alloc::{AllocError, AllocFailed};
use thiserror::Error;

/// Why a line is refused. Of several reasons the one that stands first here is given.
#[derive(Debug, Clone, Copy, PartialEq, Eq, Error)]
pub enum Reason {
    /// The first word begins no line of the notation.
    #[error("unknown line")]
    UnknownLine,
    /// The line can't stand where it does.
    #[error("misplaced line")]
    MisplacedLine,
    /// There are too few words, or too many. Two spaces in a row have an empty word between them.
    #[error("wrong number of words")]
    WrongNumberOfWords,
    /// A word is none that can stand where it does.
    #[error("bad word")]
    BadWord,
}

/// Why a line is not read.
#[derive(Debug, Clone, Copy)]
pub enum LineError {
    Refused(Reason),
    Memory,
}

impl From<Reason> for LineError {
    ghost use Rattle.bench_notation.specs.declared.refusal.LineError.{LineError};

    ghost from_gives = { λ reason e. e ≡ LineError.Refused reason };

    fn from(reason: Reason) -> LineError {
        LineError::Refused(reason)
    }
}

impl From<AllocError> for LineError {
    ghost use Rattle.bench_notation.specs.declared.refusal.LineError.{LineError};

    ghost from_gives = { λ _ e. e ≡ LineError.Memory };

    fn from(_error: AllocError) -> LineError {
        LineError::Memory
    }
}

impl<T: Drop> From<AllocFailed<T>> for LineError {
    ghost use Rattle.bench_notation.specs.declared.refusal.LineError.{LineError};

    ghost from_gives = { λ _ e. e ≡ LineError.Memory };

    fn from(_error: AllocFailed<T>) -> LineError {
        LineError::Memory
    }
}

/// A refused line: its number, counted from 1, and the reason.
#[derive(Debug, Clone, Copy, PartialEq, Eq, Error)]
#[error("line {number}: {reason}")]
pub struct RefusedLine {
    pub number: usize,
    pub reason: Reason,
}

/// Why a whole text is not read: a line is refused, no line divides it, or memory ran out, which says nothing
/// of the text.
#[derive(Debug, Clone, Copy, PartialEq, Eq, Error)]
pub enum ReadError {
    #[error(transparent)]
    Refused(RefusedLine),
    /// No line divides the text, which is to be divided.
    #[error("missing ===")]
    NoDivision,
    #[error("out of memory")]
    Memory,
}

impl From<AllocError> for ReadError {
    ghost use Rattle.bench_notation.specs.declared.refusal.ReadError.{ReadError};

    ghost from_gives = { λ _ e. e ≡ ReadError.Memory };

    fn from(_error: AllocError) -> ReadError {
        ReadError::Memory
    }
}
