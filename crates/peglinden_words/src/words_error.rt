//! Why the words of the command line ask for nothing.
ghost use Rattle.std.specs.Prelude.{◌≡◌};
ghost use Rattle.clap.specs.Values.{kind_of};
ghost use Rattle.peglinden_words.specs.Refusals.{IsErrorOf};
ghost use Rattle.peglinden_words.specs.declared.words_error.WordsError.{WordsError};

use clap::Error;
use clap::error::ErrorKind;
use std::alloc::{AllocError, Global};

/// Why the words of the command line ask for nothing.
#[derive(Debug, Drop)]
pub enum WordsError {
    /// The words ask for help or for the version: a text for standard output, with status 0. It ends with a
    /// line end.
    Help(String),
    /// The words are a mistake: a text for standard error, with status 2. It ends with a line end.
    Usage(String),
    /// Out of memory. It says nothing of the words.
    Memory,
}

impl From<AllocError> for WordsError {
    ghost from_gives = { λ _ e. e ≡ WordsError.Memory };

    fn from(_error: AllocError) -> WordsError {
        WordsError::Memory
    }
}

/// The error of the words that `clap` refuses with this one.
pub(crate) fn words_error(alloc: Global, refused: Error) -> WordsError
    ensures { IsErrorOf (kind_of refused) result }
{
    let Ok(text) = refused.to_string(alloc) else {
        return WordsError::Memory;
    };
    match refused.kind() {
        ErrorKind::DisplayHelp | ErrorKind::DisplayVersion => WordsError::Help(text),
        ErrorKind::OutOfMemory => WordsError::Memory,
        _ => WordsError::Usage(text),
    }
}
