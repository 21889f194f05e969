//! Why a name stands for no file.

use program_io::file_error::FileError;
use thiserror::Error;

/// Why a name stands for no file.
#[derive(Debug, Clone, Copy, Error)]
pub enum Refusal {
    /// A folder can't be listed. The error is `CannotRead`.
    #[error("{0}")]
    Unlisted(FileError),
    /// Folders nest deeper than [`MOST_NESTED`](crate::walks::MOST_NESTED).
    #[error("folders nest too deep")]
    TooDeep,
    /// Nothing is found: the folder has no file of GraphQL text, or the pattern matches no file.
    #[error("nothing found")]
    NothingFound,
}
