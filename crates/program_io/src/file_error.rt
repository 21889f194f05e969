//! What keeps a file from being read.

use std::io;
use thiserror::Error;

/// Why a file, or standard input, is not read. `Display` says it in the words of the system, where the system
/// refused it.
#[derive(Debug, Clone, Copy, Error)]
pub enum FileError {
    /// The system refused to open or to read it.
    #[error("{0}")]
    CannotRead(io::Error),
    /// Its bytes are not UTF-8.
    #[error("not UTF-8")]
    NotText,
    /// Memory ran out, which says nothing of the file.
    #[error("out of memory")]
    Memory,
}
