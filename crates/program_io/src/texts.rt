//! Texts, and the bytes that they are read from.
ghost use Rattle.std.specs.Prelude.{◌≡◌, IfErr, IfOk, string_bytes, ⊤};
ghost use Rattle.program_io.specs.Files.{IsFileCause, IsNoText, IsReadCause};

use crate::file_error::FileError;
use crate::input::Input;
use std::alloc::Global;
use std::io::{self, ErrorKind};

/// All that there is to read, as a text of exactly its bytes. The error is `Memory` where memory ran out,
/// `NotText` where the bytes are not UTF-8, and `CannotRead` where reading fails. There is no other error.
pub fn read_text<R: Input>(alloc: Global, input: &mut R) -> Result<String, FileError>
    ensures text { IfOk result (λ text. R.holds input.old (string_bytes text)) }
    ensures causes { IfErr result (IsFileCause (R.holds input.old) (R.may_fail input.old)) }
{
    text_of(input.read_all(alloc)?)
}

/// The text of these bytes. The error is `NotText`, for bytes that are not UTF-8.
fn text_of(bytes: Vec<u8>) -> Result<String, FileError>
    ensures text { IfOk result (λ text. string_bytes text ≡ bytes.items) }
    ensures no_text { IfErr result (λ error. (error ≡ FileError.NotText) × IsNoText bytes.items) }
{
    String::from_utf8(bytes).map_err(|_| FileError::NotText)
}

/// A copy of these bytes. The error is `Memory`.
pub(crate) fn copied(alloc: Global, bytes: &[u8]) -> Result<Vec<u8>, FileError>
    ensures bytes { IfOk result (λ copy. copy.items ≡ bytes.now) }
    ensures memory { IfErr result (λ error. error ≡ FileError.Memory) }
{
    let mut copy = Vec::new(alloc);
    match copy.extend_from_slice(bytes) {
        Ok(()) => Ok(copy),
        Err(_) => Err(FileError::Memory),
    }
}

/// The text of a copy of these bytes. The error is `NotText`, for bytes that are not UTF-8, or `Memory`.
pub(crate) fn text_of_copy(alloc: Global, bytes: &[u8]) -> Result<String, FileError>
    ensures text { IfOk result (λ text. string_bytes text ≡ bytes.now) }
    ensures causes { IfErr result (IsFileCause (λ held. held ≡ bytes.now) ⊥) }
{
    match copied(alloc, bytes) {
        Ok(copy) => text_of(copy),
        Err(error) => Err(error),
    }
}

/// Why the system refused a file.
pub(crate) fn refusal(error: io::Error) -> FileError
    ensures { IsReadCause ⊤ result }
{
    if error.kind() == ErrorKind::OutOfMemory {
        FileError::Memory
    } else {
        FileError::CannotRead(error)
    }
}
