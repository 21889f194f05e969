//! Files among which is standard input.
ghost use Rattle.std.specs.Prelude.{◌≡◌, ◌≢◌, Err};
ghost use Rattle.program_io.specs.Files.{is_input};
ghost use Rattle.program_io.specs.declared.file_error.FileError.{FileError};

use crate::file_error::FileError;
use crate::files::Files;
use crate::texts::text_of_copy;
use std::alloc::Global;

/// Whether this path names standard input: it is `-`.
pub fn is_input(path: &str) -> bool
    ensures { result ≡ is_input path.now }
{
    path == "-"
}

/// Files, and what reading standard input gave, which has the path `-`: all its bytes, or an error. Reading
/// that path gives a text of these bytes, or that error; so the error is never `NotText`, which is no error
/// of reading bytes.
pub struct WithInput<'a, F> {
    pub files: &'a F,
    pub input: Result<Vec<u8>, FileError>,
    ghost is_read: { input ≢ Err FileError.NotText },
}

impl<F> Drop for WithInput<'_, F> {
    fn drop(self) {
        let Self { files: _, input: _ } = self;
    }
}

impl<F: Files> Files for WithInput<'_, F> {
    ghost use Rattle.std.specs.Prelude.{◌≡◌, MatchResult};
    ghost use Rattle.program_io.specs.Files.{IsRefusal, may_fail_with_input, with_input};

    ghost holds = { λ it.
        with_input (λ bytes. MatchResult it.input (λ read. bytes ≡ read.items) (λ _. ⊥))
        (F.holds it.files.now) };

    ghost may_fail = { λ it.
        may_fail_with_input (MatchResult it.input (λ _. ⊥) IsRefusal) (F.may_fail it.files.now) };

    fn read(&self, alloc: Global, path: &str) -> Result<String, FileError> {
        if !is_input(path) {
            return self.files.read(alloc, path);
        }
        match &self.input {
            Ok(bytes) => text_of_copy(alloc, bytes.as_slice()),
            Err(error) => Err(*error),
        }
    }
}
