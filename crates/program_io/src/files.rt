//! Files that are read as a whole.

use crate::file_error::FileError;
use std::alloc::Global;

/// Files by their paths.
pub trait Files {
    ghost use Rattle.std.specs.Prelude.{ℕ, List, IfErr, IfOk, string_bytes};
    ghost use Rattle.program_io.specs.Files.{IsFileCause};

    // The file of this path may hold these bytes.
    ghost holds: { Self → List ℕ → List ℕ → Type 0 };

    // Reading the file of a path may fail.
    ghost may_fail: { Self → List ℕ → Type 0 };

    /// The whole file of this path, as a text of exactly its bytes. The error is `Memory` where memory ran
    /// out, `NotText` where the bytes are not UTF-8, and `CannotRead` where reading fails. There is no other
    /// error.
    fn read(&self, alloc: Global, path: &str) -> Result<String, FileError>
        ensures text { IfOk result (λ text. holds self.now path.now (string_bytes text)) }
        ensures causes { IfErr result (IsFileCause (holds self.now path.now) (may_fail self.now path.now)) };
}
