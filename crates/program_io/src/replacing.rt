//! Files whose texts are replaced.

use crate::file_error::FileError;
use std::alloc::Global;

/// What replaces the texts of files.
pub trait Replacing {
    ghost use Rattle.std.specs.Prelude.{ℕ, List, Option, OnErr, OnOk};
    ghost use Rattle.program_io.specs.Replaced.{Replaces, ReplacesNothing};

    // The paths of the files that were replaced, each with its new text, in the order of the calls; or
    // nothing where that isn't known.
    ghost replaced: { Self → Option (List (List ℕ × List ℕ)) };

    /// Puts this text in place of that of the file of this path, which is there. Links are followed, and the
    /// file that they lead to is replaced. It keeps its mode. Whoever reads it meanwhile has the old text or
    /// the new one, and no part of one.
    ///
    /// The error is `Memory` where memory ran out, and `CannotRead` where the system refuses, and in words
    /// says why. Then the file has its old text. There is no other error.
    fn replace(&mut self, alloc: Global, path: &str, text: &str) -> Result<(), FileError>
        ensures replaced { OnOk result (Replaces path.now text.now (replaced self.old) (replaced self.new)) }
        ensures kept { OnErr result (ReplacesNothing (replaced self.old) (replaced self.new)) };
}
