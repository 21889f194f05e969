//! Folders, and what stands in them.

use crate::file_error::FileError;
use crate::files::Files;
use std::alloc::Global;

/// What stands at a path.
#[derive(Debug, Clone, Copy, PartialEq, Eq)]
pub enum PathKind {
    /// Nothing.
    Nothing,
    /// A file, or what is read as one: whatever is no folder. It may be that it can't be read.
    File,
    /// A folder, or a link to one.
    Folder,
}

/// What stands in a folder.
#[derive(Debug, Drop)]
pub struct Entry {
    /// Its name, without a slash.
    pub name: String,
    /// Whether it is a folder. A link to a folder is none, so that who goes down folders meets none twice.
    pub is_folder: bool,
}

/// Files, and the folders that they stand in.
pub trait Folders: Files {
    ghost use Rattle.std.specs.Prelude.{ℕ, Bool, List, IfErr, IfOk};
    ghost use Rattle.program_io.specs.Files.{IsReadCause};
    ghost use Rattle.program_io.specs.Entries.{named};
    ghost use Rattle.program_io.specs.declared.folders.PathKind.{PathKind};

    // This may stand at a path.
    ghost stands: { Self → List ℕ → PathKind → Type 0 };

    // The folder of a prefix may have these in it, in this order: the name of each, and whether it is a
    // folder.
    ghost lists: { Self → List ℕ → List (List ℕ × Bool) → Type 0 };

    // Listing the folder of a prefix may fail.
    ghost may_hide: { Self → List ℕ → Type 0 };

    /// What stands at this path. Links are followed. Where that can't be had it is `File`, so that reading it
    /// says why.
    fn kind_at(&self, path: &str) -> PathKind
        ensures { stands self.now path.now result };

    /// What stands in a folder, in any order. The paths of what stands in it begin with the prefix: it is the
    /// folder's path with a slash behind it, or nothing for the folder that the program runs in. What has a
    /// name that is not UTF-8 is left out.
    ///
    /// The error is `Memory` where memory ran out, and `CannotRead` where listing fails. There is no other
    /// error.
    fn entries(&self, alloc: Global, prefix: &str) -> Result<Vec<Entry>, FileError>
        ensures entries { IfOk result (λ entries. lists self.now prefix.now (named entries.items)) }
        ensures causes { IfErr result (IsReadCause (may_hide self.now prefix.now)) };
}
