//! The folders of the system.

use crate::file_error::FileError;
use crate::folders::{Entry, Folders, PathKind};
use crate::system::SystemFiles;
use crate::texts::refusal;
use std::alloc::Global;
use std::fs::{self, DirEntry};
use std::io::{self, ErrorKind};

/// Nothing is known of the folders of the system before they are listed, and listing may fail at any time.
impl<R: fs::Files + AllocGlobal + Clone + Drop> Folders for SystemFiles<'_, R> {
    ghost use Rattle.std.specs.Prelude.{⊤};

    ghost stands = { λ _ _ _. ⊤ };

    ghost lists = { λ _ _ _. ⊤ };

    ghost may_hide = { λ _ _. ⊤ };

    fn kind_at(&self, path: &str) -> PathKind {
        match fs::metadata(self.0, path) {
            Ok(metadata) if metadata.is_dir() => PathKind::Folder,
            Err(error) if error.kind() == ErrorKind::NotFound => PathKind::Nothing,
            _ => PathKind::File,
        }
    }

    fn entries(&self, alloc: Global, prefix: &str) -> Result<Vec<Entry>, FileError> {
        let folder = if prefix.is_empty() { "." } else { prefix };
        match system_entries(self.0, alloc, folder) {
            Ok(entries) => Ok(entries),
            Err(error) => Err(refusal(error)),
        }
    }
}

/// What stands in a folder of the system.
fn system_entries<R: fs::Files + AllocGlobal + Clone + Drop>(
    files: &R,
    alloc: Global,
    folder: &str,
) -> io::Result<Vec<Entry>> {
    let mut entries = Vec::new(alloc);
    for found in fs::read_dir(files, folder)? {
        match found {
            Ok(found) => entries.push(entry(alloc, &found)?)?,
            Err(error) if error.kind() == ErrorKind::InvalidFilename => {}
            Err(error) => return Err(error),
        }
    }
    Ok(entries)
}

/// The name of what stands in a folder, and whether it is a folder.
fn entry<R: fs::Files>(alloc: Global, found: &DirEntry<R, Global>) -> io::Result<Entry> {
    let name = String::from_str(alloc, found.file_name())?;
    let is_folder = match found.file_type() {
        Ok(kind) => kind.is_dir(),
        Err(_) => false,
    };
    Ok(Entry { name, is_folder })
}
