//! Replacing files of the system.

use crate::file_error::FileError;
use crate::replacing::Replacing;
use crate::system::SystemFiles;
use crate::texts::refusal;
use std::alloc::Global;
use std::fs::{self, OpenFile, OpenOptions, Permissions};
use std::io::{self, ErrorKind, Write};
use std::os::unix::fs::OpenOptionsExt;

/// The mode of a new file before it has that of the file it replaces: it is read and written by its owner.
const FIRST_MODE: u32 = 0o600;

/// So many names are tried for a new file.
const MOST_NAMES: u32 = 1000;

/// A new file is written beside the old one and renamed to it. Where that fails nothing of it is left behind.
/// The new file has the mode of the old one, and this process as its owner. Nothing is known of what was
/// replaced.
impl<R: fs::Files + AllocGlobal> Replacing for SystemFiles<'_, R> {
    ghost use Rattle.std.specs.Prelude.{None};

    ghost replaced = { λ _. None };

    fn replace(&mut self, alloc: Global, path: &str, text: &str) -> Result<(), FileError> {
        match replace_file(self.0, alloc, path, text) {
            Ok(()) => Ok(()),
            Err(error) => Err(refusal(error)),
        }
    }
}

/// Puts a text in place of that of a file.
fn replace_file<R: fs::Files + AllocGlobal>(
    files: &R,
    alloc: Global,
    path: &str,
    text: &str,
) -> io::Result<()> {
    let target = fs::canonicalize(files, path)?;
    let permissions = fs::metadata(files, target.as_path())?.permissions();
    let target = target.as_path().as_str();
    let folder = folder_of(target);
    for number in 0..MOST_NAMES {
        let name = format!(in alloc; "{folder}/.peglinden-{number}.new")?;
        match create(files, name.as_str()) {
            Ok(file) => return put(files, file, name.as_str(), target, text, permissions),
            Err(error) if error.kind() == ErrorKind::AlreadyExists => {}
            Err(error) => return Err(error),
        }
    }
    Err(io::Error::new(
        ErrorKind::AlreadyExists,
        "no name is free for a new file beside it",
    ))
}

/// The folder that a file is in, by its whole path; nothing for one in the root.
fn folder_of(path: &str) -> &str {
    match path.rsplit_once('/') {
        Some((folder, _)) => folder,
        None => ".",
    }
}

/// Makes a new file, which nobody else can read yet.
fn create<R: fs::Files>(files: &R, path: &str) -> io::Result<R::File> {
    let mut options = OpenOptions::new();
    options.write(true).create_new(true).mode(FIRST_MODE);
    options.open(files, path)
}

/// Fills a new file and renames it to that which it replaces; or removes it where that fails.
fn put<R: fs::Files>(
    files: &R,
    file: R::File,
    name: &str,
    target: &str,
    text: &str,
    permissions: Permissions,
) -> io::Result<()> {
    let mut ended = fill(file, text, permissions);
    if ended.is_ok() {
        ended = fs::rename(files, name, target);
    }
    if ended.is_err() {
        let _ = fs::remove_file(files, name);
    }
    ended
}

/// Writes a text to a new file, and gives it these permissions.
fn fill<F: Write + OpenFile + Drop>(
    mut file: F,
    text: &str,
    permissions: Permissions,
) -> io::Result<()> {
    file.write_all(text.as_bytes())?;
    file.set_permissions(permissions)?;
    file.sync_all()
}
