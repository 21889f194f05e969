//! The folders of files in memory.
ghost use Rattle.std.specs.Prelude.{◌≡◌, OnOk, nat_eq, string_bytes};
ghost use Rattle.std.specs.Prelude.{option_map};
ghost use Rattle.std.specs.Cmp.Lexicographic.{pointwise};
ghost use Rattle.std.specs.List.{list_any};
ghost use Rattle.program_io.specs.Entries.{first_name, is_below, named, shown_by, slash_between, stripped};
ghost use Rattle.program_io.specs.Entries.{with_name};

use crate::file_error::FileError;
use crate::folders::{Entry, Folders, PathKind};
use crate::in_memory::FilesInMemory;
use std::alloc::{AllocError, Global};

/// What a text has behind this beginning.
fn without_beginning<'p>(beginning: &str, text: &'p str) -> Option<&'p str>
    ensures { option_map (λ rest. rest.now) result ≡ stripped beginning.now text.entry.now }
{
    text.strip_prefix(beginning)
}

/// Whether a slash is between two texts, at the end of the first or at the front of the second.
fn slash_between(before: &str, behind: &str) -> bool
    ensures { result ≡ slash_between before.now behind.now }
{
    let last = before.as_bytes().last().copied().unwrap_or(0);
    let first = behind.as_bytes().first().copied().unwrap_or(0);
    last == b'/' || first == b'/'
}

/// Whether a file is below the folder of this path, with a slash at its end or without one.
fn is_below(folder: &str, file: &str) -> bool
    ensures { result ≡ is_below folder.now file.now }
{
    match without_beginning(folder, file) {
        Some(rest) => slash_between(folder, rest),
        None => false,
    }
}

/// The name that a path behind a prefix begins with, and whether it is that of a folder.
fn first_name(path: &str) -> (&str, bool)
    ensures { (result.0.now, result.1) ≡ first_name path.entry.now }
{
    match path.split_once('/') {
        Some((name, _)) => (name, true),
        None => (path, false),
    }
}

/// What a file of this path says of the folder of a prefix: the name of what stands in it, and whether that
/// is a folder.
#[tactic(auto, unfolding(crate::specs::Entries::shown_by))]
fn shown_by<'p>(prefix: &str, path: &'p str) -> Option<(&'p str, bool)>
    ensures { option_map (λ name. (name.0.now, name.1)) result ≡ shown_by prefix.now path.entry.now }
{
    match without_beginning(prefix, path) {
        Some(rest) => Some(first_name(rest)),
        None => None,
    }
}

/// Whether this name is among these.
fn is_among(entries: &[Entry], name: &str) -> bool
    ensures { result
        ≡ list_any (λ other. pointwise nat_eq (string_bytes other.name) name.now) entries.now }
{
    entries.iter().any(|entry| entry.name.as_str() == name)
}

/// Adds what a file of this path says of the folder of a prefix, if that isn't there yet. The error is out of
/// memory.
fn add_entry(
    alloc: Global,
    entries: &mut Vec<Entry>,
    prefix: &str,
    path: &str,
) -> Result<(), AllocError>
    ensures { OnOk result (named entries.new.items
        ≡ with_name (named entries.old.items) (shown_by prefix.now path.now)) }
{
    let Some((name, is_folder)) = shown_by(prefix, path) else {
        return Ok(());
    };
    if is_among(entries.as_slice(), name) {
        return Ok(());
    }
    let name = String::from_str(alloc, name)?;
    entries.push(Entry { name, is_folder })?;
    Ok(())
}

/// Whether one of these files is below the folder of this path.
fn has_below(files: &[(&str, &[u8])], folder: &str) -> bool
    ensures { result ≡ list_any (λ file. is_below folder.now file.0.now) files.now }
{
    files.iter().any(|file| is_below(folder, file.0))
}

impl Folders for FilesInMemory<'_> {
    ghost use Rattle.std.specs.Prelude.{◌≡◌};
    ghost use Rattle.program_io.specs.Entries.{kind_in, names_in};

    ghost stands = { λ files path kind. kind ≡ kind_in files.0.now path };

    ghost lists = { λ files prefix names. names ≡ names_in files.0.now prefix };

    ghost may_hide = { λ _ _. ⊥ };

    fn kind_at(&self, path: &str) -> PathKind {
        if self.has(path) {
            return PathKind::File;
        }
        if has_below(self.0, path) {
            return PathKind::Folder;
        }
        PathKind::Nothing
    }

    fn entries(&self, alloc: Global, prefix: &str) -> Result<Vec<Entry>, FileError> {
        let mut entries = Vec::new(alloc);
        for file in self.0 {
            if add_entry(alloc, &mut entries, prefix, file.0).is_err() {
                return Err(FileError::Memory);
            }
        }
        Ok(entries)
    }
}
