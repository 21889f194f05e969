//! What is found below folders.
ghost use Rattle.std.specs.Prelude.{◌≡◌, ◌≢◌, ◌++◌, IfOk, OnOk, Some, string_bytes};
ghost use Rattle.program_io.specs.Entries.{named_entry};
ghost use Rattle.named_files.specs.Wanted.{enters, takes};
ghost use Rattle.named_files.specs.Walks.{Adds, FindsAt, FindsBelow, FindsFile, FindsOne};

use crate::found::Found;
use crate::refusal::Refusal;
use crate::wanted::{Wanted, is_hidden};
use program_io::file_error::FileError;
use program_io::folders::{Entry, Folders};
use std::alloc::{AllocError, Global};

/// So deep folders may nest below one that is named.
pub const MOST_NESTED: usize = 256;

/// Adds what is wanted below the folder of a prefix, where folders may nest so deep. What can't be listed, or
/// nests deeper, is added in place of what is below it. The error is out of memory.
#[cycle(walk)]
pub(crate) fn add_below<F: Folders>(
    alloc: Global,
    folders: &F,
    wanted: &Wanted<'_>,
    depth: usize,
    prefix: &str,
    found: &mut Vec<Found>,
) -> Result<(), AllocError>
    ensures { OnOk result (Adds
        (FindsBelow (takes wanted.now) (enters wanted.now) (F.lists folders.now) (F.may_hide folders.now)
        depth prefix.now) found.old.items found.new.items) }
{
    if depth == 0 {
        return add_one(alloc, prefix, Some(Refusal::TooDeep), found);
    }
    match folders.entries(alloc, prefix) {
        Ok(entries) => {
            for entry in &entries {
                add_entry(alloc, folders, wanted, depth - 1, prefix, entry, found)?;
            }
            Ok(())
        }
        Err(error) => add_unlisted(alloc, prefix, error, found),
    }
}

/// Adds that the folder of a prefix can't be listed for this, unless memory ran out. The error is out of
/// memory.
fn add_unlisted(
    alloc: Global,
    prefix: &str,
    error: FileError,
    found: &mut Vec<Found>,
) -> Result<(), AllocError>
    ensures other { OnOk result (error ≢ FileError.Memory) }
    ensures added { OnOk result
        (Adds (FindsOne prefix.now (Some (Refusal.Unlisted error))) found.old.items found.new.items) }
{
    match error {
        FileError::Memory => Err(AllocError),
        FileError::CannotRead(_) | FileError::NotText => {
            add_one(alloc, prefix, Some(Refusal::Unlisted(error)), found)
        }
    }
}

/// Adds what is wanted of what stands in the folder of a prefix: the file itself, or what is below it. The
/// error is out of memory.
#[cycle(walk)]
fn add_entry<F: Folders>(
    alloc: Global,
    folders: &F,
    wanted: &Wanted<'_>,
    depth: usize,
    prefix: &str,
    entry: &Entry,
    found: &mut Vec<Found>,
) -> Result<(), AllocError>
    ensures { OnOk result (Adds
        (FindsAt (takes wanted.now) (enters wanted.now)
        (FindsBelow (takes wanted.now) (enters wanted.now) (F.lists folders.now) (F.may_hide folders.now)
        depth)
        prefix.now (named_entry entry.now)) found.old.items found.new.items) }
{
    let name = entry.name.as_str();
    if is_hidden(name) {
        return Ok(());
    }
    let path = joined(alloc, prefix, name)?;
    if !entry.is_folder {
        return add_file(alloc, wanted, path.as_str(), found);
    }
    if !wanted.enters(alloc, path.as_str())? {
        return Ok(());
    }
    let below = joined(alloc, path.as_str(), "/")?;
    add_below(alloc, folders, wanted, depth, below.as_str(), found)
}

/// Adds the file of a path, where it is wanted. The error is out of memory.
fn add_file(
    alloc: Global,
    wanted: &Wanted<'_>,
    path: &str,
    found: &mut Vec<Found>,
) -> Result<(), AllocError>
    ensures { OnOk result
        (Adds (FindsFile (takes wanted.now path.now) path.now) found.old.items found.new.items) }
{
    if wanted.takes(alloc, path)? {
        add_one(alloc, path, None, found)
    } else {
        Ok(())
    }
}

/// Adds one name, with the refusal or none. The error is out of memory.
pub(crate) fn add_one(
    alloc: Global,
    path: &str,
    refusal: Option<Refusal>,
    found: &mut Vec<Found>,
) -> Result<(), AllocError>
    ensures { OnOk result (Adds (FindsOne path.now refusal) found.old.items found.new.items) }
{
    let path = String::from_str(alloc, path)?;
    found.push(Found { path, refusal })?;
    Ok(())
}

/// Two texts, one behind the other. The error is out of memory.
pub(crate) fn joined(alloc: Global, front: &str, back: &str) -> Result<String, AllocError>
    ensures { IfOk result (λ text. string_bytes text ≡ front.now ++ back.now) }
{
    let mut text = String::from_str(alloc, front)?;
    text.push_str(back)?;
    Ok(text)
}
