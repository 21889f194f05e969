//! The files that a caller hands over.
ghost use Rattle.std.specs.Prelude.{◌≡◌, ◌∷◌, ◌++◌, [], Err, MatchOption, OnOk, IsUtf8};
ghost use Rattle.peglinden_run.specs.Documents.{texts_of};
ghost use Rattle.peglinden_c.specs.Files.{AreTexts, handed, in_memory, paths_of};
ghost use Rattle.peglinden_c.specs.declared.refusal.Refusal.{Refusal};

use crate::refusal::Refusal;
use std::alloc::AllocError;
use std::str::from_utf8;

/// A file: its path and its text. In C each is a pointer and a length.
#[repr(C)]
#[derive(Clone, Copy)]
pub struct PegFile<'f> {
    pub path: &'f [u8],
    pub text: &'f [u8],
}

/// Bytes as a text, if they are one.
pub(crate) fn text_of<'f>(bytes: &'f [u8]) -> Option<&'f str>
    ensures { MatchOption result (¬ IsUtf8 bytes.now) (λ text. (text.now ≡ bytes.now) × IsUtf8 bytes.now) }
{
    from_utf8(bytes).ok()
}

/// Adds a file of this path and text, as one in memory, and its path. The error is out of memory.
fn push_named<'f>(
    pairs: &mut Vec<(&'f str, &'f [u8])>,
    paths: &mut Vec<&'f str>,
    path: &'f str,
    text: &'f [u8],
) -> Result<(), AllocError>
    ensures file { OnOk result (in_memory pairs.new.items
        ≡ in_memory pairs.old.items ++ (path.entry.now, text.entry.now) ∷ []) }
    ensures path { OnOk result (texts_of paths.new.items ≡ texts_of paths.old.items ++ path.entry.now ∷ []) }
{
    pairs.push((path, text))?;
    paths.push(path)?;
    Ok(())
}

/// Adds a file, as one in memory, and its path. The error is `Improper` only where the path is no text, and
/// else out of memory.
fn push_file<'f>(
    pairs: &mut Vec<(&'f str, &'f [u8])>,
    paths: &mut Vec<&'f str>,
    file: &PegFile<'f>,
) -> Result<(), Refusal>
    ensures file { OnOk result (in_memory pairs.new.items
        ≡ in_memory pairs.old.items ++ (file.now.path.now, file.now.text.now) ∷ []) }
    ensures path { OnOk result (texts_of paths.new.items
        ≡ texts_of paths.old.items ++ file.now.path.now ∷ []) }
    ensures proper { OnOk result (IsUtf8 file.now.path.now) }
    ensures improper { result ≡ Err Refusal.Improper → ¬ IsUtf8 file.now.path.now }
{
    let Some(path) = text_of(file.path) else {
        return Err(Refusal::Improper);
    };
    push_named(pairs, paths, path, file.text)?;
    Ok(())
}

/// Adds files, as files in memory, and their paths. The error is `Improper` only where a path is no text, and
/// else out of memory.
pub(crate) fn push_files<'f>(
    pairs: &mut Vec<(&'f str, &'f [u8])>,
    paths: &mut Vec<&'f str>,
    files: &[PegFile<'f>],
) -> Result<(), Refusal>
    ensures files { OnOk result (in_memory pairs.new.items ≡ in_memory pairs.old.items ++ handed files.now) }
    ensures paths { OnOk result (texts_of paths.new.items ≡ texts_of paths.old.items ++ paths_of files.now) }
    ensures proper { OnOk result (AreTexts (paths_of files.now)) }
    ensures improper { result ≡ Err Refusal.Improper → ¬ AreTexts (paths_of files.now) }
{
    for file in files {
        push_file(pairs, paths, file)?;
    }
    Ok(())
}
