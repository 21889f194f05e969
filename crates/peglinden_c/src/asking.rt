//! What comes of each call.
ghost use Rattle.std.specs.Prelude.{◌≡◌, ◌++◌, Err, IfOk, IsUtf8};
ghost use Rattle.peglinden_c.specs.Answers.{IsAnswered, IsMade};
ghost use Rattle.peglinden_c.specs.Calls.{IsCheckOf, IsFieldsOf, IsFormatOf, IsLookupOf, IsProper};
ghost use Rattle.peglinden_c.specs.Calls.{IsSchemaOf, IsTypedOf, IsTypingOf};
ghost use Rattle.peglinden_c.specs.Files.{AreTexts, handed, in_memory, paths_of, text_at};
ghost use Rattle.peglinden_c.specs.declared.refusal.Refusal.{Refusal};

use crate::answered::{Answered, what_comes};
use crate::files::{PegFile, push_files, text_of};
use crate::flags::{
    ADOPT, CHECK, IGNORE_BUILTIN, OF_FORMAT, OF_REPORTS, OF_SCHEMA, has, reporting_of,
};
use crate::keys::proper_keys;
use crate::refusal::Refusal;
use peglinden_words::request::{Request, Typing};
use std::alloc::Global;

/// What a call that types documents asks for, and its files.
struct Asked<'f> {
    typing: Typing<'f>,
    pairs: Vec<(&'f str, &'f [u8])>,
}

/// What comes of `peg_schema`.
pub(crate) fn schema_answered(
    alloc: Global,
    keys: &[u8],
    flags: u32,
    max_faults: usize,
    files: &[PegFile<'_>],
) -> Result<Answered, Refusal>
    ensures { IsMade
        (IsAnswered (IsSchemaOf flags max_faults (paths_of files.now)) (text_at (handed files.now)))
        (IsProper keys.now flags 15 (paths_of files.now)) result }
{
    let keys = proper_keys(keys, flags, OF_SCHEMA)?;
    let mut pairs = Vec::new(alloc);
    let mut paths = Vec::new(alloc);
    push_files(&mut pairs, &mut paths, files)?;
    let request = Request::Schema {
        adopt: has(flags, ADOPT),
        ignore_builtin: has(flags, IGNORE_BUILTIN),
        reporting: reporting_of(flags, max_faults),
        files: paths,
    };
    what_comes(alloc, keys, &request, pairs.as_slice())
}

/// What a call that types these documents over this schema asks for, and its files. The error is `Improper`
/// only where a path is no text, and else out of memory.
fn asked_typing<'f>(
    alloc: Global,
    flags: u32,
    max_faults: usize,
    schema: &[PegFile<'f>],
    documents: &[PegFile<'f>],
) -> Result<Asked<'f>, Refusal>
    ensures typing { IfOk result (λ asked.
        IsTypingOf flags max_faults (paths_of schema.now) (paths_of documents.now) asked.typing) }
    ensures files { IfOk result (λ asked.
        in_memory asked.pairs.items ≡ handed schema.now ++ handed documents.now) }
    ensures proper { IfOk result (λ _. AreTexts (paths_of schema.now) × AreTexts (paths_of documents.now)) }
    ensures improper { result ≡ Err Refusal.Improper
        → ¬ (AreTexts (paths_of schema.now) × AreTexts (paths_of documents.now)) }
{
    let mut pairs = Vec::new(alloc);
    let mut schema_paths = Vec::new(alloc);
    let mut document_paths = Vec::new(alloc);
    push_files(&mut pairs, &mut schema_paths, schema)?;
    push_files(&mut pairs, &mut document_paths, documents)?;
    Ok(Asked {
        typing: Typing {
            reporting: reporting_of(flags, max_faults),
            schema: schema_paths,
            documents: document_paths,
        },
        pairs,
    })
}

/// What comes of `peg_check`.
pub(crate) fn check_answered(
    alloc: Global,
    keys: &[u8],
    flags: u32,
    max_faults: usize,
    schema: &[PegFile<'_>],
    documents: &[PegFile<'_>],
) -> Result<Answered, Refusal>
    ensures { IsMade
        (IsAnswered (IsCheckOf flags max_faults (paths_of schema.now) (paths_of documents.now))
        (text_at (handed schema.now ++ handed documents.now)))
        (IsProper keys.now flags 3 (paths_of schema.now) × AreTexts (paths_of documents.now)) result }
{
    let keys = proper_keys(keys, flags, OF_REPORTS)?;
    let Asked { typing, pairs } = asked_typing(alloc, flags, max_faults, schema, documents)?;
    what_comes(alloc, keys, &Request::Check(typing), pairs.as_slice())
}

/// What comes of `peg_typed`.
pub(crate) fn typed_answered(
    alloc: Global,
    keys: &[u8],
    flags: u32,
    max_faults: usize,
    schema: &[PegFile<'_>],
    documents: &[PegFile<'_>],
) -> Result<Answered, Refusal>
    ensures { IsMade
        (IsAnswered (IsTypedOf flags max_faults (paths_of schema.now) (paths_of documents.now))
        (text_at (handed schema.now ++ handed documents.now)))
        (IsProper keys.now flags 3 (paths_of schema.now) × AreTexts (paths_of documents.now)) result }
{
    let keys = proper_keys(keys, flags, OF_REPORTS)?;
    let Asked { typing, pairs } = asked_typing(alloc, flags, max_faults, schema, documents)?;
    what_comes(alloc, keys, &Request::Typed(typing), pairs.as_slice())
}

/// What comes of `peg_fields`.
pub(crate) fn fields_answered(
    alloc: Global,
    keys: &[u8],
    flags: u32,
    max_faults: usize,
    schema: &[PegFile<'_>],
    documents: &[PegFile<'_>],
) -> Result<Answered, Refusal>
    ensures { IsMade
        (IsAnswered (IsFieldsOf flags max_faults (paths_of schema.now) (paths_of documents.now))
        (text_at (handed schema.now ++ handed documents.now)))
        (IsProper keys.now flags 3 (paths_of schema.now) × AreTexts (paths_of documents.now)) result }
{
    let keys = proper_keys(keys, flags, OF_REPORTS)?;
    let Asked { typing, pairs } = asked_typing(alloc, flags, max_faults, schema, documents)?;
    what_comes(alloc, keys, &Request::Fields(typing), pairs.as_slice())
}

/// What comes of `peg_lookup`.
pub(crate) fn lookup_answered(
    alloc: Global,
    keys: &[u8],
    flags: u32,
    max_faults: usize,
    coordinate: &[u8],
    files: &[PegFile<'_>],
) -> Result<Answered, Refusal>
    ensures { IsMade
        (IsAnswered (IsLookupOf flags max_faults coordinate.now (paths_of files.now))
        (text_at (handed files.now)))
        (IsProper keys.now flags 3 (paths_of files.now) × IsUtf8 coordinate.now) result }
{
    let keys = proper_keys(keys, flags, OF_REPORTS)?;
    let Some(coordinate) = text_of(coordinate) else {
        return Err(Refusal::Improper);
    };
    let mut pairs = Vec::new(alloc);
    let mut paths = Vec::new(alloc);
    push_files(&mut pairs, &mut paths, files)?;
    let request = Request::Lookup {
        coordinate,
        reporting: reporting_of(flags, max_faults),
        files: paths,
    };
    what_comes(alloc, keys, &request, pairs.as_slice())
}

/// What comes of `peg_format`.
pub(crate) fn format_answered(
    alloc: Global,
    keys: &[u8],
    flags: u32,
    max_faults: usize,
    files: &[PegFile<'_>],
) -> Result<Answered, Refusal>
    ensures { IsMade
        (IsAnswered (IsFormatOf flags max_faults (paths_of files.now)) (text_at (handed files.now)))
        (IsProper keys.now flags 19 (paths_of files.now)) result }
{
    let keys = proper_keys(keys, flags, OF_FORMAT)?;
    let mut pairs = Vec::new(alloc);
    let mut paths = Vec::new(alloc);
    push_files(&mut pairs, &mut paths, files)?;
    let request = Request::Format {
        check: has(flags, CHECK),
        reporting: reporting_of(flags, max_faults),
        files: paths,
    };
    what_comes(alloc, keys, &request, pairs.as_slice())
}
