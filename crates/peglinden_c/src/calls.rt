//! The calls that open an answer, as C has them.
ghost use Rattle.std.specs.Prelude.{◌++◌, IsUtf8};
ghost use Rattle.peglinden_c.specs.Answers.{IsAnswered};
ghost use Rattle.peglinden_c.specs.Calls.{IsCheckOf, IsFieldsOf, IsFormatOf, IsLookupOf, IsProper};
ghost use Rattle.peglinden_c.specs.Calls.{IsSchemaOf, IsTypedOf};
ghost use Rattle.peglinden_c.specs.Files.{AreTexts, handed, paths_of, text_at};
ghost use Rattle.peglinden_c.specs.Kept.{IsCall};

use crate::asking::{
    check_answered, fields_answered, format_answered, lookup_answered, schema_answered,
    typed_answered,
};
use crate::files::PegFile;
use crate::handle::PegAnswer;
use crate::opening::open;
use std::alloc::Global;

/// Opens the answer of `schema`: the schema of these files, as text. Takes the flags of reports, 4 and 8.
#[unsafe(no_mangle)]
pub extern "C" fn peg_schema(
    alloc: Global,
    keys: &[u8],
    flags: u32,
    max_faults: usize,
    files: &[PegFile<'_>],
    answer: &mut PegAnswer,
) -> i32
    ensures { IsCall
        (IsAnswered (IsSchemaOf flags max_faults (paths_of files.now)) (text_at (handed files.now)))
        (IsProper keys.now flags 15 (paths_of files.now)) result
        answer.old.slot.held answer.new.slot.held }
{
    let made = schema_answered(alloc, keys, flags, max_faults, files);
    open(alloc, made, answer)
}

/// Opens the answer of `check`: the faults of these documents and of their schema. Takes the flags of
/// reports.
#[unsafe(no_mangle)]
pub extern "C" fn peg_check(
    alloc: Global,
    keys: &[u8],
    flags: u32,
    max_faults: usize,
    schema: &[PegFile<'_>],
    documents: &[PegFile<'_>],
    answer: &mut PegAnswer,
) -> i32
    ensures { IsCall
        (IsAnswered (IsCheckOf flags max_faults (paths_of schema.now) (paths_of documents.now))
        (text_at (handed schema.now ++ handed documents.now)))
        (IsProper keys.now flags 3 (paths_of schema.now) × AreTexts (paths_of documents.now)) result
        answer.old.slot.held answer.new.slot.held }
{
    let made = check_answered(alloc, keys, flags, max_faults, schema, documents);
    open(alloc, made, answer)
}

/// Opens the answer of `typed`: these documents, typed over their schema, as text. Takes the flags of
/// reports.
#[unsafe(no_mangle)]
pub extern "C" fn peg_typed(
    alloc: Global,
    keys: &[u8],
    flags: u32,
    max_faults: usize,
    schema: &[PegFile<'_>],
    documents: &[PegFile<'_>],
    answer: &mut PegAnswer,
) -> i32
    ensures { IsCall
        (IsAnswered (IsTypedOf flags max_faults (paths_of schema.now) (paths_of documents.now))
        (text_at (handed schema.now ++ handed documents.now)))
        (IsProper keys.now flags 3 (paths_of schema.now) × AreTexts (paths_of documents.now)) result
        answer.old.slot.held answer.new.slot.held }
{
    let made = typed_answered(alloc, keys, flags, max_faults, schema, documents);
    open(alloc, made, answer)
}

/// Opens the answer of `fields`: the fields that each operation of these documents reaches over their schema.
/// Takes the flags of reports.
#[unsafe(no_mangle)]
pub extern "C" fn peg_fields(
    alloc: Global,
    keys: &[u8],
    flags: u32,
    max_faults: usize,
    schema: &[PegFile<'_>],
    documents: &[PegFile<'_>],
    answer: &mut PegAnswer,
) -> i32
    ensures { IsCall
        (IsAnswered (IsFieldsOf flags max_faults (paths_of schema.now) (paths_of documents.now))
        (text_at (handed schema.now ++ handed documents.now)))
        (IsProper keys.now flags 3 (paths_of schema.now) × AreTexts (paths_of documents.now)) result
        answer.old.slot.held answer.new.slot.held }
{
    let made = fields_answered(alloc, keys, flags, max_faults, schema, documents);
    open(alloc, made, answer)
}

/// Opens the answer of `lookup`: what a coordinate points to in the schema of these files. Takes the flags of
/// reports.
#[unsafe(no_mangle)]
pub extern "C" fn peg_lookup(
    alloc: Global,
    keys: &[u8],
    flags: u32,
    max_faults: usize,
    coordinate: &[u8],
    files: &[PegFile<'_>],
    answer: &mut PegAnswer,
) -> i32
    ensures { IsCall
        (IsAnswered (IsLookupOf flags max_faults coordinate.now (paths_of files.now))
        (text_at (handed files.now)))
        (IsProper keys.now flags 3 (paths_of files.now) × IsUtf8 coordinate.now) result
        answer.old.slot.held answer.new.slot.held }
{
    let made = lookup_answered(alloc, keys, flags, max_faults, coordinate, files);
    open(alloc, made, answer)
}

/// Opens the answer of `format`: these files in the layout of the printer. Takes the flags of reports, and
/// 16.
#[unsafe(no_mangle)]
pub extern "C" fn peg_format(
    alloc: Global,
    keys: &[u8],
    flags: u32,
    max_faults: usize,
    files: &[PegFile<'_>],
    answer: &mut PegAnswer,
) -> i32
    ensures { IsCall
        (IsAnswered (IsFormatOf flags max_faults (paths_of files.now)) (text_at (handed files.now)))
        (IsProper keys.now flags 19 (paths_of files.now)) result
        answer.old.slot.held answer.new.slot.held }
{
    let made = format_answered(alloc, keys, flags, max_faults, files);
    open(alloc, made, answer)
}
