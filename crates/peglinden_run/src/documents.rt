//! The documents that files hold.
ghost use Rattle.std.specs.Prelude.{◌≡◌, ◌≢◌, ◌∷◌, ◌++◌, ◌↔◌, [], true, IfErr, IfOk, MatchResult, OnOk};
ghost use Rattle.std.specs.Prelude.{string_bytes};
ghost use Rattle.peglinden_run.specs.Documents.{AreDocumentsAt, IsDocumentAt, IsDocumentOf};
ghost use Rattle.peglinden_run.specs.Documents.{texts_of};
ghost use Rattle.peglinden_run.specs.RefusedFiles.{IsFilesCause, IsRefusedFile, IsRefusedText};

use crate::failure::Failure;
use crate::form::Form;
use crate::printed::{Tally, arranged};
use crate::reports::{parse_report, unread_report};
use apollo_compiler::text::{ParseErrorKind, ParseOptions, parse_document};
use graphql_ast::document::Document;
use graphql_nodes::collections::shared::Shared;
use graphql_nodes::collections::text::Text;
use graphql_nodes::source::{FileId, SourceFile};
use program_io::file_error::FileError;
use program_io::files::Files;
use std::alloc::{AllocError, Global};

/// The documents of the files of these paths, each under its place among them as its number, from 1 on.
///
/// `Files` says in this form of each file that it can't be read or is no document, and how many they are; all
/// files are looked at. `Exhausted` comes where memory ran out. There is no other error.
pub fn read_documents<F: Files>(
    alloc: Global,
    form: Form,
    files: &F,
    paths: &[&str],
) -> Result<Vec<Document>, Failure>
    ensures documents { IfOk result (λ documents.
        AreDocumentsAt (F.holds files.now) 1 (texts_of paths.now) documents.items) }
    ensures causes { IfErr result
        (IsFilesCause form (F.holds files.now) (F.may_fail files.now) (texts_of paths.now)) }
{
    let mut documents = Vec::new(alloc);
    let mut reports = String::new(alloc);
    let mut refused: usize = 0;
    for index in 0..paths.len() {
        let number = FileId(index as u64 + 1);
        match read_file(alloc, form, files, number, paths[index])? {
            Ok(document) => push_document(&mut documents, document)?,
            Err(report) => {
                reports.push_str(report.as_str())?;
                refused += 1;
            }
        }
    }
    if refused == 0 {
        return Ok(documents);
    }
    let tally = Tally {
        faults: refused,
        shown: refused,
        files: paths.len(),
    };
    let printed = arranged(alloc, form, tally, String::new(alloc), reports)?;
    Err(Failure::Files(printed))
}

/// The document of the file of this path, under this number; or what the form says of why the file can't be
/// read or is no document. The error is out of memory.
fn read_file<F: Files>(
    alloc: Global,
    form: Form,
    files: &F,
    number: FileId,
    path: &str,
) -> Result<Result<Document, String>, AllocError>
    ensures { number.0 ≢ 0
        → IfOk result (λ read.
        MatchResult read (IsDocumentAt (F.holds files.now) number.0 path.now) (λ report.
        IsRefusedFile form (F.holds files.now) (F.may_fail files.now) number.0 path.now
        (string_bytes report))) }
{
    match files.read(alloc, path) {
        Ok(text) => parse_text(alloc, form, number, path, text),
        Err(FileError::Memory) => Err(AllocError),
        Err(error) => Ok(Err(unread_report(alloc, form, path, &error)?)),
    }
}

/// The document of a text, under this path and number; or what the form says of why it is none. The error is
/// out of memory.
fn parse_text(
    alloc: Global,
    form: Form,
    number: FileId,
    path: &str,
    text: String,
) -> Result<Result<Document, String>, AllocError>
    ensures { number.0 ≢ 0
        → IfOk result (λ read.
        MatchResult read (IsDocumentOf number.0 path.now (string_bytes text)) (λ report.
        IsRefusedText form number.0 path.now (string_bytes text) (string_bytes report))) }
{
    let file = SourceFile {
        path: Text::from_str(alloc, path)?,
        text: Text::from_string(text),
    };
    let source = Shared::new(alloc, file)?;
    match parse_document(alloc, number, &source, ParseOptions::new()) {
        Ok(document) => Ok(Ok(document)),
        Err(error) if is_memory(&error.kind) => Err(AllocError),
        Err(error) => Ok(Err(parse_report(alloc, form, number, &source, &error)?)),
    }
}

/// Adds a document. The error is out of memory.
fn push_document(documents: &mut Vec<Document>, document: Document) -> Result<(), AllocError>
    ensures { OnOk result (documents.new.items ≡ documents.old.items ++ document ∷ []) }
{
    Ok(documents.push(document)?)
}

/// Whether memory ran out, so that nothing is said of a text.
fn is_memory(kind: &ParseErrorKind) -> bool
    ensures { (result ≡ true) ↔ (kind.now ≡ ParseErrorKind.Memory) }
{
    matches!(kind, ParseErrorKind::Memory)
}
