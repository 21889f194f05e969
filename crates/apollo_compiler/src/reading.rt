//! What becomes of a file that is read as a document.
ghost use Rattle.std.specs.Prelude.{◌≡◌, ◌≢◌, ◌↔◌, IfOk, string_bytes, true};
ghost use Rattle.apollo_compiler.specs.Loading.{IsReading, IsReadingOfText};
ghost use Rattle.graphql_text.specs.declared.parse_error.ParseErrorKind.TheVariants.{Memory};

use graphql_ast::document::Document;
use graphql_nodes::collections::shared::Shared;
use graphql_nodes::collections::text::Text;
use graphql_nodes::source::{FileId, SourceFile};
use graphql_text::parse_error::{ParseError, ParseErrorKind};
use graphql_text::parsing::{ParseOptions, parse_document};
use program_io::file_error::FileError;
use program_io::files::Files;
use std::alloc::{AllocError, Global};

/// What becomes of a file that is read as a document.
#[derive(Drop)]
pub(crate) enum Reading {
    /// It can't be read: its path, and why.
    Unread(Text, FileError),
    /// Its text is no document, and why.
    Refused(Shared<SourceFile>, ParseError),
    /// The document that its text is.
    Read(Shared<SourceFile>, Document),
}

/// What becomes of the file of this path, read under this number. The error is out of memory.
pub(crate) fn read_file<F: Files>(
    alloc: Global,
    files: &F,
    number: FileId,
    path: &str,
    options: ParseOptions,
) -> Result<Reading, AllocError>
    requires { number.0 ≢ 0 }
    ensures { IfOk result (IsReading (F.holds files.now) (F.may_fail files.now) options number path.now) }
{
    match files.read(alloc, path) {
        Ok(text) => read_text(alloc, number, path, text, options),
        Err(FileError::Memory) => Err(AllocError),
        Err(why) => Ok(Reading::Unread(Text::from_str(alloc, path)?, why)),
    }
}

/// What becomes of this text, as that of the file of this path and number. The error is out of memory.
fn read_text(
    alloc: Global,
    number: FileId,
    path: &str,
    text: String,
    options: ParseOptions,
) -> Result<Reading, AllocError>
    requires { number.0 ≢ 0 }
    ensures { IfOk result (IsReadingOfText options number path.now (string_bytes text)) }
{
    let path = Text::from_str(alloc, path)?;
    let text = Text::from_string(text);
    let source = Shared::new(alloc, SourceFile { path, text })?;
    match parse_document(alloc, number, &source, options) {
        Ok(document) => Ok(Reading::Read(source, document)),
        Err(error) if is_memory(&error.kind) => Err(AllocError),
        Err(error) => Ok(Reading::Refused(source, error)),
    }
}

/// Whether memory ran out, so that nothing is said of a text.
fn is_memory(kind: &ParseErrorKind) -> bool
    ensures { (result ≡ true) ↔ (kind.now ≡ Memory) }
{
    matches!(kind, ParseErrorKind::Memory)
}
