//! Files whose texts differ from their layouts.
ghost use Rattle.std.specs.Prelude.{◌≡◌, ◌++◌, IfOk, OnOk, nat_eq, string_bytes};
ghost use Rattle.std.specs.Cmp.Lexicographic.{pointwise};
ghost use Rattle.peglinden_run.specs.Layouts.{changed_bytes, changed_file, changed_files, kept_layout, last_end};

use crate::ended::ended_by;
use graphql_ast::definition::Definition;
use graphql_ast::document::Document;
use std::alloc::{AllocError, Global};

/// A file whose text differs from its layout.
#[derive(Drop)]
pub(crate) struct ChangedFile<'d> {
    pub path: &'d str,
    /// What its text is in our layout. The last line has the end that it has in the file.
    pub layout: String,
}

/// The files of documents whose texts differ from their layouts, in order. The error is out of memory.
pub(crate) fn changed_files<'d>(
    alloc: Global,
    documents: &'d [Document],
) -> Result<Vec<ChangedFile<'d>>, AllocError>
    ensures { IfOk result (λ files. changed_bytes files.items ≡ changed_files documents.now) }
{
    let mut files = Vec::new(alloc);
    for document in documents {
        push_changed(alloc, &mut files, document)?;
    }
    Ok(files)
}

/// Adds the file of a document, where its text differs from its layout. The error is out of memory.
fn push_changed<'d>(
    alloc: Global,
    files: &mut Vec<ChangedFile<'d>>,
    document: &'d Document,
) -> Result<(), AllocError>
    ensures { OnOk result
        (changed_bytes files.new.items ≡ changed_bytes files.old.items ++ changed_file document.now) }
{
    let Some((_, file)) = document.sources.first() else {
        return Ok(());
    };
    let layout = kept_layout(alloc, document.definitions.as_slice(), file.text.as_str())?;
    if !is_same(layout.as_str(), file.text.as_str()) {
        files.push(ChangedFile {
            path: file.path.as_str(),
            layout,
        })?;
    }
    Ok(())
}

/// Whether a layout is this text.
fn is_same(layout: &str, text: &str) -> bool
    ensures { result ≡ pointwise nat_eq layout.now text.now }
{
    layout == text
}

/// The layout of definitions which are those of this text. The error is out of memory.
fn kept_layout(alloc: Global, definitions: &[Definition], text: &str) -> Result<String, AllocError>
    ensures { IfOk result (λ layout. string_bytes layout ≡ kept_layout definitions.now text.now) }
{
    ended_by(alloc, definitions, last_end(text))
}

/// What the last line of a text ends with: a carriage return and a line feed, or one of them, or nothing.
#[tactic(auto, using(std::proofs::lemmas::Str::Pattern::ends_text))]
fn last_end(text: &str) -> &'static str
    ensures { result.now ≡ last_end text.now }
{
    if text.ends_with("\r\n") {
        "\r\n"
    } else if text.ends_with("\n") {
        "\n"
    } else if text.ends_with("\r") {
        "\r"
    } else {
        ""
    }
}
