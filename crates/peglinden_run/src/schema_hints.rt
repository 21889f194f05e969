//! Hints at documents that look like files of a schema. The error of each call is out of memory.
ghost use Rattle.std.specs.Prelude.{◌≡◌, ◌++◌, IfOk, OnOk, string_bytes};
ghost use Rattle.std.specs.List.{list_any};
ghost use Rattle.graphql_ast.specs.DefinitionKinds.{is_executable};
ghost use Rattle.peglinden_run.specs.SchemaHints.{document_hint, schema_hints};

use graphql_ast::definition::Definition;
use graphql_ast::document::Document;
use graphql_nodes::visible_text::visible;
use std::alloc::{AllocError, Global};

/// For each of these documents that has definitions of the type system alone a line, and an empty one. It
/// asks whether the file was meant as one of the schema.
pub(crate) fn schema_hints(alloc: Global, documents: &[Document]) -> Result<String, AllocError>
    ensures { IfOk result (λ hints. string_bytes hints ≡ schema_hints documents.now) }
{
    let mut hints = String::new(alloc);
    for document in documents {
        push_hint(&mut hints, document)?;
    }
    Ok(hints)
}

/// Adds the hint at a document, if there is one.
fn push_hint(hints: &mut String, document: &Document) -> Result<(), AllocError>
    ensures { OnOk result (string_bytes hints.new ≡ string_bytes hints.old ++ document_hint document.now) }
{
    if any_executable(document.definitions.as_slice()) {
        return Ok(());
    }
    let Some((_, file)) = document.sources.first() else {
        return Ok(());
    };
    let path = visible(file.path.as_str());
    write!(
        hints,
        "warning: `{path}` has type definitions alone: did you mean `--schema`?\n\n"
    )
}

/// Whether one of these definitions is an operation or a fragment.
fn any_executable(definitions: &[Definition]) -> bool
    ensures { result ≡ list_any is_executable definitions.now }
{
    definitions
        .iter()
        .any(|definition| definition.is_executable_definition())
}
