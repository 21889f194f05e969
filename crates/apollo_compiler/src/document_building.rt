//! The build of a typed document from documents, over a schema.
ghost use Rattle.std.specs.Prelude.{◌≡◌, All, Some, IfOk, OnErr};
ghost use Rattle.apollo_document.specs.DocumentFaults.{document_faults};
ghost use Rattle.apollo_document.specs.Documents.{IsDocumentOf};
ghost use Rattle.apollo_compiler.specs.Lists.{IsEmpty, all_sources, executable_list};

use crate::executable_options::ExecutableOptions;
use apollo_document::{ExecutableDocumentBuilder, Faults};
use apollo_executable::document::ExecutableDocument;
use apollo_schema::schema::Schema;
use graphql_ast::document::Document;
use std::alloc::{AllocError, Global};

/// The typed document of these documents over a schema with these options, and its faults, as
/// [`ExecutableDocumentBuilder::build`] gives them. Its tables hash by the keys of the schema. GraphQL
/// specification of October 2021, sections 2.2 to 2.8.
///
/// The error is that memory ran out. It comes only where a document has a definition or a source file. The
/// documents are then as they were.
pub fn build_executable_document(
    alloc: Global,
    schema: &Schema,
    options: ExecutableOptions,
    documents: &[Document],
) -> Result<(ExecutableDocument, Faults), AllocError>
    ensures means { IfOk result (λ built.
        IsDocumentOf (Some schema.now)
        (executable_list options.type_system_definitions_are_errors documents.now) built.0) }
    ensures sources { IfOk result (λ built. built.0.sources ≡ all_sources documents.now) }
    ensures faults { IfOk result (λ built. built.1.items
        ≡ document_faults (Some schema.now)
        (executable_list options.type_system_definitions_are_errors documents.now)) }
    ensures memory { OnErr result (¬ All IsEmpty documents.now) }
{
    let mut builder = ExecutableDocumentBuilder::new(alloc, Some(schema));
    for document in documents {
        match builder.add_ast_document(document, options.type_system_definitions_are_errors) {
            Ok(()) => {}
            // No earlier call was refused, so memory ran out.
            Err(_) => return Err(AllocError),
        }
    }
    match builder.build() {
        Ok(built) => Ok(built),
        // No earlier call was refused.
        Err(_) => unreachable!(),
    }
}
