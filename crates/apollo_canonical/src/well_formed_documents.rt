//! Laws of the write-outs of typed documents, for those who build on them.
ghost use Rattle.std.specs.Prelude.{◌≢◌, Bool, List, [], Option};
ghost use Rattle.std.specs.List.{AllByRecursion};
ghost use Rattle.graphql_ast.specs.declared.definition.Definition.{Definition};
ghost use Rattle.graphql_productions.specs.DefinitionTreeParts.{document_parts};
ghost use Rattle.graphql_productions.specs.WellFormed.{IsWellFormed};
ghost use Rattle.apollo_schema.specs.declared.schema.Schema.{Schema};
ghost use Rattle.apollo_executable.specs.Erasure.{erased_definitions};
ghost use Rattle.apollo_executable.specs.declared.document.ExecutableDocument.{ExecutableDocument};
ghost use Rattle.apollo_document.specs.AddedDefinitions.{DocumentItem, document_list};
ghost use Rattle.apollo_document.specs.Documents.{IsDocumentOf};
ghost use Rattle.apollo_canonical.specs.WellFormedLists.{IsWellFormedDefinition};
ghost use Rattle.apollo_canonical.specs.FilledSets.{IsFilledDocument};
ghost use Rattle.apollo_canonical.specs.HandedIn.{HasWellFormedExecutables};

use crate::well_formed::documents_are_well_formed_by_their_definitions;

/// The operations and fragments of a list of well-formed definitions, or of a well-formed document, are
/// well-formed. GraphQL specification of October 2021, section 2.2.
pub fn executables_are_well_formed_by_their_definitions()
    ensures of_definitions { (errors : Bool) (ds : List Definition)
        → AllByRecursion IsWellFormedDefinition ds → HasWellFormedExecutables (document_list errors ds) }
    ensures of_document { (errors : Bool) (ds : List Definition) → IsWellFormed (document_parts ds)
        → HasWellFormedExecutables (document_list errors ds) }
{}

/// Well-formed goes through the typed document. Where each operation and fragment of a list is well-formed,
/// so is each definition that the document of the list is written out as. It holds over any schema and
/// without one, and for a list with faults too. For that no operation, fragment or inline fragment may have
/// been left without a selection. What isn't typable is left out, and the grammar wants one there at least.
/// Where anything is written, the document that is written is well-formed. No less will do: of any document
/// whose definitions are written well-formed, each of these has a selection. GraphQL specification of October
/// 2021, sections 2.2 to 2.8.
pub fn an_erased_document_is_well_formed()
    ensures each { (schema : Option Schema) (xs : List DocumentItem) (document : ExecutableDocument)
        → IsDocumentOf schema xs document → HasWellFormedExecutables xs → IsFilledDocument document
        → AllByRecursion IsWellFormedDefinition (erased_definitions document) }
    ensures whole { (schema : Option Schema) (xs : List DocumentItem) (document : ExecutableDocument)
        → IsDocumentOf schema xs document → HasWellFormedExecutables xs → IsFilledDocument document
        → erased_definitions document ≢ [] → IsWellFormed (document_parts (erased_definitions document)) }
    ensures needed { (document : ExecutableDocument)
        → AllByRecursion IsWellFormedDefinition (erased_definitions document) → IsFilledDocument document }
{
    documents_are_well_formed_by_their_definitions();
}
