//! Laws of the texts of schemas and typed documents, for those who keep or exchange them.
ghost use Rattle.std.specs.Prelude.{◌≢◌, List, [], ◌≡◌, Option};
ghost use Rattle.graphql_ast.specs.declared.definition.Definition.{Definition};
ghost use Rattle.apollo_schema.specs.SchemaWriteOut.{write_schema};
ghost use Rattle.apollo_schema.specs.declared.schema.Schema.{Schema};
ghost use Rattle.apollo_executable.specs.Erasure.{erased_definitions};
ghost use Rattle.apollo_executable.specs.declared.document.ExecutableDocument.{ExecutableDocument};
ghost use Rattle.apollo_document.specs.DocumentFaults.{document_faults};
ghost use Rattle.apollo_document.specs.Documents.{IsDocumentOf};
ghost use Rattle.apollo_canonical.specs.SchemaTexts.{BuildAgain, IsBuiltOfTexts, IsReadingOf, Reading, Reads};
ghost use Rattle.apollo_canonical.specs.SchemaTextLaws.{TextLaws};
ghost use Rattle.apollo_canonical.specs.FilledSets.{IsFilledDocument};
ghost use Rattle.apollo_canonical.specs.DocumentTextLaws.{DocumentTextLaws, ListLaws};
ghost use Rattle.apollo_canonical.specs.EqualDocuments.{AreEqualDocuments, AreEqualInOrder, AreEqualItems};
ghost use Rattle.apollo_canonical.specs.EqualDocuments.{DocumentItem, bare_faults};
ghost use Rattle.apollo_canonical.specs.DocumentTexts.{BuildDocumentAgain, IsDocumentOfTexts};
ghost use Rattle.apollo_canonical.specs.DocumentTexts.{IsReadingOfDocument, document_text};

use crate::well_formed::{
    a_write_out_is_well_formed, documents_are_well_formed_by_their_definitions,
};
use crate::well_formed_documents::{
    an_erased_document_is_well_formed, executables_are_well_formed_by_their_definitions,
};
use apollo_document::laws::{document_again, every_list_means_a_document};
use apollo_document::selection_laws::elaborated_sets;
use apollo_meaning::laws::{folded_extensions, folded_schema_extensions};
use apollo_schema::laws::every_list_means_a_schema;
use apollo_schema_laws::rearranged_builds::equal_lists;
use apollo_schema_laws::write_out::canonical;
use graphql_productions::laws::trees::{no_location_is_built_in, trees_of_words_are_well_formed};
use graphql_productions::laws::words_spell_one_tree;
use graphql_round_trip::laws::{equal_trees_have_one_text, texts_are_read_again};

/// What the law of the texts of schemas takes from the laws below.
fn schemas_below()
    ensures { TextLaws }
{
    canonical();
    equal_lists();
    folded_extensions();
    folded_schema_extensions();
    every_list_means_a_schema();
    a_write_out_is_well_formed();
    documents_are_well_formed_by_their_definitions();
    words_spell_one_tree();
    no_location_is_built_in();
    trees_of_words_are_well_formed();
    texts_are_read_again();
    equal_trees_have_one_text();
}

/// From text to text. Texts that are read make a schema, under any options, whole or what could be built of
/// them with faults. The text of its write-out is read again, in any file but that of the built-in
/// definitions. Whatever it is read as has no fault, and means an equal schema with the same text. So the
/// text of a schema is its canonical form. GraphQL specification of October 2021, sections 2 and 3.
///
/// Premise: something is written, as many signs may be open as it nests, and as many tokens are allowed as
/// its text has bytes. The empty text is no document.
pub fn canonical_text()
    ensures read { (schema : Schema) → IsBuiltOfTexts schema → write_schema schema ≢ [] → (r : Reading)
        → r.file.0 ≢ 0 → IsReadingOf schema r → (definitions : List Definition) × Reads r definitions }
    ensures builds { (schema : Schema) → IsBuiltOfTexts schema → write_schema schema ≢ [] → (r : Reading)
        → IsReadingOf schema r → (definitions : List Definition) → Reads r definitions
        → BuildAgain schema definitions }
{
    schemas_below();
}

/// What the law of equal lists takes from the laws below.
fn lists_below()
    ensures { ListLaws }
{
    elaborated_sets();
    equal_trees_have_one_text();
}

/// What the law of the texts of documents takes from the laws below.
fn documents_below()
    ensures { DocumentTextLaws }
{
    lists_below();
    document_again();
    every_list_means_a_document();
    an_erased_document_is_well_formed();
    executables_are_well_formed_by_their_definitions();
    words_spell_one_tree();
    trees_of_words_are_well_formed();
    texts_are_read_again();
}

/// Take two lists of definitions that are equal but for locations, and were added in the same way. They mean
/// documents that `==` calls equal, over one schema or without one. Their operations and fragments stand in
/// one order, and they have one text. The same is wrong with the two lists, in one order, but for locations.
/// GraphQL specification of October 2021, sections 2.2 to 2.8.
pub fn equal_definitions_mean_equal_documents()
    ensures equal { (schema : Option Schema) (xs ys : List DocumentItem) → AreEqualItems xs ys
        → (a b : ExecutableDocument) → IsDocumentOf schema xs a → IsDocumentOf schema ys b
        → AreEqualDocuments a b }
    ensures ordered { (schema : Option Schema) (xs ys : List DocumentItem) → AreEqualItems xs ys
        → (a b : ExecutableDocument) → IsDocumentOf schema xs a → IsDocumentOf schema ys b
        → AreEqualInOrder a b }
    ensures text { (schema : Option Schema) (xs ys : List DocumentItem) → AreEqualItems xs ys
        → (a b : ExecutableDocument) → IsDocumentOf schema xs a → IsDocumentOf schema ys b
        → document_text a ≡ document_text b }
    ensures faults { (schema : Option Schema) (xs ys : List DocumentItem) → AreEqualItems xs ys
        → bare_faults (document_faults schema xs) ≡ bare_faults (document_faults schema ys) }
{
    lists_below();
}

/// From text to text. Texts that are read mean a document, typed over any schema or without one, whole or
/// what could be built of them with faults. The text of its write-out is read again, in any file but that of
/// the built-in definitions. Whatever it is read as means, over the same schema, an equal document with the
/// same text. Nothing is wrong with it, but that an operation without a name is ambiguous where named ones
/// stand beside it. GraphQL specification of October 2021, sections 2.2 to 2.8.
///
/// Premise: that of [`canonical_text`](crate::laws::canonical_text), and no operation, fragment or inline
/// fragment was left without a selection.
pub fn canonical_document_text()
    ensures read { (schema : Option Schema) (document : ExecutableDocument)
        → IsDocumentOfTexts schema document
        → IsFilledDocument document → erased_definitions document ≢ [] → (r : Reading) → r.file.0 ≢ 0
        → IsReadingOfDocument document r → (definitions : List Definition) × Reads r definitions }
    ensures builds { (schema : Option Schema) (document : ExecutableDocument)
        → IsDocumentOfTexts schema document
        → IsFilledDocument document → erased_definitions document ≢ [] → (r : Reading)
        → IsReadingOfDocument document r → (definitions : List Definition) → Reads r definitions
        → BuildDocumentAgain schema document definitions }
{
    documents_below();
}
