//! Laws of documents, for those who build on them.
//!
//! Each law is a function that does nothing. A proof cites it by a call, and finds its clauses there.
ghost use Rattle.std.specs.Prelude.{◌≡◌, ◌⊎◌, Bool, true, List, Option};
ghost use Rattle.std.specs.List.{AllByRecursion};
ghost use Rattle.apollo_executable.specs.Listed.{listed};
ghost use Rattle.apollo_document.specs.BuilderStands.{Building, DocumentItem, HasFailed, StandsFor};
ghost use Rattle.apollo_document.specs.Documents.{IsDocumentOf};
ghost use Rattle.apollo_document.specs.KeptDefinitions.{is_rooted, kept_anonymous, kept_named};
ghost use Rattle.apollo_document.specs.WrittenAgain.{AreOneButSources, IsBuiltAgain, ambiguous_again};
ghost use Rattle.apollo_document.specs.WrittenAgain.{faults_again};

use crate::selection_laws::{elaborated_sets, typed_sets};
use apollo_executable::document::ExecutableDocument;
use apollo_schema::schema::Schema;

/// No list builds two documents, but for their sources.
///
/// Take a built document's write-out, built again over the same schema, or without one if it was built
/// without one. It gives that document itself, with every location, and no other. What is wrong with the
/// write-out is one ambiguity for each named operation if the document has an anonymous one, and nothing
/// otherwise. GraphQL specification of October 2021, sections 2.2 to 2.8.
pub fn document_again()
    ensures unique { (schema : Option Schema) (xs : List DocumentItem) (a b : ExecutableDocument)
        → IsDocumentOf schema xs a → IsDocumentOf schema xs b → AreOneButSources a b }
    ensures itself { (s : Option Schema) (xs : List DocumentItem) (errors : Bool)
        (document : ExecutableDocument) → IsDocumentOf s xs document
        → IsBuiltAgain s errors document document }
    ensures again { (s : Option Schema) (xs : List DocumentItem) (errors : Bool)
        (document again : ExecutableDocument) → IsDocumentOf s xs document
        → IsBuiltAgain s errors document again → AreOneButSources again document }
    ensures faults { (s : Option Schema) (xs : List DocumentItem) (errors : Bool)
        (document : ExecutableDocument) → IsDocumentOf s xs document
        → faults_again s errors document ≡ ambiguous_again document.operations }
{
    typed_sets();
}

/// Every list of definitions means a document, over any schema value and without a schema. So what is said of
/// the documents that a list means is said of one. GraphQL specification of October 2021, sections 2.2 to
/// 2.8.
pub fn every_list_means_a_document()
    ensures { (schema : Option Schema) (xs : List DocumentItem) → (document : ExecutableDocument)
        × IsDocumentOf schema xs document }
{
    elaborated_sets();
}

/// Each operation that is kept has a root type: the one that the schema names for its kind, or without a
/// schema the default name. GraphQL specification of October 2021, sections 2.3 and 3.3.1.
#[tactic(auto, using(crate::proofs::BuiltLemmas::anonymous_rooted, crate::proofs::BuiltLemmas::named_rooted))]
pub fn kept_operations_are_rooted()
    ensures anonymous { (schema : Option Schema) (xs : List DocumentItem)
        → AllByRecursion (λ operation. is_rooted schema operation
        ≡ true) (listed (kept_anonymous schema xs)) }
    ensures named { (schema : Option Schema) (xs : List DocumentItem)
        → AllByRecursion (λ entry. is_rooted schema entry.1 ≡ true) (kept_named schema xs) }
{}

/// A builder that stands for a list has not failed: no call on it was refused.
pub fn a_builder_that_stands_for_a_list_has_not_failed()
    ensures { (schema : Option Schema) (xs : List DocumentItem) (builder : Building)
        → StandsFor schema xs builder → ¬ HasFailed builder }
{}

/// Every builder stands for some list over its schema, or a call was refused.
pub fn every_builder_stands_for_a_list_or_has_failed()
    ensures { (builder : Building)
        → ((xs : List DocumentItem) × StandsFor builder.schema xs builder) ⊎ HasFailed builder }
{}
