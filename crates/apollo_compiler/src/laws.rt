//! What is promised beside the calls' own contracts, under one roof: the laws of compiled documents, and
//! those of each layer below, bottom up.
//!
//! Each law is a function that does nothing. A proof cites it by a call, and finds its clauses there. A
//! layer's module keeps the laws of its crate; those that say what the product is for stand here by name too.
//! (A validator above has its own: `leafcheck::laws`.)
ghost use Rattle.std.specs.Prelude.{◌≡◌, ℕ, Bool, true, List, Option};
ghost use Rattle.std.specs.List.{AllByRecursion};
ghost use Rattle.apollo_schema_laws.specs.WrittenAgain.{IsMeantByList, written_again};
ghost use Rattle.apollo_document.specs.AddedDefinitions.{DocumentItem};
ghost use Rattle.apollo_document.specs.Documents.{IsDocumentOf};
ghost use Rattle.apollo_document.specs.KeptDefinitions.{is_rooted};
ghost use Rattle.apollo_executable.specs.Erasure.{erased_definitions};
ghost use Rattle.apollo_executable.specs.Walks.WalkView.{IsNewWalk, WalkView};
ghost use Rattle.apollo_executable.specs.declared.document.ExecutableDocument.{ExecutableDocument};
ghost use Rattle.apollo_executable.specs.declared.selection.SelectionSet.{SelectionSet};
ghost use Rattle.apollo_meaning.specs.Items.ListItems.{Added};
ghost use Rattle.apollo_meaning.specs.Schema.Whole.{whole};
ghost use Rattle.apollo_schema.specs.MeantSchema.{MeansSchema};
ghost use Rattle.apollo_schema.specs.declared.schema.Schema.{Schema};
ghost use Rattle.apollo_compiler.specs.Headline.{HasItsFaults, HasOneWalk, IsRebuiltEqual, IsSchemaOf};
ghost use Rattle.apollo_compiler.specs.Headline.{kept_definitions, kept_operations};
ghost use Rattle.graphql_nodes.specs.Clones.{IsExact};
ghost use Rattle.graphql_nodes.specs.Comparing.{ComparesBy};

// Names, nodes and containers: `==` compares text or value, without locations, and tables and sets without
// order.
pub use graphql_nodes::laws as nodes;

// GraphQL text: words spell one tree at most, which is well-formed; refusals are of all words so far.
pub use graphql_productions::laws as text;

// What is printed: the text of a well-formed tree is read as an equal tree. Equal trees have one text, and
// formatting twice is formatting once.
pub use graphql_round_trip::laws as round_trip;

// The syntax tree: `==` leaves out each location and nothing else, and each clone is the original.
pub use graphql_ast::laws as ast;

// Components: each place of a list is the first of its key or a later one; `==` leaves out origins, and
// clones keep them.
pub use apollo_component::laws as component;

// The types of a schema: `==` leaves out locations, origins and the order of what stands under names.
pub use apollo_types::laws as types;

// What a list of definitions means: each type is its first definition with all its kind's extensions, in
// order. Its faults, in order; what is adopted, and which extensions have numbers; worked lists, computed.
pub use apollo_meaning::laws as meaning;

// Lists of equal definitions: what each name means is equal. Lists whose definitions change places: so it is
// there, and the faults are the same in some order. And which faults are of what is dropped.
pub use apollo_schema_laws::rearrangement;

// Schemas and builders: a list means one schema; every builder stands for a list or has failed; subtypes are
// the implementers.
pub use apollo_schema::laws::{self as schema, implementers};

// The write-out: it builds again without fault to an equal schema with the same write-out, and folds no more
// extensions.
pub use apollo_schema_laws::write_out::{self, canonical};

// Well-formed goes through the schema: where each definition of a list could have come of a text, so could
// each of its write-out.
pub use apollo_canonical::well_formed;

// So could what a typed document is written out as, where no selections were left without one.
pub use apollo_canonical::well_formed_documents;

// From text to text: the text of a schema that texts make is read again, and builds an equal schema with the
// same text.
pub use apollo_canonical::laws::canonical_text;

// So is the text of a typed document that texts make, where no selections were left without one. Over the
// same schema it builds an equal document with the same text. Equal definitions mean equal documents.
pub use apollo_canonical::laws::{canonical_document_text, equal_definitions_mean_equal_documents};

// Builders of equal lists build equal schemas, those of rearranged lists also the same faults, and documents
// one by one what one document would.
pub use apollo_schema_laws::rearranged_builds::{self, documents_one_by_one, rearranged};

// Coordinates: what is printed of one is read as it, no text is that of two, and which texts are refused.
pub use apollo_coordinate::laws::{self as coordinate, coordinates};

// Walks over any selections: each field that is reached as often as it stands there, in one order, in at most
// 2N + 1 turns.
pub use apollo_walks::laws as walks;

// Typed documents: which fields stand in selections; `==` leaves out locations and sources, and each clone is
// the original.
pub use apollo_executable::laws as executable;

// Counts of the fields that an operation reaches: they are those of the walk over all fields, each once.
pub use apollo_field_usage::laws as usage;

// Reports: worked excerpts of texts, computed.
pub use apollo_reporting::laws as report;

// Untyped selections made into typed ones: a typed set is exactly what is typable, and each type in it is
// right.
pub use apollo_document::selection_laws as elaboration;

// Built documents: a write-out builds again to an equal document, and with which faults; every builder stands
// for a list or has failed.
use crate::compile_error::CompileError;
use crate::compile_options::CompileOptions;
use crate::executable_options::ExecutableOptions;
pub use apollo_document::laws::{self as document, document_again};
use apollo_document::laws::{every_list_means_a_document, kept_operations_are_rooted};
use apollo_executable::selection::Field;
use apollo_meaning::laws::{
    folded_extensions, folded_extensions_have_numbers_of_their_own, folded_schema_extensions,
    type_names_are_the_first_of_each_text,
};
use apollo_schema::laws::every_list_means_a_schema;
use apollo_schema_laws::rearrangement::{
    each_fault_is_of_one_sort, reported_collisions_are_the_dropped_components,
    reported_collisions_are_the_further_definitions,
    reported_executables_are_the_operations_and_fragments,
    reported_mismatches_are_the_extensions_of_another_kind,
    reported_orphans_are_the_extensions_without_a_definition,
    reported_repeated_roots_are_the_dropped_roots,
};
use apollo_walks::laws::{
    reachable_names_are_one_list, walks_have_one_order, walks_reach_each_field_once,
    walks_take_few_turns,
};
use graphql_nodes::node::Node;

/// Every list of documents builds to the schema that it means (`means`). In it each name that is defined has
/// a type, and no other name has one. Each type is the first definition of its name, with all extensions of
/// its kind folded in (`schema`). They are folded in order, wherever they stand, and each has an identity of
/// its own. There is exactly one fault for each thing that is dropped (`faults`).
///
/// The schema's write-out rebuilds with adoption, without fault, to an equal schema and the same write-out
/// (`rebuilds`). Kept operations and fragments erase to exactly their typable selections (`keeps`). A walk
/// gives each field that is reached exactly as often as it stands there, in one order (`walks`, `begins`). It
/// takes two turns at most for each selection in reach, and one more. GraphQL specification of October 2021,
/// sections 2.2 to 2.8, 3, 3.4.3 and 6.3.2.
///
/// Nothing is assumed of a call. Every list means a schema (`means`), and no two but for their sources
/// ([`a_list_means_one_schema`](apollo_schema::laws::a_list_means_one_schema)). Faulty lists do so too, with
/// adoption or without, and with extensions numbered from any number. So it is with documents (`typed`,
/// [`document_again`](apollo_document::laws::document_again)). What is at fault is left out, and weakens none
/// of this. That `compile` answers that schema, its faults, its rebuild and that document is its contract.
///
/// A type that is extended only has a definition where it is adopted, an empty one behind all others;
/// elsewhere it has none ([`definitions_by_cases`](apollo_meaning::laws::definitions_by_cases)). Which
/// definition the schema has where none is written, and with which roots, says
/// [`schema_definitions_by_cases`](apollo_meaning::laws::schema_definitions_by_cases).
///
/// Premise: that of [`canonical`](apollo_schema_laws::write_out::canonical), of `rebuilds` alone. `keeps`
/// takes any schema value, or none. Each operation that is kept has a root type (`rooted`). `walks` takes any
/// document, also one that was made by hand, with cycles of fragments. The walks of `begins` are those that
/// [`SelectionSet::root_fields`](apollo_executable::selection::SelectionSet::root_fields) and `all_fields`
/// make. What their `next` gives call by call, and that the turns are within that bound at every moment, says
/// [`walks_by_their_calls`](apollo_executable::laws::calls_of_walks::walks_by_their_calls).
pub fn headline()
    ensures means { (start : ℕ) (adopts : Bool) (xs : List Added)
        → (schema : Schema) × MeansSchema start adopts xs schema }
    ensures schema { (start : ℕ) (adopts : Bool) (xs : List Added) (schema : Schema)
        → MeansSchema start adopts xs schema → IsSchemaOf start (whole adopts xs) schema }
    ensures faults { (adopts : Bool) (xs : List Added) → HasItsFaults adopts xs }
    ensures rebuilds { (schema rebuilt : Schema) → IsMeantByList schema → (ignores : Bool) (start : ℕ)
        → MeansSchema start true (written_again ignores schema) rebuilt
        → IsRebuiltEqual ignores schema rebuilt }
    ensures typed { (schema : Option Schema) (xs : List DocumentItem) → (document : ExecutableDocument)
        × IsDocumentOf schema xs document }
    ensures keeps { (schema : Option Schema) (xs : List DocumentItem) (document : ExecutableDocument)
        → IsDocumentOf schema xs document
        → erased_definitions document ≡ kept_definitions schema xs }
    ensures rooted { (schema : Option Schema) (xs : List DocumentItem)
        → AllByRecursion (λ operation. is_rooted schema operation ≡ true) (kept_operations schema xs) }
    ensures walks { (deep : Bool) (document : ExecutableDocument) (set : SelectionSet)
        → HasOneWalk deep document set }
    ensures begins { (deep : Bool) (document : ExecutableDocument) (set : SelectionSet) (walk : WalkView)
        → IsNewWalk deep document set walk
        → (one : HasOneWalk deep document set) → walk.coming ≡ one.fields }
{
    canonical();
    each_fault_is_of_one_sort();
    every_list_means_a_schema();
    every_list_means_a_document();
    folded_extensions();
    folded_extensions_have_numbers_of_their_own();
    folded_schema_extensions();
    kept_operations_are_rooted();
    reachable_names_are_one_list::<Node<Field>>();
    reported_collisions_are_the_dropped_components();
    reported_collisions_are_the_further_definitions();
    reported_executables_are_the_operations_and_fragments();
    reported_mismatches_are_the_extensions_of_another_kind();
    reported_orphans_are_the_extensions_without_a_definition();
    reported_repeated_roots_are_the_dropped_roots();
    type_names_are_the_first_of_each_text();
    walks_have_one_order::<Node<Field>>();
    walks_reach_each_field_once::<Node<Field>>();
    walks_take_few_turns::<Node<Field>>();
}

/// Choices of options are equal exactly where they are one, and so are errors.
pub fn equality_of_options_and_errors()
    ensures options { ComparesBy ⟦<CompileOptions as PartialEq>⟧.eq (λ options. options) }
    ensures executable_options { ComparesBy ⟦<ExecutableOptions as PartialEq>⟧.eq (λ options. options) }
    ensures error { ComparesBy ⟦<CompileError as PartialEq>⟧.eq (λ error. error) }
{}

/// Each clone of a choice of options is the original, and so is each clone of an error.
pub fn clones_are_exact()
    ensures options { IsExact ⟦<CompileOptions as Clone>⟧.is_clone }
    ensures executable_options { IsExact ⟦<ExecutableOptions as Clone>⟧.is_clone }
    ensures error { IsExact ⟦<CompileError as Clone>⟧.is_clone }
{}
