//! Laws of the definitions, for those who build on them. Also what `==` answers at schemas, at what lookups
//! answer and at the errors of builders.
ghost use Rattle.std.specs.Prelude.{◌≡◌, ◌⊎◌, ◌↔◌, ℕ, Bool, List, All, IsTrue};
ghost use Rattle.apollo_meaning.specs.Completion.OrphanNames.{orphan_names};
ghost use Rattle.apollo_meaning.specs.Items.ListItems.{Added, added_items};
ghost use Rattle.apollo_schema.specs.BuilderStands.{Building, HasFailed, StandsFor};
ghost use Rattle.apollo_schema.specs.EqualLookups.{bare_implementers, bare_field_lookup_error};
ghost use Rattle.apollo_schema.specs.EqualSchemas.{AreEqualSchemas};
ghost use Rattle.apollo_schema.specs.Implementers.{IsInterface, is_implementer};
ghost use Rattle.apollo_schema.specs.Lookups.{Types, is_subtype};
ghost use Rattle.apollo_schema.specs.MeantSchema.{MeansSchema};
ghost use Rattle.apollo_schema.specs.NamesLeft.{IsOrphanName};
ghost use Rattle.graphql_nodes.specs.Clones.{IsExact};
ghost use Rattle.graphql_nodes.specs.Comparing.{ComparesBy, entries_by_text};
ghost use Rattle.graphql_nodes.specs.NameView.{NameView};
ghost use Rattle.graphql_nodes.specs.SameText.{same_text};
ghost use Rattle.graphql_nodes.specs.Tables.{HasUniqueKeys};

use crate::build_failure::WithErrors;
use crate::field_lookup_error::FieldLookupError;
use crate::implementers::Implementers;
use crate::schema::Schema;
use apollo_folding::builder_error::BuilderError;
use graphql_nodes::collections::table::Table;
use graphql_nodes::name::Name;

/// Two schemas are equal exactly where their definitions are and they have equal types and equal directive
/// definitions under each name, in any order. Locations, origins and sources are left out. GraphQL
/// specification of October 2021, section 3.
pub fn equality_of_schemas()
    ensures { (a b : Schema) → IsTrue (⟦<Schema as PartialEq>⟧.eq a b) ↔ AreEqualSchemas a b }
{}

/// Implementers are equal exactly where they have the same names of object types and the same of interface
/// types, in any order. Tables of them, as `implementers_map` answers, are where they have equal implementers
/// under each name, in any order. Errors of fields are where both say that there is no type, or name one key
/// and equal types. Locations and origins are left out. GraphQL specification of October 2021, sections 3.6
/// and 3.7.
pub fn equality_of_lookups<'schema>()
    ensures implementers { ComparesBy ⟦<Implementers as PartialEq>⟧.eq bare_implementers }
    ensures implementers_map { ComparesBy ⟦<Table<Name, Implementers> as PartialEq>⟧.eq (entries_by_text bare_implementers) }
    ensures field_lookup_error { ComparesBy ⟦<FieldLookupError<'schema> as PartialEq>⟧.eq
        bare_field_lookup_error }
{}

/// The errors of builders are equal exactly where they are one.
pub fn equality_of_builder_errors()
    ensures { ComparesBy ⟦<BuilderError as PartialEq>⟧.eq (λ error. error) }
{}

/// Each clone of a schema is the original, with its sources and every location and origin.
pub fn clones_of_schemas_are_exact()
    ensures { IsExact ⟦<Schema as Clone>⟧.is_clone }
{}

/// Each clone of what could be built with its faults has that schema, as exactly, and these faults, in the
/// same order.
pub fn clones_of_partial_schemas_are_exact()
    ensures partial { (a b : WithErrors Schema) → ⟦<WithErrors<Schema> as Clone>⟧.is_clone a b
        → b.partial ≡ a.partial }
    ensures errors { (a b : WithErrors Schema) → ⟦<WithErrors<Schema> as Clone>⟧.is_clone a b
        → b.errors.items ≡ a.errors.items }
{}

/// Each clone of an error of a field is the original, with the key and the type that it names.
pub fn clones_of_field_lookup_errors_are_exact<'schema>()
    ensures { IsExact ⟦<FieldLookupError<'schema> as Clone>⟧.is_clone }
{}

/// A type is a subtype of an interface exactly where it is among the interface's implementers. It holds for
/// any types of which no two have one name, as those of every table. GraphQL specification of October 2021,
/// sections 3.6 and 3.7.
pub fn implementers()
    ensures { (types : Types) → HasUniqueKeys same_text types → (i t : NameView)
        → IsInterface types i → IsTrue (is_subtype types i t) ↔ IsTrue (is_implementer types i t) }
{}

/// A type of a schema, whatever made it, is a subtype of an interface exactly where it is among the
/// interface's implementers. Its table has no two types of one name. Contracts see a table as the list of its
/// entries, which doesn't say so, but the table itself does.
pub fn implementers_in_a_schema(schema: &Schema)
    ensures { (i t : NameView) → IsInterface schema.now.types i
        → IsTrue (is_subtype schema.now.types i t) ↔ IsTrue (is_implementer schema.now.types i t) }
{
    implementers();
    let _count = schema.types.len();
}

/// A list of definitions means one schema, but for the source files. Take schemas that it means, with its
/// extensions numbered from one number. They have the same schema definition, the same directive definitions
/// and the same types, in the same order, with every location and origin. GraphQL specification of October
/// 2021, section 3.3.
pub fn a_list_means_one_schema()
    ensures { (start : ℕ) (adopts : Bool) (xs : List Added) (s t : Schema) → MeansSchema start adopts xs s
        → MeansSchema start adopts xs t
        → s ≡ record t { sources = s.sources } }
{}

/// Every list of definitions means a schema, faulty lists too, whether extensions are adopted or not, and
/// with its extensions numbered from any number. So what is said of the schemas that a list means is said of
/// one. GraphQL specification of October 2021, section 3.3.
pub fn every_list_means_a_schema()
    ensures { (start : ℕ) (adopts : Bool) (xs : List Added)
        → (schema : Schema) × MeansSchema start adopts xs schema }
{}

/// A builder that stands for a list has not failed: no call on it was refused.
pub fn a_builder_that_stands_for_a_list_has_not_failed()
    ensures { (start : ℕ) (xs : List Added) (builder : Building)
        → StandsFor start xs builder → ¬ HasFailed builder }
{}

/// Every builder stands for some list, with its extensions numbered from the builder's first number, or a
/// call was refused.
pub fn every_builder_stands_for_a_list_or_has_failed()
    ensures { (builder : Building)
        → ((xs : List Added) × StandsFor builder.start xs builder) ⊎ HasFailed builder }
{}

/// Each name that is extended and not defined is that of its first extension, as that writes it, and only
/// extensions have it. GraphQL specification of October 2021, section 3.4.3.
pub fn orphan_names_are_extended_and_not_defined()
    ensures { (xs : List Added) → All (IsOrphanName (added_items xs)) (orphan_names (added_items xs)) }
{}
