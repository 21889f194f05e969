//! Laws of what equal and rearranged lists of definitions are built to, for those who compose schemas or keep
//! registries of them.
ghost use Rattle.std.specs.Prelude.{◌≡◌, ◌++◌, ℕ, Bool, List};
ghost use Rattle.std.specs.List.Sorted.{IsPermutation};
ghost use Rattle.apollo_meaning.specs.Faults.ListFaults.{faults_of};
ghost use Rattle.apollo_meaning.specs.Items.ListItems.{Added, added_items};
ghost use Rattle.apollo_schema_laws.specs.Documents.{Documents, added_each, added_joined};
ghost use Rattle.apollo_schema_laws.specs.Equal.{AreEqualLists};
ghost use Rattle.apollo_schema_laws.specs.Rearranged.{AreRearranged};
ghost use Rattle.apollo_schema_laws.specs.BuiltAlike.{Building, MeansSchema, StandFor, StandsFor};
ghost use Rattle.apollo_schema_laws.specs.BuiltAlike.{BuildEqualSchemas, BuildFaultlessTogether};
ghost use Rattle.apollo_schema_laws.specs.BuiltAlike.{BuildSameFaults, MeanEqualSchemas};
ghost use Rattle.apollo_schema.specs.declared.schema.Schema.{Schema};

use crate::rearrangement::{
    completed_lists_are_rearranged, equal_lists_mean_equal_definitions,
    rearranged_directives_are_the_same, rearranged_faults_are_the_same,
    rearranged_schema_definitions_are_equal, rearranged_types_are_equal,
    rearranging_is_an_equivalence,
};
use apollo_schema::laws::a_list_means_one_schema;

/// Take two lists of the same definitions. Let them keep, for each type name, the order of its definitions
/// and the order of its extensions. Let them keep the order of the directive definitions of each name, of the
/// schema definitions and of the schema extensions. They mean equal schemas, whatever numbers their
/// extensions get, and have the same faults, with their locations, in some order. So do builders that stand
/// for them, and where one has no fault, none are found of the other. GraphQL specification of October 2021,
/// section 3.
///
/// Premise: both lists are added under the same options.
pub fn rearranged()
    ensures schemas { (adopts : Bool) (xs ys : List Added) → AreRearranged (added_items xs) (added_items ys)
        → MeanEqualSchemas adopts xs ys }
    ensures faults { (adopts : Bool) (xs ys : List Added) → AreRearranged (added_items xs) (added_items ys)
        → IsPermutation (faults_of adopts xs) (faults_of adopts ys) }
    ensures built { (xs ys : List Added) → AreRearranged (added_items xs) (added_items ys)
        → (b c : Building) → StandFor xs ys b c → BuildEqualSchemas b c }
    ensures found { (xs ys : List Added) → AreRearranged (added_items xs) (added_items ys)
        → (b c : Building) → StandFor xs ys b c → BuildSameFaults b c }
    ensures faultless { (xs ys : List Added) → AreRearranged (added_items xs) (added_items ys)
        → (b c : Building) → StandFor xs ys b c → BuildFaultlessTogether b c }
{
    completed_lists_are_rearranged();
    rearranged_schema_definitions_are_equal();
    rearranged_types_are_equal();
    rearranged_directives_are_the_same();
    rearranged_faults_are_the_same();
}

/// Documents that are added one by one, with one setting, mean the schema of one document of all their
/// definitions. They have its faults in the same order. A builder to which they were added stands for what
/// that one adds. The schema is the same, with every location, origin and number, where the extensions of
/// both are numbered from one number. Where they aren't, it is an equal one.
pub fn documents_one_by_one()
    ensures schemas { (adopts ignores : Bool) (xs : List Added) (documents : Documents)
        → MeanEqualSchemas adopts (xs ++ added_each ignores documents) (xs
        ++ added_joined ignores documents) }
    ensures same { (start : ℕ) (adopts ignores : Bool) (xs : List Added) (documents : Documents)
        (s t : Schema)
        → MeansSchema start adopts (xs ++ added_each ignores documents) s
        → MeansSchema start adopts (xs ++ added_joined ignores documents) t
        → s ≡ record t { sources = s.sources } }
    ensures faults { (adopts ignores : Bool) (xs : List Added) (documents : Documents)
        → faults_of adopts (xs ++ added_each ignores documents)
        ≡ faults_of adopts (xs ++ added_joined ignores documents) }
    ensures stands { (b : Building) (n : ℕ) (ignores : Bool) (xs : List Added) (documents : Documents)
        → StandsFor n (xs ++ added_each ignores documents) b
        → StandsFor n (xs ++ added_joined ignores documents) b }
{
    rearranged();
    rearranging_is_an_equivalence();
    crate::rearrangement::documents_one_by_one();
    a_list_means_one_schema();
}

/// Take two lists whose definitions are equal one by one, whatever their locations, and whose directive
/// definitions are marked built-in alike. They mean equal schemas, whatever numbers their extensions get.
/// Builders that stand for them are built to equal schemas. GraphQL specification of October 2021, section 3.
///
/// Premise: both lists adopt, or neither does.
pub fn equal_lists()
    ensures schemas { (adopts : Bool) (xs ys : List Added) → AreEqualLists xs ys
        → MeanEqualSchemas adopts xs ys }
    ensures built { (xs ys : List Added) → AreEqualLists xs ys
        → (b c : Building) → StandFor xs ys b c → BuildEqualSchemas b c }
{
    equal_lists_mean_equal_definitions();
}
