//! Laws of lists of definitions that are equal or rearranged, and of the faults of a list name by name. They
//! are for those who build on what such a list means.
ghost use Rattle.std.specs.Prelude.{◌≡◌, ◌++◌, ◌∷◌, [], ℕ, Bool, List, None, Some, codes, filter, filter_map};
ghost use Rattle.std.specs.Prelude.{flat_map, map, not, true, false};
ghost use Rattle.std.specs.List.Sorted.{IsPermutation};
ghost use Rattle.apollo_meaning.specs.Completion.ImpliedSchema.{completed};
ghost use Rattle.apollo_meaning.specs.Directives.{directive_definitions, directive_of};
ghost use Rattle.apollo_meaning.specs.Faults.ListFaults.{faults_of, found_of_schema, found_of_type};
ghost use Rattle.apollo_meaning.specs.Faults.RootFaults.{further_schema, schema_orphan};
ghost use Rattle.apollo_meaning.specs.Faults.TypeFaults.{further_type, kind_mismatch, orphan};
ghost use Rattle.apollo_meaning.specs.Items.ListItems.{Added, ListItem, added, added_items};
ghost use Rattle.apollo_meaning.specs.Items.Named.{first_schema, schema_extensions};
ghost use Rattle.apollo_meaning.specs.Items.Parts.{SchemaPart, TypePart, key_of};
ghost use Rattle.apollo_meaning.specs.Order.Places.{Placed, first_place, schemas, types};
ghost use Rattle.apollo_meaning.specs.Rows.FaultRows.{faulty_list};
ghost use Rattle.apollo_meaning.specs.Rows.SchemaRows.{built_in_int, int_again};
ghost use Rattle.apollo_meaning.specs.Schema.Whole.{whole};
ghost use Rattle.apollo_meaning.specs.declared.build_error.BuildError.{BuildError};
ghost use Rattle.apollo_schema_laws.specs.Documents.{Documents, added_each, added_joined};
ghost use Rattle.apollo_schema_laws.specs.Equal.{AreEqualLists};
ghost use Rattle.apollo_schema_laws.specs.Rearranged.{AreRearranged, Group, directive_meant, is_in};
ghost use Rattle.apollo_schema_laws.specs.Rearranged.{schema_meant, type_meant};
ghost use Rattle.apollo_schema_laws.specs.Dropped.{executable_fault, further_directive, further_directives};
ghost use Rattle.apollo_schema_laws.specs.Dropped.{further_schemas, further_types};
ghost use Rattle.apollo_schema_laws.specs.Dropped.{is_passed_over, of_another_kind, orphans_by_name};
ghost use Rattle.apollo_schema_laws.specs.Dropped.{undefined_places};
ghost use Rattle.apollo_schema_laws.specs.Reported.{Executable, FurtherDirective, FurtherSchema, FurtherType};
ghost use Rattle.apollo_schema_laws.specs.Reported.{OrphanOfSchema, OrphanOfType, OtherKind};
ghost use Rattle.apollo_schema_laws.specs.Reported.{RepeatedComponent, RepeatedRoot, Sort, is_of_sort};
ghost use Rattle.apollo_schema_laws.specs.Reported.{reported, reported_sorts, sort_of};
ghost use Rattle.apollo_schema_laws.specs.ReportedRows.{its_further_definition, its_mismatch, its_orphan};
ghost use Rattle.apollo_schema_laws.specs.ReportedRows.{its_sorts};

use apollo_meaning::laws::{folded_extensions, folded_schema_extensions};

/// Each list is a rearrangement of itself; what is rearranged can be put back; and what is rearranged twice
/// is rearranged.
pub fn rearranging_is_an_equivalence()
    ensures itself { (xs : List ListItem) → AreRearranged xs xs }
    ensures back { (xs ys : List ListItem) → AreRearranged xs ys → AreRearranged ys xs }
    ensures twice { (xs ys zs : List ListItem) → AreRearranged xs ys → AreRearranged ys zs
        → AreRearranged xs zs }
{}

/// Lists that are joined are rearranged where each of them is.
pub fn joined_lists_are_rearranged()
    ensures { (xs ys us vs : List ListItem) → AreRearranged xs ys → AreRearranged us vs
        → AreRearranged (xs ++ us) (ys ++ vs) }
{}

/// Two neighbours change places where no group has both. Such are definitions of different names, a
/// definition and an extension, what is of a type and what is of the schema. GraphQL specification of October
/// 2021, section 3.
pub fn neighbours_change_places()
    ensures { (before after : List ListItem) (x y : ListItem)
        → ((g : Group) → is_in g x ≡ true → is_in g y ≡ false)
        → AreRearranged (before ++ x ∷ y ∷ after) (before ++ y ∷ x ∷ after) }
{}

/// What rearranged lists are completed with, types that are adopted and an implied schema definition, is
/// rearranged too. GraphQL specification of October 2021, sections 3.3.1 and 3.4.3.
pub fn completed_lists_are_rearranged()
    ensures { (adopts : Bool) (xs ys : List ListItem) → AreRearranged xs ys
        → AreRearranged (completed adopts xs) (completed adopts ys) }
{}

/// Each name means equal types in rearranged lists, whatever numbers their extensions get. GraphQL
/// specification of October 2021, section 3.4.3.
pub fn rearranged_types_are_equal()
    ensures { (start other : ℕ) (xs ys : List ListItem) (n : List ℕ) → AreRearranged xs ys
        → type_meant start xs n ≡ type_meant other ys n }
{
    folded_extensions();
}

/// The schema definitions that rearranged lists mean are equal, whatever numbers their extensions get, or
/// neither means one. GraphQL specification of October 2021, sections 3.3 and 3.3.2.
pub fn rearranged_schema_definitions_are_equal()
    ensures { (start other : ℕ) (xs ys : List ListItem) → AreRearranged xs ys
        → schema_meant start xs ≡ schema_meant other ys }
{
    folded_schema_extensions();
}

/// Each directive's name means the same definition in rearranged lists. GraphQL specification of October
/// 2021, section 3.13.
pub fn rearranged_directives_are_the_same()
    ensures { (xs ys : List ListItem) (n : List ℕ) → AreRearranged xs ys
        → directive_of (directive_definitions xs) n ≡ directive_of (directive_definitions ys) n }
{}

/// The schema has the same first definition and the same extensions in rearranged lists. GraphQL
/// specification of October 2021, sections 3.3 and 3.3.2.
pub fn rearranged_schema_parts_are_the_same()
    ensures definition { (xs ys : List ListItem) → AreRearranged xs ys → first_schema xs ≡ first_schema ys }
    ensures extensions { (xs ys : List ListItem) → AreRearranged xs ys
        → schema_extensions xs ≡ schema_extensions ys }
{}

/// Rearranged lists have the same faults, with their locations, in some order. GraphQL specification of
/// October 2021, section 3.
pub fn rearranged_faults_are_the_same()
    ensures { (adopts : Bool) (xs ys : List Added) → AreRearranged (added_items xs) (added_items ys)
        → IsPermutation (faults_of adopts xs) (faults_of adopts ys) }
{}

/// Each error of a build is of exactly one sort. So the faults of a list are what is reported of each sort
/// that it has a fault of, in another order. None is lost, and none is reported twice.
pub fn each_fault_is_of_one_sort()
    ensures own { (e : BuildError) → is_of_sort (sort_of e) e ≡ true }
    ensures alone { (s : Sort) (e : BuildError) → is_of_sort s e ≡ true → s ≡ sort_of e }
    ensures together { (adopts : Bool) (xs : List Added)
        → IsPermutation (faults_of adopts xs)
        (flat_map (λ s. reported s adopts xs) (reported_sorts adopts xs)) }
{}

/// Those faults of a list that say that a definition is not of the type system are those of its operations
/// and fragments. There is one for each, in order. GraphQL specification of October 2021, sections 2.2 and 3.
pub fn reported_executables_are_the_operations_and_fragments()
    ensures { (adopts : Bool) (xs : List Added)
        → reported Executable adopts xs ≡ filter_map (λ a. executable_fault a.1) xs }
{}

/// Those faults of a list that say that something is defined a second time are those of the further
/// definitions. There is one for each definition that stands after the first one of the schema or of its
/// type's name. There is one for each that stands after the first one of its directive's name that was handed
/// in. They are in order, each in view of that first one. Only a further definition of a built-in type that
/// may be ignored has none. GraphQL specification of October 2021, sections 3.3, 3.5 and 3.13.
pub fn reported_collisions_are_the_further_definitions()
    ensures schemas { (adopts : Bool) (xs : List Added)
        → reported FurtherSchema adopts xs
        ≡ map (λ p. further_schema p.0.1 p.1.1) (further_schemas (whole adopts xs)) }
    ensures directives { (adopts : Bool) (xs : List Added)
        → reported FurtherDirective adopts xs
        ≡ map (λ p. further_directive p.0.1 p.1.1) (further_directives (whole adopts xs)) }
    ensures types { (adopts : Bool) (xs : List Added)
        → reported FurtherType adopts xs
        ≡ map (λ p. further_type p.0.1 p.1.1)
        (filter (λ p. not (is_passed_over p)) (further_types (whole adopts xs))) }
{}

/// Take those faults of a list that say that an extension has no definition. They are those of the extensions
/// of names, and of the schema, that have none in the whole list. There is one for each, those of types by
/// name in order of first extension. Where extensions are adopted there are none. GraphQL specification of
/// October 2021, sections 3.3.2 and 3.4.3.
pub fn reported_orphans_are_the_extensions_without_a_definition()
    ensures types { (adopts : Bool) (xs : List Added)
        → reported OrphanOfType adopts xs ≡ map (λ e. orphan e.1) (orphans_by_name (whole adopts xs)) }
    ensures schemas { (adopts : Bool) (xs : List Added)
        → reported OrphanOfSchema adopts xs
        ≡ map (λ e. schema_orphan e.1) (undefined_places schemas (whole adopts xs)) }
    ensures adopted_types { (xs : List Added) → reported OrphanOfType true xs ≡ [] }
    ensures adopted_schemas { (xs : List Added) → reported OrphanOfSchema true xs ≡ [] }
{}

/// Take those faults of a list that say that an extension of this name is of another kind. They are those of
/// the name's extensions that are not of the kind of its first definition: one for each, in order. Of a name
/// without a definition there are none. GraphQL specification of October 2021, section 3.4.3.
pub fn reported_mismatches_are_the_extensions_of_another_kind()
    ensures dropped { (adopts : Bool) (xs : List Added) (d : Placed TypePart)
        → first_place types (whole adopts xs) (key_of d.1) ≡ Some d
        → reported (OtherKind (key_of d.1)) adopts xs
        ≡ map (λ e. kind_mismatch d.1 e.1) (of_another_kind (whole adopts xs) (key_of d.1)) }
    ensures none { (adopts : Bool) (xs : List Added) (n : List ℕ)
        → first_place types (whole adopts xs) n ≡ None
        → reported (OtherKind n) adopts xs ≡ [] }
{}

/// Take those faults of a list that say that a type of this name is given a component a second time. They are
/// those of the components that are dropped from the type. They are of the name's first definition and of the
/// extensions that are folded into it. Each comes as often, and in the same order. Of a name without a
/// definition there are none. GraphQL specification of October 2021, sections 3.4.3 and 3.6 to 3.10.
pub fn reported_collisions_are_the_dropped_components()
    ensures dropped { (adopts : Bool) (xs : List Added) (d : Placed TypePart)
        → first_place types (whole adopts xs) (key_of d.1) ≡ Some d
        → reported (RepeatedComponent (key_of d.1)) adopts xs ≡ found_of_type (whole adopts xs) d.1 }
    ensures none { (adopts : Bool) (xs : List Added) (n : List ℕ)
        → first_place types (whole adopts xs) n ≡ None
        → reported (RepeatedComponent n) adopts xs ≡ [] }
{}

/// Take those faults of a list that say that the schema is given a root a second time. They are those of the
/// roots that are dropped from the schema: from its first definition and from its extensions. Each comes as
/// often, and in the same order. Without a definition of the schema there are none. GraphQL specification of
/// October 2021, sections 3.3.1 and 3.3.2.
pub fn reported_repeated_roots_are_the_dropped_roots()
    ensures dropped { (adopts : Bool) (xs : List Added) (s : Placed SchemaPart)
        → first_place schemas (whole adopts xs) [] ≡ Some s
        → reported RepeatedRoot adopts xs ≡ found_of_schema (whole adopts xs) s.1 }
    ensures none { (adopts : Bool) (xs : List Added)
        → first_place schemas (whole adopts xs) [] ≡ None → reported RepeatedRoot adopts xs ≡ [] }
{}

/// The faults of the list `faulty_list` by their sorts, computed. First the sort of each, in order. Then
/// those that are reported of three things. They are a further definition of the type `T`, an extension of
/// `T` of another kind, and one of `U`, which has no definition.
pub fn faults_by_sort()
    ensures sorts { map (λ f. sort_of f.1) (faults_of false (added false faulty_list)) ≡ its_sorts }
    ensures further { reported FurtherType false (added false faulty_list) ≡ its_further_definition }
    ensures other_kind { reported (OtherKind (codes "T")) false (added false faulty_list) ≡ its_mismatch }
    ensures orphan { reported OrphanOfType false (added false faulty_list) ≡ its_orphan }
{}

/// What is dropped from the same list as a whole, by places from 0 on, computed. It is the further definition
/// of `T`, at place 3, the extension of `T` of another kind, at 1, and that of `U`, at 5. No further
/// definition is passed over, also where it may be ignored, as `T` is not built-in; of a built-in type one
/// is.
pub fn dropped_by_places()
    ensures further { map (λ p. p.1.0) (further_types (whole false (added false faulty_list))) ≡ 3 ∷ [] }
    ensures other_kind { map (λ e. e.0) (of_another_kind (whole false (added false faulty_list)) (codes "T"))
        ≡ 1 ∷ [] }
    ensures orphan { map (λ e. e.0) (orphans_by_name (whole false (added false faulty_list))) ≡ 5 ∷ [] }
    ensures kept { filter is_passed_over (further_types (whole false (added true faulty_list))) ≡ [] }
    ensures passed_over { map (λ p. p.1.0)
        (filter is_passed_over
        (further_types (whole false (added false built_in_int ++ added true int_again)))) ≡ 1 ∷ [] }
{}

/// Documents that are added one by one add what one document of all their definitions adds.
pub fn documents_one_by_one()
    ensures { (ignores : Bool) (documents : Documents)
        → added_each ignores documents ≡ added_joined ignores documents }
{}

/// Take lists whose definitions are equal one by one, whatever their locations, and whose directive
/// definitions are marked built-in alike. They mean equal types and directive definitions under each name,
/// and equal schema definitions or none, whatever numbers their extensions get. GraphQL specification of
/// October 2021, sections 3, 3.3 and 3.13.
pub fn equal_lists_mean_equal_definitions()
    ensures types { (start other : ℕ) (adopts : Bool) (xs ys : List Added) (n : List ℕ) → AreEqualLists xs ys
        → type_meant start (whole adopts xs) n ≡ type_meant other (whole adopts ys) n }
    ensures definition { (start other : ℕ) (adopts : Bool) (xs ys : List Added) → AreEqualLists xs ys
        → schema_meant start (whole adopts xs) ≡ schema_meant other (whole adopts ys) }
    ensures directives { (adopts : Bool) (xs ys : List Added) (n : List ℕ) → AreEqualLists xs ys
        → directive_meant (whole adopts xs) n ≡ directive_meant (whole adopts ys) n }
{
    folded_extensions();
    folded_schema_extensions();
}
