//! Laws of the write-out, for those who build on what it says.
ghost use Rattle.std.specs.Prelude.{◌≡◌, ◌≤◌, ℕ, Bool, List, [], Some, false, true, codes, length, map};
ghost use Rattle.std.specs.Prelude.{option_map};
ghost use Rattle.apollo_component.specs.WriteOut.{by_origin};
ghost use Rattle.apollo_component.specs.declared.parts_by_origin.PartsByOrigin.{PartsByOrigin};
ghost use Rattle.apollo_types.specs.TypeWriteOut.{write_type};
ghost use Rattle.apollo_types.specs.declared.extended_type.ExtendedType.{ExtendedType};
ghost use Rattle.apollo_meaning.specs.Faults.ListFaults.{faults_of};
ghost use Rattle.apollo_meaning.specs.Items.ListItems.{ListItem, Added, added};
ghost use Rattle.apollo_meaning.specs.Order.Places.{folding_order};
ghost use Rattle.apollo_meaning.specs.Order.SpentIds.{SpendsIds};
ghost use Rattle.apollo_meaning.specs.Rows.FaultRows.{faulty_list};
ghost use Rattle.apollo_meaning.specs.Rows.TypeRows.{written_around};
ghost use Rattle.apollo_meaning.specs.Schema.Whole.{folds, whole};
ghost use Rattle.apollo_meaning.specs.Types.Meaning.{type_of};
ghost use Rattle.apollo_schema.specs.EqualSchemas.{AreEqualSchemas};
ghost use Rattle.apollo_schema.specs.MeantSchema.{MeansSchema};
ghost use Rattle.apollo_schema.specs.SchemaWriteOut.{write_schema};
ghost use Rattle.apollo_schema.specs.declared.schema.Schema.{Schema};
ghost use Rattle.graphql_ast.specs.BareDocuments.{bare_definition};
ghost use Rattle.graphql_ast.specs.Parts.{Directives};
ghost use Rattle.graphql_ast.specs.declared.definition.Definition.{Definition};
ghost use Rattle.apollo_schema_laws.specs.Sections.{Sections, section_directives, HasDefinitionOf};
ghost use Rattle.apollo_schema_laws.specs.Sections.{HasDistinctIdentities, HasExtensionsOf};
ghost use Rattle.apollo_schema_laws.specs.Sections.{HasSameComponents, in_sections, sections_of};
ghost use Rattle.apollo_schema_laws.specs.TypeSections.{HasWhatIsWritten, HasEachNameOnce, type_sections};
ghost use Rattle.apollo_schema_laws.specs.WrittenAgain.{IsMeantByList, IsWriteOutOf, written_again};

use crate::rearranged_builds::equal_lists;

/// What is written out stays as it is when it is read and written out again. The components of any sections,
/// put under their origins, make the parts of a definition and of its extensions. Whatever distinct
/// identities these extensions get, the components that the parts make are put under those identities as the
/// same parts, in the same order. GraphQL specification of October 2021, sections 3.3 and 3.4.3.
pub fn written_parts_are_written_again()
    ensures { (s : Sections) (p : PartsByOrigin) → HasExtensionsOf s p → HasDistinctIdentities p
        → by_origin (in_sections (sections_of p)) ≡ p }
{}

/// No component is lost in what is written out, and none is added. The parts of the definition and of the
/// extensions that the components of any sections make have, of each sort, the components of that section.
/// GraphQL specification of October 2021, sections 3.3 and 3.5 to 3.10.
pub fn written_parts_have_all_components()
    ensures { (s : Sections) (p : PartsByOrigin) → HasDefinitionOf s p → HasExtensionsOf s p
        → HasSameComponents s (sections_of p) }
{}

/// Directives keep their order, where they stand in that of the definition and its extensions, as those of
/// each type of a list do. So written parts have them, the definition's first and then those of each
/// extension. GraphQL specification of October 2021, sections 2.12, 3.3.2 and 3.4.3.
pub fn written_parts_keep_directives_in_order()
    ensures { (s : Sections) (q p : PartsByOrigin) → HasDistinctIdentities q
        → s Directives ≡ sections_of q Directives
        → HasDefinitionOf s p → HasExtensionsOf s p
        → section_directives (sections_of p) ≡ section_directives s }
{}

/// Take a type of any kind that has, sort by sort, what another one is written out as. It is written out as
/// that one is, whatever the numbers of its extensions. It has all components of that one, and no others.
/// GraphQL specification of October 2021, sections 3.4.3 and 3.5 to 3.10.
pub fn written_types_are_written_again()
    ensures same { (t u : ExtendedType) → HasWhatIsWritten t u → write_type u ≡ write_type t }
    ensures components { (t u : ExtendedType) → HasWhatIsWritten t u
        → HasSameComponents (type_sections t) (type_sections u) }
{}

/// Each type that a list means has each name once. A type that has what such a type is written out as has
/// each name once too, so nothing of it repeats. GraphQL specification of October 2021, sections 3.6 to 3.10.
pub fn written_types_have_each_name_once()
    ensures meant { (start : ℕ) (xs : List ListItem) (n : List ℕ) (t : ExtendedType)
        → type_of start (folding_order xs) xs n ≡ Some t → HasEachNameOnce (type_sections t) }
    ensures again { (t u : ExtendedType) → HasWhatIsWritten t u → HasEachNameOnce (type_sections t)
        → HasEachNameOnce (type_sections u) }
{}

/// What the worked list with extensions on either side of a definition is written out as, read as a list and
/// computed. The type that it means is written out as the same definitions, and nothing is at fault. Their
/// extensions stand in another order than they stood in the worked list. GraphQL specification of October
/// 2021, section 3.4.3.
pub fn worked_write_out_is_written_again()
    ensures writes { option_map write_type
        (type_of 7 (folding_order (whole false (added false written_around)))
        (whole false (added false written_around)) (codes "Q")) ≡ Some written_around }
    ensures faults { faults_of false (added false written_around) ≡ [] }
{}

/// Every schema's write-out rebuilds. Take any list of added definitions, with any setting of adoption and of
/// ignored redefinitions. Take the schema that it means, whole or what could be built of a list with faults.
/// The write-out, added as one document after the built-in definitions, with adoption, has no faults. Each
/// schema that the write-out means, with extensions numbered from anywhere, is equal to the first, and is
/// written out as the first is. There is such a schema. GraphQL specification of October 2021, sections 3
/// and 3.3.
///
/// Premise: the list begins with the built-in definitions, nothing after them is marked built-in, and each
/// schema definition names a root. Only what has a location in file number 0 is marked so. A schema
/// definition without a root isn't written, and what is written may imply other roots.
pub fn canonical()
    ensures faults { (schema : Schema) → IsMeantByList schema → (ignores : Bool)
        → faults_of true (written_again ignores schema) ≡ [] }
    ensures equal { (schema rebuilt : Schema) → IsMeantByList schema → (ignores : Bool) (again : ℕ)
        → MeansSchema again true (written_again ignores schema) rebuilt
        → AreEqualSchemas rebuilt schema }
    ensures written { (schema rebuilt : Schema) → IsMeantByList schema → (ignores : Bool) (again : ℕ)
        → MeansSchema again true (written_again ignores schema) rebuilt
        → write_schema rebuilt ≡ write_schema schema }
    ensures means { (schema : Schema) → IsMeantByList schema → (ignores : Bool) (again : ℕ)
        → ∥ ((rebuilt : Schema) × MeansSchema again true (written_again ignores schema) rebuilt) ∥₁ }
{}

/// To write out twice is to write out once. Take the write-out of a schema of a list as [`canonical`] takes
/// it. What that is written out as, read with adoption after the built-in definitions, is that write-out.
/// GraphQL specification of October 2021, sections 3 and 3.3.
///
/// Premise: that of [`canonical`].
pub fn written_twice_is_written_once()
    ensures { (schema : Schema) → IsMeantByList schema
        → (ignores : Bool) (again : ℕ) (twice : List Definition)
        → IsWriteOutOf again true (written_again ignores schema) twice
        → twice ≡ write_schema schema }
{
    canonical();
}

/// Schemas of lists as [`canonical`] takes them are equal where their write-outs are equal, definition by
/// definition, whatever the locations. It holds under whatever settings of both options. GraphQL
/// specification of October 2021, sections 3 and 3.3.
///
/// Premise: that of [`canonical`], of both lists.
pub fn equal_write_outs_have_equal_schemas()
    ensures { (schema other : Schema) → IsMeantByList schema → IsMeantByList other
        → map bare_definition (write_schema schema) ≡ map bare_definition (write_schema other)
        → AreEqualSchemas schema other }
{
    equal_lists();
}

/// A schema's write-out folds no more extensions than the list that the schema is of. It holds for every list
/// of added definitions, with any setting of adoption and of ignored redefinitions. It holds for the schema
/// that the list means, whole or what could be built of a list with faults. The write-out is added as one
/// document after the built-in definitions, with adoption. So where the numbers from some one on don't
/// suffice for the write-out, they don't for the list. GraphQL specification of October 2021, sections 3.3.2
/// and 3.4.3.
pub fn a_write_out_folds_no_more()
    ensures folds { (start : ℕ) (adopts ignores : Bool) (xs : List Added) (schema : Schema)
        → MeansSchema start adopts xs schema
        → folds true (written_again ignores schema) ≤ folds adopts xs }
    ensures spends { (start again : ℕ) (adopts ignores : Bool) (xs : List Added) (schema : Schema)
        → MeansSchema start adopts xs schema
        → SpendsIds again true (written_again ignores schema) → SpendsIds again adopts xs }
{}

/// A write-out may fold fewer extensions than its list. Computed: the worked list with faults folds two,
/// whose components are all dropped. And the type that it means is written out as a definition alone. GraphQL
/// specification of October 2021, section 3.4.3.
pub fn worked_extensions_are_not_written()
    ensures folds { folds false (added false faulty_list) ≡ 2 }
    ensures writes { option_map (λ t. length (write_type t))
        (type_of 0 (folding_order (whole false (added false faulty_list)))
        (whole false (added false faulty_list)) (codes "T")) ≡ Some 1 }
{}
