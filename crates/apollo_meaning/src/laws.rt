//! Laws of the definitions, for those who build on them; and what `==` and clones are at the errors of a
//! build.
ghost use Rattle.std.specs.Prelude.{◌≡◌, ◌≤◌, ◌+◌, ℕ, Bool, List, [], ◌∷◌, ◌++◌, None, Some, true, false};
ghost use Rattle.std.specs.Prelude.{length, codes, map, filter_map, flat_map, option_map, nat_eq, All};
ghost use Rattle.std.specs.List.{enumerate_from};
ghost use Rattle.std.specs.Option.{option_or};
ghost use Rattle.std.specs.Cmp.{IsEquivalence};
ghost use Rattle.apollo_meaning.specs.Items.Parts.{TypePart, SchemaPart, kind_of, key_of, same_kind, Root};
ghost use Rattle.apollo_meaning.specs.Items.Parts.{roots_in};
ghost use Rattle.apollo_meaning.specs.Items.ListItems.{ListItem, Added, added, added_items, defined_part};
ghost use Rattle.apollo_meaning.specs.Items.Named.{first, extensions_of, of_kind, first_schema};
ghost use Rattle.apollo_meaning.specs.Items.Named.{schema_extensions};
ghost use Rattle.apollo_meaning.specs.Order.Places.{Placed, types, schemas, extension_places, first_place};
ghost use Rattle.apollo_meaning.specs.Order.Places.{times_met, once_if_defined, folding_order};
ghost use Rattle.apollo_meaning.specs.Types.Meaning.{extensions_with_origin, type_from, type_names, type_of};
ghost use Rattle.apollo_meaning.specs.Types.Components.{Sourced};
ghost use Rattle.apollo_meaning.specs.Schema.Whole.{whole, folds};
ghost use Rattle.apollo_meaning.specs.Rows.TypeRows.{line, folding_location, extensions_around};
ghost use Rattle.apollo_meaning.specs.Rows.TypeRows.{written_around, extensions_that_wait};
ghost use Rattle.apollo_meaning.specs.Rows.TypeRows.{extension_of_another_kind};
ghost use Rattle.apollo_meaning.specs.Faults.Collisions.{Entry, collisions, same_name, dropped_component};
ghost use Rattle.apollo_meaning.specs.Faults.TypeComponents.{components_of, same_component};
ghost use Rattle.apollo_meaning.specs.Faults.TypeComponents.{dropped_from_type, joined_faults};
ghost use Rattle.apollo_meaning.specs.Faults.RootFaults.{root_faults, same_root, dropped_root, schema_orphan};
ghost use Rattle.apollo_meaning.specs.Faults.TypeFaults.{orphan};
ghost use Rattle.apollo_meaning.specs.Faults.ListFaults.{faults_in, faults_of, found_of_type};
ghost use Rattle.apollo_meaning.specs.Faults.ListFaults.{found_of_schema};
ghost use Rattle.apollo_meaning.specs.Steps.Prefixes.{found, found_at};
ghost use Rattle.apollo_meaning.specs.Rows.DirectiveRows.{directive_at, directives_replaced, replaced_twice};
ghost use Rattle.apollo_meaning.specs.Rows.FaultRows.{faulty_list, its_faults};
ghost use Rattle.apollo_meaning.specs.Completion.Adoption.{adopted, adopted_part, extended_names, orphans_of};
ghost use Rattle.apollo_meaning.specs.Completion.Adoption.{schema_orphans, with_adopted};
ghost use Rattle.apollo_meaning.specs.Completion.ImpliedSchema.{completed, implicit_roots, implied_schema};
ghost use Rattle.apollo_meaning.specs.Completion.ImpliedSchema.{schema_of_roots};
ghost use Rattle.apollo_meaning.specs.Completion.OrphanNames.{orphan_names};
ghost use Rattle.apollo_meaning.specs.Schema.Definition.{schema_of, schema_sourced};
ghost use Rattle.apollo_meaning.specs.Rows.SchemaRows.{type_name_of, extensions_alone, adopted_schema};
ghost use Rattle.apollo_meaning.specs.Rows.SchemaRows.{adopted_faults, orphan_faults, query_type_alone};
ghost use Rattle.apollo_meaning.specs.Rows.SchemaRows.{implied_query, schema_extensions_that_wait};
ghost use Rattle.apollo_meaning.specs.Rows.SchemaRows.{waited_for_schema, dropped_root_fault, built_in_int};
ghost use Rattle.apollo_meaning.specs.Rows.SchemaRows.{int_again, redefinition_fault};
ghost use Rattle.apollo_meaning.specs.BuiltInNodes.{built_in_location};
ghost use Rattle.apollo_meaning.specs.BuiltInTable.{built_in_definitions};
ghost use Rattle.apollo_meaning.specs.Directives.{directive_definitions, directive_names, directive_of};
ghost use Rattle.apollo_meaning.specs.Rows.BuiltInNames.{defined_names, component_names, Distinct};
ghost use Rattle.apollo_meaning.specs.Order.SpentIds.{SpendsIdsSoFar, SpendsIds};
ghost use Rattle.apollo_types.specs.TypeWriteOut.{type_description, type_kind, type_location, type_name};
ghost use Rattle.apollo_types.specs.TypeWriteOut.{write_type};
ghost use Rattle.apollo_component.specs.EachAfter.{each_after};
ghost use Rattle.apollo_component.specs.Extensions.{same_origin};
ghost use Rattle.apollo_component.specs.declared.extension.ComponentOrigin.TheVariants.{Definition};
ghost use Rattle.graphql_nodes.specs.declared.type_kind.TypeKind.{TypeKind};
ghost use Rattle.apollo_component.specs.FirstOfEach.{first_of_each, later_of_each, same_key};
ghost use Rattle.graphql_nodes.specs.NameView.{NameView};
ghost use Rattle.graphql_nodes.specs.SameText.{same_text};
ghost use Rattle.graphql_nodes.specs.Tables.{HasUniqueKeys};
ghost use Rattle.graphql_nodes.specs.Clones.{IsExact};
ghost use Rattle.graphql_nodes.specs.Comparing.{ComparesBy};
ghost use Rattle.apollo_meaning.specs.Faults.BareErrors.{bare_build_error};

use crate::build_error::BuildError;
use crate::collision::Collection;

/// The extensions that are folded for a name are those of its kind, in the order of the list, whatever stands
/// between them. GraphQL specification of October 2021, section 3.4.3.
pub fn folded_extensions()
    ensures { (start : ℕ) (xs : List ListItem) (n : List ℕ) (d : TypePart) → first xs n ≡ Some d
        → map (λ s. s.1) (extensions_with_origin n start (folding_order xs))
        ≡ of_kind (kind_of d) (extensions_of xs n) }
{}

/// The extensions that are folded for the schema, once it has a definition, are all of its extensions, in the
/// order of the list. GraphQL specification of October 2021, section 3.3.2.
pub fn folded_schema_extensions()
    ensures { (start : ℕ) (xs : List ListItem) (s : SchemaPart) → first_schema xs ≡ Some s
        → map (λ e. e.1) (schema_sourced start (folding_order xs)) ≡ schema_extensions xs }
{}

/// No two extensions that a list folds have one number, whether of types or of the schema: they are numbered
/// in folding order. So the components of two extensions of one type, or of the schema, have two origins.
/// GraphQL specification of October 2021, sections 3.3.2 and 3.4.3.
pub fn folded_extensions_have_numbers_of_their_own()
    ensures numbers { (start : ℕ) (xs : List ListItem)
        → HasUniqueKeys nat_eq (enumerate_from start (folding_order xs)) }
    ensures of_a_type { (start : ℕ) (xs : List ListItem) (n : List ℕ)
        → HasUniqueKeys same_origin (extensions_with_origin n start (folding_order xs)) }
    ensures of_the_schema { (start : ℕ) (xs : List ListItem)
        → HasUniqueKeys same_origin (schema_sourced start (folding_order xs)) }
{}

/// A type has the kind, the description, the name and the location of the definition that its parts begin
/// with. Whether that definition is ignorable changes nothing of the type. Each kind is the same as itself.
/// GraphQL specification of October 2021, sections 3.5 to 3.10.
pub fn types_are_headed_by_their_definitions()
    ensures kind { (head : TypePart) (ps : List Sourced) → type_kind (type_from head ps) ≡ kind_of head }
    ensures own { (k : TypeKind) → same_kind k k ≡ true }
    ensures description { (head : TypePart) (ps : List Sourced)
        → type_description (type_from head ps) ≡ head.description }
    ensures name { (head : TypePart) (ps : List Sourced) → type_name (type_from head ps) ≡ head.name }
    ensures location { (head : TypePart) (ps : List Sourced)
        → type_location (type_from head ps) ≡ head.location }
    ensures ignorable { (head : TypePart) (b : Bool) (ps : List Sourced)
        → type_from (record head { ignorable = b }) ((Definition, record head { ignorable = b }) ∷ ps)
        ≡ type_from head ((Definition, head) ∷ ps) }
{}

/// The names of a list's types are the first of each text among the names that it defines, in order. So no
/// two of them have one text. GraphQL specification of October 2021, section 3.3.
pub fn type_names_are_the_first_of_each_text()
    ensures { (xs : List ListItem)
        → type_names xs ≡ first_of_each same_text (map (λ p. p.name) (filter_map defined_part xs)) }
{}

/// The definition that the type of a name has in a completed list, case by case: the first one of the list.
/// Where there is none and extensions are adopted, it is an empty one of the kind. It has the name and the
/// location of the name's first extension. Else there is none. GraphQL specification of October 2021,
/// sections 3.4 and 3.4.3.
pub fn definitions_by_cases()
    ensures defined { (adopts : Bool) (xs : List ListItem) (n : List ℕ) (d : TypePart) → first xs n ≡ Some d
        → first (completed adopts xs) n ≡ Some d }
    ensures adopted { (xs : List ListItem) (n : List ℕ) (e : TypePart) (es : List TypePart)
        → first xs n ≡ None → extensions_of xs n ≡ e ∷ es
        → first (completed true xs) n ≡ Some (adopted_part e) }
    ensures orphaned { (xs : List ListItem) (n : List ℕ) → first xs n ≡ None
        → first (completed false xs) n ≡ None }
    ensures unknown { (adopts : Bool) (xs : List ListItem) (n : List ℕ) → first xs n ≡ None
        → extensions_of xs n ≡ [] → first (completed adopts xs) n ≡ None }
{}

/// The definition that the schema has in a completed list, case by case: the first one of the list. Where
/// there is none and the schema's extensions are adopted, it has no root of its own if they name one. If they
/// name none, it has the implicit roots, of which there may be none. Where the extensions are not adopted, it
/// has the implicit roots, and without one there is no definition. GraphQL specification of October 2021,
/// sections 3.3, 3.3.1 and 3.3.2.
pub fn schema_definitions_by_cases()
    ensures written { (adopts : Bool) (xs : List ListItem) (s : SchemaPart) → first_schema xs ≡ Some s
        → first_schema (completed adopts xs) ≡ Some s }
    ensures named { (xs : List ListItem) (r : Root) (rs : List Root) → first_schema xs ≡ None
        → roots_in (schema_extensions xs) ≡ r ∷ rs
        → first_schema (completed true xs) ≡ Some (schema_of_roots []) }
    ensures unnamed { (xs : List ListItem) → first_schema xs ≡ None → roots_in (schema_extensions xs) ≡ []
        → first_schema (completed true xs) ≡ Some (schema_of_roots (implicit_roots (with_adopted true xs))) }
    ensures implicit { (xs : List ListItem) (r : Root) (rs : List Root) → first_schema xs ≡ None
        → implicit_roots xs ≡ r ∷ rs
        → first_schema (completed false xs) ≡ Some (schema_of_roots (r ∷ rs)) }
    ensures none { (xs : List ListItem) → first_schema xs ≡ None → implicit_roots xs ≡ []
        → first_schema (completed false xs) ≡ None }
{}

/// Of a joined list, the first definition of a name is that of the front, or else that of the rest. GraphQL
/// specification of October 2021, section 3.3.
pub fn joined_lists_define_first_in_front()
    ensures { (xs ys : List ListItem) (n : List ℕ)
        → first (xs ++ ys) n ≡ option_or (first xs n) (first ys n) }
{}

/// Each extension of a type whose name is defined is met at one moment of the list, and each other one at
/// none. So are those of the schema.
pub fn each_extension_is_met_once()
    ensures types { (xs : List ListItem)
        → All (λ e. times_met types xs e ≡ once_if_defined types xs e) (extension_places types xs) }
    ensures schemas { (xs : List ListItem)
        → All (λ e. times_met schemas xs e ≡ once_if_defined schemas xs e) (extension_places schemas xs) }
{}

/// A list folds no more extensions than a list that begins with it folds once that is completed. So where the
/// numbers don't suffice for the first list, they don't for the second.
pub fn a_longer_list_folds_no_less()
    ensures folds { (adopts : Bool) (xs more : List Added)
        → length (folding_order (added_items xs)) ≤ folds adopts (xs ++ more) }
    ensures spends { (start : ℕ) (adopts : Bool) (xs more : List Added) → SpendsIdsSoFar start xs
        → SpendsIds start adopts (xs ++ more) }
{}

/// Where extensions are adopted, none of a type is left without a definition.
pub fn adoption_leaves_no_orphan_names()
    ensures { (xs : List ListItem) → orphan_names (with_adopted true xs) ≡ [] }
{}

/// The definitions on a list with an extension on either side of the definition, computed. They are the
/// locations of the extensions in folding order, and the write-out of the type that the name means.
pub fn extensions_around()
    ensures order { map folding_location (folding_order (whole false (added false extensions_around)))
        ≡ line 1 ∷ line 5 ∷ [] }
    ensures writes { option_map write_type
        (type_of 0 (folding_order (whole false (added false extensions_around)))
        (whole false (added false extensions_around)) (codes "Q")) ≡ Some written_around }
{}

/// The definitions on a list whose extensions wait for their definitions: the locations of the extensions in
/// folding order, computed. One of a name that is never defined is not folded.
pub fn extensions_that_wait()
    ensures { map folding_location (folding_order (whole false (added false extensions_that_wait)))
        ≡ line 3 ∷ line 6 ∷ line 1 ∷ line 11 ∷ [] }
{}

/// The definitions on a list with an extension of another kind than its name's, computed: it is not folded.
pub fn extension_of_another_kind()
    ensures { folding_order (whole false (added false extension_of_another_kind)) ≡ [] }
{}

/// No two built-in definitions have one name, and no type of introspection has two fields or two values of
/// one name, computed.
#[tactic(auto, unfolding(crate::specs::BuiltInTable::built_in_definitions))]
pub fn built_in_names_are_distinct()
    ensures definitions { Distinct (defined_names built_in_definitions) }
    ensures components { All (λ definition. Distinct (component_names definition)) built_in_definitions }
{}

/// Of the components of a collection, as many are at fault as are not the first of their names, which are
/// kept.
pub fn each_component_is_kept_or_at_fault()
    ensures { (c : Collection) (ty : NameView) (es : List Entry)
        → length (first_of_each (same_key same_text) es) + length (collisions c ty [] es) ≡ length es }
{}

/// The components of a collection that are at fault are those that have the name of an earlier one, in order.
/// Each fault is at its component, and has the name that is kept: that of the first component of its text.
/// Components that join others are at fault as where all of them stand in one list. To have one name is an
/// equivalence. GraphQL specification of October 2021, sections 3.6 to 3.10.
pub fn later_components_are_at_fault()
    ensures same { IsEquivalence same_name }
    ensures faults { (c : Collection) (ty : NameView) (es : List Entry)
        → collisions c ty [] es
        ≡ map (dropped_component c ty (first_of_each same_name es)) (later_of_each same_name es) }
    ensures joined { (c : Collection) (ty : NameView) (es more : List Entry)
        → collisions c ty [] (es ++ more)
        ≡ collisions c ty [] es ++ collisions c ty (map (λ e. e.0) es) more }
{}

/// The parts of a whole type, its definition and then its extensions, join one after another. The components
/// that are dropped are those that are the same as an earlier one in the joined list of all, in order. Each
/// fault has the type's name as the part has it that the component stands in. So it is for each type of a
/// list, with its name's first definition and the extensions of that one's kind. GraphQL specification of
/// October 2021, sections 3.4.3 and 3.6 to 3.10.
pub fn later_components_of_a_type_are_at_fault()
    ensures same { IsEquivalence same_component }
    ensures faults { (ps : List TypePart)
        → joined_faults ps
        ≡ map (dropped_from_type (first_of_each same_component (components_of ps)))
        (later_of_each same_component (components_of ps)) }
    ensures all { (xs : List ListItem) (d : Placed TypePart) → first_place types xs (key_of d.1) ≡ Some d
        → found_of_type xs d.1 ≡ joined_faults (d.1 ∷ of_kind (kind_of d.1) (extensions_of xs (key_of d.1))) }
{}

/// The roots of the schema that are at fault are those that have the operation of an earlier one, in order.
/// Each fault is at its root, and has the location of the name that is kept, the first of its operation.
/// Roots that join others are at fault as where all of them stand in one list. So are those of a list of
/// definitions, in the schema's first definition and then in its extensions. GraphQL specification of October
/// 2021, sections 3.3.1 and 3.3.2.
pub fn later_roots_are_at_fault()
    ensures same { IsEquivalence same_root }
    ensures faults { (rs : List Root)
        → root_faults [] rs ≡ map (dropped_root (first_of_each same_root rs)) (later_of_each same_root rs) }
    ensures joined { (rs more : List Root)
        → root_faults [] (rs ++ more) ≡ root_faults [] rs ++ root_faults rs more }
    ensures all { (xs : List ListItem) (s : Placed SchemaPart) → first_place schemas xs [] ≡ Some s
        → found_of_schema xs s.1 ≡ root_faults [] (roots_in (s.1 ∷ schema_extensions xs)) }
{}

/// The faults of a list, item by item. First come those that its items find, each in view of those before it,
/// and then its orphans. Then comes what the implied schema definition finds, and at last the orphans of the
/// schema. GraphQL specification of October 2021, section 3.
pub fn faults_item_by_item()
    ensures { (adopts : Bool) (xs : List ListItem) → let ys : List ListItem = with_adopted adopts xs in
        faults_in adopts xs
        ≡ found ys ++ (map orphan (flat_map (orphans_of ys) (extended_names ys))
        ++ (each_after found_at ys (implied_schema adopts ys)
        ++ map schema_orphan (schema_orphans (completed adopts xs)))) }
{}

/// The faults of a list, computed: they stand in the order in which they are found, and not in that of the
/// list.
pub fn faulty_list()
    ensures { faults_of false (added false faulty_list) ≡ its_faults }
{}

/// The built-in definitions are without fault, with adoption and without, computed.
#[tactic(auto, unfolding(crate::specs::BuiltInTable::built_in_definitions))]
pub fn built_in_definitions_are_faultless()
    ensures plain { faults_of false (added false built_in_definitions) ≡ [] }
    ensures adopting { faults_of true (added false built_in_definitions) ≡ [] }
{}

/// A list of extensions alone where they are adopted, computed. Each name that is extended gets a definition,
/// in order of first extension, and at last the schema does. So the extensions of types are folded first,
/// those of the schema last. The schema definition has the directive and the query root of the first of
/// those. The query root of the second is dropped, and is the only fault. GraphQL specification of October
/// 2021, sections 3.3.1, 3.3.2 and 3.4.3.
pub fn extensions_alone_adopted()
    ensures names { filter_map type_name_of (adopted (added_items (added false extensions_alone)))
        ≡ codes "B" ∷ codes "A" ∷ [] }
    ensures order { map folding_location (folding_order (whole true (added false extensions_alone)))
        ≡ line 6 ∷ line 8 ∷ line 1 ∷ line 4 ∷ [] }
    ensures definition { schema_of 0 (folding_order (whole true (added false extensions_alone)))
        (whole true (added false extensions_alone)) ≡ Some adopted_schema }
    ensures faults { faults_of true (added false extensions_alone) ≡ adopted_faults }
{}

/// The list of [`extensions_alone_adopted`] where extensions are not adopted, computed. Nothing is folded,
/// there is no schema definition, and each extension is a fault, those of types first and those of the schema
/// last. GraphQL specification of October 2021, sections 3.3.2 and 3.4.3.
pub fn extensions_alone_orphaned()
    ensures order { folding_order (whole false (added false extensions_alone)) ≡ [] }
    ensures definition { schema_of 0 (folding_order (whole false (added false extensions_alone)))
        (whole false (added false extensions_alone)) ≡ None }
    ensures faults { faults_of false (added false extensions_alone) ≡ orphan_faults }
{}

/// An object type `Query` alone, computed. It is the query root of a schema definition that nothing wrote,
/// with adoption and without, and nothing is at fault. GraphQL specification of October 2021, section 3.3.1.
pub fn query_type_alone()
    ensures definition { schema_of 0 (folding_order (whole false (added false query_type_alone)))
        (whole false (added false query_type_alone)) ≡ Some implied_query }
    ensures faults { faults_of false (added false query_type_alone) ≡ [] }
    ensures adopting_definition { schema_of 0 (folding_order (whole true (added false query_type_alone)))
        (whole true (added false query_type_alone)) ≡ Some implied_query }
    ensures adopting_faults { faults_of true (added false query_type_alone) ≡ [] }
{}

/// A list with extensions of the schema before its definition, computed. The definition's roots are taken
/// first, then those of the extensions, and the root that is dropped is an extension's. GraphQL specification
/// of October 2021, sections 3.3.1 and 3.3.2.
pub fn schema_extensions_that_wait()
    ensures order { map folding_location
        (folding_order (whole false (added false schema_extensions_that_wait))) ≡ line 1 ∷ line 3 ∷ [] }
    ensures definition { schema_of 0 (folding_order (whole false (added false schema_extensions_that_wait)))
        (whole false (added false schema_extensions_that_wait)) ≡ Some waited_for_schema }
    ensures faults { faults_of false (added false schema_extensions_that_wait) ≡ dropped_root_fault }
{}

/// A further definition of a built-in scalar type, computed. It is passed over without a fault where it was
/// added with redefinitions of built-in types ignored, and is a fault where it was not. GraphQL specification
/// of October 2021, section 3.5.
pub fn built_in_scalar_redefined()
    ensures ignored { faults_of false (added false built_in_int ++ added true int_again) ≡ [] }
    ensures refused { faults_of false (added false built_in_int ++ added false int_again)
        ≡ redefinition_fault }
{}

/// A built-in directive that is defined again, twice, computed. Its name stands where it stood and means the
/// first of these two. The second one is a fault, and each other name means its one definition. GraphQL
/// specification of October 2021, section 3.13.
pub fn directives_replaced()
    ensures names { map (λ name. name.text)
        (directive_names (directive_definitions (added_items (added false directives_replaced))))
        ≡ codes "a" ∷ codes "b" ∷ codes "c" ∷ [] }
    ensures replaced { directive_of (directive_definitions (added_items (added false directives_replaced)))
        (codes "a") ≡ Some (directive_at (line 3) (codes "a") 3) }
    ensures built_in { directive_of (directive_definitions (added_items (added false directives_replaced)))
        (codes "b") ≡ Some (directive_at built_in_location (codes "b") 2) }
    ensures faults { faults_of false (added false directives_replaced) ≡ replaced_twice }
{}

/// Errors of a build are equal exactly where they are one without the locations of the names in them. The
/// locations of what is kept are compared: `previous_location` and `def_location`.
pub fn equality_of_build_errors()
    ensures { ComparesBy ⟦<BuildError as PartialEq>⟧.eq bare_build_error }
{}

/// Each clone of an error of a build is the original, with every location in it; and so is each clone of a
/// collection.
pub fn clones_are_exact()
    ensures build_error { IsExact ⟦<BuildError as Clone>⟧.is_clone }
    ensures collection { IsExact ⟦<Collection as Clone>⟧.is_clone }
{}
