//! Laws of elaboration, for those who build on it. Also what `==` answers at paths and the errors of a build,
//! and what clones of these errors are.
//!
//! Each law is a function that does nothing. A proof cites it by a call, and finds its clauses there.
ghost use Rattle.std.specs.Prelude.{◌≡◌, ◌⊎◌, ◌↔◌, Bool, true, false, List, [], Option, None, Some, Ok};
ghost use Rattle.std.specs.Prelude.{option_map};
ghost use Rattle.std.specs.List.{AllByRecursion};
ghost use Rattle.graphql_ast.specs.declared.selection.Field as syntax_field;
ghost use Rattle.graphql_ast.specs.declared.selection.FragmentSpread as syntax_spread;
ghost use Rattle.graphql_ast.specs.declared.selection.InlineFragment as syntax_fragment;
ghost use Rattle.graphql_ast.specs.declared.selection.Selection.TheVariants as syntax;
ghost use Rattle.graphql_ast.specs.declared.type_system.FieldDefinition.{FieldDefinition};
ghost use Rattle.apollo_types.specs.TypeKinds.{is_leaf};
ghost use Rattle.apollo_schema.specs.Lookups.{field_at, refers_to};
ghost use Rattle.apollo_executable.specs.Erasure.{erased_set};
ghost use Rattle.apollo_executable.specs.Walks.FieldsIn.{fields_in};
ghost use Rattle.apollo_document.specs.BareErrors.{bare_root, bare_path, bare_build_error};
ghost use Rattle.apollo_document.specs.BareLeaves.{IsBareOnLeaf};
ghost use Rattle.apollo_document.specs.Elaborated.{elaborated};
ghost use Rattle.apollo_document.specs.Prelude.{ComparesBy, IsExact, NameView, NodeView};
ghost use Rattle.apollo_document.specs.SelectionFaults.{faults_of_selections};
ghost use Rattle.apollo_document.specs.Stripped.{kept_field, kept_fragment, stripped, stripped_field};
ghost use Rattle.apollo_document.specs.Stripped.{stripped_inline_fragment, stripped_selection};
ghost use Rattle.apollo_document.specs.Typable.{has_type, if_typable, is_bare, typable_field};
ghost use Rattle.apollo_document.specs.Typable.{typable_fragment, unknown_field};
ghost use Rattle.apollo_document.specs.TypedSelections.{IsTypedSet};

use crate::build_error::BuildError;
use crate::selection_path::{ExecutableDefinitionName, SelectionPath};
use apollo_executable::selection::{Field, SelectionSet};
use apollo_schema::schema::Schema;
use graphql_ast::selection::Selection;

/// The selections that a typed set is erased to are all typable in its type, so nothing of them is at fault.
/// No two typed sets from one type are erased to the same selections. GraphQL specification of October 2021,
/// sections 2.4 to 2.8.
#[tactic(auto, using(crate::proofs::ErasedAgain::stripped_again, crate::proofs::ErasedAgain::faultless_again, crate::proofs::ErasedAgain::one_typed))]
pub fn typed_sets()
    ensures stripped { (schema : Option Schema) (ty : NameView) (set : SelectionSet)
        → IsTypedSet schema ty set → stripped schema ty (erased_set set) ≡ erased_set set }
    ensures faultless { (schema : Option Schema) (ty : NameView) (path : SelectionPath) (set : SelectionSet)
        → IsTypedSet schema ty set → faults_of_selections schema ty path (erased_set set) ≡ [] }
    ensures unique { (schema : Option Schema) (ty : NameView) (a b : SelectionSet) → IsTypedSet schema ty a
        → IsTypedSet schema ty b → erased_set a ≡ erased_set b → a ≡ b }
{}

/// Take the set that selections are elaborated to from a type. It is erased to the typable ones of them, each
/// stripped in its child type, and is typed in that type. No other set is both. GraphQL specification of
/// October 2021, sections 2.4 to 2.8.
#[tactic(auto, using(crate::proofs::ErasureLemmas::erased_is_stripped, crate::proofs::TypingLemmas::elaborated_is_typed, crate::proofs::ErasedAgain::only_elaborated))]
pub fn elaborated_sets()
    ensures kept { (schema : Option Schema) (ty : NameView) (xs : List Selection)
        → erased_set (elaborated schema ty xs) ≡ stripped schema ty xs }
    ensures typed { (schema : Option Schema) (ty : NameView) (xs : List Selection)
        → IsTypedSet schema ty (elaborated schema ty xs) }
    ensures unique { (schema : Option Schema) (ty : NameView) (xs : List Selection) (set : SelectionSet)
        → erased_set set ≡ stripped schema ty xs → IsTypedSet schema ty set
        → set ≡ elaborated schema ty xs }
{}

/// What is typable in a type, plainly. Over a schema, a field is typable if the type has a field of its name,
/// and one of two more holds (`field`). It has no subselections, or the name inside all lists of its type is
/// no scalar or enum. An inline fragment without a condition is typable, from that type
/// (`without_condition`). One with a condition is typable if the schema has a type of that name, from that
/// (`condition`). A spread always is (`spread`). Without a schema each selection is, and the type of each
/// field is `UNKNOWN` (`any_field`). So a list is stripped. Each selection is so alone, a field from the
/// inner type of its definition, an inline fragment from its child type (`stripped_field`,
/// `stripped_fragment`). GraphQL specification of October 2021, sections 2.4 to 2.8.
#[tactic(auto, using(crate::proofs::ErasureLemmas::field_stripped, crate::proofs::ErasureLemmas::fragment_stripped, crate::proofs::ErasureLemmas::spread_stripped))]
pub fn what_is_typable()
    ensures field { (s : Schema) (ty name : NameView) (bare : Bool) (d : NodeView FieldDefinition)
        → (typable_field (Some s) ty name bare ≡ Ok d)
        ↔ ((option_map (λ c. c.node) (field_at s ty name) ≡ Some d)
        × ((bare ≡ true) ⊎ (refers_to is_leaf s.types d.value.ty ≡ false))) }
    ensures any_field { (ty name : NameView) (bare : Bool)
        → typable_field None ty name bare ≡ Ok (unknown_field name) }
    ensures condition { (schema : Option Schema) (ty condition child : NameView)
        → (typable_fragment schema ty (Some condition) ≡ Ok child)
        ↔ ((child ≡ condition) × (has_type schema condition ≡ true)) }
    ensures without_condition { (schema : Option Schema) (ty : NameView)
        → typable_fragment schema ty None ≡ Ok ty }
    ensures spread { (schema : Option Schema) (ty : NameView) (n : NodeView syntax_spread.FragmentSpread)
        → stripped_selection schema ty (syntax.FragmentSpread n) ≡ Some (syntax.FragmentSpread n) }
    ensures stripped_field { (schema : Option Schema) (ty : NameView) (f : syntax_field.Field)
        → stripped_field schema ty f
        ≡ if_typable
        (kept_field f.alias f.name f.arguments f.directives
        (λ child. stripped schema child f.selection_set))
        (typable_field schema ty f.name (is_bare f.selection_set)) }
    ensures stripped_fragment { (schema : Option Schema) (ty : NameView) (f : syntax_fragment.InlineFragment)
        → stripped_inline_fragment schema ty f
        ≡ if_typable
        (kept_fragment f.type_condition f.directives (λ child. stripped schema child f.selection_set))
        (typable_fragment schema ty f.type_condition) }
{}

/// In a set that is typed over a schema no field has subselections whose type is a scalar or enum of that
/// schema. GraphQL specification of October 2021, section 5.3.3.
#[tactic(auto, using(crate::proofs::LeafLemmas::typed_is_bare))]
pub fn leaves_of_typed_sets()
    ensures { (schema : Schema) (ty : NameView) (set : SelectionSet) → IsTypedSet (Some schema) ty set
        → AllByRecursion (λ (n : NodeView Field). IsBareOnLeaf schema n.value)
        (fields_in true set.selections) }
{}

/// Paths and the errors of a build are equal exactly where they are one without the locations of names.
/// GraphQL specification of October 2021, sections 2.2 to 2.8.
pub fn equality_of_build_errors()
    ensures definition_name { ComparesBy ⟦<ExecutableDefinitionName as PartialEq>⟧.eq bare_root }
    ensures path { ComparesBy ⟦<SelectionPath as PartialEq>⟧.eq bare_path }
    ensures build_error { ComparesBy ⟦<BuildError as PartialEq>⟧.eq bare_build_error }
{}

/// Each clone of an error of a build is the original, with every location in it.
///
/// The `Clone` of paths says so itself.
pub fn clones_of_build_errors_are_exact()
    ensures { IsExact ⟦<BuildError as Clone>⟧.is_clone }
{}
