//! Laws of the definitions, for those who build on them; what `==` answers at each type of this crate, and
//! what its clones are.
ghost use Rattle.std.specs.Prelude.{◌≡◌, Bool, true, not, List, Option, map, filter, is_some};
ghost use Rattle.std.specs.List.{All, IsDistinct, enumerate_from, find};
ghost use Rattle.std.specs.Cmp.{IsEquivalence};
ghost use Rattle.graphql_nodes.specs.Clones.{IsExact};
ghost use Rattle.graphql_nodes.specs.Comparing.{ComparesBy, members_by_text};
ghost use Rattle.apollo_component.specs.BareComponents.{bare_component, bare_component_name, bare_directives};
ghost use Rattle.apollo_component.specs.BareComponents.{bare_origin};
ghost use Rattle.apollo_component.specs.Extensions.{drawn_from, next_number, number_of, same_id};
ghost use Rattle.apollo_component.specs.FirstOfEach.{first_of_each, is_later, later_of_each};

use crate::component::{Component, ComponentName};
use crate::directive_list::DirectiveList;
use crate::extension::{ComponentOrigin, ExtensionId, ExtensionSource, IdsSpent};
use graphql_nodes::collections::key_set::KeySet;
use graphql_nodes::source::SourceSpan;

/// Each place of a list has one of the first elements or one of the later ones. The first of each are the
/// elements at the places that have no later one, in order. And each later one is the same as one of the
/// first, which is found among them.
pub fn each_is_first_or_later<T>()
    ensures firsts { (same : T → T → Bool) (xs : List T) → IsEquivalence same
        → first_of_each same xs
        ≡ map (λ p. p.1) (filter (λ p. not (is_later same xs p)) (enumerate_from 0 xs)) }
    ensures kept { (same : T → T → Bool) (xs : List T) → IsEquivalence same
        → All (λ x. is_some (find (same x) (first_of_each same xs)) ≡ true) (later_of_each same xs) }
{}

/// The identities that one source gives, each with the next number, are distinct, wherever the extensions
/// stand. What [`ExtensionSource::draw`] answers is the first of them, and those after it are given by the
/// source that it leaves.
pub fn drawn_identities_are_distinct()
    ensures { (source : ExtensionSource) (locations : List (Option SourceSpan))
        → IsDistinct same_id (drawn_from (next_number source) locations) }
{}

/// Components are equal exactly where their values are: origins and locations are left out.
pub fn equality_of_components<T: PartialEq>()
    ensures { (f : T → T) → ComparesBy T.eq f
        → ComparesBy ⟦<Component<T> as PartialEq>⟧.eq (bare_component f) }
{}

/// Component names are equal where their texts are, and sets of them where they have the same texts. Lists of
/// directives are equal where the directives are, in order: origins and locations are left out. Identities of
/// extensions are equal by their numbers, and origins where both are the definition or extensions of one
/// number.
pub fn equality_of_names_and_origins()
    ensures component_name { ComparesBy ⟦<ComponentName as PartialEq>⟧.eq bare_component_name }
    ensures key_set { ComparesBy ⟦<KeySet<ComponentName> as PartialEq>⟧.eq (members_by_text (λ c. c.name)) }
    ensures directive_list { ComparesBy ⟦<DirectiveList as PartialEq>⟧.eq bare_directives }
    ensures extension_id { ComparesBy ⟦<ExtensionId as PartialEq>⟧.eq number_of }
    ensures component_origin { ComparesBy ⟦<ComponentOrigin as PartialEq>⟧.eq bare_origin }
    ensures ids_spent { ComparesBy ⟦<IdsSpent as PartialEq>⟧.eq (λ error. error) }
{}

/// Each clone of an origin or an identity is the original, with its location. So is each clone of a list of
/// directives, with all locations and origins in it.
///
/// The `Clone` of components and of their names says so itself.
pub fn clones_are_exact()
    ensures directive_list { IsExact ⟦<DirectiveList as Clone>⟧.is_clone }
    ensures extension_id { IsExact ⟦<ExtensionId as Clone>⟧.is_clone }
    ensures component_origin { IsExact ⟦<ComponentOrigin as Clone>⟧.is_clone }
    ensures ids_spent { IsExact ⟦<IdsSpent as Clone>⟧.is_clone }
{}
