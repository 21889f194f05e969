//! What is so of counts of fields, for those who build on them.
//!
//! Each law is a function that does nothing. A proof cites it by a call, and finds its clauses there.
ghost use Rattle.std.specs.Prelude.{◌≡◌, ◌<◌, ℕ, true, List, [], ◌∷◌, map, sum_by, length};
ghost use Rattle.std.specs.List.{AllByRecursion, IsDistinct};
ghost use Rattle.graphql_nodes.specs.Clones.{IsExact};
ghost use Rattle.graphql_nodes.specs.Comparing.{ComparesBy};
ghost use Rattle.graphql_nodes.specs.NameView.{NameView};
ghost use Rattle.graphql_nodes.specs.NodeView.{NodeView};
ghost use Rattle.apollo_walks.specs.Selections.{none, field, spread, inline, fragment_of};
ghost use Rattle.apollo_walks.specs.Whole.{IsWalk};
ghost use Rattle.apollo_executable.specs.Walks.WalkView.{AreWalked};
ghost use Rattle.apollo_executable.specs.declared.document.ExecutableDocument.{ExecutableDocument};
ghost use Rattle.apollo_executable.specs.declared.selection.Field.{Field};
ghost use Rattle.apollo_executable.specs.declared.selection.FragmentSpread.{FragmentSpread};
ghost use Rattle.apollo_executable.specs.declared.selection.InlineFragment.{InlineFragment};
ghost use Rattle.apollo_executable.specs.declared.selection.Selection.{Selection};
ghost use Rattle.apollo_executable.specs.declared.selection.Selection.TheVariants as variant;
ghost use Rattle.apollo_executable.specs.declared.selection.SelectionSet.{SelectionSet};
ghost use Rattle.apollo_field_usage.specs.BareUsage.{bare_usage};
ghost use Rattle.apollo_field_usage.specs.Placed.{placed, placed_set, placed_fragment, placed_fragments};
ghost use Rattle.apollo_field_usage.specs.Reached.{reached};
ghost use Rattle.apollo_field_usage.specs.Usage.{Occurrence, same_coordinate, usage};

use crate::counting::FieldUsage;
use apollo_coordinate::laws::{clones_of_coordinates_are_exact, equality_of_coordinates};

/// What [`field_usage`](crate::counting::field_usage) counts is what walks over all fields give, with the
/// types of the sets. The fields are those of a whole walk (`walk`), and without the types they are what
/// [`collect_all`](apollo_executable::selection::SelectionSet::collect_all) answers (`fields`, `all`).
/// GraphQL specification of October 2021, sections 2.4 and 2.8.
pub fn field_usage_is_of_the_walk()
    ensures walk { (document : ExecutableDocument) (set : SelectionSet)
        → IsWalk (placed_fragments document) (placed_set set) (reached document set) }
    ensures fields { (document : ExecutableDocument) (set : SelectionSet)
        → AreWalked true document set (map (λ o. o.field) (reached document set)) }
    ensures all { (document : ExecutableDocument) (set : SelectionSet) (fields : List (NodeView Field))
        → AreWalked true document set fields → map (λ o. o.field) (reached document set) ≡ fields }
{}

/// The type of a field is that of the set in which it stands, by the kind of the first selection. A field has
/// the type of the set, and those below it have that of its own. A spread has none, whatever its fragment
/// has. Those of an inline fragment have the type of its own set, and those of a named fragment have that of
/// the fragment. GraphQL specification of October 2021, sections 2.4 to 2.8.
pub fn types_by_kind_of_selection()
    ensures none { (ty : NameView) → placed ty [] ≡ none }
    ensures field { (ty : NameView) (n : NodeView Field) (others : List Selection)
        → placed ty (variant.Field n ∷ others)
        ≡ field (record { ty = ty; field = n }) (placed_set n.value.selection_set) (placed ty others) }
    ensures fragment_spread { (ty : NameView) (n : NodeView FragmentSpread) (others : List Selection)
        → placed ty (variant.FragmentSpread n ∷ others)
        ≡ spread n.value.fragment_name.text (placed ty others) }
    ensures inline_fragment { (ty : NameView) (n : NodeView InlineFragment) (others : List Selection)
        → placed ty (variant.InlineFragment n ∷ others)
        ≡ inline (placed_set n.value.selection_set) (placed ty others) }
    ensures fragments { (document : ExecutableDocument) (n : List ℕ)
        → fragment_of (placed_fragments document) n ≡ placed_fragment document n }
{}

/// No coordinate has two usages, each count is one or more, and they are together as many as the fields.
pub fn each_field_is_counted_once()
    ensures apart { (fields : List Occurrence)
        → IsDistinct same_coordinate (map (λ u. u.coordinate) (usage fields)) }
    ensures some { (fields : List Occurrence) → AllByRecursion (λ u. 0 < u.count) (usage fields) }
    ensures all { (fields : List Occurrence) → sum_by (λ u. u.count) (usage fields) ≡ length fields }
{}

/// Usages are equal exactly where they are one without the locations of the names in their coordinates.
pub fn equality_of_usages()
    ensures { ComparesBy ⟦<FieldUsage as PartialEq>⟧.eq bare_usage }
{
    equality_of_coordinates();
}

/// Each clone of a usage is the original, with the locations of its names.
pub fn clones_are_exact()
    ensures { IsExact ⟦<FieldUsage as Clone>⟧.is_clone }
{
    clones_of_coordinates_are_exact();
}
