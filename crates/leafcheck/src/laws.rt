//! Which fields stand in selections with their places; what `==` answers at faults, and that clones are the
//! originals.
//!
//! Each law is a function that does nothing but cite others. A proof cites it by a call, and finds its
//! clauses there.
ghost use Rattle.std.specs.Prelude.{◌≡◌, true, List, [], ◌∷◌, ◌++◌, map};
ghost use Rattle.graphql_nodes.specs.Clones.{IsExact};
ghost use Rattle.graphql_nodes.specs.Comparing.{ComparesBy};
ghost use Rattle.graphql_nodes.specs.NameView.{NameView};
ghost use Rattle.graphql_nodes.specs.NodeView.{NodeView};
ghost use Rattle.apollo_executable.specs.Walks.FieldsIn.{fields_in};
ghost use Rattle.apollo_executable.specs.declared.selection.Selection.TheVariants as variant;
ghost use Rattle.leafcheck.specs.BareFaults.{bare_fault};
ghost use Rattle.leafcheck.specs.PlacedFields.{placed, placed_fields};

use crate::leaf_fault::{LeafFault, LeafKind};
use apollo_document::selection_laws::equality_of_build_errors;
use apollo_document::selection_path::SelectionPath;
use apollo_executable::selection::{Field, FragmentSpread, InlineFragment, Selection};
use graphql_nodes::laws::{equality_of_locations_and_kinds, equality_of_names};

/// The fields that stand in selections with their places, by the kind of the first selection. A field stands
/// there itself, from the type of its set and with its key last in its path. Then come those of its own set.
/// A spread has none. An inline fragment has those of its own set, from the type of that and with no key
/// more. Then come those of the other selections. Those of one list behind another come behind those of the
/// other. Without their places, they are those that stand there. GraphQL specification of October 2021,
/// sections 2.4 to 2.8.
pub fn fields_with_places()
    ensures none { (ty : NameView) (path : SelectionPath) → placed_fields ty path [] ≡ [] }
    ensures field { (ty : NameView) (path : SelectionPath) (n : NodeView Field) (others : List Selection)
        → placed_fields ty path (variant.Field n ∷ others)
        ≡ placed ty path n ∷
        (placed_fields n.value.selection_set.ty (placed ty path n).path n.value.selection_set.selections
        ++ placed_fields ty path others) }
    ensures fragment_spread { (ty : NameView) (path : SelectionPath) (n : NodeView FragmentSpread)
        (others : List Selection) → placed_fields ty path (variant.FragmentSpread n ∷ others)
        ≡ placed_fields ty path others }
    ensures inline_fragment { (ty : NameView) (path : SelectionPath) (n : NodeView InlineFragment)
        (others : List Selection) → placed_fields ty path (variant.InlineFragment n ∷ others)
        ≡ placed_fields n.value.selection_set.ty path n.value.selection_set.selections
        ++ placed_fields ty path others }
    ensures joined { (ty : NameView) (path : SelectionPath) (first others : List Selection)
        → placed_fields ty path (first ++ others) ≡ placed_fields ty path first
        ++ placed_fields ty path others }
    ensures fields { (ty : NameView) (path : SelectionPath) (selections : List Selection)
        → map (λ f. f.node) (placed_fields ty path selections) ≡ fields_in true selections }
{}

/// Kinds are equal exactly where they are one, and faults exactly where they are one without the locations of
/// names.
pub fn equality_of_faults()
    ensures kind { ComparesBy ⟦<LeafKind as PartialEq>⟧.eq (λ kind. kind) }
    ensures fault { ComparesBy ⟦<LeafFault as PartialEq>⟧.eq bare_fault }
{
    equality_of_names();
    equality_of_locations_and_kinds();
    equality_of_build_errors();
}

/// Each clone of a fault is the original, with the locations of its names, and so is each clone of its kind.
pub fn clones_are_exact()
    ensures fault { IsExact ⟦<LeafFault as Clone>⟧.is_clone }
    ensures kind { IsExact ⟦<LeafKind as Clone>⟧.is_clone }
{}
