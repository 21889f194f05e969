//! Which fields stand in selections, and which fragments are spread there, by the kind of the first one:
//! GraphQL specification of October 2021, sections 2.4 to 2.8.
ghost use Rattle.std.specs.Prelude.{◌≡◌, Bool, List, [], ◌∷◌, ◌++◌};
ghost use Rattle.graphql_nodes.specs.NodeView.{NodeView};
ghost use Rattle.apollo_executable.specs.Walks.FieldsIn.{fields_in};
ghost use Rattle.apollo_executable.specs.Walks.Plain.{below_of};
ghost use Rattle.apollo_executable.specs.Walks.SpreadsIn.{spreads_in};
ghost use Rattle.apollo_executable.specs.declared.selection.Selection.TheVariants as variant;

use crate::selection::{Field, FragmentSpread, InlineFragment, Selection};

/// The fields that stand in selections, by the kind of the first one. A field stands there itself, then those
/// below it, where walks look there. A spread has none, whatever its fragment has. An inline fragment has
/// those of its own set. Then come those of the other selections. Those of one list behind another come
/// behind those of the other.
pub fn fields_by_kind_of_selection()
    ensures none { (deep : Bool) → fields_in deep [] ≡ [] }
    ensures field { (deep : Bool) (n : NodeView Field) (others : List Selection)
        → fields_in deep (variant.Field n ∷ others)
        ≡ n ∷ (fields_in deep (below_of deep n.value) ++ fields_in deep others) }
    ensures fragment_spread { (deep : Bool) (n : NodeView FragmentSpread) (others : List Selection)
        → fields_in deep (variant.FragmentSpread n ∷ others) ≡ fields_in deep others }
    ensures inline_fragment { (deep : Bool) (n : NodeView InlineFragment) (others : List Selection)
        → fields_in deep (variant.InlineFragment n ∷ others) ≡ fields_in deep n.value.selection_set.selections
        ++ fields_in deep others }
    ensures joined { (deep : Bool) (first others : List Selection) → fields_in deep (first ++ others)
        ≡ fields_in deep first ++ fields_in deep others }
{}

/// The names that are spread in selections, by the kind of the first one. At a field they are those below it,
/// where walks look there. At a spread they are its own, and none of its fragment's. At an inline fragment
/// they are those of its own set. Then come those of the other selections. Those of one list behind another
/// come behind those of the other.
pub fn spreads_by_kind_of_selection()
    ensures none { (deep : Bool) → spreads_in deep [] ≡ [] }
    ensures field { (deep : Bool) (n : NodeView Field) (others : List Selection)
        → spreads_in deep (variant.Field n ∷ others) ≡ spreads_in deep (below_of deep n.value)
        ++ spreads_in deep others }
    ensures fragment_spread { (deep : Bool) (n : NodeView FragmentSpread) (others : List Selection)
        → spreads_in deep (variant.FragmentSpread n ∷ others) ≡ n.value.fragment_name.text
        ∷ spreads_in deep others }
    ensures inline_fragment { (deep : Bool) (n : NodeView InlineFragment) (others : List Selection)
        → spreads_in deep (variant.InlineFragment n ∷ others)
        ≡ spreads_in deep n.value.selection_set.selections ++ spreads_in deep others }
    ensures joined { (deep : Bool) (first others : List Selection) → spreads_in deep (first ++ others)
        ≡ spreads_in deep first ++ spreads_in deep others }
{}
