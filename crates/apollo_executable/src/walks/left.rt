//! What is left of a walk, as a law for the functions that take its turns.
ghost use Rattle.std.specs.Prelude.{Bool, List};
ghost use Rattle.apollo_walks.specs.Selections.{Names};
ghost use Rattle.apollo_executable.specs.Walks.Left.{whole_walk};
ghost use Rattle.apollo_executable.specs.Walks.LeftByTurn.{IsLeftByTurn, IsWholeWalk};

use crate::document::ExecutableDocument;
use crate::selection::{Field, Selection, SelectionSet};
use apollo_walks::laws::{walks_go_turn_by_turn, walks_open_what_is_reached, walks_take_few_turns};
use graphql_nodes::node::Node;

/// What is left of a walk comes turn by turn, and before its first turn that is a whole walk.
pub(crate) fn walks_are_left_by_turn()
    ensures turns { (deep : Bool) (document : ExecutableDocument) (names : Names)
        (lists : List (List Selection)) → IsLeftByTurn deep document names lists }
    ensures whole { (deep : Bool) (document : ExecutableDocument) (set : SelectionSet)
        → IsWholeWalk deep document set (whole_walk deep document set) }
{
    walks_go_turn_by_turn::<Node<Field>>();
    walks_open_what_is_reached::<Node<Field>>();
    walks_take_few_turns::<Node<Field>>();
}
