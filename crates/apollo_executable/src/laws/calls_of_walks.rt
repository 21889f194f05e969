//! What calls of `next` give of a walk: GraphQL specification of October 2021, sections 2.4, 2.8 and 6.3.2.
ghost use Rattle.std.specs.Prelude.{◌≡◌, ◌++◌, Bool, List, Option, None, Some, Err, true};
ghost use Rattle.std.specs.declared.alloc.AllocError.{AllocError};
ghost use Rattle.graphql_nodes.specs.NodeView.{NodeView};
ghost use Rattle.apollo_executable.specs.Walks.Calls.{HasGiven, IsWhole};
ghost use Rattle.apollo_executable.specs.Walks.NextItem.{Item, IsNext};
ghost use Rattle.apollo_executable.specs.Walks.WalkView.{WalkView, IsNewWalk, IsWithinTurns};
ghost use Rattle.apollo_executable.specs.declared.document.ExecutableDocument.{ExecutableDocument};
ghost use Rattle.apollo_executable.specs.declared.selection.Field.{Field};
ghost use Rattle.apollo_executable.specs.declared.selection.SelectionSet.{SelectionSet};

/// A walk by its calls, from a new one on, as `root_fields` and `all_fields` make it. At every moment, what
/// came and what is to come are together what was to come at first (`beginning`). At every moment the turns
/// are at most two for each selection in reach, and one (`turns`). A call that gives nothing ends it: then
/// what came is a whole walk, and the turns are all of it (`whole`). After that, or after the one error, that
/// memory ran out, each call gives nothing and leaves the walk as it is (`rests`).
#[tactic(auto, using(crate::proofs::Walking::CallLemmas::beginning))]
pub fn walks_by_their_calls()
    ensures beginning { (start now : WalkView) (fields : List (NodeView Field)) → HasGiven start fields now
        → fields ++ now.coming ≡ start.coming }
    ensures turns { (deep : Bool) (document : ExecutableDocument) (set : SelectionSet) (start now : WalkView)
        (fields : List (NodeView Field))
        → IsNewWalk deep document set start → HasGiven start fields now
        → IsWithinTurns deep document set now.taken }
    ensures whole { (deep : Bool) (document : ExecutableDocument) (set : SelectionSet)
        (start now end : WalkView) (fields : List (NodeView Field))
        → IsNewWalk deep document set start → HasGiven start fields now → IsNext now None end
        → IsWhole deep document set fields end }
    ensures rests { (end later : WalkView) (item : Option Item) → end.ended ≡ true → IsNext end item later
        → (item ≡ None) × (later ≡ end) }
    ensures ends { (now end : WalkView) → IsNext now None end → end.ended ≡ true }
    ensures stops { (now end : WalkView) (error : AllocError) → IsNext now (Some (Err error)) end
        → end.ended ≡ true }
{}
