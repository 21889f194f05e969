//! Laws of walks, for those who build on what a walk gives. Each law is a function that does nothing: a proof
//! cites it by a call.
//!
//! `F` stands for the fields, whatever they are.
ghost use Rattle.std.specs.Prelude.{◌≡◌, ◌≤◌, ◌+◌, ◌*◌, ◌↔◌, ◌∷◌, [], ℕ, List, Some, true, codes};
ghost use Rattle.std.specs.List.Sorted.{IsPermutation};
ghost use Rattle.apollo_walks.specs.Selections.{Selections, Fragments, Names, no_names, fragment_of};
ghost use Rattle.apollo_walks.specs.Reachable.{Among, Reachable, AreReachable, IsClosed, IsReached};
ghost use Rattle.apollo_walks.specs.ToCome.{ToCome, IsToCome};
ghost use Rattle.apollo_walks.specs.WalkOrder.{Order};
ghost use Rattle.apollo_walks.specs.TurnByTurn.{AreTurnByTurn, IsAllToCome};
ghost use Rattle.apollo_walks.specs.Turns.{AreAllTurns, AreWithinTurns, turns_in_reach, selections_in_reach};
ghost use Rattle.apollo_walks.specs.Whole.{IsWalk};
ghost use Rattle.apollo_walks.specs.WorkedWalk.{worked_start, worked_first, worked_fragments};

/// There is a walk over any selections, cyclic ones too. It gives each field that is reached exactly as often
/// as it stands there, in the order of walks. GraphQL specification of October 2021, sections 2.8 and 6.3.2.
pub fn walks_reach_each_field_once<F>()
    ensures { (fragments : Fragments F) (s : Selections F) → (fields : List F) × IsWalk fragments s fields }
{}

/// The order of walks leaves no choice: from the same opened names, the same selections give the same fields,
/// and open the same names.
#[tactic(auto, using(crate::proofs::Orders::order_determined))]
pub fn walks_have_one_order<F>()
    ensures { (fragments : Fragments F) (before : Names) (s : Selections F) (fs gs : List F)
        (ms ns : List (List ℕ))
        → Order fragments before s fs ms → Order fragments before s gs ns → (fs ≡ gs) × (ms ≡ ns) }
{}

/// Fields in the order of walks, from no opened name, are those of a whole walk.
#[tactic(auto, using(crate::proofs::Whole::order_walk))]
pub fn fields_in_order_are_a_walk<F>()
    ensures { (fragments : Fragments F) (opened : List (List ℕ)) (s : Selections F) (fields : List F)
        → Order fragments no_names s fields opened → IsWalk fragments s fields }
{}

/// A walk gives the fields that stand in the selections or in a fragment that they lead to, and no others.
pub fn walks_give_what_is_reached<F>()
    ensures { (fragments : Fragments F) (s : Selections F) (fields : List F) (f : F)
        → IsWalk fragments s fields → Among f fields ↔ IsReached fragments s f }
{}

/// Take any set that has the defined names which are spread in selections. Let it have, with each fragment in
/// it, those which are spread in that fragment. The names that the selections lead to are in that set.
#[tactic(auto, using(crate::proofs::Reached::reachable_within))]
pub fn reachable_names_are_the_fewest<F>()
    ensures { (fragments : Fragments F) (s : Selections F) (set : Names) → IsClosed fragments s set
        → (n : List ℕ) → Reachable fragments s n → set n ≡ true }
{}

/// A walk opens exactly the names that its selections lead to, each once, and each of these has a fragment.
#[tactic(auto, using(crate::proofs::Whole::order_reaches, crate::proofs::Whole::reach_found))]
pub fn walks_open_what_is_reached<F>()
    ensures opens { (fragments : Fragments F) (s : Selections F) (fields : List F) (opened : List (List ℕ))
        → Order fragments no_names s fields opened → AreReachable fragments s opened }
    ensures defined { (fragments : Fragments F) (s : Selections F) (n : List ℕ) → Reachable fragments s n
        → (set : Selections F) × (fragment_of fragments n ≡ Some set) }
{}

/// What is to come of a walk that has some lists open leaves no choice, and comes turn by turn. An empty list
/// is closed. A field is given, and what is below it opened. The list of an inline fragment is opened. A
/// spread is passed over where its name is opened or has no fragment, and else opens both. There is a turn
/// left while a list is open. A walk begins with one list, and then all of it is to come.
pub fn walks_go_turn_by_turn<F>()
    ensures some { (fragments : Fragments F) (before : Names) (lists : List (Selections F))
        → (x : ToCome F) × IsToCome fragments before lists x }
    ensures one { (fragments : Fragments F) (before : Names) (lists : List (Selections F)) (x y : ToCome F)
        → IsToCome fragments before lists x → IsToCome fragments before lists y → x ≡ y }
    ensures turns { (fragments : Fragments F) (before : Names) → AreTurnByTurn fragments before }
    ensures begins { (fragments : Fragments F) (s : Selections F) (x : ToCome F)
        → IsToCome fragments no_names (s ∷ []) x → IsAllToCome fragments s x }
{}

/// The turns of a walk over any selections. They are one, one for each fragment that is reached, and those of
/// the selections and of each of these fragments. They are at most two for each selection in reach, and one.
pub fn walks_take_few_turns<F>()
    ensures all { (fragments : Fragments F) (s : Selections F) → (turns : ℕ) × AreAllTurns fragments s turns }
    ensures few { (fragments : Fragments F) (s : Selections F) (turns : ℕ) → AreAllTurns fragments s turns
        → AreWithinTurns fragments s turns }
{}

/// The names that selections lead to are one list but for their order. So the turns of a walk over them are
/// one number. It is at most two for each selection in reach, and one.
pub fn reachable_names_are_one_list<F>()
    ensures names { (fragments : Fragments F) (s : Selections F) (ms ns : List (List ℕ))
        → AreReachable fragments s ms → AreReachable fragments s ns → IsPermutation ms ns }
    ensures turns { (fragments : Fragments F) (s : Selections F) (m n : ℕ) → AreAllTurns fragments s m
        → AreAllTurns fragments s n → m ≡ n }
    ensures few { (fragments : Fragments F) (s : Selections F) (ns : List (List ℕ))
        → AreReachable fragments s ns
        → turns_in_reach fragments s ns ≤ 2 * selections_in_reach fragments s ns + 1 }
{}

/// Worked walks over fragments that spread one another: from outside, and from one of them, which is opened
/// again.
pub fn worked_walks()
    ensures outside { Order worked_fragments no_names worked_start (codes "b" ∷ codes "a" ∷ codes "c" ∷ [])
        (codes "F" ∷ codes "G" ∷ []) }
    ensures turns_outside { turns_in_reach worked_fragments worked_start (codes "F" ∷ codes "G" ∷ []) ≡ 13 }
    ensures selections_outside { selections_in_reach worked_fragments worked_start
        (codes "F" ∷ codes "G" ∷ []) ≡ 8 }
    ensures inside { Order worked_fragments no_names worked_first (codes "a" ∷ codes "c" ∷ codes "b"
        ∷ codes "a" ∷ codes "c" ∷ []) (codes "G" ∷ codes "F" ∷ []) }
{}
