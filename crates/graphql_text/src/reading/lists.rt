//! Reading lists of items, all by the same loop.
ghost use Rattle.std.specs.Prelude.{◌≡◌, ℕ, Bool};
ghost use Rattle.graphql_nodes.specs.declared.source.FileId.{FileId as File};
ghost use Rattle.graphql_grammar.specs.Kinds.{Kinds};
ghost use Rattle.graphql_grammar.specs.Pieces.{Adds, Piece, Wrong, item, many, some};
ghost use Rattle.graphql_grammar.specs.Standing.{standing};
ghost use Rattle.graphql_grammar.proofs.PieceLaws.{Lawful};
ghost use Rattle.graphql_productions.specs.Nodes.{between, enclosed, optional_list};
ghost use Rattle.graphql_text.specs.Reads.{Reads, next_begins};

use crate::reading::target::{Reading, Target, sign};
use graphql_grammar::fault::{FaultKind, ReadError};
use graphql_grammar::kind::Kind;
use graphql_grammar::words::Words;
use graphql_nodes::collections::items::Items;

/// Items of lists, by their grammar.
pub(crate) trait Read: Drop {
    /// What spells an item, and how it is read.
    ghost piece: { File → Bool → ℕ → Piece Self };

    /// What an item begins with.
    ghost first: { Kinds };

    /// What is wrong where none does.
    ghost wrong: { Wrong };

    /// Whether an item begins with words of a kind.
    fn begins(kind: Kind) -> bool
        ensures { result ≡ first kind };

    /// What is wrong where no item begins.
    fn fault(words: &Words<'_>) -> FaultKind
        ensures { result ≡ wrong (standing words.now).left };

    /// Reads an item.
    fn read(target: Target, words: &mut Words<'_>) -> Reading<Self>
        ensures { Reads (piece target.file target.constant target.depth) words.old words.new result };

    /// What is read is spelled so, and the other way round.
    ghost law: { (file : File) (constant : Bool) (depth : ℕ)
        → Lawful (item first wrong (piece file constant depth)) };
}

/// Whether an item comes next.
fn comes_next<R: Read>(words: &Words<'_>) -> bool
    ensures { result ≡ next_begins R.first words.now }
{
    match words.next_kind() {
        Some(kind) => R::begins(kind),
        None => false,
    }
}

/// Reads an item, which has to be there.
fn read_item<R: Read>(target: Target, words: &mut Words<'_>) -> Reading<R>
    ensures { Reads (item R.first R.wrong (R.piece target.file target.constant target.depth))
        words.old words.new result }
{
    if !comes_next::<R>(words) {
        return Err(ReadError::Fault(R::fault(words)));
    }
    R::read(target, words)
}

/// Reads items, and adds them.
pub(crate) fn push_items<R: Read>(
    target: Target,
    words: &mut Words<'_>,
    items: &mut Items<R>,
) -> Reading<()>
    ensures { Adds result items.old items.new (standing words.new)
        ((many (item R.first R.wrong (R.piece target.file target.constant target.depth))).read
        (standing words.old)) }
{
    'items: while comes_next::<R>(words) {
        let next = read_item::<R>(target, words)?;
        items.push(next)?;
    }
    Ok(())
}

/// Reads one item or more.
pub(crate) fn some_items<R: Read>(target: Target, words: &mut Words<'_>) -> Reading<Items<R>>
    ensures { Reads (some (item R.first R.wrong (R.piece target.file target.constant target.depth)))
        words.old words.new result }
{
    one_or_more!(
        target,
        read_item::<R>(target, words),
        items,
        push_items(target, words, &mut items)
    )
}

/// Reads one item or more between two signs, which may be open.
fn between_items<R: Read>(
    inside: Target,
    words: &mut Words<'_>,
    opening: Kind,
    closing: Kind,
) -> Reading<Items<R>>
    ensures { Reads (between opening closing R.wrong
        (some (item R.first R.wrong (R.piece inside.file inside.constant inside.depth))))
        words.old words.new result }
{
    sign(words, opening)?;
    let items = some_items(inside, words)?;
    words.expect(closing, R::fault(words))?;
    Ok(items)
}

/// Reads one item or more between two signs.
#[tactic(auto, using(graphql_productions::proofs::NestedLemmas::none_nested, graphql_productions::proofs::NestedLemmas::one_nested))]
pub(crate) fn enclosed_items<R: Read>(
    target: Target,
    words: &mut Words<'_>,
    opening: Kind,
    closing: Kind,
) -> Reading<Items<R>>
    ensures { Reads (enclosed opening closing R.wrong target.depth
        (λ inside. some (item R.first R.wrong (R.piece target.file target.constant inside))))
        words.old words.new result }
{
    let inside = target.inside()?;
    between_items(inside, words, opening, closing)
}

/// Reads items between two signs, if the first is there.
pub(crate) fn optional_items<R: Read>(
    target: Target,
    words: &mut Words<'_>,
    opening: Kind,
    closing: Kind,
) -> Reading<Items<R>>
    ensures { Reads (optional_list opening closing R.wrong target.depth
        (λ inside. item R.first R.wrong (R.piece target.file target.constant inside)))
        words.old words.new result }
{
    optional_list!(
        target,
        words.next_is(opening),
        enclosed_items(target, words, opening, closing)
    )
}
