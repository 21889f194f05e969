//! Reading items with a sign between them, and one before the first or not.
ghost use Rattle.std.specs.Prelude.{◌≡◌};
ghost use Rattle.graphql_nodes.specs.declared.source.FileId.{FileId as File};
ghost use Rattle.graphql_grammar.specs.Pieces.{Adds, Piece, behind_sign, many, mapped};
ghost use Rattle.graphql_grammar.specs.Pieces.{optional, separated, seq, sign};
ghost use Rattle.graphql_grammar.specs.Standing.{standing};
ghost use Rattle.graphql_grammar.proofs.PieceLaws.{Lawful};
ghost use Rattle.graphql_text.specs.Seen.{seen_flag};
ghost use Rattle.graphql_text.specs.Reads.{Reads, ReadsSeen};

use crate::reading::target::{Reading, Target, sign};
use graphql_grammar::kind::Kind;
use graphql_grammar::words::Words;
use graphql_nodes::collections::items::Items;

/// What stands between signs.
pub(crate) trait Single: Drop {
    /// What spells one, and how it is read.
    ghost piece: { File → Piece Self };

    /// Reads one.
    fn read(target: Target, words: &mut Words<'_>) -> Reading<Self>
        ensures { Reads (piece target.file) words.old words.new result };

    /// What is read is spelled so, and the other way round.
    ghost law: { (file : File) → Lawful (piece file) };
}

/// Takes a sign, if it is there; whether it was.
pub(crate) fn optional_sign(words: &mut Words<'_>, kind: Kind) -> Reading<bool>
    ensures { ReadsSeen seen_flag (optional (sign kind)) words.old words.new result }
{
    if !words.next_is(kind) {
        return Ok(false);
    }
    sign(words, kind)?;
    Ok(true)
}

/// Reads what stands behind a sign.
fn behind<S: Single>(target: Target, words: &mut Words<'_>, separator: Kind) -> Reading<S>
    ensures { Reads (mapped behind_sign (seq (sign separator) (S.piece target.file)))
        words.old words.new result }
{
    sign(words, separator)?;
    S::read(target, words)
}

/// Reads what stands behind further signs, and adds it.
fn push_separated<S: Single>(
    target: Target,
    words: &mut Words<'_>,
    separator: Kind,
    items: &mut Items<S>,
) -> Reading<()>
    ensures { Adds result items.old items.new (standing words.new)
        ((many (mapped behind_sign (seq (sign separator) (S.piece target.file)))).read
        (standing words.old)) }
{
    'items: while words.next_is(separator) {
        let next = behind::<S>(target, words, separator)?;
        items.push(next)?;
    }
    Ok(())
}

/// Reads one or more, with a sign between them, and one before the first or not.
pub(crate) fn separated<S: Single>(
    target: Target,
    words: &mut Words<'_>,
    separator: Kind,
) -> Reading<Items<S>>
    ensures { Reads (separated separator (S.piece target.file)) words.old words.new result }
{
    optional_sign(words, separator)?;
    one_or_more!(
        target,
        S::read(target, words),
        items,
        push_separated(target, words, separator, &mut items)
    )
}
