//! Selections as text.
ghost use Rattle.std.specs.Prelude.{◌≡◌, ◌++◌, IfOk, OnOk, ◌+◌, string_bytes};
ghost use Rattle.bench_notation.specs.SelectionText.{field_text, head_text, inline_text, last_text};
ghost use Rattle.bench_notation.specs.SelectionText.{selection_text, selections_text, spread_text};

use crate::pushing::Pushed;
use graphql_ast::selection::{Field, FragmentSpread, InlineFragment, Selection};
use graphql_nodes::name::Name;
use std::alloc::{AllocError, Global};

/// Adds the lines of these selections, which stand at this depth, in order, each before those in it. The
/// error is out of memory, after which nothing is said of the text: drop it.
#[cycle(push_selections)]
pub fn push_selections(
    alloc: Global,
    text: &mut String,
    selections: &[Selection],
    depth: usize,
) -> Pushed
    ensures { OnOk result (string_bytes text.new
        ≡ string_bytes text.old ++ selections_text depth selections.now) }
{
    for selection in selections {
        push_selection(alloc, text, selection, depth)?;
    }
    Ok(())
}

#[cycle(push_selections)]
fn push_selection(alloc: Global, text: &mut String, selection: &Selection, depth: usize) -> Pushed
    ensures { OnOk result (string_bytes text.new
        ≡ string_bytes text.old ++ selection_text selection.now depth) }
{
    match selection {
        Selection::Field(field) => push_field(alloc, text, field, depth),
        Selection::FragmentSpread(spread) => push_spread(alloc, text, spread, depth),
        Selection::InlineFragment(fragment) => push_inline(alloc, text, fragment, depth),
    }
}

#[cycle(push_selections)]
fn push_field(alloc: Global, text: &mut String, field: &Field, depth: usize) -> Pushed
    ensures { OnOk result (string_bytes text.new ≡ string_bytes text.old ++ field_text field.now depth) }
{
    push_head(alloc, text, depth, "field ")?;
    text.push_str(field.name.as_str())?;
    push_last(text, &field.alias)?;
    push_selections(alloc, text, field.selection_set.as_slice(), below(depth)?)
}

fn push_spread(alloc: Global, text: &mut String, spread: &FragmentSpread, depth: usize) -> Pushed
    ensures { OnOk result (string_bytes text.new ≡ string_bytes text.old ++ spread_text spread.now depth) }
{
    push_head(alloc, text, depth, "spread ")?;
    text.push_str(spread.fragment_name.as_str())?;
    text.push_str("\n")
}

#[cycle(push_selections)]
fn push_inline(alloc: Global, text: &mut String, fragment: &InlineFragment, depth: usize) -> Pushed
    ensures { OnOk result (string_bytes text.new ≡ string_bytes text.old ++ inline_text fragment.now depth) }
{
    push_head(alloc, text, depth, "inline")?;
    push_last(text, &fragment.type_condition)?;
    push_selections(
        alloc,
        text,
        fragment.selection_set.as_slice(),
        below(depth)?,
    )
}

/// The word of a selection, its depth and what it is.
fn push_head(alloc: Global, text: &mut String, depth: usize, kind: &str) -> Pushed
    ensures { OnOk result (string_bytes text.new ≡ string_bytes text.old ++ head_text depth kind.now) }
{
    text.push_str("sel ")?;
    text.push_str(depth.to_string(alloc)?.as_str())?;
    text.push_str(" ")?;
    text.push_str(kind)
}

/// The last word of a line, if there is one, and the end of the line.
fn push_last(text: &mut String, word: &Option<Name>) -> Pushed
    ensures { OnOk result (string_bytes text.new ≡ string_bytes text.old ++ last_text word.now) }
{
    if let Some(word) = word {
        text.push_str(" ")?;
        text.push_str(word.as_str())?;
    }
    text.push_str("\n")
}

/// The next depth. There is not memory enough for one that a `usize` can't say.
fn below(depth: usize) -> Result<usize, AllocError>
    ensures { IfOk result (λ next. next ≡ depth + 1) }
{
    depth.checked_add(1).ok_or(AllocError)
}
