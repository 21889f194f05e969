//! Selections: GraphQL specification of October 2021, sections 2.4 to 2.8.
ghost use Rattle.std.specs.Fmt.{WritesOnOk};
ghost use Rattle.graphql_printing.specs.Selections.{condition_text, field_text, inline_text, selection_text};
ghost use Rattle.graphql_printing.specs.Selections.{selections_behind, spread_text};

use crate::arguments::write_directives;
use crate::fields::write_field_head;
use crate::layout::{further_in, write_line_end};
use graphql_ast::selection::{Field, FragmentSpread, InlineFragment, Selection};
use graphql_nodes::name::Name;
use std::fmt;
use std::fmt::{Formatter, Write};

/// Writes selections of what stands further in by so many blanks, each on a line of its own, between an
/// opening and its `}`. Where there is no selection, it writes nothing. The error is a sink's, or too many
/// blanks.
#[cycle(write_selections)]
pub fn write_selections<W: Write>(
    f: &mut Formatter<W>,
    opening: &str,
    selections: &[Selection],
    indent: usize,
) -> fmt::Result
    ensures { WritesOnOk W.write_str_gives f.old result (selections_behind opening.now indent selections.now)
        f.new }
{
    let [first, others @ ..] = selections else {
        return Ok(());
    };
    let inner = further_in(indent)?;
    f.write_str(opening)?;
    write_line_end(f, inner)?;
    write_selection(f, first, inner)?;
    for selection in others {
        write_line_end(f, inner)?;
        write_selection(f, selection, inner)?;
    }
    write_line_end(f, indent)?;
    f.write_str("}")
}

#[cycle(write_selections)]
fn write_selection<W: Write>(
    f: &mut Formatter<W>,
    selection: &Selection,
    indent: usize,
) -> fmt::Result
    ensures { WritesOnOk W.write_str_gives f.old result (selection_text selection.now indent) f.new }
{
    match selection {
        Selection::Field(field) => write_field(f, field, indent),
        Selection::FragmentSpread(spread) => write_spread(f, spread),
        Selection::InlineFragment(fragment) => write_inline(f, fragment, indent),
    }
}

#[cycle(write_selections)]
fn write_field<W: Write>(f: &mut Formatter<W>, field: &Field, indent: usize) -> fmt::Result
    ensures { WritesOnOk W.write_str_gives f.old result (field_text field.now indent) f.new }
{
    let arguments = field.arguments.as_slice();
    write_field_head(f, &field.alias, &field.name, arguments, indent)?;
    write_directives(f, field.directives.0.as_slice())?;
    write_selections(f, " {", field.selection_set.as_slice(), indent)
}

fn write_spread<W: Write>(f: &mut Formatter<W>, spread: &FragmentSpread) -> fmt::Result
    ensures { WritesOnOk W.write_str_gives f.old result (spread_text spread.now) f.new }
{
    f.write_str("...")?;
    f.write_str(spread.fragment_name.as_str())?;
    write_directives(f, spread.directives.0.as_slice())
}

#[cycle(write_selections)]
fn write_inline<W: Write>(
    f: &mut Formatter<W>,
    fragment: &InlineFragment,
    indent: usize,
) -> fmt::Result
    ensures { WritesOnOk W.write_str_gives f.old result (inline_text fragment.now indent) f.new }
{
    f.write_str("...")?;
    write_condition(f, &fragment.type_condition)?;
    write_directives(f, fragment.directives.0.as_slice())?;
    write_selections(f, " {", fragment.selection_set.as_slice(), indent)
}

/// Writes the type that an inline fragment is on, behind a blank, or nothing where it has none.
fn write_condition<W: Write>(f: &mut Formatter<W>, condition: &Option<Name>) -> fmt::Result
    ensures { WritesOnOk W.write_str_gives f.old result (condition_text condition.now) f.new }
{
    match condition {
        Some(name) => {
            f.write_str(" on ")?;
            f.write_str(name.as_str())
        }
        None => Ok(()),
    }
}
