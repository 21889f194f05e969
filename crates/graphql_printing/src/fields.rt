//! The heads of fields: GraphQL specification of October 2021, sections 2.5 to 2.7.
ghost use Rattle.std.specs.Prelude.{◌≡◌, IfOk, nat_lt};
ghost use Rattle.std.specs.Fmt.{WritesOnOk};
ghost use Rattle.graphql_printing.specs.Fields.{argument_lines, field_head, field_name_text, short_head};
ghost use Rattle.graphql_printing.specs.Widths.{width};

use crate::arguments::write_arguments;
use crate::lists::write_on_lines;
use crate::values::write_label;
use crate::widths::Width;
use graphql_ast::directive::Argument;
use graphql_nodes::name::Name;
use graphql_nodes::node::Node;
use std::fmt;
use std::fmt::{Formatter, Write};

/// Writes a field's alias, name and arguments, which stand further in by so many blanks. The arguments stand
/// one a line where all take more than 80 UTF-16 units in one line.
pub fn write_field_head<W: Write>(
    f: &mut Formatter<W>,
    alias: &Option<Name>,
    name: &Name,
    arguments: &[Node<Argument>],
    indent: usize,
) -> fmt::Result
    ensures { WritesOnOk W.write_str_gives f.old result (field_head indent alias.now name.now arguments.now)
        f.new }
{
    if arguments.is_empty() {
        return write_field_name(f, alias, name);
    }
    if is_long(alias, name, arguments)? {
        write_field_name(f, alias, name)?;
        write_argument_lines(f, arguments, indent)
    } else {
        write_short_head(f, alias, name, arguments)
    }
}

/// Whether a field's alias, name and arguments take more than 80 UTF-16 units in one line.
fn is_long(
    alias: &Option<Name>,
    name: &Name,
    arguments: &[Node<Argument>],
) -> Result<bool, fmt::Error>
    ensures { IfOk result (λ long. long ≡ nat_lt 80 (width (short_head alias.now name.now arguments.now))) }
{
    let mut f = Formatter::new(Width { units: 0 });
    write_short_head(&mut f, alias, name, arguments)?;
    let width = f.into_inner();
    Ok(width.units > 80)
}

fn write_short_head<W: Write>(
    f: &mut Formatter<W>,
    alias: &Option<Name>,
    name: &Name,
    arguments: &[Node<Argument>],
) -> fmt::Result
    ensures { WritesOnOk W.write_str_gives f.old result (short_head alias.now name.now arguments.now) f.new }
{
    write_field_name(f, alias, name)?;
    write_arguments(f, arguments)
}

fn write_field_name<W: Write>(
    f: &mut Formatter<W>,
    alias: &Option<Name>,
    name: &Name,
) -> fmt::Result
    ensures { WritesOnOk W.write_str_gives f.old result (field_name_text alias.now name.now) f.new }
{
    match alias {
        Some(alias) => {
            write_label(f, alias)?;
            f.write_str(name.as_str())
        }
        None => f.write_str(name.as_str()),
    }
}

/// Writes arguments one a line, or nothing where there is none. The error is a sink's, or too many blanks.
fn write_argument_lines<W: Write>(
    f: &mut Formatter<W>,
    arguments: &[Node<Argument>],
    indent: usize,
) -> fmt::Result
    ensures { WritesOnOk W.write_str_gives f.old result (argument_lines indent arguments.now) f.new }
{
    write_on_lines(f, "(", ")", arguments, indent)
}
