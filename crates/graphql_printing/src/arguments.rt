//! Arguments and directives: GraphQL specification of October 2021, sections 2.6 and 2.12.
ghost use Rattle.std.specs.Fmt.{WritesOnOk};
ghost use Rattle.graphql_printing.specs.Texts.{argument_text, arguments_text, directive_text};
ghost use Rattle.graphql_printing.specs.Texts.{directives_text};

use crate::lists::{Written, write_each_behind, write_enclosed};
use crate::values::{write_label, write_value};
use graphql_ast::directive::{Argument, Directive};
use graphql_nodes::node::Node;
use std::fmt;
use std::fmt::{Formatter, Write};

impl Written for Node<Argument> {
    ghost text = { λ indent argument. argument_text argument };

    fn write<W: Write>(&self, f: &mut Formatter<W>, _indent: usize) -> fmt::Result {
        write_label(f, &self.name)?;
        write_value(f, &self.value)
    }
}

/// Writes arguments in one line, or nothing where there is none.
pub fn write_arguments<W: Write>(f: &mut Formatter<W>, arguments: &[Node<Argument>]) -> fmt::Result
    ensures { WritesOnOk W.write_str_gives f.old result (arguments_text arguments.now) f.new }
{
    write_enclosed(f, "(", ", ", ")", arguments, 0)
}

impl Written for Node<Directive> {
    ghost text = { λ indent directive. directive_text directive };

    fn write<W: Write>(&self, f: &mut Formatter<W>, _indent: usize) -> fmt::Result {
        f.write_str("@")?;
        f.write_str(self.name.as_str())?;
        write_arguments(f, self.arguments.as_slice())
    }
}

/// Writes directives, each behind a blank.
pub fn write_directives<W: Write>(
    f: &mut Formatter<W>,
    directives: &[Node<Directive>],
) -> fmt::Result
    ensures { WritesOnOk W.write_str_gives f.old result (directives_text directives.now) f.new }
{
    write_each_behind(f, " ", directives, 0)
}
