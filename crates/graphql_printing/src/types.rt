//! Types: GraphQL specification of October 2021, section 2.11.
ghost use Rattle.std.specs.Fmt.{WritesOnOk};
ghost use Rattle.graphql_printing.specs.Texts.{type_text};

use graphql_ast::type_reference::Type;
use std::fmt;
use std::fmt::{Formatter, Write};

/// Writes a type.
pub(crate) fn write_type<W: Write>(f: &mut Formatter<W>, ty: &Type) -> fmt::Result
    ensures { WritesOnOk W.write_str_gives f.old result (type_text ty.now) f.new }
{
    match ty {
        Type::Named(name) => f.write_str(name.as_str()),
        Type::NonNullNamed(name) => {
            f.write_str(name.as_str())?;
            f.write_str("!")
        }
        Type::List(element) => {
            f.write_str("[")?;
            write_type(f, element)?;
            f.write_str("]")
        }
        Type::NonNullList(element) => {
            f.write_str("[")?;
            write_type(f, element)?;
            f.write_str("]!")
        }
    }
}
