//! Values: GraphQL specification of October 2021, section 2.9.
ghost use Rattle.std.specs.Prelude.{codes};
ghost use Rattle.std.specs.Fmt.{WritesOnOk};
ghost use Rattle.graphql_printing.specs.Layout.{each_behind, separated};
ghost use Rattle.graphql_printing.specs.Texts.{item_text, label_text, member_text, value_text};

use crate::strings::write_quoted;
use graphql_ast::value::Value;
use graphql_nodes::name::Name;
use graphql_nodes::node::Node;
use std::fmt;
use std::fmt::{Formatter, Write};

/// Writes a value.
#[cycle(write)]
pub(crate) fn write_value<W: Write>(f: &mut Formatter<W>, value: &Value) -> fmt::Result
    ensures { WritesOnOk W.write_str_gives f.old result (value_text value.now) f.new }
{
    match value {
        Value::Null => f.write_str("null"),
        Value::Enum(name) => f.write_str(name.as_str()),
        Value::Variable(name) => {
            f.write_str("$")?;
            f.write_str(name.as_str())
        }
        Value::String(text) => write_quoted(f, text.as_str()),
        Value::Float(text) => f.write_str(text.as_str()),
        Value::Int(text) => f.write_str(text.as_str()),
        Value::Boolean(is) => f.write_str(if *is { "true" } else { "false" }),
        Value::List(items) => {
            f.write_str("[")?;
            write_items(f, items.as_slice())?;
            f.write_str("]")
        }
        Value::Object(members) => {
            f.write_str("{")?;
            write_members(f, members.as_slice())?;
            f.write_str("}")
        }
    }
}

#[cycle(write)]
fn write_items<W: Write>(f: &mut Formatter<W>, items: &[Node<Value>]) -> fmt::Result
    ensures { WritesOnOk W.write_str_gives f.old result (separated (codes ", ") item_text items.now) f.new }
{
    let [first, others @ ..] = items else {
        return Ok(());
    };
    write_value(f, first)?;
    for item in others {
        f.write_str(", ")?;
        write_value(f, item)?;
    }
    Ok(())
}

#[cycle(write)]
fn write_members<W: Write>(f: &mut Formatter<W>, members: &[(Name, Node<Value>)]) -> fmt::Result
    ensures { WritesOnOk W.write_str_gives f.old result (separated (codes ", ") member_text members.now)
        f.new }
{
    let [first, others @ ..] = members else {
        return Ok(());
    };
    write_label(f, &first.0)?;
    write_value(f, &first.1)?;
    for member in others {
        f.write_str(", ")?;
        write_label(f, &member.0)?;
        write_value(f, &member.1)?;
    }
    Ok(())
}

/// Writes a name, and what stands between it and its value.
pub(crate) fn write_label<W: Write>(f: &mut Formatter<W>, name: &Name) -> fmt::Result
    ensures { WritesOnOk W.write_str_gives f.old result (label_text name.now) f.new }
{
    f.write_str(name.as_str())?;
    f.write_str(": ")
}
