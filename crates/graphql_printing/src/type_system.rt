//! Definitions and extensions of the type system: GraphQL specification of October 2021, section 3.
ghost use Rattle.std.specs.Prelude.{◌≡◌};
ghost use Rattle.std.specs.Fmt.{WritesOnOk};
ghost use Rattle.std.specs.List.{list_any};
ghost use Rattle.std.specs.Option.{option_copied};
ghost use Rattle.graphql_nodes.specs.LocationTexts.{location_text};
ghost use Rattle.graphql_ast.specs.PartsSeen.{parts_seen};
ghost use Rattle.graphql_printing.specs.TypeSystem.{argument_definitions_text, behind_name, described};
ghost use Rattle.graphql_printing.specs.TypeSystem.{directive_shape, enum_value_further_in, enum_value_text};
ghost use Rattle.graphql_printing.specs.TypeSystem.{field_definition_text, field_further_in};
ghost use Rattle.graphql_printing.specs.TypeSystem.{input_value_further_in, input_value_text, keyword_text};
ghost use Rattle.graphql_printing.specs.TypeSystem.{name_text, repeatable_text, root_text, schema_shape};
ghost use Rattle.graphql_printing.specs.TypeSystem.{takes_lines, type_shape};

use crate::arguments::write_directives;
use crate::descriptions::write_description;
use crate::layout::write_line_end;
use crate::lists::{Written, write_braces, write_enclosed, write_on_lines, write_separated};
use crate::operations::write_default;
use crate::types::write_type;
use crate::values::write_label;
use graphql_ast::parts::PartsRef;
use graphql_ast::type_system::{
    DirectiveDefinition, EnumValueDefinition, FieldDefinition, InputValueDefinition,
};
use graphql_nodes::directive_location::DirectiveLocation;
use graphql_nodes::name::{Name, NamedType};
use graphql_nodes::node::Node;
use graphql_nodes::node_str::NodeStr;
use graphql_nodes::operation_type::OperationType;
use graphql_nodes::type_kind::TypeKind;
use std::fmt;
use std::fmt::{Formatter, Write};

/// Writes a description on lines of its own above what stands further in by so many blanks, or nothing where
/// there is none.
pub(crate) fn write_described<W: Write>(
    f: &mut Formatter<W>,
    description: Option<&NodeStr>,
    indent: usize,
) -> fmt::Result
    ensures { let text = described indent (option_copied description.entry) in
        WritesOnOk W.write_str_gives f.old result text f.new }
{
    match description {
        Some(text) => {
            write_description(f, text.as_str(), indent)?;
            write_line_end(f, indent)
        }
        None => Ok(()),
    }
}

/// Writes an argument or input field that is defined, which stands further in by so many blanks.
pub(crate) fn write_input_value<W: Write>(
    f: &mut Formatter<W>,
    input: &InputValueDefinition,
    indent: usize,
) -> fmt::Result
    ensures { WritesOnOk W.write_str_gives f.old result (input_value_further_in indent input.now) f.new }
{
    write_described(f, input.description.as_ref(), indent)?;
    write_label(f, &input.name)?;
    write_type(f, &input.ty)?;
    write_default(f, &input.default_value)?;
    write_directives(f, input.directives.0.as_slice())
}

impl Written for Node<InputValueDefinition> {
    ghost text = { input_value_text };

    fn write<W: Write>(&self, f: &mut Formatter<W>, indent: usize) -> fmt::Result {
        write_input_value(f, self, indent)
    }
}

/// Whether one of these arguments takes several lines: it has a description.
fn take_lines(inputs: &[Node<InputValueDefinition>]) -> bool
    ensures { result ≡ list_any takes_lines inputs.now }
{
    inputs.iter().any(|input| input.description.is_some())
}

/// Writes arguments that are defined, in one line or one a line, or nothing where there is none.
fn write_argument_definitions<W: Write>(
    f: &mut Formatter<W>,
    inputs: &[Node<InputValueDefinition>],
    indent: usize,
) -> fmt::Result
    ensures { WritesOnOk W.write_str_gives f.old result (argument_definitions_text indent inputs.now) f.new }
{
    if take_lines(inputs) {
        write_on_lines(f, "(", ")", inputs, indent)
    } else {
        write_enclosed(f, "(", ", ", ")", inputs, indent)
    }
}

/// Writes a field that is defined, which stands further in by so many blanks.
pub(crate) fn write_field_definition<W: Write>(
    f: &mut Formatter<W>,
    field: &FieldDefinition,
    indent: usize,
) -> fmt::Result
    ensures { WritesOnOk W.write_str_gives f.old result (field_further_in indent field.now) f.new }
{
    write_described(f, field.description.as_ref(), indent)?;
    f.write_str(field.name.as_str())?;
    write_argument_definitions(f, field.arguments.as_slice(), indent)?;
    f.write_str(": ")?;
    write_type(f, &field.ty)?;
    write_directives(f, field.directives.0.as_slice())
}

impl Written for Node<FieldDefinition> {
    ghost text = { field_definition_text };

    fn write<W: Write>(&self, f: &mut Formatter<W>, indent: usize) -> fmt::Result {
        write_field_definition(f, self, indent)
    }
}

/// Writes an enum value that is defined, which stands further in by so many blanks.
pub(crate) fn write_enum_value<W: Write>(
    f: &mut Formatter<W>,
    value: &EnumValueDefinition,
    indent: usize,
) -> fmt::Result
    ensures { WritesOnOk W.write_str_gives f.old result (enum_value_further_in indent value.now) f.new }
{
    write_described(f, value.description.as_ref(), indent)?;
    f.write_str(value.value.as_str())?;
    write_directives(f, value.directives.0.as_slice())
}

impl Written for Node<EnumValueDefinition> {
    ghost text = { enum_value_text };

    fn write<W: Write>(&self, f: &mut Formatter<W>, indent: usize) -> fmt::Result {
        write_enum_value(f, self, indent)
    }
}

impl Written for Node<(OperationType, NamedType)> {
    ghost text = { root_text };

    fn write<W: Write>(&self, f: &mut Formatter<W>, _indent: usize) -> fmt::Result {
        f.write_str(self.0.name())?;
        f.write_str(": ")?;
        f.write_str(self.1.as_str())
    }
}

impl Written for Name {
    ghost text = { λ indent name. name_text name };

    fn write<W: Write>(&self, f: &mut Formatter<W>, _indent: usize) -> fmt::Result {
        f.write_str(self.as_str())
    }
}

impl Written for DirectiveLocation {
    ghost text = { λ indent location. location_text location };

    fn write<W: Write>(&self, f: &mut Formatter<W>, _indent: usize) -> fmt::Result {
        f.write_str(self.name())
    }
}

/// The word of a kind of types.
fn keyword(kind: TypeKind) -> &'static str
    ensures { result.now ≡ keyword_text kind }
{
    match kind {
        TypeKind::Scalar => "scalar",
        TypeKind::Object => "type",
        TypeKind::Interface => "interface",
        TypeKind::Union => "union",
        TypeKind::Enum => "enum",
        TypeKind::InputObject => "input",
    }
}

/// Writes what a type of this kind has behind its name.
fn write_parts<W: Write>(f: &mut Formatter<W>, kind: TypeKind, parts: PartsRef<'_>) -> fmt::Result
    ensures { WritesOnOk W.write_str_gives f.old result (behind_name kind (parts_seen parts.entry)) f.new }
{
    match kind {
        TypeKind::Scalar => write_directives(f, parts.directives),
        TypeKind::Object | TypeKind::Interface => {
            write_enclosed(f, " implements ", " & ", "", parts.names, 0)?;
            write_directives(f, parts.directives)?;
            write_braces(f, " {", parts.fields, 0)
        }
        TypeKind::Union => {
            write_directives(f, parts.directives)?;
            write_enclosed(f, " = ", " | ", "", parts.names, 0)
        }
        TypeKind::Enum => {
            write_directives(f, parts.directives)?;
            write_braces(f, " {", parts.values, 0)
        }
        TypeKind::InputObject => {
            write_directives(f, parts.directives)?;
            write_braces(f, " {", parts.input_fields, 0)
        }
    }
}

/// Writes a type, defined or extended.
pub(crate) fn write_type_shape<W: Write>(
    f: &mut Formatter<W>,
    kind: TypeKind,
    name: &Name,
    parts: PartsRef<'_>,
) -> fmt::Result
    ensures { let text = type_shape kind name.now (parts_seen parts.entry) in
        WritesOnOk W.write_str_gives f.old result text f.new }
{
    f.write_str(keyword(kind))?;
    f.write_str(" ")?;
    f.write_str(name.as_str())?;
    write_parts(f, kind, parts)
}

/// Writes the schema, defined or extended.
pub(crate) fn write_schema<W: Write>(f: &mut Formatter<W>, parts: PartsRef<'_>) -> fmt::Result
    ensures { WritesOnOk W.write_str_gives f.old result (schema_shape (parts_seen parts.entry)) f.new }
{
    f.write_str("schema")?;
    write_directives(f, parts.directives)?;
    write_braces(f, " {", parts.roots, 0)
}

/// Writes that a directive may be repeated, if it may.
fn write_repeatable<W: Write>(f: &mut Formatter<W>, repeatable: bool) -> fmt::Result
    ensures { WritesOnOk W.write_str_gives f.old result (repeatable_text repeatable) f.new }
{
    if repeatable {
        f.write_str(" repeatable")
    } else {
        Ok(())
    }
}

/// Writes a directive that is defined.
pub(crate) fn write_directive_shape<W: Write>(
    f: &mut Formatter<W>,
    directive: &DirectiveDefinition,
) -> fmt::Result
    ensures { WritesOnOk W.write_str_gives f.old result (directive_shape directive.now) f.new }
{
    f.write_str("directive @")?;
    f.write_str(directive.name.as_str())?;
    write_argument_definitions(f, directive.arguments.as_slice(), 0)?;
    write_repeatable(f, directive.repeatable)?;
    f.write_str(" on ")?;
    write_separated(f, " | ", directive.locations.as_slice(), 0)
}
