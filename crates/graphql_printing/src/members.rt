//! The definitions that stand between the braces of a type, each as text by itself. That is what a tool or a
//! message shows of the place that a schema coordinate points to. No call reads such a text by itself: only
//! in its type is it GraphQL.
ghost use Rattle.std.specs.Prelude.{◌≡◌, IfOk, Some, string_bytes};
ghost use Rattle.graphql_printing.specs.Members.{enum_value_text, field_text, input_value_text};

use crate::type_system::{write_enum_value, write_field_definition, write_input_value};
use graphql_ast::type_system::{EnumValueDefinition, FieldDefinition, InputValueDefinition};
use std::alloc::{AllocError, Global};
use std::fmt;

/// The definition of a field that is printed as its text.
#[derive(Clone, Copy)]
pub struct FieldText<'a>(&'a FieldDefinition);

impl<'a> fmt::Display for FieldText<'a> {
    ghost output = { λ it. Some (field_text it.0.now) };

    fn fmt<W: fmt::Write>(&self, f: &mut fmt::Formatter<W>) -> fmt::Result {
        write_field_definition(f, self.0, 0)
    }
}

/// The definition of an argument or input field that is printed as its text.
#[derive(Clone, Copy)]
pub struct InputValueText<'a>(&'a InputValueDefinition);

impl<'a> fmt::Display for InputValueText<'a> {
    ghost output = { λ it. Some (input_value_text it.0.now) };

    fn fmt<W: fmt::Write>(&self, f: &mut fmt::Formatter<W>) -> fmt::Result {
        write_input_value(f, self.0, 0)
    }
}

/// The definition of an enum value that is printed as its text.
#[derive(Clone, Copy)]
pub struct EnumValueText<'a>(&'a EnumValueDefinition);

impl<'a> fmt::Display for EnumValueText<'a> {
    ghost output = { λ it. Some (enum_value_text it.0.now) };

    fn fmt<W: fmt::Write>(&self, f: &mut fmt::Formatter<W>) -> fmt::Result {
        write_enum_value(f, self.0, 0)
    }
}

/// The definition of a field (section 3.6), to be printed: `Display` writes its text, and takes no memory.
///
/// The text is what a type has of it between its braces, as `title(max: Int = 80): String @cached`, but its
/// lines are not further in. A description stands on lines of its own above it. Arguments of which one has a
/// description stand one a line.
pub fn field<'a>(field: &'a FieldDefinition) -> FieldText<'a>
    ensures { result.0.now ≡ field.now }
{
    FieldText(field)
}

/// The definition of an argument (section 3.6.1) or input field (section 3.10), to be printed: `Display`
/// writes its text, as `max: Int = 80 @cached`, and takes no memory. A description stands on lines of its own
/// above it.
pub fn input_value<'a>(input: &'a InputValueDefinition) -> InputValueText<'a>
    ensures { result.0.now ≡ input.now }
{
    InputValueText(input)
}

/// The definition of an enum value (section 3.9), to be printed: `Display` writes its text, as
/// `HARDCOVER @cached`, and takes no memory. A description stands on lines of its own above it.
pub fn enum_value<'a>(value: &'a EnumValueDefinition) -> EnumValueText<'a>
    ensures { result.0.now ≡ value.now }
{
    EnumValueText(value)
}

/// The text of a field's definition, as [`field`] writes it. The error is out of memory.
pub fn field_text(alloc: Global, field: &FieldDefinition) -> Result<String, AllocError>
    ensures { IfOk result (λ text. string_bytes text ≡ field_text field.now) }
{
    FieldText(field).to_string(alloc)
}

/// The text of an argument's or input field's definition, as [`input_value`] writes it. The error is out of
/// memory.
pub fn input_value_text(alloc: Global, input: &InputValueDefinition) -> Result<String, AllocError>
    ensures { IfOk result (λ text. string_bytes text ≡ input_value_text input.now) }
{
    InputValueText(input).to_string(alloc)
}

/// The text of an enum value's definition, as [`enum_value`] writes it. The error is out of memory.
pub fn enum_value_text(alloc: Global, value: &EnumValueDefinition) -> Result<String, AllocError>
    ensures { IfOk result (λ text. string_bytes text ≡ enum_value_text value.now) }
{
    EnumValueText(value).to_string(alloc)
}
