//! What is written of what a coordinate points to.
ghost use Rattle.std.specs.Prelude.{◌≡◌, ◌++◌, ◌∷◌, [], IfOk, OnOk, string_bytes};
ghost use Rattle.peglinden_run.specs.Ended.{ended};
ghost use Rattle.peglinden_run.specs.LookedUp.{definition_line, found_definition, found_line, found_location, found_text};
ghost use Rattle.peglinden_run.specs.LookedUp.{place_comment};

use crate::ended::ended_text;
use crate::lines::{on_a_line, placed_line};
use apollo_compiler::text::{enum_value_text, field_text, input_value_text};
use apollo_coordinate::SchemaCoordinate;
use apollo_coordinate::lookup_answers::SchemaCoordinateLookup;
use apollo_reporting::json_object::JsonValue;
use graphql_ast::definition::Definition;
use graphql_ast::type_system::DirectiveDefinition;
use graphql_nodes::node::Node;
use graphql_nodes::source::{SourceMap, SourceSpan};
use std::alloc::{AllocError, Global};

/// What is written of what a coordinate points to: where that stands, as a comment, and its definition. The
/// error is out of memory.
pub(crate) fn found_text(
    alloc: Global,
    sources: &SourceMap,
    found: SchemaCoordinateLookup<'_>,
) -> Result<String, AllocError>
    ensures { IfOk result (λ text. string_bytes text ≡ found_text sources.now found.entry) }
{
    let mut text = String::new(alloc);
    push_place(alloc, &mut text, sources, found_location(found))?;
    text.push_str(found_definition(alloc, found)?.as_str())?;
    Ok(text)
}

/// Where what a coordinate points to stands.
fn found_location(found: SchemaCoordinateLookup<'_>) -> Option<SourceSpan>
    ensures { result ≡ found_location found.entry }
{
    match found {
        SchemaCoordinateLookup::Ty(ty) => ty.location(),
        SchemaCoordinateLookup::Directive(node) => node.location(),
        SchemaCoordinateLookup::Field(field) => field.node.location(),
        SchemaCoordinateLookup::InputField(field) => field.node.location(),
        SchemaCoordinateLookup::EnumValue(value) => value.node.location(),
        SchemaCoordinateLookup::Argument(node) => node.location(),
    }
}

/// Adds a comment that says where something stands; what stands in no file is built-in. The error is out of
/// memory.
fn push_place(
    alloc: Global,
    text: &mut String,
    sources: &SourceMap,
    location: Option<SourceSpan>,
) -> Result<(), AllocError>
    ensures { OnOk result (string_bytes text.new
        ≡ string_bytes text.old ++ place_comment sources.now location) }
{
    match location {
        Some(span) if span.file.0 != 0 => {
            text.push_str("# ")?;
            text.push_str(span.place(sources).to_string(alloc)?.as_str())?;
            text.push_str("\n")
        }
        _ => text.push_str("# built-in\n"),
    }
}

/// The definition that a coordinate points to, with a line end. It is that of a type with its extensions, and
/// of a field, an input field, an argument or an enum value alone. The error is out of memory.
fn found_definition(alloc: Global, found: SchemaCoordinateLookup<'_>) -> Result<String, AllocError>
    ensures { IfOk result (λ text. string_bytes text ≡ found_definition found.entry) }
{
    match found {
        SchemaCoordinateLookup::Ty(ty) => ended_text(alloc, ty.to_ast(alloc)?.as_slice()),
        SchemaCoordinateLookup::Directive(node) => directive_text(alloc, node),
        SchemaCoordinateLookup::Field(field) => on_a_line(field_text(alloc, &field.node)?),
        SchemaCoordinateLookup::InputField(field) => on_a_line(input_value_text(
            alloc,
            &field.node,
        )?),
        SchemaCoordinateLookup::EnumValue(value) => on_a_line(enum_value_text(alloc, &value.node)?),
        SchemaCoordinateLookup::Argument(node) => on_a_line(input_value_text(alloc, node)?),
    }
}

/// The text of the definition of a directive, with a line end. The error is out of memory.
fn directive_text(alloc: Global, node: &Node<DirectiveDefinition>) -> Result<String, AllocError>
    ensures { IfOk result (λ text. string_bytes text ≡ ended (Definition.DirectiveDefinition node.now ∷ [])) }
{
    let definition = Definition::DirectiveDefinition(node.clone()?);
    ended_text(alloc, &[definition])
}

/// The line of JSON of what a coordinate points to: the coordinate, its definition, and where that stands.
/// The error is out of memory.
pub(crate) fn found_line(
    alloc: Global,
    sources: &SourceMap,
    coordinate: &SchemaCoordinate,
    found: SchemaCoordinateLookup<'_>,
) -> Result<String, AllocError>
    ensures { IfOk result (λ line.
        string_bytes line ≡ found_line sources.now coordinate.now found.entry) }
{
    let shown = coordinate.to_string(alloc)?;
    let text = found_definition(alloc, found)?;
    definition_line(
        alloc,
        sources,
        shown.as_str(),
        text.as_str(),
        found_location(found),
    )
}

/// The line of JSON of a definition, under its coordinate. The error is out of memory.
fn definition_line<'x>(
    alloc: Global,
    sources: &SourceMap,
    coordinate: &'x str,
    text: &'x str,
    location: Option<SourceSpan>,
) -> Result<String, AllocError>
    ensures { IfOk result (λ line. string_bytes line
        ≡ definition_line sources.now coordinate.now text.now location) }
{
    placed_line(
        alloc,
        "definition",
        &[
            ("coordinate", JsonValue::Words(Some(coordinate))),
            ("text", JsonValue::Words(Some(text))),
        ],
        sources,
        location,
    )
}
