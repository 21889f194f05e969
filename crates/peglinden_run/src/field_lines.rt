//! The output of the command `fields` in JSON. The error of each call is out of memory.
ghost use Rattle.std.specs.Prelude.{◌≡◌, ◌++◌, IfOk, OnOk, option_map, string_bytes};
ghost use Rattle.std.specs.List.{flat_map};
ghost use Rattle.peglinden_run.specs.FieldLines.{definition_at, definition_location, definition_type};
ghost use Rattle.peglinden_run.specs.FieldLines.{field_line, field_lines, operation_lines, operation_name};
ghost use Rattle.peglinden_run.specs.FieldLines.{usage_line};

use crate::lines::placed_line;
use apollo_executable::document::ExecutableDocument;
use apollo_executable::operation::Operation;
use apollo_field_usage::counting::{FieldUsage, field_usage};
use apollo_reporting::json_object::JsonValue;
use apollo_reporting::sources::Sources;
use apollo_schema::schema::Schema;
use graphql_ast::type_system::FieldDefinition;
use graphql_nodes::name::Name;
use graphql_nodes::node::Node;
use graphql_nodes::source::SourceSpan;
use graphql_printing::printing::type_text;
use std::alloc::{AllocError, Global};

/// For each operation of a document a line for each field that it reaches, in order of first reach. Each
/// names the operation, and has the coordinate of the field, its type, how often it stands there, and where
/// it is defined.
pub(crate) fn field_lines<S: Sources>(
    alloc: Global,
    sources: &S,
    schema: &Schema,
    document: &ExecutableDocument,
) -> Result<String, AllocError>
    ensures { IfOk result (λ text.
        string_bytes text ≡ field_lines (S.files sources.now) schema.now document.now) }
{
    let mut text = String::new(alloc);
    for operation in document.operations.iter() {
        push_operation(alloc, &mut text, sources, schema, document, operation)?;
    }
    Ok(text)
}

/// Adds the lines of an operation.
fn push_operation<S: Sources>(
    alloc: Global,
    text: &mut String,
    sources: &S,
    schema: &Schema,
    document: &ExecutableDocument,
    operation: &Operation,
) -> Result<(), AllocError>
    ensures { OnOk result (string_bytes text.new ≡ string_bytes text.old
        ++ operation_lines (S.files sources.now) schema.now document.now operation.now) }
{
    let usages = field_usage(alloc, document, operation)?;
    push_usages(alloc, text, sources, schema, operation, usages.as_slice())
}

/// Adds a line for each of these fields, which an operation reaches.
fn push_usages<S: Sources>(
    alloc: Global,
    text: &mut String,
    sources: &S,
    schema: &Schema,
    operation: &Operation,
    usages: &[FieldUsage],
) -> Result<(), AllocError>
    ensures { OnOk result (string_bytes text.new ≡ string_bytes text.old
        ++ flat_map (field_line (S.files sources.now) schema.now operation.now) usages.now) }
{
    for usage in usages {
        let line = field_line(alloc, sources, schema, operation, usage)?;
        text.push_str(line.as_str())?;
    }
    Ok(())
}

/// The line of a field that an operation reaches.
fn field_line<S: Sources>(
    alloc: Global,
    sources: &S,
    schema: &Schema,
    operation: &Operation,
    usage: &FieldUsage,
) -> Result<String, AllocError>
    ensures { IfOk result (λ line. string_bytes line
        ≡ field_line (S.files sources.now) schema.now operation.now usage.now) }
{
    let coordinate = usage.coordinate.to_string(alloc)?;
    let definition = found_definition(schema, usage);
    let ty = definition_type(alloc, definition)?;
    usage_line(
        alloc,
        sources,
        operation,
        coordinate.as_str(),
        ty.as_ref().map(String::as_str),
        usage.count,
        definition_location(definition),
    )
}

/// The line of a field of this coordinate and type that an operation reaches so many times.
fn usage_line<'x, S: Sources>(
    alloc: Global,
    sources: &S,
    operation: &'x Operation,
    coordinate: &'x str,
    ty: Option<&'x str>,
    count: usize,
    location: Option<SourceSpan>,
) -> Result<String, AllocError>
    ensures { IfOk result (λ line. string_bytes line ≡ usage_line (S.files sources.now) operation.now
        coordinate.now (option_map (λ ty. ty.now) ty.entry) count location) }
{
    let name = operation_name(operation);
    placed_line(
        alloc,
        "field",
        &[
            (
                "operation",
                JsonValue::Definition(operation.operation_type.name(), name),
            ),
            ("coordinate", JsonValue::Words(Some(coordinate))),
            ("field_type", JsonValue::Words(ty)),
            ("count", JsonValue::Number(Some(count))),
        ],
        sources,
        location,
    )
}

/// The name of an operation, if it has one.
fn operation_name(operation: &Operation) -> Option<&str>
    ensures { option_map (λ name. name.now) result ≡ operation_name operation.now }
{
    operation.name.as_ref().map(Name::as_str)
}

/// The definition of a field that is reached, where the schema has it.
fn found_definition<'s>(schema: &'s Schema, usage: &FieldUsage) -> Option<&'s Node<FieldDefinition>>
    ensures { option_map (λ node. node.now) result ≡ definition_at schema.now usage.now }
{
    match usage.coordinate.lookup_field(schema) {
        Ok(field) => Some(&field.node),
        Err(_) => None,
    }
}

/// The text of the type of a field, where its definition is known.
fn definition_type(
    alloc: Global,
    definition: Option<&Node<FieldDefinition>>,
) -> Result<Option<String>, AllocError>
    ensures { IfOk result (λ ty. option_map string_bytes ty
        ≡ definition_type (option_map (λ node. node.now) definition.entry)) }
{
    match definition {
        Some(definition) => Ok(Some(type_text(alloc, &definition.ty)?)),
        None => Ok(None),
    }
}

/// Where a field is defined, where that is known.
fn definition_location(definition: Option<&Node<FieldDefinition>>) -> Option<SourceSpan>
    ensures { result ≡ definition_location (option_map (λ node. node.now) definition.entry) }
{
    match definition {
        Some(definition) => definition.location(),
        None => None,
    }
}
