//! Definitions and documents: GraphQL specification of October 2021, section 2.2.
ghost use Rattle.std.specs.Prelude.{◌≡◌};
ghost use Rattle.std.specs.Fmt.{WritesOnOk};
ghost use Rattle.std.specs.Option.{option_copied};
ghost use Rattle.graphql_ast.specs.DeclarationsSeen.{declaration_seen};
ghost use Rattle.graphql_ast.specs.PartsSeen.{parts_seen};
ghost use Rattle.graphql_productions.specs.Documents.{declaration_takes_braces, takes_braces};
ghost use Rattle.graphql_productions.specs.TypeSystem.{parts_take};
ghost use Rattle.graphql_printing.specs.Documents.{declaration_text, definition_text, definitions_behind};
ghost use Rattle.graphql_printing.specs.Documents.{definitions_text, front_text, operation_behind};

use crate::operations::{write_fragment, write_long, write_operation};
use crate::type_system::{write_described, write_directive_shape, write_schema, write_type_shape};
use graphql_ast::declaration_ref::DeclarationRef;
use graphql_ast::definition::Definition;
use graphql_ast::operation::OperationDefinition;
use graphql_ast::parts::PartsRef;
use graphql_nodes::node_str::NodeStr;
use graphql_nodes::type_kind::TypeKind;
use std::fmt;
use std::fmt::{Formatter, Write};

/// Writes an operation, with its keyword where the flag is set.
fn write_operation_behind<W: Write>(
    f: &mut Formatter<W>,
    operation: &OperationDefinition,
    braces: bool,
) -> fmt::Result
    ensures { WritesOnOk W.write_str_gives f.old result (operation_behind braces operation.now) f.new }
{
    if braces {
        write_long(f, operation)
    } else {
        write_operation(f, operation)
    }
}

/// Writes what stands in front of what is defined or extended: its description, or `extend`.
fn write_front<W: Write>(
    f: &mut Formatter<W>,
    is_extension: bool,
    description: Option<&NodeStr>,
) -> fmt::Result
    ensures { let text = front_text is_extension (option_copied description.entry) in
        WritesOnOk W.write_str_gives f.old result text f.new }
{
    if is_extension {
        f.write_str("extend ")
    } else {
        write_described(f, description, 0)
    }
}

/// Writes what says this, behind a definition that would take a `{` for its own where the flag is set.
fn write_declaration<W: Write>(
    f: &mut Formatter<W>,
    declaration: DeclarationRef<'_>,
    braces: bool,
) -> fmt::Result
    ensures { let text = declaration_text braces (declaration_seen declaration.entry) in
        WritesOnOk W.write_str_gives f.old result text f.new }
{
    match declaration {
        DeclarationRef::Operation(node) => write_operation_behind(f, node, braces),
        DeclarationRef::Fragment(node) => write_fragment(f, node),
        DeclarationRef::Directive(node) => {
            write_described(f, node.description.as_ref(), 0)?;
            write_directive_shape(f, node)
        }
        DeclarationRef::Schema(schema) => {
            write_front(f, schema.is_extension, schema.description)?;
            write_schema(f, schema.parts)
        }
        DeclarationRef::Type(ty) => {
            write_front(f, ty.is_extension, ty.description)?;
            write_type_shape(f, ty.kind, ty.name, ty.parts)
        }
    }
}

/// Writes a definition or extension, which stands behind one that would take a `{` for its own where the
/// flag is set.
pub fn write_definition<W: Write>(
    f: &mut Formatter<W>,
    definition: &Definition,
    braces: bool,
) -> fmt::Result
    ensures { WritesOnOk W.write_str_gives f.old result (definition_text braces definition.now) f.new }
{
    write_declaration(f, DeclarationRef::of(definition), braces)
}

/// Whether a `{` behind these parts of such a type would still be its own.
fn parts_take(kind: TypeKind, parts: PartsRef<'_>) -> bool
    ensures { result ≡ parts_take kind (parts_seen parts.entry) }
{
    match kind {
        TypeKind::Scalar | TypeKind::Union => false,
        TypeKind::Object | TypeKind::Interface => parts.fields.is_empty(),
        TypeKind::Enum => parts.values.is_empty(),
        TypeKind::InputObject => parts.input_fields.is_empty(),
    }
}

/// Whether a `{` behind what says this would still be its own.
fn declaration_takes_braces(declaration: DeclarationRef<'_>) -> bool
    ensures { result ≡ declaration_takes_braces (declaration_seen declaration.entry) }
{
    match declaration {
        DeclarationRef::Type(ty) => parts_take(ty.kind, ty.parts),
        DeclarationRef::Schema(schema) => schema.is_extension && schema.parts.roots.is_empty(),
        _ => false,
    }
}

/// Whether a `{` behind a definition would still be its own.
fn takes_braces(definition: &Definition) -> bool
    ensures { result ≡ takes_braces definition.now }
{
    declaration_takes_braces(DeclarationRef::of(definition))
}

/// Writes definitions with an empty line between each two.
pub fn write_definitions<W: Write>(f: &mut Formatter<W>, definitions: &[Definition]) -> fmt::Result
    ensures { WritesOnOk W.write_str_gives f.old result (definitions_text definitions.now) f.new }
{
    let [first, others @ ..] = definitions else {
        return Ok(());
    };
    write_definition(f, first, false)?;
    write_definitions_behind(f, others, takes_braces(first))
}

/// Writes definitions, each behind an empty line. Where the flag is set, the first of them stands behind a
/// definition that would take a `{` for its own.
fn write_definitions_behind<W: Write>(
    f: &mut Formatter<W>,
    definitions: &[Definition],
    first_braces: bool,
) -> fmt::Result
    ensures { WritesOnOk W.write_str_gives f.old result (definitions_behind first_braces definitions.now)
        f.new }
{
    let mut braces = first_braces;
    for definition in definitions {
        f.write_str("\n\n")?;
        write_definition(f, definition, braces)?;
        braces = takes_braces(definition);
    }
    Ok(())
}
