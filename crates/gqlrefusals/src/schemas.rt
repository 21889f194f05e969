//! Schemas, types and their definition as syntax, the identities of their extensions, and the map of
//! implementers.

use crate::builders::schema_of;
use crate::in_a_set::made_in_a_set;
use crate::inputs::Input;
use crate::stop::{Told, tell_line, tell_made};
use apollo_component::extension::ExtensionId;
use apollo_schema::schema::Schema;
use apollo_types::extended_type::ExtendedType;
use apollo_types::extensible::Extensible;
use apollo_types::type_of_kind::TypeOfKind;
use bench_notation::documents::read;
use graphql_ast::definition::Definition;
use graphql_nodes::collections::key_set::KeySet;
use std::alloc::{AllocError, Global};
use telling::Tell;

/// What is asked of a schema.
#[derive(Clone, Copy)]
pub enum OfSchema {
    /// `Schema::to_ast`.
    Written,
    /// `SchemaDefinition::to_ast`.
    DefinitionWritten,
    /// `extensions` of the definition.
    DefinitionExtended,
    /// `Schema::implementers_map`.
    Implementers,
    /// Something of each type.
    Types(OfType),
    /// The calls that make selections of a set's type.
    InSet,
}

/// What is asked of each type, of its write-out if it isn't built in.
#[derive(Clone, Copy)]
pub enum OfType {
    /// `ExtendedType::to_ast`.
    Written,
    /// `ExtendedType::write_to`, one after the other.
    WrittenTogether,
    /// `ExtendedType::extensions`.
    Extended,
    /// `ScalarType::to_ast`, `ObjectType::to_ast`, `InterfaceType::to_ast`, `UnionType::to_ast`,
    /// `EnumType::to_ast` and `InputObjectType::to_ast`.
    KindWritten,
    /// `ScalarType::extensions`, `ObjectType::extensions`, `InterfaceType::extensions`,
    /// `UnionType::extensions`, `EnumType::extensions` and `InputObjectType::extensions`.
    KindExtended,
}

fn written(alloc: Global, ty: &ExtendedType) -> Result<Vec<Definition>, AllocError> {
    let location = ty.location();
    match ty {
        ExtendedType::Scalar(node) => node.to_ast(alloc, location),
        ExtendedType::Object(node) => node.to_ast(alloc, location),
        ExtendedType::Interface(node) => node.to_ast(alloc, location),
        ExtendedType::Union(node) => node.to_ast(alloc, location),
        ExtendedType::Enum(node) => node.to_ast(alloc, location),
        ExtendedType::InputObject(node) => node.to_ast(alloc, location),
    }
}

fn extended(alloc: Global, ty: &ExtendedType) -> Result<KeySet<ExtensionId>, AllocError> {
    match ty {
        ExtendedType::Scalar(node) => node.extensions(alloc),
        ExtendedType::Object(node) => node.extensions(alloc),
        ExtendedType::Interface(node) => node.extensions(alloc),
        ExtendedType::Union(node) => node.extensions(alloc),
        ExtendedType::Enum(node) => node.extensions(alloc),
        ExtendedType::InputObject(node) => node.extensions(alloc),
    }
}

fn tell_extensions(
    text: &mut String,
    ty: &ExtendedType,
    ids: Result<KeySet<ExtensionId>, AllocError>,
) -> Told {
    ty.name().tell(text)?;
    tell_line(text, ids)
}

/// Asks something of a type. What is to be written behind what others are goes there, and is written at the
/// end.
fn ask_type(
    alloc: Global,
    text: &mut String,
    together: &mut Vec<Definition>,
    ty: &ExtendedType,
    question: OfType,
) -> Told {
    match question {
        OfType::Extended => tell_extensions(text, ty, ty.extensions(alloc)),
        OfType::KindExtended => tell_extensions(text, ty, extended(alloc, ty)),
        _ if ty.is_built_in() => Ok(()),
        OfType::Written => tell_made(text, ty.to_ast(alloc)),
        OfType::WrittenTogether => Ok(ty.write_to(alloc, together)?),
        OfType::KindWritten => tell_made(text, written(alloc, ty)),
    }
}

fn ask_types(alloc: Global, text: &mut String, schema: &Schema, question: OfType) -> Told {
    let mut together = Vec::new(alloc);
    for ty in schema.types.values() {
        ask_type(alloc, text, &mut together, ty, question)?;
    }
    Ok(together.tell(text)?)
}

fn ask_schema(alloc: Global, text: &mut String, schema: &Schema, question: OfSchema) -> Told {
    let definition = &schema.schema_definition;
    match question {
        OfSchema::Written => tell_made(text, schema.to_ast(alloc)),
        OfSchema::DefinitionWritten => {
            let location = definition.location();
            tell_made(text, definition.to_ast(alloc, location, &schema.types))
        }
        OfSchema::DefinitionExtended => tell_line(text, definition.extensions(alloc)),
        OfSchema::Implementers => tell_made(text, schema.implementers_map(alloc)),
        OfSchema::Types(question) => ask_types(alloc, text, schema, question),
        OfSchema::InSet => made_in_a_set(alloc, text, schema),
    }
}

/// Asks something of the schema of an input.
pub fn ask(alloc: Global, text: &mut String, input: Input, question: OfSchema) -> Told {
    let documents = read(alloc, input.text)?;
    let schema = schema_of(alloc, input.adopts, documents.as_slice())?;
    ask_schema(alloc, text, &schema, question)
}
