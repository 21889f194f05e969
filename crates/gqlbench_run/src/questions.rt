//! What is asked of a schema, over all its object and interface types.

use apollo_component::component::{Component, ComponentName};
use apollo_schema::schema::Schema;
use apollo_types::extended_type::ExtendedType;
use graphql_ast::type_system::FieldDefinition;
use graphql_nodes::collections::table::Table;
use graphql_nodes::name::Name;
use std::alloc::{AllocError, Global};

/// Two names that are asked for together.
pub type Question = (Name, Name);

fn declared_fields(ty: &ExtendedType) -> Option<&Table<Name, Component<FieldDefinition>>> {
    match ty {
        ExtendedType::Object(object) => Some(&object.fields),
        ExtendedType::Interface(interface) => Some(&interface.fields),
        _ => None,
    }
}

fn declared_interfaces(ty: &ExtendedType) -> &[ComponentName] {
    match ty {
        ExtendedType::Object(object) => object.implements_interfaces.as_slice(),
        ExtendedType::Interface(interface) => interface.implements_interfaces.as_slice(),
        _ => &[],
    }
}

/// Each field of each type, by the names of both.
pub fn field_questions(alloc: Global, schema: &Schema) -> Result<Vec<Question>, AllocError> {
    let mut questions = Vec::new(alloc);
    for (name, ty) in schema.types.iter() {
        let Some(fields) = declared_fields(ty) else {
            continue;
        };
        for field in fields.keys() {
            questions.push((name.clone()?, field.clone()?))?;
        }
    }
    Ok(questions)
}

/// Each interface of each type, and the type of each of its fields, with the type's own name.
pub fn subtype_questions(alloc: Global, schema: &Schema) -> Result<Vec<Question>, AllocError> {
    let mut questions = Vec::new(alloc);
    for (name, ty) in schema.types.iter() {
        for interface in declared_interfaces(ty) {
            questions.push((interface.name.clone()?, name.clone()?))?;
        }
        let Some(fields) = declared_fields(ty) else {
            continue;
        };
        for field in fields.values() {
            questions.push((field.ty.inner_named_type().clone()?, name.clone()?))?;
        }
    }
    Ok(questions)
}

fn has_field(schema: &Schema, question: &Question) -> bool {
    schema.type_field(&question.0, &question.1).is_ok()
}

/// Asks for each field, and counts those that there are.
pub fn count_fields(schema: &Schema, questions: &[Question]) -> usize {
    let mut count: usize = 0;
    for question in questions {
        count = count.saturating_add(usize::from(has_field(schema, question)));
    }
    count
}

/// Asks for each subtype, and counts those that there are.
pub fn count_subtypes(schema: &Schema, questions: &[Question]) -> usize {
    let mut count: usize = 0;
    for question in questions {
        let is_subtype = schema.is_subtype(&question.0, &question.1);
        count = count.saturating_add(usize::from(is_subtype));
    }
    count
}
