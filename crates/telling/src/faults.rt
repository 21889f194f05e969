//! Faults, a line for each: where it is, its text, and what it holds that the text doesn't say, locations and
//! paths.

use crate::containers::At;
use crate::{Tell, Told};
use apollo_document::build_error::BuildError as DocumentError;
use apollo_document::selection_path::SelectionPath;
use apollo_meaning::build_error::BuildError as SchemaError;
use graphql_nodes::source::SourceSpan;

impl Tell for SchemaError {
    fn tell(&self, text: &mut String) -> Told {
        write!(text, "{self}")?;
        match self {
            SchemaError::ExecutableDefinition { .. }
            | SchemaError::BuiltInScalarTypeRedefinition
            | SchemaError::OrphanSchemaExtension => Ok(()),
            SchemaError::SchemaDefinitionCollision { previous_location }
            | SchemaError::DuplicateRootOperation {
                previous_location,
                ..
            } => tell!(text; "; ", At(*previous_location)),
            SchemaError::OrphanTypeExtension { name } => tell!(text; "; ", At(name.location())),
            SchemaError::DirectiveDefinitionCollision {
                previous_location,
                name,
            }
            | SchemaError::TypeDefinitionCollision {
                previous_location,
                name,
            }
            | SchemaError::TypeExtensionKindMismatch {
                def_location: previous_location,
                name,
                ..
            } => tell!(text; "; ", At(*previous_location), At(name.location())),
            SchemaError::DuplicateImplementsInterfaceInObject {
                name_at_previous_location: kept,
                type_name,
            }
            | SchemaError::DuplicateImplementsInterfaceInInterface {
                name_at_previous_location: kept,
                type_name,
            }
            | SchemaError::ObjectFieldNameCollision {
                name_at_previous_location: kept,
                type_name,
            }
            | SchemaError::InterfaceFieldNameCollision {
                name_at_previous_location: kept,
                type_name,
            }
            | SchemaError::EnumValueNameCollision {
                name_at_previous_location: kept,
                type_name,
            }
            | SchemaError::UnionMemberNameCollision {
                name_at_previous_location: kept,
                type_name,
            }
            | SchemaError::InputFieldNameCollision {
                name_at_previous_location: kept,
                type_name,
            } => tell!(text; "; ", At(kept.location()), At(type_name.location())),
        }
    }
}

impl Tell for SelectionPath {
    fn tell(&self, text: &mut String) -> Told {
        write!(text, "({self})")
    }
}

impl Tell for DocumentError {
    fn tell(&self, text: &mut String) -> Told {
        write!(text, "{self}")?;
        match self {
            DocumentError::TypeSystemDefinition { name: None, .. }
            | DocumentError::AmbiguousAnonymousOperation
            | DocumentError::UndefinedRootOperation { .. } => Ok(()),
            DocumentError::TypeSystemDefinition {
                name: Some(name),
                ..
            } => tell!(text; "; ", name),
            DocumentError::OperationNameCollision {
                name_at_previous_location: kept,
            }
            | DocumentError::FragmentNameCollision {
                name_at_previous_location: kept,
            } => tell!(text; "; ", At(kept.location())),
            DocumentError::UndefinedTypeInNamedFragmentTypeCondition {
                type_name,
                fragment_name,
            } => tell!(text; "; ", At(type_name.location()), At(fragment_name.location())),
            DocumentError::UndefinedTypeInInlineFragmentTypeCondition { type_name, path }
            | DocumentError::SubselectionOnScalarType { type_name, path }
            | DocumentError::SubselectionOnEnumType { type_name, path } => {
                tell!(text; "; ", At(type_name.location()), path)
            }
            DocumentError::UndefinedField {
                type_name,
                field_name,
                path,
            } => tell!(text; "; ", At(type_name.location()), At(field_name.location()), path),
        }
    }
}

/// A fault: where it is, and the error.
impl<E: Tell> Tell for (Option<SourceSpan>, E) {
    fn tell(&self, text: &mut String) -> Told {
        tell!(text; At(self.0), self.1, "\n")
    }
}
