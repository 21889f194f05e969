//! What a build of an executable document finds wrong.

use crate::selection_path::SelectionPath;
use graphql_nodes::collections::static_text::StaticText;
use graphql_nodes::name::{Name, NamedType};
use graphql_nodes::source::SourceSpan;
use thiserror::Error;

/// What a build of an executable document finds wrong. It is with a definition or a selection that it doesn't
/// use, or with an anonymous operation that it keeps beside others. GraphQL specification of October 2021,
/// sections 2.2 to 2.8. The name of a kept definition has the location of the definition's name. The name of
/// a type that lacks a field has the location of the type's name.
///
/// Errors are equal where their fields are: names by their texts. A clone is the original, with every
/// location.
#[derive(Debug, Drop, Clone, PartialEq, Eq, Error)]
pub enum BuildError {
    /// A definition of the type system, where such are faults. It is at its node, with its name, if it has
    /// one, and what it is, as `an object type definition` (section 2.2).
    #[error("an executable document must not contain {describe}")]
    TypeSystemDefinition {
        name: Option<Name>,
        describe: StaticText,
    },
    /// An anonymous operation beside others, at its node (section 2.3). It is reported of a kept one for each
    /// named operation that comes after it, and once for the further anonymous ones. It is also reported of
    /// each anonymous one that comes after a kept operation.
    #[error("anonymous operation cannot be selected when the document contains other operations")]
    AmbiguousAnonymousOperation,
    /// An operation whose name a kept one has, at its name, with the kept name (section 2.3).
    #[error("the operation `{name_at_previous_location}` is defined multiple times in the document")]
    OperationNameCollision {
        name_at_previous_location: Name,
    },
    /// A fragment whose name a kept one has, at its name, with the kept name (section 2.8).
    #[error("the fragment `{name_at_previous_location}` is defined multiple times in the document")]
    FragmentNameCollision {
        name_at_previous_location: Name,
    },
    /// An operation of a type of operation that has no root in the schema: at its node, with the keyword
    /// (section 3.3.1).
    #[error("`{operation_type}` root operation type is not defined")]
    UndefinedRootOperation {
        operation_type: StaticText,
    },
    /// A fragment whose condition is no type of the schema: at the condition, with both names (section
    /// 2.8.1).
    #[error("type condition `{type_name}` of fragment `{fragment_name}` is not a type defined in the schema")]
    UndefinedTypeInNamedFragmentTypeCondition {
        type_name: NamedType,
        fragment_name: Name,
    },
    /// An inline fragment whose condition is no type of the schema: at the condition, with it and the path
    /// (section 2.8.2).
    #[error("type condition `{type_name}` of inline fragment is not a type defined in the schema")]
    UndefinedTypeInInlineFragmentTypeCondition {
        type_name: NamedType,
        path: SelectionPath,
    },
    /// A field of a scalar type that has subselections: at its node, with the type's name and the path
    /// (section 5.3.3).
    #[error("field selection of scalar type `{type_name}` must not have subselections")]
    SubselectionOnScalarType {
        type_name: NamedType,
        path: SelectionPath,
    },
    /// A field of an enum type that has subselections: at its node, with the type's name and the path
    /// (section 5.3.3).
    #[error("field selection of enum type `{type_name}` must not have subselections")]
    SubselectionOnEnumType {
        type_name: NamedType,
        path: SelectionPath,
    },
    /// A field that the type which it is selected from doesn't have. It is at its name, with the key of the
    /// type, its name and the path (section 2.5).
    #[error("type `{type_name}` does not have a field `{field_name}`")]
    UndefinedField {
        type_name: NamedType,
        field_name: Name,
        path: SelectionPath,
    },
}

/// What is wrong, and the location that it is about.
pub type Fault = (Option<SourceSpan>, BuildError);

/// The faults of a build, in order.
pub type Faults = Vec<Fault>;
