//! What a build finds wrong.

use graphql_nodes::collections::static_text::StaticText;
use graphql_nodes::name::Name;
use graphql_nodes::source::SourceSpan;
use thiserror::Error;

/// What is wrong with a definition, an extension or a component that a build doesn't use: GraphQL
/// specification of October 2021, section 3. A name of the kept thing has the location of that.
///
/// Of a type the first definition is kept, and of its components the first of each name. Those of the
/// definition come first, and then those of the extensions of its kind, in order. Of the schema the first
/// definition is kept, and of its roots the first of each operation.
///
/// Errors are equal where their fields are: names by their texts, and `previous_location` and `def_location`
/// too.
#[derive(Debug, Drop, Clone, PartialEq, Eq, Error)]
pub enum BuildError {
    /// An operation or a fragment, at its node, with what it is, as `an operation definition` (section 3).
    #[error("a schema document must not contain {describe}")]
    ExecutableDefinition {
        describe: StaticText,
    },
    /// A further schema definition, at its node, with the location of the first (section 3.3).
    #[error("must not have multiple `schema` definitions")]
    SchemaDefinitionCollision {
        previous_location: Option<SourceSpan>,
    },
    /// A definition of a directive where another one of its name stands before, which is not built-in. It is
    /// at its name, with the location of the name of the first such one (section 3.13).
    #[error("the directive `@{name}` is defined multiple times in the schema")]
    DirectiveDefinitionCollision {
        previous_location: Option<SourceSpan>,
        name: Name,
    },
    /// A further definition of a type's name, at its name, with the location of the first one's name (section
    /// 3.3). Where the first one is built-in, it may be ignored, or be of the next sort.
    #[error("the type `{name}` is defined multiple times in the schema")]
    TypeDefinitionCollision {
        previous_location: Option<SourceSpan>,
        name: Name,
    },
    /// A further definition of a type's name that is of a scalar type, where the first one is built-in: at
    /// its node (section 3.5). It may be ignored.
    #[error("built-in scalar definitions must be omitted")]
    BuiltInScalarTypeRedefinition,
    /// An extension of the schema where no schema definition is given or implied, at its node (section
    /// 3.3.2). Where extensions are adopted this doesn't come.
    #[error("schema extension without a schema definition")]
    OrphanSchemaExtension,
    /// An extension of a type's name that no definition has, at its name (section 3.4.3). Where extensions
    /// are adopted this doesn't come.
    #[error("type extension for undefined type `{name}`")]
    OrphanTypeExtension {
        name: Name,
    },
    /// An extension of another kind than the first definition of its name, at its name (section 3.4.3). The
    /// fault has both kinds, as `an enum type extension` and `an object type`, and the location of the name
    /// of that definition.
    #[error("adding {describe_ext}, but `{name}` is {describe_def}")]
    TypeExtensionKindMismatch {
        name: Name,
        describe_ext: StaticText,
        def_location: Option<SourceSpan>,
        describe_def: StaticText,
    },
    /// A root of an operation that has one already, at the root's node (section 3.3.1). The fault has the
    /// keyword of the operation and the location of the name that is kept.
    #[error("duplicate definitions for the `{operation_type}` root operation type")]
    DuplicateRootOperation {
        previous_location: Option<SourceSpan>,
        operation_type: StaticText,
    },
    /// An interface that an object type lists already. It is at its name, with the name that is kept, and the
    /// type's name as it stands beside the further one (section 3.6). So it is with the six errors below.
    #[error("object type `{type_name}` implements interface `{name_at_previous_location}` more than once")]
    DuplicateImplementsInterfaceInObject {
        name_at_previous_location: Name,
        type_name: Name,
    },
    /// An interface that an interface type lists already, at its name (section 3.7).
    #[error("interface type `{type_name}` implements interface `{name_at_previous_location}` more than once")]
    DuplicateImplementsInterfaceInInterface {
        name_at_previous_location: Name,
        type_name: Name,
    },
    /// A field whose name the object type has already, at its node (section 3.6).
    #[error("duplicate definitions for the `{name_at_previous_location}` field of object type `{type_name}`")]
    ObjectFieldNameCollision {
        name_at_previous_location: Name,
        type_name: Name,
    },
    /// A field whose name the interface type has already, at its node (section 3.7).
    #[error("duplicate definitions for the `{name_at_previous_location}` field of interface type `{type_name}`")]
    InterfaceFieldNameCollision {
        name_at_previous_location: Name,
        type_name: Name,
    },
    /// A value whose name the enum type has already, at its node (section 3.9).
    #[error("duplicate definitions for the `{name_at_previous_location}` value of enum type `{type_name}`")]
    EnumValueNameCollision {
        name_at_previous_location: Name,
        type_name: Name,
    },
    /// A member that the union type lists already, at its name (section 3.8).
    #[error("duplicate definitions for the `{name_at_previous_location}` member of union type `{type_name}`")]
    UnionMemberNameCollision {
        name_at_previous_location: Name,
        type_name: Name,
    },
    /// A field whose name the input object type has already, at its node (section 3.10).
    #[error("duplicate definitions for the `{name_at_previous_location}` field of input object type `{type_name}`")]
    InputFieldNameCollision {
        name_at_previous_location: Name,
        type_name: Name,
    },
}

/// What is wrong, and the location that it is about.
pub type Fault = (Option<SourceSpan>, BuildError);

/// The faults of a build, in the order in which they are found.
pub type Faults = Vec<Fault>;
