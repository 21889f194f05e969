//! The definitions of a document: GraphQL specification of October 2021, section 2.2.
ghost use Rattle.std.specs.Prelude.{◌≡◌, IfOk, ◌↔◌, IsTrue};
ghost use Rattle.std.specs.Option.{option_copied};

use crate::directive::DirectiveList;
use crate::operation::{FragmentDefinition, OperationDefinition};
use crate::type_system::{
    DirectiveDefinition, EnumTypeDefinition, EnumTypeExtension, InputObjectTypeDefinition,
    InputObjectTypeExtension, InterfaceTypeDefinition, InterfaceTypeExtension,
    ObjectTypeDefinition, ObjectTypeExtension, ScalarTypeDefinition, ScalarTypeExtension,
    SchemaDefinition, SchemaExtension, UnionTypeDefinition, UnionTypeExtension,
};
use graphql_nodes::name::Name;
use graphql_nodes::node::Node;
use graphql_nodes::of_variants;
use graphql_nodes::source::SourceSpan;
use graphql_nodes::type_kind::TypeKind;

/// What is made of the node that a definition holds, whatever its kind.
macro_rules! of_held {
    ($definition:expr, $node:ident => $made:expr) => {
        of_variants!($definition, $node => $made;
            OperationDefinition, FragmentDefinition, DirectiveDefinition,
            SchemaDefinition, ScalarTypeDefinition, ObjectTypeDefinition, InterfaceTypeDefinition,
            UnionTypeDefinition, EnumTypeDefinition, InputObjectTypeDefinition,
            SchemaExtension, ScalarTypeExtension, ObjectTypeExtension, InterfaceTypeExtension,
            UnionTypeExtension, EnumTypeExtension, InputObjectTypeExtension)
    };
}

pub(crate) use of_held;

/// The node that a definition holds, if it is of this kind.
macro_rules! node_if {
    ($definition:expr, $kind:ident) => {
        match $definition {
            Definition::$kind(node) => Some(node),
            _ => None,
        }
    };
}

/// A definition or extension of a document. `From` of a node is the variant of its kind, which holds this
/// node.
#[derive(Debug, Drop, PartialEq, Eq, Hash)]
pub enum Definition {
    OperationDefinition(Node<OperationDefinition>),
    FragmentDefinition(Node<FragmentDefinition>),
    DirectiveDefinition(Node<DirectiveDefinition>),
    SchemaDefinition(Node<SchemaDefinition>),
    ScalarTypeDefinition(Node<ScalarTypeDefinition>),
    ObjectTypeDefinition(Node<ObjectTypeDefinition>),
    InterfaceTypeDefinition(Node<InterfaceTypeDefinition>),
    UnionTypeDefinition(Node<UnionTypeDefinition>),
    EnumTypeDefinition(Node<EnumTypeDefinition>),
    InputObjectTypeDefinition(Node<InputObjectTypeDefinition>),
    SchemaExtension(Node<SchemaExtension>),
    ScalarTypeExtension(Node<ScalarTypeExtension>),
    ObjectTypeExtension(Node<ObjectTypeExtension>),
    InterfaceTypeExtension(Node<InterfaceTypeExtension>),
    UnionTypeExtension(Node<UnionTypeExtension>),
    EnumTypeExtension(Node<EnumTypeExtension>),
    InputObjectTypeExtension(Node<InputObjectTypeExtension>),
}

impl Definition {
    ghost use Rattle.graphql_ast.specs.DefinitionTexts.{definition_text};
    ghost use Rattle.graphql_ast.specs.DefinitionKinds.{as_directive_definition, as_enum_type_definition};
    ghost use Rattle.graphql_ast.specs.DefinitionKinds.{as_enum_type_extension, as_fragment_definition};
    ghost use Rattle.graphql_ast.specs.DefinitionKinds.{as_input_object_type_definition};
    ghost use Rattle.graphql_ast.specs.DefinitionKinds.{as_input_object_type_extension};
    ghost use Rattle.graphql_ast.specs.DefinitionKinds.{as_interface_type_definition};
    ghost use Rattle.graphql_ast.specs.DefinitionKinds.{as_interface_type_extension};
    ghost use Rattle.graphql_ast.specs.DefinitionKinds.{as_object_type_definition, as_object_type_extension};
    ghost use Rattle.graphql_ast.specs.DefinitionKinds.{as_operation_definition, as_scalar_type_definition};
    ghost use Rattle.graphql_ast.specs.DefinitionKinds.{as_scalar_type_extension, as_schema_definition};
    ghost use Rattle.graphql_ast.specs.DefinitionKinds.{as_schema_extension, as_union_type_definition};
    ghost use Rattle.graphql_ast.specs.DefinitionKinds.{as_union_type_extension, definition_directives};
    ghost use Rattle.graphql_ast.specs.DefinitionKinds.{is_executable, is_extension};
    ghost use Rattle.graphql_ast.specs.Definitions.{definition_name, definition_location, definition_kind};

    /// The name of what is defined or extended: none for the schema, nor for an anonymous operation.
    pub fn name(&self) -> Option<&Name>
        ensures { option_copied result ≡ definition_name self.now }
    {
        match self {
            Definition::OperationDefinition(node) => node.name.as_ref(),
            Definition::FragmentDefinition(node) => Some(&node.name),
            Definition::DirectiveDefinition(node) => Some(&node.name),
            Definition::SchemaDefinition(_) => None,
            Definition::ScalarTypeDefinition(node) => Some(&node.name),
            Definition::ObjectTypeDefinition(node) => Some(&node.name),
            Definition::InterfaceTypeDefinition(node) => Some(&node.name),
            Definition::UnionTypeDefinition(node) => Some(&node.name),
            Definition::EnumTypeDefinition(node) => Some(&node.name),
            Definition::InputObjectTypeDefinition(node) => Some(&node.name),
            Definition::SchemaExtension(_) => None,
            Definition::ScalarTypeExtension(node) => Some(&node.name),
            Definition::ObjectTypeExtension(node) => Some(&node.name),
            Definition::InterfaceTypeExtension(node) => Some(&node.name),
            Definition::UnionTypeExtension(node) => Some(&node.name),
            Definition::EnumTypeExtension(node) => Some(&node.name),
            Definition::InputObjectTypeExtension(node) => Some(&node.name),
        }
    }

    /// The directives that are applied to what is defined or extended: none where that is a directive, which
    /// can't have any.
    pub fn directives(&self) -> Option<&DirectiveList>
        ensures { option_copied result ≡ definition_directives self.now }
    {
        match self {
            Definition::OperationDefinition(node) => Some(&node.directives),
            Definition::FragmentDefinition(node) => Some(&node.directives),
            Definition::DirectiveDefinition(_) => None,
            Definition::SchemaDefinition(node) => Some(&node.directives),
            Definition::ScalarTypeDefinition(node) => Some(&node.directives),
            Definition::ObjectTypeDefinition(node) => Some(&node.directives),
            Definition::InterfaceTypeDefinition(node) => Some(&node.directives),
            Definition::UnionTypeDefinition(node) => Some(&node.directives),
            Definition::EnumTypeDefinition(node) => Some(&node.directives),
            Definition::InputObjectTypeDefinition(node) => Some(&node.directives),
            Definition::SchemaExtension(node) => Some(&node.directives),
            Definition::ScalarTypeExtension(node) => Some(&node.directives),
            Definition::ObjectTypeExtension(node) => Some(&node.directives),
            Definition::InterfaceTypeExtension(node) => Some(&node.directives),
            Definition::UnionTypeExtension(node) => Some(&node.directives),
            Definition::EnumTypeExtension(node) => Some(&node.directives),
            Definition::InputObjectTypeExtension(node) => Some(&node.directives),
        }
    }

    /// Whether it is an operation or a fragment, and so no definition or extension of the type system.
    pub fn is_executable_definition(&self) -> bool
        ensures { result ≡ is_executable self.now }
    {
        matches!(
            self,
            Definition::OperationDefinition(_) | Definition::FragmentDefinition(_)
        )
    }

    /// Whether it is an extension of a type or of the schema.
    pub fn is_extension_definition(&self) -> bool
        ensures { result ≡ is_extension self.now }
    {
        matches!(
            self,
            Definition::SchemaExtension(_)
                | Definition::ScalarTypeExtension(_)
                | Definition::ObjectTypeExtension(_)
                | Definition::InterfaceTypeExtension(_)
                | Definition::UnionTypeExtension(_)
                | Definition::EnumTypeExtension(_)
                | Definition::InputObjectTypeExtension(_)
        )
    }

    /// Where the definition stands in a source, if it is known.
    pub fn location(&self) -> Option<SourceSpan>
        ensures { result ≡ definition_location self.now }
    {
        of_held!(self, node => node.location())
    }

    /// The kind of the type that is defined or extended, if one is.
    pub fn type_kind(&self) -> Option<TypeKind>
        ensures { result ≡ definition_kind self.now }
    {
        match self {
            Definition::OperationDefinition(_)
            | Definition::FragmentDefinition(_)
            | Definition::DirectiveDefinition(_)
            | Definition::SchemaDefinition(_)
            | Definition::SchemaExtension(_) => None,
            Definition::ScalarTypeDefinition(_) | Definition::ScalarTypeExtension(_) => {
                Some(TypeKind::Scalar)
            }
            Definition::ObjectTypeDefinition(_) | Definition::ObjectTypeExtension(_) => {
                Some(TypeKind::Object)
            }
            Definition::InterfaceTypeDefinition(_) | Definition::InterfaceTypeExtension(_) => {
                Some(TypeKind::Interface)
            }
            Definition::UnionTypeDefinition(_) | Definition::UnionTypeExtension(_) => {
                Some(TypeKind::Union)
            }
            Definition::EnumTypeDefinition(_) | Definition::EnumTypeExtension(_) => {
                Some(TypeKind::Enum)
            }
            Definition::InputObjectTypeDefinition(_) | Definition::InputObjectTypeExtension(_) =>
                Some(TypeKind::InputObject),
        }
    }

    /// What a message calls the definition, as `an object type extension`.
    pub fn describe(&self) -> &'static str
        ensures { result.now ≡ definition_text self.now }
    {
        match self {
            Definition::OperationDefinition(_) => "an operation definition",
            Definition::FragmentDefinition(_) => "a fragment definition",
            Definition::DirectiveDefinition(_) => "a directive definition",
            Definition::SchemaDefinition(_) => "a schema definition",
            Definition::ScalarTypeDefinition(_) => TypeKind::Scalar.describe_definition(),
            Definition::ObjectTypeDefinition(_) => TypeKind::Object.describe_definition(),
            Definition::InterfaceTypeDefinition(_) => TypeKind::Interface.describe_definition(),
            Definition::UnionTypeDefinition(_) => TypeKind::Union.describe_definition(),
            Definition::EnumTypeDefinition(_) => TypeKind::Enum.describe_definition(),
            Definition::InputObjectTypeDefinition(_) => TypeKind::InputObject.describe_definition(),
            Definition::SchemaExtension(_) => "a schema extension",
            Definition::ScalarTypeExtension(_) => TypeKind::Scalar.describe_extension(),
            Definition::ObjectTypeExtension(_) => TypeKind::Object.describe_extension(),
            Definition::InterfaceTypeExtension(_) => TypeKind::Interface.describe_extension(),
            Definition::UnionTypeExtension(_) => TypeKind::Union.describe_extension(),
            Definition::EnumTypeExtension(_) => TypeKind::Enum.describe_extension(),
            Definition::InputObjectTypeExtension(_) => TypeKind::InputObject.describe_extension(),
        }
    }
    /// The definition of an operation, if it is one.
    pub fn as_operation_definition(&self) -> Option<&Node<OperationDefinition>>
        ensures { option_copied result ≡ as_operation_definition self.now }
    {
        node_if!(self, OperationDefinition)
    }

    /// The definition of a fragment, if it is one.
    pub fn as_fragment_definition(&self) -> Option<&Node<FragmentDefinition>>
        ensures { option_copied result ≡ as_fragment_definition self.now }
    {
        node_if!(self, FragmentDefinition)
    }

    /// The definition of a directive, if it is one.
    pub fn as_directive_definition(&self) -> Option<&Node<DirectiveDefinition>>
        ensures { option_copied result ≡ as_directive_definition self.now }
    {
        node_if!(self, DirectiveDefinition)
    }

    /// The definition of the schema, if it is one.
    pub fn as_schema_definition(&self) -> Option<&Node<SchemaDefinition>>
        ensures { option_copied result ≡ as_schema_definition self.now }
    {
        node_if!(self, SchemaDefinition)
    }

    /// The definition of a scalar type, if it is one.
    pub fn as_scalar_type_definition(&self) -> Option<&Node<ScalarTypeDefinition>>
        ensures { option_copied result ≡ as_scalar_type_definition self.now }
    {
        node_if!(self, ScalarTypeDefinition)
    }

    /// The definition of an object type, if it is one.
    pub fn as_object_type_definition(&self) -> Option<&Node<ObjectTypeDefinition>>
        ensures { option_copied result ≡ as_object_type_definition self.now }
    {
        node_if!(self, ObjectTypeDefinition)
    }

    /// The definition of an interface type, if it is one.
    pub fn as_interface_type_definition(&self) -> Option<&Node<InterfaceTypeDefinition>>
        ensures { option_copied result ≡ as_interface_type_definition self.now }
    {
        node_if!(self, InterfaceTypeDefinition)
    }

    /// The definition of a union type, if it is one.
    pub fn as_union_type_definition(&self) -> Option<&Node<UnionTypeDefinition>>
        ensures { option_copied result ≡ as_union_type_definition self.now }
    {
        node_if!(self, UnionTypeDefinition)
    }

    /// The definition of an enum type, if it is one.
    pub fn as_enum_type_definition(&self) -> Option<&Node<EnumTypeDefinition>>
        ensures { option_copied result ≡ as_enum_type_definition self.now }
    {
        node_if!(self, EnumTypeDefinition)
    }

    /// The definition of an input object type, if it is one.
    pub fn as_input_object_type_definition(&self) -> Option<&Node<InputObjectTypeDefinition>>
        ensures { option_copied result ≡ as_input_object_type_definition self.now }
    {
        node_if!(self, InputObjectTypeDefinition)
    }

    /// The extension of the schema, if it is one.
    pub fn as_schema_extension(&self) -> Option<&Node<SchemaExtension>>
        ensures { option_copied result ≡ as_schema_extension self.now }
    {
        node_if!(self, SchemaExtension)
    }

    /// The extension of a scalar type, if it is one.
    pub fn as_scalar_type_extension(&self) -> Option<&Node<ScalarTypeExtension>>
        ensures { option_copied result ≡ as_scalar_type_extension self.now }
    {
        node_if!(self, ScalarTypeExtension)
    }

    /// The extension of an object type, if it is one.
    pub fn as_object_type_extension(&self) -> Option<&Node<ObjectTypeExtension>>
        ensures { option_copied result ≡ as_object_type_extension self.now }
    {
        node_if!(self, ObjectTypeExtension)
    }

    /// The extension of an interface type, if it is one.
    pub fn as_interface_type_extension(&self) -> Option<&Node<InterfaceTypeExtension>>
        ensures { option_copied result ≡ as_interface_type_extension self.now }
    {
        node_if!(self, InterfaceTypeExtension)
    }

    /// The extension of a union type, if it is one.
    pub fn as_union_type_extension(&self) -> Option<&Node<UnionTypeExtension>>
        ensures { option_copied result ≡ as_union_type_extension self.now }
    {
        node_if!(self, UnionTypeExtension)
    }

    /// The extension of an enum type, if it is one.
    pub fn as_enum_type_extension(&self) -> Option<&Node<EnumTypeExtension>>
        ensures { option_copied result ≡ as_enum_type_extension self.now }
    {
        node_if!(self, EnumTypeExtension)
    }

    /// The extension of an input object type, if it is one.
    pub fn as_input_object_type_extension(&self) -> Option<&Node<InputObjectTypeExtension>>
        ensures { option_copied result ≡ as_input_object_type_extension self.now }
    {
        node_if!(self, InputObjectTypeExtension)
    }
}
