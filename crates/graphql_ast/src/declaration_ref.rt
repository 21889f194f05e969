//! What a definition of a document says, read from it: GraphQL specification of October 2021, sections 2.2,
//! 3.3 and 3.5 to 3.10.
ghost use Rattle.std.specs.Prelude.{◌≡◌};

use crate::definition::Definition;
use crate::operation::{FragmentDefinition, OperationDefinition};
use crate::parts::PartsRef;
use crate::type_system::DirectiveDefinition;
use graphql_nodes::name::Name;
use graphql_nodes::node::Node;
use graphql_nodes::node_str::NodeStr;
use graphql_nodes::source::SourceSpan;
use graphql_nodes::type_kind::TypeKind;

/// What a definition or extension of a type says, borrowed from it.
#[derive(Clone, Copy)]
pub struct TypeDeclarationRef<'a> {
    pub kind: TypeKind,
    pub name: &'a Name,
    pub is_extension: bool,
    /// An extension has none.
    pub description: Option<&'a NodeStr>,
    /// Where it stands in a source, if it is known.
    pub location: Option<SourceSpan>,
    pub parts: PartsRef<'a>,
}

/// What a definition or extension of the schema says, borrowed from it.
#[derive(Clone, Copy)]
pub struct SchemaDeclarationRef<'a> {
    pub is_extension: bool,
    /// An extension has none.
    pub description: Option<&'a NodeStr>,
    /// Where it stands in a source, if it is known.
    pub location: Option<SourceSpan>,
    pub parts: PartsRef<'a>,
}

/// What a definition of a document says, borrowed from it.
#[derive(Clone, Copy)]
pub enum DeclarationRef<'a> {
    /// The definition or extension of a type.
    Type(TypeDeclarationRef<'a>),
    /// The definition or extension of the schema.
    Schema(SchemaDeclarationRef<'a>),
    Directive(&'a Node<DirectiveDefinition>),
    Operation(&'a Node<OperationDefinition>),
    Fragment(&'a Node<FragmentDefinition>),
}

impl<'a> DeclarationRef<'a> {
    ghost use Rattle.graphql_ast.specs.Declarations.{declaration_of, defined, extended};
    ghost use Rattle.graphql_ast.specs.DeclarationsSeen.{declaration_seen};
    ghost use Rattle.graphql_ast.specs.PartsSeen.{parts_seen};

    /// A definition of a type, which stands in this node.
    fn defined<T>(
        node: &'a Node<T>,
        kind: TypeKind,
        name: &'a Name,
        description: &'a Option<NodeStr>,
        parts: PartsRef<'a>,
    ) -> DeclarationRef<'a>
        ensures { let seen = defined kind name.now description.now node.now.location
            (parts_seen parts.entry) in
            declaration_seen result ≡ seen }
    {
        DeclarationRef::Type(TypeDeclarationRef {
            kind,
            name,
            is_extension: false,
            description: description.as_ref(),
            location: node.location(),
            parts,
        })
    }

    /// An extension of a type, which stands in this node.
    fn extended<T>(
        node: &'a Node<T>,
        kind: TypeKind,
        name: &'a Name,
        parts: PartsRef<'a>,
    ) -> DeclarationRef<'a>
        ensures { declaration_seen result
            ≡ extended kind name.now node.now.location (parts_seen parts.entry) }
    {
        DeclarationRef::Type(TypeDeclarationRef {
            kind,
            name,
            is_extension: true,
            description: None,
            location: node.location(),
            parts,
        })
    }

    /// What this definition says.
    pub fn of(definition: &'a Definition) -> DeclarationRef<'a>
        ensures { declaration_seen result ≡ declaration_of definition.now }
    {
        // the directives of the node, and these lists of it
        macro_rules! parts {
            ($node:ident) => { PartsRef::directed(&$node.directives) };
            ($node:ident $(, $sort:ident: $list:ident)+) => {
                PartsRef {
                    $($sort: $node.$list.as_slice(),)+
                    ..PartsRef::directed(&$node.directives)
                }
            };
        }
        macro_rules! defined {
            ($node:ident, $kind:ident $(, $sort:ident: $list:ident)*) => {{
                let parts = parts!($node $(, $sort: $list)*);
                Self::defined($node, TypeKind::$kind, &$node.name, &$node.description, parts)
            }};
        }
        macro_rules! extended {
            ($node:ident, $kind:ident $(, $sort:ident: $list:ident)*) => {{
                let parts = parts!($node $(, $sort: $list)*);
                Self::extended($node, TypeKind::$kind, &$node.name, parts)
            }};
        }
        match definition {
            Definition::OperationDefinition(node) => DeclarationRef::Operation(node),
            Definition::FragmentDefinition(node) => DeclarationRef::Fragment(node),
            Definition::DirectiveDefinition(node) => DeclarationRef::Directive(node),
            Definition::SchemaDefinition(node) => DeclarationRef::Schema(SchemaDeclarationRef {
                is_extension: false,
                description: node.description.as_ref(),
                location: node.location(),
                parts: parts!(node, roots: root_operations),
            }),
            Definition::ScalarTypeDefinition(node) => defined!(node, Scalar),
            Definition::ObjectTypeDefinition(node) =>
                defined!(node, Object, names: implements_interfaces, fields: fields),
            Definition::InterfaceTypeDefinition(node) =>
                defined!(node, Interface, names: implements_interfaces, fields: fields),
            Definition::UnionTypeDefinition(node) => defined!(node, Union, names: members),
            Definition::EnumTypeDefinition(node) => defined!(node, Enum, values: values),
            Definition::InputObjectTypeDefinition(node) =>
                defined!(node, InputObject, input_fields: fields),
            Definition::SchemaExtension(node) => DeclarationRef::Schema(SchemaDeclarationRef {
                is_extension: true,
                description: None,
                location: node.location(),
                parts: parts!(node, roots: root_operations),
            }),
            Definition::ScalarTypeExtension(node) => extended!(node, Scalar),
            Definition::ObjectTypeExtension(node) =>
                extended!(node, Object, names: implements_interfaces, fields: fields),
            Definition::InterfaceTypeExtension(node) =>
                extended!(node, Interface, names: implements_interfaces, fields: fields),
            Definition::UnionTypeExtension(node) => extended!(node, Union, names: members),
            Definition::EnumTypeExtension(node) => extended!(node, Enum, values: values),
            Definition::InputObjectTypeExtension(node) =>
                extended!(node, InputObject, input_fields: fields),
        }
    }
}
