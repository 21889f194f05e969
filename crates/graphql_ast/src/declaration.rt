//! What a definition or extension of a type or of the schema says, whatever its kind, and the definition that
//! is made of it. GraphQL specification of October 2021, sections 3.3 and 3.5 to 3.10.
ghost use Rattle.std.specs.Prelude.{◌≡◌, IfOk};

use crate::definition::Definition;
use crate::directive::DirectiveList;
use crate::parts::Parts;
use crate::type_system::{
    EnumTypeDefinition, EnumTypeExtension, InputObjectTypeDefinition, InputObjectTypeExtension,
    InterfaceTypeDefinition, InterfaceTypeExtension, ObjectTypeDefinition, ObjectTypeExtension,
    ScalarTypeDefinition, ScalarTypeExtension, SchemaDefinition, SchemaExtension,
    UnionTypeDefinition, UnionTypeExtension,
};
use graphql_nodes::name::Name;
use graphql_nodes::node::Node;
use graphql_nodes::node_str::NodeStr;
use graphql_nodes::source::SourceSpan;
use graphql_nodes::type_kind::TypeKind;
use std::alloc::{AllocError, Global};

/// What a definition or extension of a type says.
#[derive(Drop)]
pub struct TypeDeclaration {
    pub kind: TypeKind,
    pub name: Name,
    pub is_extension: bool,
    /// Left out of an extension.
    pub description: Option<NodeStr>,
    /// Where it stands in a source, if it is known.
    pub location: Option<SourceSpan>,
    /// Those of a sort that the kind does not have are left out.
    pub parts: Parts,
}

/// What a definition or extension of the schema says.
#[derive(Drop)]
pub struct SchemaDeclaration {
    pub is_extension: bool,
    /// Left out of an extension.
    pub description: Option<NodeStr>,
    /// Where it stands in a source, if it is known.
    pub location: Option<SourceSpan>,
    /// Those other than directives and roots are left out.
    pub parts: Parts,
}

impl TypeDeclaration {
    ghost use Rattle.graphql_ast.specs.Declarations.{made_type};

    /// The definition or extension that says this: of its parts each list that the kind has, in order.
    ///
    /// The error is out of memory, and drops the parts.
    pub fn into_definition(self, alloc: Global) -> Result<Definition, AllocError>
        ensures { IfOk result (λ definition. definition ≡ made_type self) }
    {
        let TypeDeclaration {
            kind,
            name,
            is_extension,
            description,
            location,
            parts,
        } = self;
        let Parts {
            directives,
            names,
            fields,
            values,
            input_fields,
            roots: _,
        } = parts;
        let directives = DirectiveList(directives);
        // the extension with these fields, or the definition, which has the description too
        macro_rules! made {
            ($extension:ident or $definition:ident { $($field:tt)* }) => {
                if is_extension {
                    placed(alloc, $extension { $($field)* }, location)
                } else {
                    placed(alloc, $definition { description, $($field)* }, location)
                }
            };
        }
        match kind {
            TypeKind::Scalar =>
                made!(ScalarTypeExtension or ScalarTypeDefinition { name, directives }),
            TypeKind::Object => made!(ObjectTypeExtension or ObjectTypeDefinition {
                name, implements_interfaces: names, directives, fields
            }),
            TypeKind::Interface => made!(InterfaceTypeExtension or InterfaceTypeDefinition {
                name, implements_interfaces: names, directives, fields
            }),
            TypeKind::Union => made!(UnionTypeExtension or UnionTypeDefinition {
                name, directives, members: names
            }),
            TypeKind::Enum =>
                made!(EnumTypeExtension or EnumTypeDefinition { name, directives, values }),
            TypeKind::InputObject => made!(InputObjectTypeExtension or InputObjectTypeDefinition {
                name, directives, fields: input_fields
            }),
        }
    }
}

impl SchemaDeclaration {
    ghost use Rattle.graphql_ast.specs.Declarations.{made_schema};

    /// The definition or extension that says this: of its parts the directives and the roots, in order.
    ///
    /// The error is out of memory, and drops the parts.
    pub fn into_definition(self, alloc: Global) -> Result<Definition, AllocError>
        ensures { IfOk result (λ definition. definition ≡ made_schema self) }
    {
        let SchemaDeclaration {
            is_extension,
            description,
            location,
            parts,
        } = self;
        let (directives, root_operations) = parts.into_schema_parts();
        if is_extension {
            let value = SchemaExtension {
                directives,
                root_operations,
            };
            placed(alloc, value, location)
        } else {
            let value = SchemaDefinition {
                description,
                directives,
                root_operations,
            };
            placed(alloc, value, location)
        }
    }
}

/// What a value becomes that stands at a location, if one is given. The error is out of memory.
fn placed<T: Drop, D: From<Node<T>>>(
    alloc: Global,
    value: T,
    location: Option<SourceSpan>,
) -> Result<D, AllocError>
    ensures { IfOk result (λ made. D.from_gives (record { value = value; location = location }) made) }
{
    Ok(D::from(Node::new_opt_location(alloc, value, location)?))
}
