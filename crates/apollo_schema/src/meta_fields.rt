//! The fields that types have without declaring them: GraphQL specification of October 2021, sections 4.1 and
//! 4.2.
ghost use Rattle.std.specs.Prelude.{◌≡◌, IfOk, codes};
ghost use Rattle.graphql_nodes.specs.NameView.{plain_name};
ghost use Rattle.graphql_ast.specs.declared.type_reference.Type.{NonNullNamed};
ghost use Rattle.apollo_schema.specs.MetaFields.{plain_argument, plain_field, typename_field, schema_field};
ghost use Rattle.apollo_schema.specs.MetaFields.{type_by_name_field};

use apollo_component::component::Component;
use graphql_ast::directive::DirectiveList;
use graphql_ast::type_reference::Type;
use graphql_ast::type_system::{FieldDefinition, InputValueDefinition};
use graphql_nodes::collections::items::Items;
use graphql_nodes::name::Name;
use graphql_nodes::node::Node;
use graphql_nodes::{clone_fields, take_apart};
use std::alloc::{AllocError, Global};
use std::marker::Model;

/// The definitions of the meta-fields, which are the same in each schema. Contracts see nothing of them but
/// what the calls answer.
pub struct MetaFields {
    typename: Component<FieldDefinition>,
    schema: Component<FieldDefinition>,
    type_by_name: Component<FieldDefinition>,
}

impl Drop for MetaFields {
    fn drop(self) {
        take_apart!(self: typename, schema, type_by_name);
    }
}

impl Model for MetaFields {
    ghost use Rattle.std.specs.Prelude.{◌≡◌};
    ghost use Rattle.apollo_schema.specs.MetaFields.{typename_field, schema_field, type_by_name_field};

    ghost Value = { Unit {0} };

    ghost view = { λ _. tt };

    ghost invariant = { λ m. (m.typename ≡ typename_field) × (m.schema ≡ schema_field)
        × (m.type_by_name ≡ type_by_name_field) };
}

/// The type of this name without null.
fn non_null(alloc: Global, text: &str) -> Result<Type, AllocError>
    ensures { IfOk result (λ ty. ty ≡ NonNullNamed (plain_name text.now)) }
{
    Ok(Type::NonNullNamed(Name::new_unchecked(alloc, text)?))
}

/// The argument `name: String!`.
fn name_argument(alloc: Global) -> Result<Node<InputValueDefinition>, AllocError>
    ensures { IfOk result (λ made. made
        ≡ plain_argument (codes "name") (NonNullNamed (plain_name (codes "String")))) }
{
    let argument = InputValueDefinition {
        description: None,
        name: Name::new_unchecked(alloc, "name")?,
        ty: Node::new(alloc, non_null(alloc, "String")?)?,
        default_value: None,
        directives: DirectiveList::new(alloc),
    };
    Node::new(alloc, argument)
}

/// A field of this name, with these arguments and of this type.
fn field(
    alloc: Global,
    text: &str,
    arguments: Items<Node<InputValueDefinition>>,
    ty: Type,
) -> Result<Component<FieldDefinition>, AllocError>
    ensures { IfOk result (λ made. made ≡ plain_field text.now arguments ty) }
{
    let definition = FieldDefinition {
        description: None,
        name: Name::new_unchecked(alloc, text)?,
        arguments,
        ty,
        directives: DirectiveList::new(alloc),
    };
    Component::new(alloc, definition)
}

/// The field `__type(name: String!): __Type`.
fn type_by_name(alloc: Global) -> Result<Component<FieldDefinition>, AllocError>
    ensures { IfOk result (λ made. made ≡ type_by_name_field) }
{
    let mut arguments = Items::new(alloc);
    arguments.push(name_argument(alloc)?)?;
    let ty = Type::Named(Name::new_unchecked(alloc, "__Type")?);
    field(alloc, "__type", arguments, ty)
}

impl MetaFields {
    /// The three definitions. The error is out of memory.
    pub fn new(alloc: Global) -> Result<MetaFields, AllocError> {
        let typename = non_null(alloc, "String")?;
        let schema = non_null(alloc, "__Schema")?;
        Ok(MetaFields {
            typename: field(alloc, "__typename", Items::new(alloc), typename)?,
            schema: field(alloc, "__schema", Items::new(alloc), schema)?,
            type_by_name: type_by_name(alloc)?,
        })
    }

    /// The field `__typename: String!`, which object, interface and union types have.
    pub fn typename(&self) -> &Component<FieldDefinition>
        ensures { result.now ≡ typename_field }
    {
        &self.typename
    }

    /// The field `__schema: __Schema!`, which the root type of queries has.
    pub fn schema(&self) -> &Component<FieldDefinition>
        ensures { result.now ≡ schema_field }
    {
        &self.schema
    }

    /// The field `__type(name: String!): __Type`, which the root type of queries has.
    pub fn type_by_name(&self) -> &Component<FieldDefinition>
        ensures { result.now ≡ type_by_name_field }
    {
        &self.type_by_name
    }
}

/// A copy shares the three definitions. The error is out of memory.
impl Clone for MetaFields {
    ghost is_clone = { λ a b. b ≡ a };

    fn clone(&self) -> Result<MetaFields, AllocError> {
        clone_fields!(self: typename, schema, type_by_name)
    }
}
