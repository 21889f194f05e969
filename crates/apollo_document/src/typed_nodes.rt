//! What typing makes of a node, over what it makes of what stands below. Arguments and directives are shared
//! with the input. GraphQL specification of October 2021, sections 2.5 to 2.8.
ghost use Rattle.std.specs.Prelude.{◌≡◌, IfOk};
ghost use Rattle.apollo_document.specs.Elaborated as spec;
ghost use Rattle.apollo_document.specs.Stripped.{in_place_of};
ghost use Rattle.apollo_document.specs.Typable.{unknown_field};

use apollo_executable::selection::{Field, FragmentSpread, InlineFragment, SelectionSet};
use graphql_ast::directive::DirectiveList;
use graphql_ast::selection as ast;
use graphql_ast::type_reference::Type;
use graphql_ast::type_system::FieldDefinition;
use graphql_nodes::collections::items::Items;
use graphql_nodes::name::{Name, NamedType};
use graphql_nodes::node::Node;
use std::alloc::{AllocError, Global};

/// The definition of a field of this name without a schema: its type is `UNKNOWN`.
// Apart from what makes typed fields, which would make room for it at each field.
#[inline(never)]
pub(crate) fn unknown_field(alloc: Global, name: &Name) -> Result<Node<FieldDefinition>, AllocError>
    ensures { IfOk result (λ definition. definition ≡ unknown_field name.now) }
{
    let definition = FieldDefinition {
        description: None,
        name: name.clone()?,
        arguments: Items::new(alloc),
        ty: Type::Named(NamedType::new_unchecked(alloc, "UNKNOWN")?),
        directives: DirectiveList::new(alloc),
    };
    Node::new(alloc, definition)
}

/// The spread, typed, where the node stands.
pub(crate) fn typed_spread(
    alloc: Global,
    node: &Node<ast::FragmentSpread>,
) -> Result<Node<FragmentSpread>, AllocError>
    ensures { IfOk result (λ typed. typed ≡ in_place_of node.now (spec.typed_spread node.now.value)) }
{
    let spread = FragmentSpread {
        fragment_name: node.fragment_name.clone()?,
        directives: node.directives.clone()?,
    };
    node.same_location(alloc, spread)
}

/// The field with this definition and set, where the node stands.
pub(crate) fn field_over(
    alloc: Global,
    node: &Node<ast::Field>,
    definition: Node<FieldDefinition>,
    selection_set: SelectionSet,
) -> Result<Node<Field>, AllocError>
    ensures { IfOk result (λ typed. typed
        ≡ in_place_of node.now (spec.field_over node.now.value definition selection_set)) }
{
    let field = Field {
        definition,
        alias: node.alias.clone()?,
        name: node.name.clone()?,
        arguments: node.arguments.clone()?,
        directives: node.directives.clone()?,
        selection_set,
    };
    node.same_location(alloc, field)
}

/// The inline fragment with this set, where the node stands.
pub(crate) fn inline_fragment_over(
    alloc: Global,
    node: &Node<ast::InlineFragment>,
    selection_set: SelectionSet,
) -> Result<Node<InlineFragment>, AllocError>
    ensures { IfOk result (λ typed. typed
        ≡ in_place_of node.now
        (spec.inline_over node.now.value.type_condition node.now.value.directives selection_set)) }
{
    let inline = InlineFragment {
        type_condition: node.type_condition.clone()?,
        directives: node.directives.clone()?,
        selection_set,
    };
    node.same_location(alloc, inline)
}
