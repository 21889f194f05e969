//! What one line says. Each error is out of memory.
ghost use Rattle.std.specs.Prelude.{◌≡◌, IfOk};
ghost use Rattle.bench_notation.specs.Components.{applied_directive, enum_value, input_value};

use graphql_ast::directive::{Directive, DirectiveList};
use graphql_ast::type_reference::Type;
use graphql_ast::type_system::{EnumValueDefinition, InputValueDefinition};
use graphql_nodes::collections::items::Items;
use graphql_nodes::name::Name;
use graphql_nodes::node::Node;
use graphql_nodes::source::SourceSpan;
use std::alloc::{AllocError, Global};

/// A directive without arguments.
pub fn applied_directive(alloc: Global, name: Name) -> Directive
    ensures { result ≡ applied_directive name }
{
    Directive {
        name,
        arguments: Items::new(alloc),
    }
}

/// An argument, or a field of an input object type, at this location.
pub fn input_value(
    alloc: Global,
    name: Name,
    ty: Type,
    directives: DirectiveList,
    location: SourceSpan,
) -> Result<Node<InputValueDefinition>, AllocError>
    ensures { IfOk result (λ node. node ≡ input_value name ty directives location) }
{
    let value = InputValueDefinition {
        description: None,
        name,
        ty: Node::new_opt_location(alloc, ty, Some(location))?,
        default_value: None,
        directives,
    };
    Node::new_opt_location(alloc, value, Some(location))
}

/// A value of an enum.
pub fn enum_value(alloc: Global, value: Name) -> EnumValueDefinition
    ensures { result ≡ enum_value value }
{
    EnumValueDefinition {
        description: None,
        value,
        directives: DirectiveList::new(alloc),
    }
}
