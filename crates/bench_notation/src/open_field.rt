//! A field whose lines are being read.
ghost use Rattle.std.specs.Prelude.{◌≡◌, IfOk};

use crate::nodes::input_value;
use graphql_ast::directive::DirectiveList;
use graphql_ast::parts::Part;
use graphql_ast::type_reference::Type;
use graphql_ast::type_system::{FieldDefinition, InputValueDefinition};
use graphql_nodes::collections::items::Items;
use graphql_nodes::name::Name;
use graphql_nodes::node::Node;
use graphql_nodes::source::SourceSpan;
use graphql_nodes::take_apart;
use std::alloc::{AllocError, Global};

/// A field whose directives and arguments may still come.
pub struct OpenField {
    pub location: SourceSpan,
    pub name: Name,
    pub ty: Type,
    pub arguments: Items<Node<InputValueDefinition>>,
    pub directives: DirectiveList,
}

impl Drop for OpenField {
    fn drop(self) {
        take_apart!(self: location, name, ty, arguments, directives);
    }
}

impl OpenField {
    ghost use Rattle.bench_notation.specs.Components.{field_alone, field_part};

    /// A field without arguments and directives.
    pub fn new(alloc: Global, name: Name, ty: Type, location: SourceSpan) -> OpenField
        ensures { result ≡ field_alone name ty location }
    {
        OpenField {
            location,
            name,
            ty,
            arguments: Items::new(alloc),
            directives: DirectiveList::new(alloc),
        }
    }

    /// The field as a part of an input object type, where it has no arguments, or of another. The error is
    /// out of memory.
    pub fn close_as_part(self, alloc: Global, is_input: bool) -> Result<Part, AllocError>
        ensures { IfOk result (λ part. part ≡ field_part is_input self) }
    {
        let OpenField {
            location,
            name,
            ty,
            arguments,
            directives,
        } = self;
        if is_input {
            let field = input_value(alloc, name, ty, directives, location)?;
            return Ok(Part::InputField(field));
        }
        let definition = FieldDefinition {
            description: None,
            name,
            arguments,
            ty,
            directives,
        };
        let field = Node::new_opt_location(alloc, definition, Some(location))?;
        Ok(Part::Field(field))
    }
}
