//! What the definition of a directive has.
ghost use Rattle.std.specs.Prelude.{◌≡◌, IfOk};

use graphql_ast::definition::Definition;
use graphql_ast::type_system::{DirectiveDefinition, InputValueDefinition};
use graphql_nodes::collections::items::Items;
use graphql_nodes::directive_location::DirectiveLocation;
use graphql_nodes::name::Name;
use graphql_nodes::node::Node;
use graphql_nodes::source::SourceSpan;
use graphql_nodes::take_apart;
use std::alloc::{AllocError, Global};

/// What the definition of a directive has, and no other.
pub struct DirectiveParts {
    pub arguments: Items<Node<InputValueDefinition>>,
    /// Whether the directive may be applied again at the same location.
    pub is_repeatable: bool,
    /// The locations where the directive may be applied.
    pub locations: Items<DirectiveLocation>,
}

impl Drop for DirectiveParts {
    fn drop(self) {
        take_apart!(self: arguments, is_repeatable, locations);
    }
}

impl DirectiveParts {
    ghost use Rattle.bench_notation.specs.Components.{no_directive_parts, directive_definition};

    /// No part.
    pub fn new(alloc: Global) -> DirectiveParts
        ensures { result ≡ no_directive_parts }
    {
        DirectiveParts {
            arguments: Items::new(alloc),
            is_repeatable: false,
            locations: Items::new(alloc),
        }
    }

    /// The definition of the directive of this name, at this location, with these parts. The error is out of
    /// memory.
    pub fn into_definition(
        self,
        alloc: Global,
        name: Name,
        location: SourceSpan,
    ) -> Result<Definition, AllocError>
        ensures { IfOk result (λ definition. definition ≡ directive_definition name self location) }
    {
        let DirectiveParts {
            arguments,
            is_repeatable,
            locations,
        } = self;
        let definition = DirectiveDefinition {
            description: None,
            name,
            arguments,
            repeatable: is_repeatable,
            locations,
        };
        let definition = Node::new_opt_location(alloc, definition, Some(location))?;
        Ok(Definition::DirectiveDefinition(definition))
    }
}
