//! The headers of operations and fragments.
ghost use Rattle.std.specs.Prelude.{◌≡◌, IfOk};
ghost use Rattle.bench_notation.specs.Components.{executable_definition};

use graphql_ast::definition::Definition;
use graphql_ast::directive::DirectiveList;
use graphql_ast::operation::{FragmentDefinition, OperationDefinition};
use graphql_ast::selection::Selection;
use graphql_nodes::collections::items::Items;
use graphql_nodes::name::{Name, NamedType};
use graphql_nodes::node::Node;
use graphql_nodes::operation_type::OperationType;
use graphql_nodes::source::SourceSpan;
use std::alloc::{AllocError, Global};

/// A header line that begins an operation or a fragment.
#[derive(Drop)]
pub enum ExecutableHeader {
    /// `operation OPERATION NAME`, or `operation OPERATION -` where it has no name
    Operation(OperationType, Option<Name>),
    /// `fragment NAME TYPE`
    Fragment(Name, NamedType),
}

impl ExecutableHeader {
    /// The operation or fragment, at this location, with these directives and selections and without
    /// variables. The error is out of memory, and drops them.
    pub fn into_definition(
        self,
        alloc: Global,
        directives: DirectiveList,
        selection_set: Items<Selection>,
        location: SourceSpan,
    ) -> Result<Definition, AllocError>
        ensures { IfOk result (λ definition. definition
            ≡ executable_definition self directives selection_set location) }
    {
        match self {
            ExecutableHeader::Operation(operation_type, name) => {
                let operation = OperationDefinition {
                    operation_type,
                    name,
                    variables: Items::new(alloc),
                    directives,
                    selection_set,
                };
                let operation = Node::new_opt_location(alloc, operation, Some(location))?;
                Ok(Definition::OperationDefinition(operation))
            }
            ExecutableHeader::Fragment(name, type_condition) => {
                let fragment = FragmentDefinition {
                    name,
                    type_condition,
                    directives,
                    selection_set,
                };
                let fragment = Node::new_opt_location(alloc, fragment, Some(location))?;
                Ok(Definition::FragmentDefinition(fragment))
            }
        }
    }
}
