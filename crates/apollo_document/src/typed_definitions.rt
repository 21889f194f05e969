//! Operations and fragments with typed selections: GraphQL specification of October 2021, sections 2.3 and
//! 2.8.
ghost use Rattle.std.specs.Prelude.{◌≡◌, IfOk};
ghost use Rattle.std.specs.Option.{option_copied};
ghost use Rattle.apollo_document.specs.KeptDefinitions.{root_type_of};
ghost use Rattle.apollo_document.specs.Stands.{operation_over};

use apollo_executable::operation::{Fragment, Operation};
use apollo_executable::selection::SelectionSet;
use apollo_schema::schema::Schema;
use graphql_ast::operation::{FragmentDefinition, OperationDefinition};
use graphql_nodes::name::NamedType;
use graphql_nodes::operation_type::OperationType;
use std::alloc::{AllocError, Global};

/// The root type of this kind of operation, if it has one. Without a schema it has the default name.
pub(crate) fn root_type(
    alloc: Global,
    schema: Option<&Schema>,
    operation_type: OperationType,
) -> Result<Option<NamedType>, AllocError>
    ensures { IfOk result (λ root. root ≡ root_type_of (option_copied schema.entry) operation_type) }
{
    match schema {
        None => Ok(Some(operation_type.default_type_name(alloc)?)),
        Some(schema) => match schema.root_operation(operation_type) {
            Some(root) => Ok(Some(root.clone()?)),
            None => Ok(None),
        },
    }
}

/// The operation with these selections.
pub(crate) fn operation_over(
    definition: &OperationDefinition,
    selection_set: SelectionSet,
) -> Result<Operation, AllocError>
    ensures { IfOk result (λ operation. operation ≡ operation_over definition.now selection_set) }
{
    Ok(Operation {
        operation_type: definition.operation_type,
        name: definition.name.clone()?,
        variables: definition.variables.clone()?,
        directives: definition.directives.clone()?,
        selection_set,
    })
}

/// The fragment with these selections.
pub(crate) fn fragment_over(
    definition: &FragmentDefinition,
    selection_set: SelectionSet,
) -> Result<Fragment, AllocError>
    ensures { IfOk result (λ fragment. fragment
        ≡ record {
          name = definition.now.name;
          directives = definition.now.directives;
          selection_set = selection_set;
        }) }
{
    Ok(Fragment {
        name: definition.name.clone()?,
        directives: definition.directives.clone()?,
        selection_set,
    })
}
