//! What is around a selection set: GraphQL specification of October 2021, sections 2.3 to 2.8.
//!
//! It is borrowed, so that going down takes no memory: a path is made where one is asked for.
ghost use Rattle.std.specs.Prelude.{◌≡◌, IfOk};
ghost use Rattle.leafcheck.specs.Around.{path_of};
ghost use Rattle.leafcheck.specs.Roots.{operation_root};

use apollo_document::selection_path::{ExecutableDefinitionName, SelectionPath};
use apollo_executable::operation::{Fragment, Operation};
use graphql_nodes::collections::items::Items;
use graphql_nodes::name::Name;
use std::alloc::{AllocError, Global};

/// The definition that a selection set is of, or the response key of the field that it is of, and what is
/// around that field. An inline fragment's set has around it what is around the inline fragment.
#[derive(Drop)]
pub(crate) enum Around<'a> {
    Operation(&'a Operation),
    Fragment(&'a Fragment),
    Field(&'a Name, &'a Around<'a>),
}

impl<'a> Around<'a> {
    /// The path of the set, as far as the response key of the field that it is of.
    pub(crate) fn path(&self, alloc: Global) -> Result<SelectionPath, AllocError>
        ensures { IfOk result (λ path. path ≡ path_of self.now) }
    {
        match self {
            Around::Operation(operation) => Ok(SelectionPath {
                root: operation_root(operation)?,
                nested_fields: Items::new(alloc),
            }),
            Around::Fragment(fragment) => Ok(SelectionPath {
                root: ExecutableDefinitionName::Fragment(fragment.name.clone()?),
                nested_fields: Items::new(alloc),
            }),
            Around::Field(key, outer) => {
                let mut path = outer.path(alloc)?;
                path.nested_fields.push((**key).clone()?)?;
                Ok(path)
            }
        }
    }
}

/// What paths in an operation begin with.
fn operation_root(operation: &Operation) -> Result<ExecutableDefinitionName, AllocError>
    ensures { IfOk result (λ root. root ≡ operation_root operation.now) }
{
    match &operation.name {
        Some(name) => Ok(ExecutableDefinitionName::NamedOperation(
            operation.operation_type,
            name.clone()?,
        )),
        None => Ok(ExecutableDefinitionName::AnonymousOperation(operation.operation_type)),
    }
}
