//! Where a selection stands: GraphQL specification of October 2021, sections 2.3 to 2.8.
ghost use Rattle.std.specs.Prelude.{◌≡◌, Some};
ghost use Rattle.apollo_document.specs.PathTexts.{definition_name_text, path_text};

use graphql_nodes::collections::items::Items;
use graphql_nodes::name::Name;
use graphql_nodes::operation_type::OperationType;
use graphql_nodes::{clone_fields, take_apart};
use std::alloc::AllocError;
use std::fmt;

/// The definition that a selection stands in. `Display` is `query`, `query N` or `fragment F`, with the
/// operation's keyword.
///
/// Equality is that of the texts of names. A clone is the original, with locations; its error is out of
/// memory.
#[derive(Debug, Drop, PartialEq, Eq)]
pub enum ExecutableDefinitionName {
    AnonymousOperation(OperationType),
    NamedOperation(OperationType, Name),
    Fragment(Name),
}

/// The definition that a selection stands in, and the response keys of the fields around it, from the
/// outermost on. In a fault of a field its own key is the last.
///
/// Equality is that of the texts of names. A clone is the original, with locations; its error is out of
/// memory.
#[derive(Debug, PartialEq, Eq)]
pub struct SelectionPath {
    pub root: ExecutableDefinitionName,
    pub nested_fields: Items<Name>,
}

impl Drop for SelectionPath {
    fn drop(self) {
        take_apart!(self: root, nested_fields);
    }
}

impl Clone for ExecutableDefinitionName {
    ghost is_clone = { λ a b. b ≡ a };

    fn clone(&self) -> Result<ExecutableDefinitionName, AllocError> {
        match self {
            ExecutableDefinitionName::AnonymousOperation(operation_type) => Ok(
                ExecutableDefinitionName::AnonymousOperation(*operation_type),
            ),
            ExecutableDefinitionName::NamedOperation(operation_type, name) => Ok(
                ExecutableDefinitionName::NamedOperation(*operation_type, name.clone()?),
            ),
            ExecutableDefinitionName::Fragment(name) => {
                Ok(ExecutableDefinitionName::Fragment(name.clone()?))
            }
        }
    }
}

impl Clone for SelectionPath {
    ghost is_clone = { λ a b. b ≡ a };

    fn clone(&self) -> Result<SelectionPath, AllocError> {
        clone_fields!(self: root, nested_fields)
    }
}

impl fmt::Display for ExecutableDefinitionName {
    ghost output = { λ root. Some (definition_name_text root) };

    fn fmt<W: fmt::Write>(&self, f: &mut fmt::Formatter<W>) -> fmt::Result {
        match self {
            ExecutableDefinitionName::AnonymousOperation(operation_type) => {
                fmt::Display::fmt(operation_type, f)
            }
            ExecutableDefinitionName::NamedOperation(operation_type, name) => {
                write!(f, "{operation_type} {name}")
            }
            ExecutableDefinitionName::Fragment(name) => write!(f, "fragment {name}"),
        }
    }
}

/// As `query Q → user → id`.
impl fmt::Display for SelectionPath {
    ghost output = { λ path. Some (path_text path) };

    fn fmt<W: fmt::Write>(&self, f: &mut fmt::Formatter<W>) -> fmt::Result {
        fmt::Display::fmt(&self.root, f)?;
        for key in &self.nested_fields {
            write!(f, " → {key}")?;
        }
        Ok(())
    }
}
