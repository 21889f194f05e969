//! Paths that are lent, and their order: GraphQL specification of October 2021, sections 2.3 to 2.8.
ghost use Rattle.std.specs.Prelude.{◌≡◌, option_map};
ghost use Rattle.leafcheck.specs.PathOrder.{begins_with, kind_rank, name_text, path_cmp, same_root};

use apollo_document::selection_path::{ExecutableDefinitionName, SelectionPath};
use graphql_nodes::name::Name;
use graphql_nodes::operation_type::OperationType;
use std::cmp::Ordering;

/// A path, or the beginning of one, lent.
#[derive(Clone, Copy)]
pub(crate) struct Place<'p> {
    pub root: &'p ExecutableDefinitionName,
    pub keys: &'p [Name],
}

impl<'p> Place<'p> {
    ghost use Rattle.leafcheck.specs.LostPlaces.{around, path_at};

    /// The whole path.
    pub fn of(path: &'p SelectionPath) -> Place<'p>
        ensures { path_at result ≡ path.now }
    {
        Place {
            root: &path.root,
            keys: path.nested_fields.as_slice(),
        }
    }

    /// The path without its last key, if it has one.
    pub fn around(path: &'p SelectionPath) -> Option<Place<'p>>
        ensures { option_map path_at result ≡ around path.now }
    {
        let keys = path.nested_fields.as_slice();
        if keys.is_empty() {
            return None;
        }
        Some(Place {
            root: &path.root,
            keys: &keys[..keys.len() - 1],
        })
    }

    /// Whether it begins with another.
    pub fn begins_with(&self, outer: &Place<'_>) -> bool
        ensures { result ≡ begins_with (path_at self.now) (path_at outer.now) }
    {
        same_root(self.root, outer.root) && self.keys.starts_with(outer.keys)
    }

    /// Where it stands beside another. Those that begin with one path stand together, behind that path.
    pub fn compare(&self, other: &Place<'_>) -> Ordering
        ensures { result ≡ path_cmp (path_at self.now) (path_at other.now) }
    {
        let names = name_text(self.root).cmp(name_text(other.root));
        kind_rank(self.root)
            .cmp(&kind_rank(other.root))
            .then(names.then(self.keys.cmp(&other.keys)))
    }
}

/// Whether two definitions are of one kind and name.
fn same_root(one: &ExecutableDefinitionName, other: &ExecutableDefinitionName) -> bool
    ensures { result ≡ same_root one.now other.now }
{
    kind_rank(one) == kind_rank(other) && name_text(one) == name_text(other)
}

/// A number for each kind of definition.
fn kind_rank(root: &ExecutableDefinitionName) -> u8
    ensures { result ≡ kind_rank root.now }
{
    match root {
        ExecutableDefinitionName::AnonymousOperation(OperationType::Query) => 0,
        ExecutableDefinitionName::AnonymousOperation(OperationType::Mutation) => 1,
        ExecutableDefinitionName::AnonymousOperation(OperationType::Subscription) => 2,
        ExecutableDefinitionName::NamedOperation(OperationType::Query, _) => 3,
        ExecutableDefinitionName::NamedOperation(OperationType::Mutation, _) => 4,
        ExecutableDefinitionName::NamedOperation(OperationType::Subscription, _) => 5,
        ExecutableDefinitionName::Fragment(_) => 6,
    }
}

/// The text of a definition's name, empty where there is none.
fn name_text(root: &ExecutableDefinitionName) -> &str
    ensures { result.now ≡ name_text root.now }
{
    match root {
        ExecutableDefinitionName::AnonymousOperation(_) => "",
        ExecutableDefinitionName::NamedOperation(_, name)
        | ExecutableDefinitionName::Fragment(name) => name.as_str(),
    }
}
