//! What is wrong with fields as leaves: GraphQL specification of October 2021, section 5.3.3. Which of them
//! lost subselections in a build: sections 2.4 to 2.8.
ghost use Rattle.std.specs.Prelude.{◌↔◌, IsTrue};
ghost use Rattle.leafcheck.specs.LostSubselections.{BeginsWith, GoesOn, HasLost, IsOfBelow};

use crate::places::Place;
use apollo_document::build_error::{BuildError, Fault};
use apollo_document::selection_path::SelectionPath;
use graphql_nodes::name::{Name, NamedType};
use graphql_nodes::source::SourceSpan;
use graphql_nodes::take_apart;
use thiserror::Error;

/// In which way a field is at fault.
#[derive(Debug, Clone, Copy, PartialEq, Eq, Error)]
pub enum LeafKind {
    /// Its type is a scalar or enum, and it has subselections.
    #[error("a field of scalar or enum type must not have subselections")]
    SubselectionOnLeaf,
    /// Its type is an object, interface or union, and it has no subselections.
    #[error("a field of object, interface or union type must have subselections")]
    MissingSubselection,
}

/// A field that is at fault. `Display` is a message with the key.
///
/// Faults are equal where their locations are, the texts of their names, and their kinds. A clone is the
/// original, with the locations of its names; its error is out of memory.
#[derive(Debug, Clone, PartialEq, Eq, Error)]
#[error("`{response_key}`: {kind}")]
pub struct LeafFault {
    /// The location of the field's node, if it is known.
    pub location: Option<SourceSpan>,
    /// The type of the selection set that the field stands in.
    pub parent_type: NamedType,
    /// The key of the field in a response: its alias, or else its name (section 2.7).
    pub response_key: Name,
    /// First the operation or fragment that the field stands in, by its own name. Then the response keys of
    /// the fields around the field, its own key last.
    pub path: SelectionPath,
    pub kind: LeafKind,
}

impl Drop for LeafFault {
    fn drop(self) {
        take_apart!(self: location, parent_type, response_key, path, kind);
    }
}

impl LeafFault {
    /// Whether one of these faults, those of the build of its document, is of a selection below this field.
    /// That is a field or an inline fragment, also one further below. So a
    /// [`MissingSubselection`](LeafKind::MissingSubselection) can be recognized that is
    /// there only since what was written below the field was dropped.
    ///
    /// It goes by paths, so fields of one key beside each other aren't told apart. It takes no memory.
    pub fn lost_subselections(&self, faults: &[Fault]) -> bool
        ensures { IsTrue result ↔ HasLost self.now.path faults.now }
    {
        for fault in faults {
            if is_of_below(&fault.1, &self.path) {
                return true;
            }
        }
        false
    }
}

/// Whether an error is of a selection below the field that has this path.
fn is_of_below(error: &BuildError, outer: &SelectionPath) -> bool
    ensures { IsTrue result ↔ IsOfBelow outer.now error.now }
{
    match error {
        BuildError::UndefinedTypeInInlineFragmentTypeCondition { path, .. } => begins_with(
            path, outer,
        ),
        BuildError::SubselectionOnScalarType { path, .. } => goes_on(path, outer),
        BuildError::SubselectionOnEnumType { path, .. } => goes_on(path, outer),
        BuildError::UndefinedField { path, .. } => goes_on(path, outer),
        _ => false,
    }
}

/// Whether a path begins with another, and has more keys.
fn goes_on(path: &SelectionPath, outer: &SelectionPath) -> bool
    ensures { IsTrue result ↔ GoesOn path.now outer.now }
{
    outer.nested_fields.len() < path.nested_fields.len() && begins_with(path, outer)
}

/// Whether a path begins with another.
fn begins_with(path: &SelectionPath, outer: &SelectionPath) -> bool
    ensures { IsTrue result ↔ BeginsWith path.now outer.now }
{
    Place::of(path).begins_with(&Place::of(outer))
}
