//! How often an operation reaches which fields: GraphQL specification of October 2021, sections 2.3 to 2.8.
ghost use Rattle.std.specs.Prelude.{◌≡◌, IfOk, Some};
ghost use Rattle.apollo_coordinate.specs.CoordinateText.{attribute_coordinate_text};
ghost use Rattle.apollo_field_usage.specs.Reached.{reached};
ghost use Rattle.apollo_field_usage.specs.Usage.{usage};

use crate::reached::reached_fields;
use crate::tallies::count_all;
use apollo_coordinate::TypeAttributeCoordinate;
use apollo_executable::document::ExecutableDocument;
use apollo_executable::operation::Operation;
use graphql_nodes::take_apart;
use std::alloc::{AllocError, Global};
use std::fmt;

/// A field that an operation reaches, by its coordinate, and how often it stands there. `Display` is the
/// text of the coordinate, like `Query.user`.
///
/// Usages are equal where their coordinates are, by the texts of their names, and their counts. A clone
/// is the original, with the locations of its names; its error is that memory ran out.
#[derive(Debug, Clone, PartialEq, Eq)]
pub struct FieldUsage {
    /// The type of the set in which the field stands, and its name, both as they are written where it is
    /// reached first.
    pub coordinate: TypeAttributeCoordinate,
    /// How many fields with this coordinate are reached, one or more.
    pub count: usize,
}

impl Drop for FieldUsage {
    fn drop(self) {
        take_apart!(self: coordinate, count);
    }
}

impl fmt::Display for FieldUsage {
    ghost output = { λ usage. Some (attribute_coordinate_text usage.coordinate) };

    fn fmt<W: fmt::Write>(&self, f: &mut fmt::Formatter<W>) -> fmt::Result {
        fmt::Display::fmt(&self.coordinate, f)
    }
}

/// The coordinates of the fields that an operation reaches, through inline fragments and named ones, and
/// below fields. Each stands there once, in the order in which they are reached first, with how often it
/// is reached.
///
/// Fields are reached as [`all_fields`](Operation::all_fields) gives them. A fragment counts once, however
/// often it is spread, and nothing is looked for where a spread names no fragment. The type of a coordinate
/// is that of the set in which the field stands. So a field in a fragment goes by the fragment's type.
/// Directives such as `@skip` change nothing.
///
/// The error is that memory ran out. Time and memory are linear in how many fields are reached, and how
/// many fragments the document has.
pub fn field_usage(
    alloc: Global,
    document: &ExecutableDocument,
    operation: &Operation,
) -> Result<Vec<FieldUsage>, AllocError>
    ensures { IfOk result
        (λ usages. usages.items ≡ usage (reached document.now operation.now.selection_set)) }
{
    let fields = reached_fields(alloc, document, &operation.selection_set)?;
    let tally = count_all(alloc, document.fragments.hash_keys(), fields.as_slice())?;
    let mut usages = Vec::new(alloc);
    for (coordinate, count) in tally.iter() {
        usages.push(FieldUsage {
            coordinate: coordinate.clone()?,
            count: *count,
        })?;
    }
    Ok(usages)
}
