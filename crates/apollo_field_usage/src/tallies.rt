//! How often each coordinate comes.
ghost use Rattle.std.specs.Prelude.{◌≡◌, ◌<◌, ◌+◌, ◌^◌, map, IfOk, OnOk, IfSome};
ghost use Rattle.graphql_nodes.specs.Tables.{lookup};
ghost use Rattle.apollo_field_usage.specs.Coordinates.{coordinate, same_coordinate};
ghost use Rattle.apollo_field_usage.specs.Counted.{counted};
ghost use Rattle.apollo_field_usage.specs.Seen.{seen};
ghost use Rattle.apollo_field_usage.specs.Tallies.{tally};

use crate::occurrence::FieldOccurrence;
use apollo_coordinate::TypeAttributeCoordinate;
use graphql_nodes::collections::hash_keys::HashKeys;
use graphql_nodes::collections::table::Table;
use std::alloc::{AllocError, Global};

/// Counts a coordinate once more. The error is that memory ran out.
fn count(
    table: &mut Table<TypeAttributeCoordinate, usize>,
    key: TypeAttributeCoordinate,
) -> Result<(), AllocError>
    requires { IfSome (lookup (same_coordinate key) table.old) (λ times. times + 1 < 2 ^ 64) }
    ensures { OnOk result (table.new ≡ counted same_coordinate table.old key) }
{
    if let Some(times) = table.get_mut(&key) {
        *times += 1;
        return Ok(());
    }
    table.insert(key, 1)?;
    Ok(())
}

/// How often the coordinate of each field comes, in the order in which they come first. The error is that
/// memory ran out.
pub(crate) fn count_all(
    alloc: Global,
    keys: HashKeys,
    fields: &[FieldOccurrence<'_>],
) -> Result<Table<TypeAttributeCoordinate, usize>, AllocError>
    ensures { IfOk result (λ table. table ≡ tally same_coordinate (map coordinate (map seen fields.now))) }
{
    let mut table = Table::with_keys(alloc, keys);
    for field in fields {
        count(&mut table, field.coordinate()?)?;
    }
    Ok(table)
}
