//! The coordinate of a text.
ghost use Rattle.std.specs.Prelude.{IfErr, IfOk};
ghost use Rattle.apollo_coordinate.specs.CoordinateText.{SaysCoordinate};
ghost use Rattle.peglinden_run.specs.LookupCommand.{IsCoordinateCause};

use crate::failure::Failure;
use apollo_compiler::compile_error::CompileError;
use apollo_coordinate::SchemaCoordinate;
use apollo_coordinate::parse_error::SchemaCoordinateParseError;
use graphql_nodes::visible_text::visible;
use std::alloc::{AllocError, Global};

/// The coordinate of a text. `NoCoordinate` comes for a text of none, and `Exhausted` where memory ran out.
/// There is no other error.
pub(crate) fn read_coordinate(alloc: Global, text: &str) -> Result<SchemaCoordinate, Failure>
    ensures says { IfOk result (SaysCoordinate text.now) }
    ensures causes { IfErr result (IsCoordinateCause text.now) }
{
    match SchemaCoordinate::from_str(alloc, text) {
        Ok(coordinate) => Ok(coordinate),
        Err(SchemaCoordinateParseError::Memory) => Err(Failure::Exhausted(CompileError::Memory)),
        Err(_) => Err(Failure::NoCoordinate(no_coordinate(alloc, text)?)),
    }
}

/// What is said of a text of no coordinate. The error is out of memory.
fn no_coordinate(alloc: Global, text: &str) -> Result<String, AllocError> {
    let mut said = format!(in alloc;
        "error: `{}` is not a schema coordinate, as ",
        visible(text)
    )?;
    said.push_str("`Type`, `Type.field`, `Type.field(argument:)`, `@directive` or ")?;
    said.push_str("`@directive(argument:)` are\n")?;
    Ok(said)
}
