//! The command `coord`.
ghost use Rattle.std.specs.Prelude.{◌≡◌, ℕ, ◌++◌, All, List, IfOk, IfErr, OnOk, string_bytes};
ghost use Rattle.bench_notation.specs.Line.{IsLine, lines_of};
ghost use Rattle.apollo_compiler.specs.Lists.{no_options};
ghost use Rattle.gqltool_run.specs.Building.{IsCause};
ghost use Rattle.gqltool_run.specs.CoordCommand.{IsCoordAnswer, IsFindingLine, coordinate_line, form_word};
ghost use Rattle.gqltool_run.specs.CoordCommand.{found_word};

use crate::answer::Answer;
use crate::building::build_input;
use crate::failure::Failure;
use crate::fault_printing::push_faults;
use crate::leaving::leave_to_exit;
use crate::output_line::push_line;
use apollo_compiler::compile_options::CompileOptions;
use apollo_coordinate::SchemaCoordinate;
use apollo_coordinate::lookup_answers::SchemaCoordinateLookup;
use apollo_schema::schema::Schema;
use graphql_nodes::collections::hash_keys::HashKeys;
use std::alloc::{AllocError, Global};

/// The answer of `coord` to an input. It is the line of the coordinate, and the line of what it points to in
/// the schema of the input's documents. Then comes a line for each fault. The coordinate is looked up where
/// there are faults too.
///
/// The errors are those of [`build_input`]. What was built is left to the end of the process, but after an
/// error.
pub fn coord_answer(
    alloc: Global,
    keys: HashKeys,
    coordinate: &SchemaCoordinate,
    input: &str,
) -> Result<Answer, Failure>
    ensures read { OnOk result (All IsLine (lines_of input.now)) }
    ensures means { IfOk result (λ answer.
        IsCoordAnswer coordinate.now input.now (string_bytes answer.text) answer.has_faults) }
    ensures causes { IfErr result (IsCause no_options input.now) }
{
    let (schema, faults) = build_input(alloc, keys, CompileOptions::none(), input)?;
    let mut text = String::new(alloc);
    push_coordinate(alloc, &mut text, coordinate)?;
    let is_found = push_finding(alloc, &mut text, coordinate, &schema)?;
    push_faults(alloc, &mut text, faults.as_slice())?;
    leave_to_exit(schema);
    Ok(Answer {
        text,
        has_faults: !(is_found && faults.is_empty()),
    })
}

/// The word of a coordinate's form.
fn form_word(coordinate: &SchemaCoordinate) -> &'static str
    ensures { result.now ≡ form_word coordinate.now }
{
    match coordinate {
        SchemaCoordinate::Ty(_) => "type",
        SchemaCoordinate::TypeAttribute(_) => "attribute",
        SchemaCoordinate::FieldArgument(_) => "field-argument",
        SchemaCoordinate::Directive(_) => "directive",
        SchemaCoordinate::DirectiveArgument(_) => "directive-argument",
    }
}

/// The word of what a coordinate points to.
fn found_word(found: SchemaCoordinateLookup<'_>) -> &'static str
    ensures { result.now ≡ found_word found.entry }
{
    match found {
        SchemaCoordinateLookup::Ty(_) => "type",
        SchemaCoordinateLookup::Directive(_) => "directive",
        SchemaCoordinateLookup::Field(_) => "field",
        SchemaCoordinateLookup::InputField(_) => "input-field",
        SchemaCoordinateLookup::EnumValue(_) => "enum-value",
        SchemaCoordinateLookup::Argument(_) => "argument",
    }
}

/// Adds the line of a coordinate. The error is out of memory.
fn push_coordinate(
    alloc: Global,
    text: &mut String,
    coordinate: &SchemaCoordinate,
) -> Result<(), AllocError>
    ensures { OnOk result (string_bytes text.new ≡ string_bytes text.old ++ coordinate_line coordinate.now) }
{
    text.push_str(form_word(coordinate))?;
    text.push_str(" ")?;
    text.push_str(coordinate.to_string(alloc)?.as_str())?;
    text.push_str("\n")
}

/// Adds the line of what a coordinate points to in a schema, and answers whether it points to something.
fn push_finding(
    alloc: Global,
    text: &mut String,
    coordinate: &SchemaCoordinate,
    schema: &Schema,
) -> Result<bool, AllocError>
    ensures { IfOk result (λ is_found. (line : List ℕ)
        × ((string_bytes text.new ≡ string_bytes text.old ++ line)
        × IsFindingLine schema.now coordinate.now is_found line)) }
{
    match coordinate.lookup(schema) {
        Ok(found) => {
            push_line(text, "found ", found_word(found))?;
            Ok(true)
        }
        Err(error) => {
            push_line(text, "missing ", error.to_string(alloc)?.as_str())?;
            Ok(false)
        }
    }
}
