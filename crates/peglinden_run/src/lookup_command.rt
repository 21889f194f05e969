//! The command `lookup`.
ghost use Rattle.std.specs.Prelude.{◌≡◌, [], IfErr, IfOk, string_bytes};
ghost use Rattle.apollo_coordinate.specs.CoordinateText.{coordinate_text};
ghost use Rattle.peglinden_run.specs.Documents.{texts_of};
ghost use Rattle.peglinden_run.specs.Forms.{form_of};
ghost use Rattle.peglinden_run.specs.LookedUp.{form_found};
ghost use Rattle.peglinden_run.specs.LookupCommand.{IsLookupAnswer, IsLookupCause, IsMissingShown};
ghost use Rattle.peglinden_run.specs.LookupCommand.{no_faults};
ghost use Rattle.peglinden_run.specs.Printed.{IsArranged};

use crate::answer::Answer;
use crate::coordinates::read_coordinate;
use crate::documents::read_documents;
use crate::failure::Failure;
use crate::form::{Form, form_of};
use crate::looked_up::{found_line, found_text};
use crate::missing::Missing;
use crate::printed::{Printed, Tally, arranged};
use crate::reports::{Subject, push_said};
use apollo_compiler::building::build_schema;
use apollo_compiler::compile_options::CompileOptions;
use apollo_coordinate::SchemaCoordinate;
use apollo_coordinate::lookup_answers::{SchemaCoordinateLookup, SchemaLookupError};
use apollo_reporting::report::report_text;
use graphql_nodes::collections::hash_keys::HashKeys;
use graphql_nodes::collections::table::Table;
use graphql_nodes::collections::text::Text;
use graphql_nodes::source::SourceMap;
use peglinden_words::request::Reporting;
use program_io::files::Files;
use std::alloc::{AllocError, Global};

/// The answer of `lookup` to files. It is where what the coordinate points to in their schema stands, as a
/// comment, and below it its definition, or both in JSON. Where it points to nothing, that is at fault, and
/// is said alone. What is at fault in the schema is passed over.
///
/// `NoCoordinate` comes for a text that is no coordinate, before a file is read. `Files` comes where a file
/// can't be read or is no document. `Exhausted` comes where memory ran out, or where the numbers don't
/// suffice for the extensions. There is no other error.
pub(crate) fn lookup_answer<F: Files>(
    alloc: Global,
    keys: HashKeys,
    coordinate: &str,
    reporting: &Reporting,
    files: &F,
    paths: &[&str],
) -> Result<Answer, Failure>
    ensures means { IfOk result
        (IsLookupAnswer (F.holds files.now) coordinate.now (form_of reporting.now) (texts_of paths.now)) }
    ensures causes { IfErr result
        (IsLookupCause (form_of reporting.now) (F.holds files.now) (F.may_fail files.now) coordinate.now
        (texts_of paths.now)) }
{
    let coordinate = read_coordinate(alloc, coordinate)?;
    let form = form_of(reporting);
    let documents = read_documents(alloc, form, files, paths)?;
    let (schema, _) = build_schema(alloc, keys, CompileOptions::none(), documents.as_slice())?;
    match coordinate.lookup(&schema) {
        Ok(found) => Ok(Answer {
            printed: found_printed(
                alloc,
                form,
                paths.len(),
                &schema.sources,
                &coordinate,
                found,
            )?,
            has_faults: false,
        }),
        Err(error) => Ok(Answer {
            printed: missing_printed(alloc, form, paths.len(), &coordinate, &error)?,
            has_faults: true,
        }),
    }
}

/// What is printed where a coordinate points to something. The error is out of memory.
fn found_printed(
    alloc: Global,
    form: Form,
    files: usize,
    sources: &SourceMap,
    coordinate: &SchemaCoordinate,
    found: SchemaCoordinateLookup<'_>,
) -> Result<Printed, AllocError>
    ensures { IfOk result (IsArranged form (no_faults files)
        (form_found form sources.now coordinate.now found.entry) []) }
{
    let tally = Tally {
        faults: 0,
        shown: 0,
        files,
    };
    let output = form_found(alloc, form, sources, coordinate, found)?;
    arranged(alloc, form, tally, output, String::new(alloc))
}

/// What a form has of what a coordinate points to. The error is out of memory.
fn form_found(
    alloc: Global,
    form: Form,
    sources: &SourceMap,
    coordinate: &SchemaCoordinate,
    found: SchemaCoordinateLookup<'_>,
) -> Result<String, AllocError>
    ensures { IfOk result (λ text.
        string_bytes text ≡ form_found form sources.now coordinate.now found.entry) }
{
    match form {
        Form::Json => found_line(alloc, sources, coordinate, found),
        Form::Words | Form::Github => found_text(alloc, sources, found),
    }
}

/// What is printed where a coordinate points to nothing, which says why. The error is out of memory.
fn missing_printed(
    alloc: Global,
    form: Form,
    files: usize,
    coordinate: &SchemaCoordinate,
    error: &SchemaLookupError<'_, '_>,
) -> Result<Printed, AllocError>
    ensures { IfOk result (IsMissingShown form files coordinate.now) }
{
    let missing = missing(alloc, coordinate, error)?;
    match form {
        Form::Words => Ok(Printed {
            output: String::new(alloc),
            errors: report_text(alloc, &Table::new(alloc), None, &missing)?,
        }),
        Form::Json | Form::Github => {
            let mut said = String::new(alloc);
            let sources: SourceMap = Table::new(alloc);
            push_said(
                alloc,
                &mut said,
                Subject::Fault,
                form,
                &sources,
                None,
                &missing,
            )?;
            let tally = Tally {
                faults: 1,
                shown: 1,
                files,
            };
            arranged(alloc, form, tally, String::new(alloc), said)
        }
    }
}

/// A coordinate that points to nothing, for this cause. The error is out of memory.
fn missing(
    alloc: Global,
    coordinate: &SchemaCoordinate,
    error: &SchemaLookupError<'_, '_>,
) -> Result<Missing, AllocError>
    ensures { IfOk result (λ missing. missing.coordinate ≡ coordinate_text coordinate.now) }
{
    let shown = coordinate.to_string(alloc)?;
    let why = why_missing(alloc, coordinate, error)?;
    let sentence = format!(in alloc; "`{shown}` points to nothing: {why}")?;
    Ok(Missing {
        coordinate: Text::from_string(shown),
        sentence: Text::from_string(sentence),
    })
}

/// Why a coordinate points to nothing, in words. The error is out of memory.
fn why_missing(
    alloc: Global,
    coordinate: &SchemaCoordinate,
    error: &SchemaLookupError<'_, '_>,
) -> Result<String, AllocError> {
    match (coordinate, error) {
        (
            SchemaCoordinate::Directive(_) | SchemaCoordinate::DirectiveArgument(_),
            SchemaLookupError::MissingType(name),
        ) => format!(in alloc; "directive `@{name}` does not exist"),
        _ => error.to_string(alloc),
    }
}
