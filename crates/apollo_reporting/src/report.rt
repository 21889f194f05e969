//! Reports of faults, in the form that compilers use.
ghost use Rattle.std.specs.Prelude.{◌≡◌, IfOk, Some, option_map, string_bytes};
ghost use Rattle.std.specs.Fmt.{WritesOnOk};
ghost use Rattle.graphql_nodes.specs.VisibleTexts.{visible};
ghost use Rattle.apollo_reporting.specs.Abouts.{about_view};
ghost use Rattle.apollo_reporting.specs.Places.{starts};
ghost use Rattle.apollo_reporting.specs.Reports.{lines_behind, location_text, note_text, path_line};
ghost use Rattle.apollo_reporting.specs.Reports.{report_text};
ghost use Rattle.apollo_reporting.specs.Said.{IsReport};

use crate::about::{About, Earlier};
use crate::places::start;
use crate::reported::Reported;
use crate::sources::Sources;
use crate::span_writing::{gutter, write_span};
use crate::visible_value::visible_value;
use crate::writing::write_line_begin;
use apollo_document::selection_path::SelectionPath;
use graphql_nodes::line_column::LineColumn;
use graphql_nodes::source::SourceSpan;
use graphql_nodes::take_apart;
use graphql_nodes::visible_text::visible;
use std::alloc::{AllocError, Global};
use std::fmt;
use std::fmt::{Formatter, Write};

/// A fault beside its location, and the source files that its own is one of.
///
/// `Display` is the report, with a line end behind its last line:
///
/// ```text
/// error: type `Book` does not have a field `pages`
///   --> store_page.graphql:4:5
///    |
///  4 |     pages
///    |     ^^^^^
///    = path: query Page → book → pages
/// ```
///
/// The marks stand under the span, one for each character, and one where it is empty. Of a span of several
/// lines they stand under the first. A tab before them stays a tab. Of a line of more than 160 characters 60
/// are shown before the marks and 100 from the first mark on. `...` stands where something is left out, and
/// no marks stand under what isn't shown. An earlier place that the fault has to do with follows in the same
/// form, behind `note:` and what stands there. Where the sources lack the file, or its text ends before, the
/// line isn't shown.
///
/// The sentence, the file's name, its lines and the path are written as [`visible`] shows them, with no
/// control character but tab.
pub struct FaultReport<'s, 'f, S, E> {
    pub sources: &'s S,
    pub location: Option<SourceSpan>,
    pub fault: &'f E,
}

impl<S, E> Drop for FaultReport<'_, '_, S, E> {
    fn drop(self) {
        take_apart!(self: sources, location, fault);
    }
}

/// A fault at a location, to be reported with these sources. It takes no memory.
///
/// For many faults make [`SourceLines`](crate::source_lines::SourceLines) of the sources first.
pub fn report<'s, 'f, S: Sources, E: Reported>(
    sources: &'s S,
    location: Option<SourceSpan>,
    fault: &'f E,
) -> FaultReport<'s, 'f, S, E>
    ensures sources { result.sources.now ≡ sources.now }
    ensures location { result.location ≡ location }
    ensures fault { result.fault.now ≡ fault.now }
{
    FaultReport {
        sources,
        location,
        fault,
    }
}

impl<S: Sources, E: Reported> fmt::Display for FaultReport<'_, '_, S, E> {
    ghost output = { λ it. option_map
        (λ said. report_text (S.files it.sources.now) it.location (E.said_about it.fault.now) (visible said))
        (E.output it.fault.now) };

    fn fmt<W: Write>(&self, f: &mut Formatter<W>) -> fmt::Result {
        let about = self.fault.about();
        let behind = LinesBehind {
            sources: self.sources,
            location: self.location,
            about: &about,
        };
        write!(f, "error: {}\n{behind}", visible_value(self.fault))
    }
}

/// The report of a fault, as the `Display` of [`report`] writes it. The error is out of memory.
///
/// For many faults make [`SourceLines`](crate::source_lines::SourceLines) of the sources first.
#[tactic(auto, using(crate::proofs::SaidLemmas::of_said))]
pub fn report_text<S: Sources, E: Reported>(
    alloc: Global,
    sources: &S,
    location: Option<SourceSpan>,
    fault: &E,
) -> Result<String, AllocError>
    ensures { IfOk result (λ text.
        IsReport E.output E.said_about (S.files sources.now) location fault.now (string_bytes text)) }
{
    let said = fault.to_string(alloc)?;
    let about = fault.about();
    let behind = LinesBehind {
        sources,
        location,
        about: &about,
    };
    format!(in alloc; "error: {}\n{behind}", visible(said.as_str()))
}

/// What stands behind the first line of a report.
struct LinesBehind<'s, 'b, 'p, S> {
    sources: &'s S,
    location: Option<SourceSpan>,
    about: &'b About<'p>,
}

impl<S> Drop for LinesBehind<'_, '_, '_, S> {
    fn drop(self) {
        take_apart!(self: sources, location, about);
    }
}

impl<S: Sources> fmt::Display for LinesBehind<'_, '_, '_, S> {
    ghost output = { λ it.
        Some (lines_behind (S.files it.sources.now) it.location (about_view it.about.now)) };

    fn fmt<W: Write>(&self, f: &mut Formatter<W>) -> fmt::Result {
        write_lines_behind(f, self.sources, self.location, self.about)
    }
}

#[tactic(auto, unfolding(crate::specs::Reports::lines_behind))]
fn write_lines_behind<W: Write, S: Sources>(
    f: &mut Formatter<W>,
    sources: &S,
    location: Option<SourceSpan>,
    about: &About<'_>,
) -> fmt::Result
    ensures { WritesOnOk W.write_str_gives f.old result
        (lines_behind (S.files sources.now) location (about_view about.now)) f.new }
{
    let at = start(sources, location);
    write_location(f, sources, location, at)?;
    write_path(f, gutter(at), about.path)?;
    write_note(f, sources, &about.earlier)
}

/// Writes where a fault starts, and its line, where this is its line and column.
fn write_location<W: Write, S: Sources>(
    f: &mut Formatter<W>,
    sources: &S,
    location: Option<SourceSpan>,
    at: Option<LineColumn>,
) -> fmt::Result
    requires { at ≡ starts location (S.files sources.now) }
    ensures { WritesOnOk W.write_str_gives f.old result (location_text location (S.files sources.now)) f.new }
{
    match location {
        Some(span) => write_span(f, sources, span, at),
        None => Ok(()),
    }
}

/// Writes the line of a path, if there is one, beside numbers of so many digits.
#[tactic(auto, unfolding(crate::specs::Reports::path_line))]
fn write_path<W: Write>(
    f: &mut Formatter<W>,
    width: usize,
    path: Option<&SelectionPath>,
) -> fmt::Result
    ensures { WritesOnOk W.write_str_gives f.old result
        (path_line width (option_map (λ path. path.now) path.entry)) f.new }
{
    match path {
        Some(path) => {
            write_line_begin(f, width)?;
            write!(f, " = path: {}\n", visible_value(path))
        }
        None => Ok(()),
    }
}

/// Writes an earlier place, and its line, if there is one.
#[tactic(auto, unfolding(crate::specs::Reports::note_text))]
fn write_note<W: Write, S: Sources>(
    f: &mut Formatter<W>,
    sources: &S,
    earlier: &Option<Earlier>,
) -> fmt::Result
    ensures { WritesOnOk W.write_str_gives f.old result (note_text earlier.now (S.files sources.now)) f.new }
{
    match earlier {
        Some(earlier) => {
            write!(f, "note: {}\n", earlier.message)?;
            let at = start(sources, Some(earlier.location));
            write_span(f, sources, earlier.location, at)
        }
        None => Ok(()),
    }
}
