//! Where a span starts, and its line.
ghost use Rattle.std.specs.Prelude.{◌≡◌, ◌++◌, ℕ, None, Some};
ghost use Rattle.std.specs.Fmt.{WritesOnOk};
ghost use Rattle.graphql_nodes.specs.LineColumns.{line_column_of, start_of};
ghost use Rattle.graphql_nodes.specs.PlaceTexts.{behind_path, place_in};
ghost use Rattle.graphql_nodes.specs.VisibleTexts.{visible};
ghost use Rattle.apollo_reporting.specs.Reports.{arrow_line, dots, excerpt_in, excerpt_text, gutter};
ghost use Rattle.apollo_reporting.specs.Reports.{line_text, mark_line, numbered_line, span_text, under_dots};
ghost use Rattle.apollo_reporting.specs.Windows.{shown_by};

use crate::excerpt::Excerpt;
use crate::sources::Sources;
use crate::writing::{number_width, write_line_begin, write_pad, write_times};
use graphql_nodes::line_column::LineColumn;
use graphql_nodes::place::PlaceWithoutText;
use graphql_nodes::source::{SourceFile, SourceSpan};
use graphql_nodes::visible_text::visible;
use std::fmt;
use std::fmt::{Formatter, Write};

/// How many digits the number of a line has; 1 where the line isn't known.
pub(crate) fn gutter(at: Option<LineColumn>) -> usize
    ensures { result ≡ gutter at }
{
    match at {
        Some(at) => number_width(at.line),
        None => 1,
    }
}

/// Dots where something of a line is left out.
fn dots(cut: bool) -> &'static str
    ensures { result.now ≡ dots cut }
{
    if cut { "..." } else { "" }
}

/// Blanks under the dots before a line.
fn under_dots(cut: bool) -> &'static str
    ensures { result.now ≡ under_dots cut }
{
    if cut { "   " } else { "" }
}

/// Writes what is shown of a line, with dots where something of it is left out.
#[tactic(auto, unfolding(crate::specs::Reports::line_text))]
fn write_line_text<W: Write>(f: &mut Formatter<W>, excerpt: &Excerpt<'_>) -> fmt::Result
    ensures { WritesOnOk W.write_str_gives f.old result (line_text (shown_by excerpt.now)) f.new }
{
    f.write_str(dots(excerpt.cut_before))?;
    write!(f, "{}", visible(excerpt.line))?;
    f.write_str(dots(excerpt.cut_behind))
}

/// Writes an empty line, and what is shown of a line behind its number, which has so many digits.
#[tactic(auto, unfolding(crate::specs::Reports::numbered_line))]
fn write_source_line<W: Write>(
    f: &mut Formatter<W>,
    width: usize,
    number: usize,
    excerpt: &Excerpt<'_>,
) -> fmt::Result
    ensures { WritesOnOk W.write_str_gives f.old result (numbered_line width number (shown_by excerpt.now))
        f.new }
{
    write_line_begin(f, width)?;
    write!(f, " |\n {number} | ")?;
    write_line_text(f, excerpt)?;
    f.write_str("\n")
}

/// Writes the line with the marks.
#[tactic(auto, unfolding(crate::specs::Reports::mark_line))]
fn write_mark_line<W: Write>(
    f: &mut Formatter<W>,
    width: usize,
    excerpt: &Excerpt<'_>,
) -> fmt::Result
    ensures { WritesOnOk W.write_str_gives f.old result (mark_line width (shown_by excerpt.now)) f.new }
{
    write_line_begin(f, width)?;
    f.write_str(" | ")?;
    f.write_str(under_dots(excerpt.cut_before))?;
    write_pad(f, excerpt.before)?;
    write_times(f, "^", excerpt.marks)?;
    f.write_str("\n")
}

/// Writes what is shown of the line where a span starts, behind its number, and the line with the marks under
/// it.
#[tactic(auto, unfolding(crate::specs::Reports::excerpt_text))]
fn write_excerpt<W: Write>(
    f: &mut Formatter<W>,
    at: LineColumn,
    text: &str,
    span: SourceSpan,
) -> fmt::Result
    requires { line_column_of text.now span.start ≡ Some at }
    ensures { WritesOnOk W.write_str_gives f.old result (excerpt_text at text.now span) f.new }
{
    let width = number_width(at.line);
    let excerpt = Excerpt::new(text, at, span.start, span.end);
    write_source_line(f, width, at.line, &excerpt)?;
    write_mark_line(f, width, &excerpt)
}

/// Writes the path of a file, and a line and column of it, behind an arrow.
#[tactic(auto, unfolding(crate::specs::Reports::arrow_line))]
fn write_arrow_line<W: Write>(f: &mut Formatter<W>, path: &str, at: LineColumn) -> fmt::Result
    ensures { (start : ℕ)
        → WritesOnOk W.write_str_gives f.old result
        (arrow_line (visible path.now ++ behind_path (Some at) start)) f.new }
{
    write!(f, "--> {}:{}:{}\n", visible(path), at.line, at.column)
}

/// Writes the path of a file, and an offset that is beyond its end, behind an arrow.
#[tactic(auto, unfolding(crate::specs::Reports::arrow_line))]
fn write_beyond_line<W: Write>(f: &mut Formatter<W>, path: &str, start: usize) -> fmt::Result
    ensures { WritesOnOk W.write_str_gives f.old result
        (arrow_line (visible path.now ++ behind_path None start)) f.new }
{
    write!(f, "--> {}, byte {start}\n", visible(path))
}

/// Writes where a span of a file starts, and its line, where this is its line and column.
fn write_span_in<W: Write>(
    f: &mut Formatter<W>,
    file: &SourceFile,
    span: SourceSpan,
    at: LineColumn,
) -> fmt::Result
    requires { line_column_of file.now.text span.start ≡ Some at }
    ensures { WritesOnOk W.write_str_gives f.old result (arrow_line (place_in span (Some file.now))
        ++ excerpt_in (Some file.now) span) f.new }
{
    write_arrow_line(f, file.path.as_str(), at)?;
    write_excerpt(f, at, file.text.as_str(), span)
}

/// Writes where a span starts, and its line, where this is its line and column.
#[tactic(auto, unfolding(crate::specs::Reports::span_text, crate::specs::Reports::arrow_line))]
pub(crate) fn write_span<W: Write, S: Sources>(
    f: &mut Formatter<W>,
    sources: &S,
    span: SourceSpan,
    at: Option<LineColumn>,
) -> fmt::Result
    requires { at ≡ start_of span (S.files sources.now) }
    ensures { WritesOnOk W.write_str_gives f.old result (span_text span (S.files sources.now)) f.new }
{
    write_line_begin(f, gutter(at))?;
    match (sources.file(span.file), at) {
        (Some(file), Some(at)) => write_span_in(f, file, span, at),
        (Some(file), None) => write_beyond_line(f, file.path.as_str(), span.start),
        (None, _) => write!(f, "--> {}\n", PlaceWithoutText { span }),
    }
}
