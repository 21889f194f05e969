//! Where something stands, as people and editors read it.
ghost use Rattle.std.specs.Prelude.{Some};
ghost use Rattle.std.specs.Fmt.{WritesOnOk};
ghost use Rattle.graphql_nodes.specs.PlaceTexts.{behind_path, place_text, place_without_text};

use crate::line_column::LineColumn;
use crate::source::{FileId, SourceMap, SourceSpan};
use crate::visible_text::visible;
use std::fmt;

/// A span beside the sources that its file is one of.
///
/// `Display` is where the span starts, as `shop.graphql:4:5`. It has the path of its file, as [`visible`]
/// shows it, and the line and the column, as [`SourceSpan::line_column`] counts them. Where the text of the
/// file ends before, it is `shop.graphql, byte 90`. Where the sources lack the file, it is `built-in` for the
/// file of the built-in definitions, and `file 3, byte 90` for another.
#[derive(Clone, Copy)]
pub struct Place<'a> {
    pub span: SourceSpan,
    pub sources: &'a SourceMap,
}

/// Where a span starts of whose file there is no text.
///
/// `Display` is `built-in`, or `file 3, byte 90`.
#[derive(Clone, Copy)]
pub struct PlaceWithoutText {
    pub span: SourceSpan,
}

impl fmt::Display for PlaceWithoutText {
    ghost output = { λ place. Some (place_without_text place.span) };

    fn fmt<W: fmt::Write>(&self, f: &mut fmt::Formatter<W>) -> fmt::Result {
        let SourceSpan {
            file,
            start,
            end: _,
        } = self.span;
        if file == FileId::BUILT_IN {
            f.write_str("built-in")
        } else {
            write!(f, "file {}, byte {start}", file.0)
        }
    }
}

/// Writes what stands behind the path of a file.
fn write_behind_path<W: fmt::Write>(
    f: &mut fmt::Formatter<W>,
    at: Option<LineColumn>,
    start: usize,
) -> fmt::Result
    ensures { WritesOnOk W.write_str_gives f.old result (behind_path at start) f.new }
{
    match at {
        Some(LineColumn { line, column }) => write!(f, ":{line}:{column}"),
        None => write!(f, ", byte {start}"),
    }
}

impl fmt::Display for Place<'_> {
    ghost output = { λ place. Some (place_text place.span place.sources.now) };

    fn fmt<W: fmt::Write>(&self, f: &mut fmt::Formatter<W>) -> fmt::Result {
        let span = self.span;
        match self.sources.get(&span.file) {
            Some(file) => {
                write!(f, "{}", visible(file.path.as_str()))?;
                write_behind_path(f, file.get_line_column(span.start), span.start)
            }
            None => write!(f, "{}", PlaceWithoutText { span }),
        }
    }
}
