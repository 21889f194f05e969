//! The line of a span, and what of it is marked. Lines end as the GraphQL specification of October 2021 says,
//! section 2.1.3.
ghost use Rattle.std.specs.Prelude.{◌≡◌, ◌≤◌, Some, length};
ghost use Rattle.std.specs.List.{position_or_len};
ghost use Rattle.graphql_nodes.specs.LineColumns.{column_of, line_column_of};
ghost use Rattle.apollo_reporting.specs.Excerpts.{begins_line_end, line_start, mark_count};
ghost use Rattle.apollo_reporting.specs.Windows.{shown, shown_by, whole, window};

use crate::window::{BEFORE_MARKS, FROM_MARKS, ahead_by, back_by, goes_on, is_long};
use graphql_nodes::line_column::{LineColumn, begins_char, ends_line};

/// What is shown of a text: a line, or what of a long line stands around the marks.
#[derive(Clone, Copy)]
pub(crate) struct Excerpt<'a> {
    /// The line, or what is shown of it.
    pub line: &'a str,
    /// What of that stands before the marks.
    pub before: &'a [u8],
    pub marks: usize,
    /// Whether something of the line is left out before.
    pub cut_before: bool,
    /// Whether something of the line is left out behind.
    pub cut_behind: bool,
}

/// Whether a byte begins a line terminator.
pub(crate) fn begins_line_end(byte: u8) -> bool
    ensures { result ≡ begins_line_end byte }
{
    byte == b'\n' || byte == b'\r'
}

/// Where the line of an offset begins.
fn line_start(text: &[u8], offset: usize) -> usize
    ensures start { result ≡ line_start text.now offset }
    ensures within { result ≤ offset }
{
    let mut at = offset;
    while at > 0 {
        if ends_line(text, at - 1) {
            return at;
        }
        at -= 1;
    }
    0
}

/// How many bytes a text has up to its first line terminator.
fn first_line_len(text: &[u8]) -> usize
    ensures len { result ≡ position_or_len begins_line_end text.now }
    ensures within { result ≤ length text.now }
{
    text.iter()
        .take_while(|byte| !begins_line_end(**byte))
        .count()
}

/// How many marks stand under these bytes.
fn mark_count(bytes: &[u8]) -> usize
    ensures { result ≡ mark_count bytes.now }
{
    bytes
        .iter()
        .filter(|byte| begins_char(**byte))
        .count()
        .max(1)
}

impl<'a> Excerpt<'a> {
    /// What is shown of a text for a span that begins at this line and column.
    pub(crate) fn new(text: &'a str, at: LineColumn, start: usize, end: usize) -> Excerpt<'a>
        requires { line_column_of text.now start ≡ Some at }
        ensures { shown_by result ≡ shown text.now start end }
    {
        if is_long(text.as_bytes(), start, at.column) {
            Excerpt::of_window(text, at.column, start, end)
        } else {
            Excerpt::of_whole_line(text, start, end)
        }
    }

    /// The whole line of a span that begins within a text, or at its end.
    fn of_whole_line(text: &'a str, start: usize, end: usize) -> Excerpt<'a>
        requires { start ≤ length text.now }
        ensures { shown_by result ≡ whole text.now start end }
    {
        let bytes = text.as_bytes();
        let from = line_start(bytes, start);
        let to = from + first_line_len(&bytes[from..]);
        let behind = &bytes[start..];
        let marked = first_line_len(behind).min(end.saturating_sub(start));
        Excerpt {
            line: &text[from..to],
            before: &bytes[from..start],
            marks: mark_count(&behind[..marked]),
            cut_before: false,
            cut_behind: false,
        }
    }

    /// What is shown of a long line around where a span begins, in this column.
    fn of_window(text: &'a str, column: usize, start: usize, end: usize) -> Excerpt<'a>
        requires within { start ≤ length text.now }
        requires column { column ≡ column_of text.now start }
        ensures { shown_by result ≡ window text.now start end }
    {
        let bytes = text.as_bytes();
        let behind = &bytes[start..];
        let from = back_by(bytes, BEFORE_MARKS, start);
        let ahead = ahead_by(behind, FROM_MARKS);
        let marked = ahead.min(end.saturating_sub(start));
        Excerpt {
            line: &text[from..start + ahead],
            before: &bytes[from..start],
            marks: mark_count(&behind[..marked]),
            cut_before: column - 1 > BEFORE_MARKS,
            cut_behind: goes_on(behind, FROM_MARKS),
        }
    }
}
