//! Lines and columns of offsets in texts. Lines end as the GraphQL specification of October 2021 says,
//! section 2.1.3.
ghost use Rattle.std.specs.Prelude.{◌≡◌, ◌≤◌, length};
ghost use Rattle.graphql_nodes.specs.LineColumns.{column_of, line_of};
ghost use Rattle.graphql_nodes.specs.LineColumns as spec;

/// A line number and a column, which both start at 1. A column counts characters (Unicode scalar values).
#[derive(Clone, Copy, Debug, PartialEq, Eq, Hash)]
pub struct LineColumn {
    pub line: usize,
    pub column: usize,
}

/// Whether the byte at this place is the last one of a line terminator (section 2.1.3). There is none behind
/// the end.
pub fn ends_line(text: &[u8], at: usize) -> bool
    ensures { result ≡ spec.ends_line text.now at }
{
    match text.get(at) {
        Some(b'\n') => true,
        Some(b'\r') => text.get(at + 1) != Some(&b'\n'),
        _ => false,
    }
}

/// Whether a byte of UTF-8 begins a character.
pub fn begins_char(byte: u8) -> bool
    ensures { result ≡ spec.begins_char byte }
{
    byte < 128 || byte >= 192
}

impl LineColumn {
    /// Where each text starts.
    pub(crate) const FIRST: LineColumn = LineColumn { line: 1, column: 1 };
}

/// The line and column of an offset within a text, or at its end. It is counted on from an offset before,
/// whose line and column are given.
pub(crate) fn counted(text: &[u8], from: usize, start: LineColumn, offset: usize) -> LineColumn
    requires forward { from ≤ offset }
    requires within { offset ≤ length text.now }
    requires line { start.line ≡ line_of text.now from }
    requires column { start.column ≡ column_of text.now from }
    ensures line { result.line ≡ line_of text.now offset }
    ensures column { result.column ≡ column_of text.now offset }
{
    let LineColumn {
        mut line,
        mut column,
    } = start;
    for at in from..offset {
        if ends_line(text, at) {
            line += 1;
            column = 1;
        } else if begins_char(text[at]) {
            column += 1;
        }
    }
    LineColumn { line, column }
}
