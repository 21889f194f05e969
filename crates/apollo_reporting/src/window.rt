//! How far a long line is shown around an offset.
ghost use Rattle.std.specs.Prelude.{◌≡◌, ◌≤◌, length};
ghost use Rattle.graphql_nodes.specs.LineColumns.{column_of};
ghost use Rattle.apollo_reporting.specs.Windows.{ahead_by, back_by, goes_on, is_long, left_beside, stops_at};

use crate::excerpt::begins_line_end;
use graphql_nodes::line_column::{begins_char, ends_line};

/// How many characters a line may have that is shown whole.
pub(crate) const WHOLE_LINE: usize = 160;

/// How many characters of a longer line are shown before the marks.
pub(crate) const BEFORE_MARKS: usize = 60;

/// How many characters of a longer line are shown from the first mark on.
pub(crate) const FROM_MARKS: usize = 100;

/// How many of so many characters are left beside a byte.
fn left_beside(left: usize, byte: u8) -> usize
    ensures { result ≡ left_beside left byte }
{
    if begins_char(byte) {
        left.saturating_sub(1)
    } else {
        left
    }
}

/// Whether nothing is taken from a byte on, with so many characters left.
fn stops_at(left: usize, byte: u8) -> bool
    ensures { result ≡ stops_at left byte }
{
    begins_line_end(byte) || (left == 0 && begins_char(byte))
}

/// Where so many characters before an offset begin, or where its line does, if that is nearer.
pub(crate) fn back_by(text: &[u8], count: usize, offset: usize) -> usize
    requires { offset ≤ length text.now }
    ensures start { result ≡ back_by text.now count offset }
    ensures within { result ≤ offset }
{
    let mut left = count;
    let mut at = offset;
    while at > 0 {
        if left == 0 || ends_line(text, at - 1) {
            return at;
        }
        at -= 1;
        left = left_beside(left, text[at]);
    }
    0
}

/// How many bytes the first so many characters of a text take, up to its first line terminator at most.
pub(crate) fn ahead_by(text: &[u8], count: usize) -> usize
    ensures len { result ≡ ahead_by count text.now }
    ensures within { result ≤ length text.now }
{
    let mut left = count;
    for at in 0..text.len() {
        if stops_at(left, text[at]) {
            return at;
        }
        left = left_beside(left, text[at]);
    }
    text.len()
}

/// Whether the first line of a text goes on behind so many characters.
pub(crate) fn goes_on(text: &[u8], count: usize) -> bool
    ensures { result ≡ goes_on count text.now }
{
    let end = ahead_by(text, count);
    end < text.len() && !begins_line_end(text[end])
}

/// Whether the line of an offset, which stands in this column, is too long to be shown whole.
pub(crate) fn is_long(text: &[u8], offset: usize, column: usize) -> bool
    requires within { offset ≤ length text.now }
    requires column { column ≡ column_of text.now offset }
    ensures { result ≡ is_long text.now offset }
{
    let before = column - 1;
    before > WHOLE_LINE || goes_on(&text[offset..], WHOLE_LINE - before)
}
