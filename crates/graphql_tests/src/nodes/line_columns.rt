//! Lines and columns of offsets in texts.

use crate::nodes::sources::one;
use crate::nodes::tables::expect_at;
use graphql_nodes::line_column::LineColumn;
use graphql_nodes::source::{FileId, SourceFile, SourceMap, SourceSpan};
use likeness::is_made_right;
use std::alloc::Global;

/// Texts, and the line and column of each offset up to the end. The texts are of none, of each line
/// terminator, of two that touch, and of characters of two, three and four bytes.
const EXAMPLES: &[(&str, &[(usize, usize)])] = &[
    ("", &[(1, 1)]),
    ("a\nb", &[(1, 1), (1, 2), (2, 1), (2, 2)]),
    ("a\rb", &[(1, 1), (1, 2), (2, 1), (2, 2)]),
    ("a\r\nb", &[(1, 1), (1, 2), (1, 3), (2, 1), (2, 2)]),
    ("\n\r", &[(1, 1), (2, 1), (3, 1)]),
    ("\r\r\n", &[(1, 1), (2, 1), (2, 2), (3, 1)]),
    (
        "é€😀",
        &[
            (1, 1),
            (1, 2),
            (1, 2),
            (1, 3),
            (1, 3),
            (1, 3),
            (1, 4),
            (1, 4),
            (1, 4),
            (1, 4),
        ],
    ),
];

fn at(line: usize, column: usize) -> LineColumn {
    LineColumn { line, column }
}

/// Whether the offsets of the text have these lines and columns, and the one after its end has none.
fn are_line_columns(alloc: Global, text: &str, line_columns: &[(usize, usize)]) -> bool {
    match SourceFile::new(alloc, "a.graphql", text) {
        Ok(file) => {
            for (offset, (line, column)) in line_columns.iter().enumerate() {
                if file.get_line_column(offset) != Some(at(*line, *column)) {
                    return false;
                }
            }
            file.get_line_column(line_columns.len()).is_none()
        }
        Err(_) => false,
    }
}

#[test]
fn lines_and_columns_of_offsets(rt: HostRuntime) {
    for (text, line_columns) in EXAMPLES {
        expect_at(&rt, text, are_line_columns(rt.alloc(), text, line_columns));
    }
}

fn span(file: u64, start: usize, end: usize) -> SourceSpan {
    SourceSpan {
        file: FileId(file),
        start,
        end,
    }
}

/// Whether a span within the text has its lines and columns. And whether one of another file has no line, and
/// one that ends beyond the text has no range.
fn are_found(sources: &SourceMap) -> bool {
    let (inner, other, long) = (span(1, 1, 3), span(2, 0, 1), span(1, 4, 5));
    inner.line_column(sources) == Some(at(1, 2))
        && inner.line_column_range(sources) == Some(at(1, 2)..at(2, 1))
        && other.line_column(sources).is_none()
        && other.line_column_range(sources).is_none()
        && long.line_column(sources) == Some(at(2, 2))
        && long.line_column_range(sources).is_none()
}

#[test]
fn lines_and_columns_of_spans(rt: HostRuntime) {
    assert!(rt; is_made_right(one(rt.alloc(), 1, "a\r\nb"), are_found));
}

#[test]
fn line_columns_are_equal_by_both_numbers(rt: HostRuntime) {
    let other = (at(2, 4), at(3, 3));
    assert!(rt; at(2, 3) == at(2, 3) && at(2, 3) != other.0 && at(2, 3) != other.1);
}
