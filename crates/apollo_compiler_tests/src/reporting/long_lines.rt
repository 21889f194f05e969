//! Reports of faults on long lines.

use crate::reporting::made::{Form, reported, sources_of};
use apollo_compiler::{FileId, SourceSpan};
use apollo_meaning::build_error::BuildError;
use std::alloc::{AllocError, Global};

/// How many bytes `√` has.
const WIDTH: usize = 3;

/// A line of so many `√`, a fault from one of them up to another, and what is shown. That is so many of them
/// before the marks and in all, with dots before and behind, and so many marks.
struct Row {
    line: usize,
    start: usize,
    end: usize,
    dots: &'static str,
    before: usize,
    shown: usize,
    dots_behind: &'static str,
    marks: usize,
}

/// The longest line that is shown whole, and lines that are one longer, marked in the beginning, in the end
/// and to the end. Last a line of which something is left out on both sides.
static ROWS: [Row; 5] = [
    Row {
        line: 160,
        start: 159,
        end: 160,
        dots: "",
        before: 159,
        shown: 160,
        dots_behind: "",
        marks: 1,
    },
    Row {
        line: 161,
        start: 0,
        end: 1,
        dots: "",
        before: 0,
        shown: 100,
        dots_behind: "...",
        marks: 1,
    },
    Row {
        line: 161,
        start: 160,
        end: 161,
        dots: "...",
        before: 60,
        shown: 61,
        dots_behind: "",
        marks: 1,
    },
    Row {
        line: 161,
        start: 50,
        end: 161,
        dots: "",
        before: 50,
        shown: 150,
        dots_behind: "...",
        marks: 100,
    },
    Row {
        line: 300,
        start: 120,
        end: 130,
        dots: "...",
        before: 60,
        shown: 160,
        dots_behind: "...",
        marks: 10,
    },
];

/// So many of a text, one behind the other.
fn repeated(alloc: Global, text: &str, count: usize) -> Result<String, AllocError> {
    let mut all = String::new(alloc);
    for _ in 0..count {
        all.push_str(text)?;
    }
    Ok(all)
}

/// The report of the fault of a row.
fn wanted(alloc: Global, row: &Row) -> Result<String, AllocError> {
    let column = row.start.saturating_add(1);
    let shown = repeated(alloc, "√", row.shown)?;
    let blanks = repeated(alloc, " ", row.dots.len().saturating_add(row.before))?;
    let marks = repeated(alloc, "^", row.marks)?;
    let mut text = format!(in alloc;
        "error: must not have multiple `schema` definitions\n  --> long.graphql:1:{column}\n"
    )?;
    text.push_str(format!(in alloc;
        "   |\n 1 | {}{shown}{}\n",
        row.dots, row.dots_behind
    )?.as_str())?;
    text.push_str(format!(in alloc; "   | {blanks}{marks}\n")?.as_str())?;
    Ok(text)
}

/// Whether the fault of a row is reported so. The error is out of memory.
fn is_reported(alloc: Global, row: &Row) -> Result<bool, AllocError> {
    let sources = sources_of(
        alloc,
        "long.graphql",
        repeated(alloc, "√", row.line)?.as_str(),
    )?;
    let location = SourceSpan {
        file: FileId(7),
        start: row.start.saturating_mul(WIDTH),
        end: row.end.saturating_mul(WIDTH),
    };
    let fault = BuildError::SchemaDefinitionCollision {
        previous_location: None,
    };
    let report = reported(alloc, Form::Text, &sources, Some(location), &fault)?;
    Ok(report.as_str() == wanted(alloc, row)?.as_str())
}

#[test]
fn long_lines_are_shown_around_the_marks(rt: HostRuntime) {
    for row in &ROWS {
        assert!(rt; is_reported(rt.alloc(), row) == Ok(true));
    }
}
