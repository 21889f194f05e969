//! The rows of a text, each of a title line and the lines up to the next title.

use crate::stop::Stop;
use bench_notation::words::lines_of;
use std::alloc::{AllocError, Global};

/// A row: the words and the input of a run, and what is to come of it. That is its status, its output, what
/// stands on standard error.
#[derive(Drop)]
pub struct Row<'a> {
    pub title: &'a str,
    pub words: Vec<&'a str>,
    pub input: String,
    pub status: Option<&'a str>,
    pub output: String,
    pub errors: String,
}

/// A row of which nothing but the title is said.
fn titled(alloc: Global, title: &str) -> Row<'_> {
    Row {
        title,
        words: Vec::new(alloc),
        input: String::new(alloc),
        status: None,
        output: String::new(alloc),
        errors: String::new(alloc),
    }
}

/// The mark of a line, and the text behind it. A line that says nothing has the mark of a comment.
fn parts(line: &str) -> (&str, &str) {
    if line.is_empty() || line.starts_with('#') {
        ("#", "")
    } else {
        line.split_once(' ').unwrap_or((line, ""))
    }
}

/// Why a line says nothing, below a title or not, where the line before it has this mark; none where it says
/// something.
fn reason_for(has_title: bool, before: &str, line: &str) -> Option<&'static str> {
    let (mark, text) = parts(line);
    let is_known = matches!(mark, "#" | "*" | "$" | "<" | ">" | "!" | "?") || line == "\\";
    if !is_known {
        Some("unknown line")
    } else if !(has_title || mark == "*" || mark == "#") {
        Some("no title above")
    } else if mark == "?" && !matches!(text, "0" | "1" | "2" | "3" | "4") {
        Some("no status")
    } else if mark == "\\" && before != "<" {
        Some("no line of input above")
    } else {
        None
    }
}

/// Adds what a line below a title says. Of several statuses the first one counts.
fn add_line<'a>(row: &mut Row<'a>, mark: &str, text: &'a str) -> Result<(), AllocError> {
    match mark {
        "$" => row.words.push(text)?,
        "<" => writeln!(row.input, "{text}")?,
        ">" => writeln!(row.output, "{text}")?,
        "!" => writeln!(row.errors, "{text}")?,
        "?" => row.status = row.status.or(Some(text)),
        "\\" => {
            row.input.pop();
        }
        _ => {}
    }
    Ok(())
}

/// Adds the rows of a text to those before it. What is said of the text begins with `place`.
///
/// `Refused` is answered of the first line that says nothing where it stands, or has the title of an earlier
/// row.
pub fn read_rows<'a>(
    alloc: Global,
    place: &str,
    text: &'a str,
    rows: &mut Vec<Row<'a>>,
) -> Result<(), Stop> {
    let (mut has_title, mut before) = (false, "#");
    for (index, line) in lines_of(alloc, text)?.iter().enumerate() {
        let (mark, text) = parts(*line);
        let number = index + 1;
        if let Some(reason) = reason_for(has_title, before, *line) {
            return Err(Stop::Refused(format!(in alloc; "{place}line {number}: {reason}")?));
        }
        if mark == "*" {
            if rows.iter().any(|row| row.title == text) {
                return Err(Stop::Refused(format!(in alloc;
                    "{place}line {number}: a second row of the title `{text}`"
                )?));
            }
            rows.push(titled(alloc, text))?;
            has_title = true;
        } else if let Some(row) = rows.last_mut() {
            add_line(row, mark, text)?;
        }
        before = mark;
    }
    Ok(())
}
