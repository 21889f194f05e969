//! Rows of texts, and how their faults are reported.

use crate::reporting::leaves::reported_on_leaf;
use crate::reporting::made::{
    Form, reported_of_document, reported_of_leaf, reported_of_schema, reported_of_text,
};
use std::alloc::{AllocError, Global};

/// What the texts of rows are.
#[derive(Debug, Clone, Copy)]
pub(crate) enum Sort {
    /// Texts that are refused.
    Texts,
    /// Texts of schemas.
    Schemas,
    /// Texts of documents.
    Documents,
    /// Texts of documents with a leaf fault.
    Leaves,
    /// Texts of documents whose leaf fault is made by hand.
    HandMade,
}

/// A line and a column, the line as it is shown, and the mark under it.
pub(crate) struct At(pub u32, pub u32, pub &'static str, pub &'static str);

/// A text with a fault, what its report and its JSON say, what the report has under the mark, and the members
/// of the JSON behind the column, with `'` for each of their quotes.
pub(crate) struct Row {
    pub text: &'static str,
    pub kind: &'static str,
    pub message: &'static str,
    pub at: At,
    pub under: &'static str,
    pub json: &'static str,
}

/// What is reported of the faults of a text.
fn reported(alloc: Global, sort: Sort, form: Form, text: &str) -> Option<String> {
    match sort {
        Sort::Texts => reported_of_text(alloc, form, text),
        Sort::Schemas => reported_of_schema(alloc, form, text),
        Sort::Documents => reported_of_document(alloc, form, text),
        Sort::Leaves => reported_of_leaf(alloc, form, text),
        Sort::HandMade => reported_on_leaf(alloc, form, text).ok(),
    }
}

/// The file of a text.
fn file(sort: Sort) -> &'static str {
    match sort {
        Sort::Texts => "refused.graphql",
        Sort::Schemas => "store.graphql",
        Sort::Documents | Sort::Leaves => "page.graphql",
        Sort::HandMade => "cover.graphql",
    }
}

/// A text with a quote for each `'`.
pub(crate) fn quoted(alloc: Global, text: &str) -> Result<String, AllocError> {
    let mut quoted = String::new(alloc);
    for character in text.chars() {
        quoted.push(if character == '\'' { '"' } else { character })?;
    }
    Ok(quoted)
}

/// The report of a row. What stands beside the line is as wide as its number.
fn report_of(alloc: Global, file: &str, row: &Row) -> Result<String, AllocError> {
    let Row { message, under, .. } = row;
    let At(line, column, shown, mark) = &row.at;
    let blank = if *line < 10 { " " } else { "  " };
    let mut text = String::new(alloc);
    write!(
        text,
        "error: {message}\n {blank}--> {file}:{line}:{column}\n"
    )?;
    write!(
        text,
        " {blank} |\n {line} | {shown}\n {blank} | {mark}\n{under}"
    )?;
    Ok(text)
}

/// The JSON of a row.
fn json_of(alloc: Global, file: &str, row: &Row) -> Result<String, AllocError> {
    let Row { kind, message, .. } = row;
    let At(line, column, ..) = row.at;
    let mut text = String::new(alloc);
    write!(
        text,
        r#"{{"type":"fault","kind":"{kind}","message":"{message}","file":"{file}","line":{line},"column":{column},"#
    )?;
    text.push_str(quoted(alloc, row.json)?.as_str())?;
    text.push_str("}")?;
    Ok(text)
}

/// Whether the fault of a row is reported so, or none where memory runs out.
fn is_reported(alloc: Global, sort: Sort, row: &Row) -> Option<bool> {
    let report = reported(alloc, sort, Form::Text, row.text)?;
    let json = reported(alloc, sort, Form::Json, row.text)?;
    let wanted_report = report_of(alloc, file(sort), row).ok()?;
    let wanted_json = json_of(alloc, file(sort), row).ok()?;
    Some(report.as_str() == wanted_report.as_str() && json.as_str() == wanted_json.as_str())
}

/// The text of the first row whose fault is reported in another way.
pub(crate) fn first_wrong(alloc: Global, sort: Sort, rows: &[Row]) -> Option<&'static str> {
    for row in rows {
        if is_reported(alloc, sort, row) != Some(true) {
            return Some(row.text);
        }
    }
    None
}
