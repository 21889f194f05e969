//! Reports of faults whose places are not known, or not in full.

use crate::reporting::made::{Form, reported, sources_of};
use crate::reporting::rows::quoted;
use apollo_compiler::{FileId, SourceSpan};
use apollo_meaning::build_error::BuildError;
use std::alloc::{AllocError, Global};

/// The text of the file of number 7, the only one.
static TEXT: &str = "{a}\n";

/// A place in a file that the sources lack.
const OF_NO_FILE: SourceSpan = SourceSpan {
    file: FileId(9),
    start: 3,
    end: 4,
};

/// A place behind the end of the text.
const BEHIND_THE_END: SourceSpan = SourceSpan {
    file: FileId(7),
    start: 9,
    end: 12,
};

/// A place that begins in the text, and ends behind its end.
const PAST_THE_END: SourceSpan = SourceSpan {
    file: FileId(7),
    start: 1,
    end: 9,
};

/// A place in the file of the built-in definitions, of which there is no text.
const BUILT_IN: SourceSpan = SourceSpan {
    file: FileId::BUILT_IN,
    start: 0,
    end: 0,
};

/// How each report begins.
static SENTENCE: &str = "error: must not have multiple `schema` definitions\n";

/// How the JSON of each begins.
static KIND: &str =
    r#"{"type":"fault","kind":"SchemaDefinitionCollision","message":"must not have multiple `schema` definitions","#;

/// A fault at a location, with an earlier place, how the report of it goes on, and how its JSON does, with `'`
/// for each of its quotes.
struct Row {
    location: Option<SourceSpan>,
    previous_location: Option<SourceSpan>,
    report: &'static str,
    json: &'static str,
}

static ROWS: [Row; 5] = [
    Row {
        location: None,
        previous_location: None,
        report: "",
        json: "'file':null,'line':null,'column':null,'end_line':null,'end_column':null,'path':null,'previous_location':null}",
    },
    Row {
        location: Some(OF_NO_FILE),
        previous_location: Some(BEHIND_THE_END),
        report: "  --> file 9, byte 3\nnote: first defined here\n  --> places.graphql, byte 9\n",
        json: "'file':null,'line':null,'column':null,'end_line':null,'end_column':null,'path':null,'previous_location':{'file':'places.graphql','line':null,'column':null,'end_line':null,'end_column':null}}",
    },
    Row {
        location: Some(BEHIND_THE_END),
        previous_location: Some(OF_NO_FILE),
        report: "  --> places.graphql, byte 9\nnote: first defined here\n  --> file 9, byte 3\n",
        json: "'file':'places.graphql','line':null,'column':null,'end_line':null,'end_column':null,'path':null,'previous_location':{'file':null,'line':null,'column':null,'end_line':null,'end_column':null}}",
    },
    Row {
        location: Some(BEHIND_THE_END),
        previous_location: Some(BUILT_IN),
        report: "  --> places.graphql, byte 9\nnote: first defined here\n  --> built-in\n",
        json: "'file':'places.graphql','line':null,'column':null,'end_line':null,'end_column':null,'path':null,'previous_location':{'file':null,'line':null,'column':null,'end_line':null,'end_column':null}}",
    },
    Row {
        location: Some(PAST_THE_END),
        previous_location: None,
        report: "  --> places.graphql:1:2\n   |\n 1 | {a}\n   |  ^^\n",
        json: "'file':'places.graphql','line':1,'column':2,'end_line':null,'end_column':null,'path':null,'previous_location':null}",
    },
];

/// Whether the fault of a row is reported so. The error is out of memory.
fn is_reported(alloc: Global, row: &Row) -> Result<bool, AllocError> {
    let sources = sources_of(alloc, "places.graphql", TEXT)?;
    let fault = BuildError::SchemaDefinitionCollision {
        previous_location: row.previous_location,
    };
    let report = reported(alloc, Form::Text, &sources, row.location, &fault)?;
    let json = reported(alloc, Form::Json, &sources, row.location, &fault)?;
    let members = quoted(alloc, row.json)?;
    Ok(
        report.as_str().strip_prefix(SENTENCE) == Some(row.report)
            && json.as_str().strip_prefix(KIND) == Some(members.as_str()),
    )
}

#[test]
fn unknown_places_are_reported(rt: HostRuntime) {
    for row in &ROWS {
        assert!(rt; is_reported(rt.alloc(), row) == Ok(true));
    }
}
