//! Reports of texts, paths and names with control characters.

use crate::reporting::made::{Form, reported, reported_of_text, sources_of};
use apollo_compiler::collections::Items;
use apollo_compiler::{FileId, Name, SourceMap, SourceSpan};
use apollo_meaning::build_error::BuildError;
use leafcheck::{ExecutableDefinitionName, LeafFault, LeafKind, SelectionPath};
use std::alloc::{AllocError, Global};

/// The first character of the file.
const FIRST: SourceSpan = SourceSpan {
    file: FileId(7),
    start: 0,
    end: 1,
};

/// The report of a fault at the first character of a text. The text has control characters of one and of two
/// bytes, and a tab. It is in a file whose path has such.
fn report_of_controls(alloc: Global) -> Result<String, AllocError> {
    let sources = sources_of(alloc, "\x1b[31m.graphql", "\x1b\t\u{9b}\x7f√\n")?;
    let fault = BuildError::SchemaDefinitionCollision {
        previous_location: None,
    };
    reported(alloc, Form::Text, &sources, Some(FIRST), &fault)
}

#[test]
fn control_characters_are_not_written(rt: HostRuntime) {
    let report = report_of_controls(rt.alloc());
    assert!(rt;
        report.is_ok_and(|text| text.as_str()
            == "error: must not have multiple `schema` definitions
  --> \u{fffd}[31m.graphql:1:1
   |
 1 | \u{fffd}\t\u{fffd}\u{fffd}√
   | ^
")
    );
}

#[test]
fn a_control_character_at_fault_is_not_written(rt: HostRuntime) {
    let report = reported_of_text(rt.alloc(), Form::Text, "{\u{9b}}");
    assert!(rt;
        report.is_some_and(|text| text.as_str()
            == "error: unexpected character `\u{fffd}`
  --> refused.graphql:1:2
   |
 1 | {\u{fffd}}
   |  ^
")
    );
    let json = reported_of_text(rt.alloc(), Form::Json, "{\u{9b}}");
    assert!(rt;
        json.is_some_and(|text| text.as_str()
            == "{\"type\":\"fault\",\"kind\":\"UnexpectedCharacter\",\"message\":\"unexpected character `\u{9b}`\",\"file\":\"refused.graphql\",\"line\":1,\"column\":2,\"end_line\":1,\"end_column\":2,\"path\":null,\"character\":\"\u{9b}\",\"shown\":\"`\u{9b}`\"}")
    );
}

/// A name that is none of GraphQL.
fn name(alloc: Global) -> Result<Name, AllocError> {
    Name::new_unchecked(alloc, "\x1b[31m")
}

/// The report of a field of that name, in a fragment of that name. It stands nowhere.
fn report_of_names(alloc: Global) -> Result<String, AllocError> {
    let mut nested_fields = Items::new(alloc);
    nested_fields.push(name(alloc)?)?;
    let fault = LeafFault {
        location: None,
        parent_type: name(alloc)?,
        response_key: name(alloc)?,
        path: SelectionPath {
            root: ExecutableDefinitionName::Fragment(name(alloc)?),
            nested_fields,
        },
        kind: LeafKind::SubselectionOnLeaf,
    };
    reported(
        alloc,
        Form::Text,
        &SourceMap::new(alloc),
        fault.location,
        &fault,
    )
}

#[test]
fn control_characters_of_names_are_not_written(rt: HostRuntime) {
    let report = report_of_names(rt.alloc());
    assert!(rt;
        report.is_ok_and(|text| text.as_str()
            == "error: `\u{fffd}[31m`: a field of scalar or enum type must not have subselections
   = path: fragment \u{fffd}[31m → \u{fffd}[31m
")
    );
}
