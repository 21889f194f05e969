//! Reports for programs: objects of JSON with members of a caller's own, refusals as JSON, and workflow
//! commands.

use crate::reporting::made::sources_of;
use apollo_compiler::text::{ParseOptions, parse_document};
use apollo_compiler::{FileId, LineColumn, SourceSpan};
use apollo_reporting::fault_json::refusal_to_json;
use apollo_reporting::github::{github_command, to_github_command};
use apollo_reporting::json_object::{JsonValue, object_to_json, placed_to_json};
use graphql_nodes::collections::shared::Shared;
use graphql_nodes::source::SourceFile;
use std::alloc::{AllocError, Global};

/// Where `B` stands in the sources of [`objects`].
const PLACE: Option<SourceSpan> = Some(SourceSpan {
    file: FileId(7),
    start: 5,
    end: 6,
});

/// An object, and one with a place.
fn objects(alloc: Global) -> Result<(String, String), AllocError> {
    let sources = sources_of(alloc, "a.graphql", "type B")?;
    let members = [
        ("text", JsonValue::Words(Some("type A"))),
        ("count", JsonValue::Number(Some(2))),
        ("operation", JsonValue::Definition("query", None)),
        ("nothing", JsonValue::Words(None)),
    ];
    let object = object_to_json(alloc, "field", &members)?;
    let placed = placed_to_json(alloc, "field", &[], &sources, PLACE)?;
    Ok((object, placed))
}

#[test]
fn objects_have_their_members_in_order(rt: HostRuntime) {
    let (object, placed) = objects(rt.alloc()).expect(&rt, "memory");
    let wanted =
        r#"{"type":"field","text":"type A","count":2,"operation":{"kind":"query","name":null},"nothing":null}"#;
    assert_eq!(rt; object.as_str(), wanted);
    let wanted =
        r#"{"type":"field","file":"a.graphql","line":1,"column":6,"end_line":1,"end_column":7}"#;
    assert_eq!(rt; placed.as_str(), wanted);
}

/// The refusal of a text, as JSON and as a workflow command.
fn refusal(alloc: Global) -> Option<(String, String)> {
    let file = SourceFile::new(alloc, "a,b.graphql", "{").ok()?;
    let source = Shared::new(alloc, file).ok()?;
    let Err(error) = parse_document(alloc, FileId(7), &source, ParseOptions::new()) else {
        return None;
    };
    let sources = sources_of(alloc, "a,b.graphql", "{").ok()?;
    let location = Some(error.location);
    let json = refusal_to_json(alloc, &sources, location, &error).ok()?;
    let command = to_github_command(alloc, &sources, location, &error).ok()?;
    Some((json, command))
}

#[test]
fn a_refusal_is_an_object_and_a_command(rt: HostRuntime) {
    let (json, command) = refusal(rt.alloc()).expect(&rt, "a refusal");
    let wanted =
        r#"{"type":"refusal","kind":"Unexpected","message":"expected a selection, found the end of the text","file":"a,b.graphql","line":1,"column":2,"end_line":1,"end_column":2,"path":null,"expected":"a selection","found":"the end of the text"}"#;
    assert_eq!(rt; json.as_str(), wanted);
    let wanted =
        "::error file=a%2Cb.graphql,line=1,col=2::expected a selection, found the end of the text";
    assert_eq!(rt; command.as_str(), wanted);
}

#[test]
fn a_command_without_a_place(rt: HostRuntime) {
    let place = LineColumn { line: 2, column: 3 };
    let command = github_command(rt.alloc(), Some("a:b"), Some(place), "50%\n").expect(
        &rt, "memory",
    );
    assert_eq!(rt;
        command.as_str(),
        "::error file=a%3Ab,line=2,col=3::50%25\u{fffd}"
    );
    let command = github_command(rt.alloc(), None, None, "so").expect(&rt, "memory");
    assert_eq!(rt; command.as_str(), "::error::so");
}
