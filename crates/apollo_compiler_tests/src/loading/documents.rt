//! Documents of files, with the numbers of the files, and JSON of refusals.

use crate::loading::schemas::FILES;
use apollo_compiler::files::RefusedFile;
use apollo_compiler::text::{ParseOptions, parse_file};
use apollo_compiler::{LoadedDocuments, SourceMap, load_documents};
use apollo_reporting::fault_json::refusal_to_json;
use std::alloc::{AllocError, Global};

/// The paths of a file of each sort.
static PATHS: [&str; 4] = [
    "page.graphql",
    "none.graphql",
    "word.graphql",
    "types.graphql",
];

/// What is loaded of these.
fn loaded(alloc: Global) -> Result<LoadedDocuments, AllocError> {
    load_documents(alloc, &FILES, &PATHS, ParseOptions::new())
}

/// The numbers of files and their paths, one a line.
fn numbers(alloc: Global, sources: &SourceMap) -> Result<String, AllocError> {
    let mut text = String::new(alloc);
    for (number, file) in sources.iter() {
        let line = format!(in alloc; "{} {}\n", number.0, file.path)?;
        text.push_str(line.as_str())?;
    }
    Ok(text)
}

/// The JSON of refusals, one a line.
fn refusals(
    alloc: Global,
    sources: &SourceMap,
    refused: &[RefusedFile],
) -> Result<String, AllocError> {
    let mut text = String::new(alloc);
    for (location, refusal) in refused {
        text.push_str(refusal_to_json(alloc, sources, *location, refusal)?.as_str())?;
        text.push_str("\n")?;
    }
    Ok(text)
}

/// How many definitions a text has that is in no file, and under which number it is read.
fn parsed(alloc: Global, text: &str) -> Option<(usize, String)> {
    let (mut sources, options) = (SourceMap::new(alloc), ParseOptions::new());
    let document = parse_file(alloc, &mut sources, "types.graphql", text, options).ok()?;
    Some((document.definitions.len(), numbers(alloc, &sources).ok()?))
}

#[test]
fn a_text_in_no_file_is_a_document(rt: HostRuntime) {
    let (count, numbers) = parsed(rt.alloc(), "type A type B").expect(&rt, "a document");
    assert_eq!(rt; count, 2);
    assert_eq!(rt; numbers.as_str(), "1 types.graphql\n");
}

#[test]
fn each_file_has_its_place_as_its_number(rt: HostRuntime) {
    let alloc = rt.alloc();
    let loaded = loaded(alloc).expect(&rt, "memory");
    let numbers = numbers(alloc, &loaded.sources).expect(&rt, "memory");
    assert_eq!(rt;
        numbers.as_str(),
        "1 page.graphql\n3 word.graphql\n4 types.graphql\n"
    );
    assert_eq!(rt; loaded.documents.len(), 2);
}

#[test]
fn refusals_have_json(rt: HostRuntime) {
    let alloc = rt.alloc();
    let loaded = loaded(alloc).expect(&rt, "memory");
    let refused = loaded.refused.as_slice();
    let json = refusals(alloc, &loaded.sources, refused).expect(&rt, "memory");
    let wanted =
        r#"{"type":"refusal","kind":"Unread","message":"cannot read `none.graphql`: entity not found","file":null,"line":null,"column":null,"end_line":null,"end_column":null,"path":null,"unread":"none.graphql"}
{"type":"refusal","kind":"Unexpected","message":"expected a definition, found `typo`","file":"word.graphql","line":1,"column":1,"end_line":1,"end_column":5,"path":null,"expected":"a definition","found":"`typo`"}
"#;
    assert_eq!(rt; json.as_str(), wanted);
}
