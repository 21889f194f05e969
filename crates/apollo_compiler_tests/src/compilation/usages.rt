//! The fields that an operation reaches, counted.

use crate::compilation::compiling::PLAIN;
use crate::compilation::texts::read;
use apollo_compiler::usage::{FieldUsage, field_usage};
use apollo_compiler::{
    ExecutableOptions, FileId, HashKeys, build_executable_document, build_schema,
};
use std::alloc::Global;
use std::slice;

static SCHEMA: &str =
    "type Query { me: User node: Node }\ninterface Node { id: ID }\ntype User implements Node { id: ID name: String friends: [User] }";

/// `Person` is spread twice and entered once; a field of an inline fragment goes by its condition.
static QUERY: &str =
    "query Page { me { ...Person again: name } me { ...Person } node { id ... on User { name } } }\nfragment Person on User { name friends { id name } }\nfragment Unused on User { friends { id } }";

/// The first of the operations of the query: what it reaches.
fn usages(alloc: Global) -> Option<Vec<FieldUsage>> {
    let schema = read(alloc, FileId(1), SCHEMA)?;
    let (schema, _) = build_schema(alloc, HashKeys::FIXED, PLAIN, slice::from_ref(&schema)).ok()?;
    let query = read(alloc, FileId(2), QUERY)?;
    let documents = slice::from_ref(&query);
    let options = ExecutableOptions::none();
    let (document, _) = build_executable_document(alloc, &schema, options, documents).ok()?;
    let operation = document.operations.iter().next()?;
    field_usage(alloc, &document, operation).ok()
}

/// The usages, one a line.
fn lines(alloc: Global) -> Option<String> {
    let mut text = String::new(alloc);
    for usage in &usages(alloc)? {
        let line = format!(in alloc; "{usage} {}\n", usage.count).ok()?;
        text.push_str(line.as_str()).ok()?;
    }
    Some(text)
}

#[test]
fn fields_are_counted_where_they_are_reached(rt: HostRuntime) {
    let lines = lines(rt.alloc()).expect(&rt, "a typed document");
    let wanted = "Query.me 2\nUser.name 4\nUser.friends 1\nUser.id 1\nQuery.node 1\nNode.id 1\n";
    assert_eq!(rt; lines.as_str(), wanted);
}
