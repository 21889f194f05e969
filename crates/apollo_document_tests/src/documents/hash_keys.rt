//! The keys that the tables of a document hash by.

use apollo_document::ExecutableDocumentBuilder;
use apollo_schema::schema_builder::SchemaBuilder;
use graphql_nodes::collections::hash_keys::HashKeys;
use std::alloc::Global;
use telling::keys::is_document_keyed;

/// Bytes that a system may have drawn.
const DRAWN: [u8; 16] = [33, 7, 250, 3, 4, 95, 6, 7, 180, 9, 10, 11, 112, 13, 214, 15];

/// Whether a builder builds, and each table of its document hashes by these keys.
fn is_keyed(builder: ExecutableDocumentBuilder<'_>, keys: HashKeys) -> bool {
    match builder.build() {
        Ok((document, _)) => is_document_keyed(&document, keys),
        Err(_) => false,
    }
}

/// Whether a document over a schema under these keys hashes by the second ones, which its builder is given if
/// there are any.
fn is_keyed_over(alloc: Global, of_schema: HashKeys, keys: Option<HashKeys>) -> bool {
    let Ok(builder) = SchemaBuilder::with_keys(alloc, of_schema) else {
        return false;
    };
    let Ok(schema) = builder.build() else {
        return false;
    };
    match keys {
        None => is_keyed(
            ExecutableDocumentBuilder::new(alloc, Some(&schema)),
            of_schema,
        ),
        Some(keys) => is_keyed(
            ExecutableDocumentBuilder::with_keys(alloc, Some(&schema), keys),
            keys,
        ),
    }
}

#[test]
fn keys_are_those_of_the_schema_or_given(rt: HostRuntime) {
    let alloc = rt.alloc();
    let drawn = HashKeys::from_bytes(DRAWN);
    assert!(rt; is_keyed_over(alloc, drawn, None));
    assert!(rt; is_keyed_over(alloc, drawn, Some(HashKeys::FIXED)));
    assert!(rt; is_keyed_over(alloc, HashKeys::FIXED, Some(drawn)));
    assert!(rt;
        is_keyed(
            ExecutableDocumentBuilder::with_keys(alloc, None, drawn),
            drawn
        )
    );
    let fixed = HashKeys::FIXED;
    assert!(rt; is_keyed(ExecutableDocumentBuilder::new(alloc, None), fixed));
}
