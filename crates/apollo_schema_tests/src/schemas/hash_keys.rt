//! Builders whose tables hash by different keys.

use crate::schemas::building::{Built, add_all, push_built, schema_in};
use apollo_component::extension::ExtensionSource;
use apollo_schema::build_failure::BuildFailure;
use apollo_schema::schema_builder::SchemaBuilder;
use bench_notation::documents::read;
use graphql_nodes::collections::hash_keys::HashKeys;
use std::alloc::{AllocError, Global};
use std::process::Abort;
use telling::keys::is_schema_keyed;

/// Definitions and extensions of each kind, some before their definitions, and names that are there already.
/// One has more fields than a table first has room for.
const INPUT: &str =
    "ext object Query\nfield late Int\ndef object Query\nfield node Node\nfield all [Hit]\nimplements Gone\n---\ndef interface Node\nfield id ID!\ndef object User\nimplements Node\nfield id ID!\nfield id Int\nfield node Node\narg to Int\ndef union Hit\nmember User\nmember Query\ndef enum Tone\nvalue LOW\nvalue HIGH\next enum Tone\nvalue MID\nvalue LOW\ndef input Filter\nfield tone Tone\ndef scalar Date\ndef input Wide\nfield a Int\nfield b Int\nfield c Int\nfield d Int\nfield e Int\nfield f Int\nfield g Int\nfield h Int\nfield i Int\nfield j Int\n---\ndirective key\non OBJECT\next object User\n@ key\nfield since Date\next object Left\nfield over Int\next union Hit\nmember Left\n";

/// Bytes that a system may have drawn.
const DRAWN: [u8; 16] = [33, 7, 250, 3, 4, 95, 6, 7, 180, 9, 10, 11, 112, 13, 214, 15];

/// A builder with these keys, by either call.
fn keyed(alloc: Global, keys: HashKeys) -> Result<SchemaBuilder, AllocError> {
    if keys == HashKeys::FIXED {
        return SchemaBuilder::with_keys(alloc, keys);
    }
    SchemaBuilder::with_source_and_keys(alloc, ExtensionSource::new(), keys)
}

/// What the input builds under these keys.
fn built(rt: &(impl Abort + AllocGlobal), keys: HashKeys) -> Built {
    let documents = read(rt.alloc(), INPUT).expect(rt, "documents");
    let builder = keyed(rt.alloc(), keys).expect(rt, "memory");
    let adopting = builder.adopt_orphan_extensions();
    let mut builder = adopting.clone().expect(rt, "memory");
    add_all(&mut builder, documents.as_slice());
    builder.build()
}

/// Whether there are schemas, with faults, and these are equal, whichever comes first.
fn are_equal(first: &Built, second: &Built) -> bool {
    match (first, second) {
        (Err(BuildFailure::Faults(first)), Err(BuildFailure::Faults(second))) => {
            first.partial == second.partial && second.partial == first.partial
        }
        _ => false,
    }
}

#[test]
fn what_is_built_depends_on_no_keys(rt: HostRuntime) {
    let fixed = built(&rt, HashKeys::FIXED);
    let drawn = built(&rt, HashKeys::from_bytes(DRAWN));
    assert!(rt; are_equal(&fixed, &drawn));
    let mut of_fixed = String::new(rt.alloc());
    push_built(rt.alloc(), &mut of_fixed, &fixed).expect(&rt, "memory");
    let mut of_drawn = String::new(rt.alloc());
    push_built(rt.alloc(), &mut of_drawn, &drawn).expect(&rt, "memory");
    assert_eq!(rt; of_fixed.as_str(), of_drawn.as_str());
}

/// Whether each table of the schema, and of its map of implementers, hashes by these keys.
fn is_keyed(alloc: Global, built: &Built, keys: HashKeys) -> Result<bool, AllocError> {
    let Some(schema) = schema_in(built) else {
        return Ok(false);
    };
    let map = schema.implementers_map(alloc)?;
    let are_keyed = map.values().all(|found| found.objects.hash_keys() == keys
        && found.interfaces.hash_keys() == keys);
    Ok(is_schema_keyed(schema, keys) && map.hash_keys() == keys && are_keyed)
}

#[test]
fn keys_reach_each_table(rt: HostRuntime) {
    let keys = HashKeys::from_bytes(DRAWN);
    let built = built(&rt, keys);
    assert!(rt; is_keyed(rt.alloc(), &built, keys) == Ok(true));
}
