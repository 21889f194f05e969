//! Schemas that differ in one thing each, and whether they are equal. The order of directives and of
//! arguments counts. That of types, fields and other members doesn't, and neither do locations and origins.

use crate::schemas::building::{ADOPTING, is_built_of};
use crate::types::schemas::schema_of;
use apollo_schema::schema::Schema;
use std::process::Abort;

/// Expects the schemas that two texts build to be equal, or else unequal, whichever comes first.
fn expect(rt: &(impl Abort + AllocGlobal), one: &str, other: &str, are_equal: bool) {
    let first = schema_of(rt.alloc(), one).expect(rt, "a schema");
    let second = schema_of(rt.alloc(), other).expect(rt, "a schema");
    assert!(rt; (first == second) == are_equal, "{one:?} and {other:?}");
    assert!(rt; (second == first) == are_equal, "{other:?} and {one:?}");
}

#[test]
fn schemas_that_differ_in_one_value_are_unequal(rt: HostRuntime) {
    // A directive of a type, of a field and of the schema. The order of directives. The type, the order of
    // arguments and the name of a field. A root and its name. A member. A type and its kind. A location of a
    // directive definition.
    for (one, other) in [
        (
            "def object A\n@ d\nfield a Int",
            "def object A\n\nfield a Int",
        ),
        (
            "def object A\nfield a Int\nfield@ d",
            "def object A\nfield a Int",
        ),
        ("schema\n@ d\nroot query Q", "schema\n\nroot query Q"),
        ("def scalar S\n@ d\n@ e", "def scalar S\n@ e\n@ d"),
        ("def object A\nfield a Int", "def object A\nfield a String"),
        (
            "def object A\nfield a Int\narg x Int\narg y Int",
            "def object A\nfield a Int\narg y Int\narg x Int",
        ),
        ("def object A\nfield a Int", "def object A\nfield b Int"),
        (
            "schema\nroot query Q\nroot mutation M",
            "schema\nroot query Q",
        ),
        ("schema\nroot query Q", "schema\nroot query R"),
        ("def union U\nmember A\nmember B", "def union U\nmember A"),
        ("def scalar S\ndef scalar T", "def scalar S"),
        ("def object A\nfield a Int", "def interface A\nfield a Int"),
        ("directive d\non OBJECT", "directive d\non SCHEMA"),
    ] {
        expect(&rt, one, other, false);
    }
}

#[test]
fn schemas_that_differ_in_order_origin_or_location_are_equal(rt: HostRuntime) {
    // The order of types, of directive definitions, of fields, of interfaces, of members and of values. The
    // origin of a field, of a directive and of a root, each on its own line. Locations alone, and documents.
    for (one, other) in [
        ("def scalar S\ndef scalar T", "def scalar T\ndef scalar S"),
        (
            "directive d\non OBJECT\ndirective e\non OBJECT",
            "directive e\non OBJECT\ndirective d\non OBJECT",
        ),
        (
            "def object A\nfield a Int\nfield b Int",
            "def object A\nfield b Int\nfield a Int",
        ),
        (
            "def object A\nimplements I\nimplements J",
            "def object A\nimplements J\nimplements I",
        ),
        (
            "def union U\nmember A\nmember B",
            "def union U\nmember B\nmember A",
        ),
        (
            "def enum E\nvalue A\nvalue B",
            "def enum E\nvalue B\nvalue A",
        ),
        (
            "def object A\nfield a Int\n\nfield b Int",
            "def object A\nfield a Int\next object A\nfield b Int",
        ),
        ("def scalar S\n\n@ d", "def scalar S\next scalar S\n@ d"),
        (
            "schema\nroot query Q\n\nroot mutation M",
            "schema\nroot query Q\next-schema\nroot mutation M",
        ),
        (
            "def object A\n@ d\nfield a Int",
            "\ndef object A\n\n@ d\n\nfield a Int",
        ),
        (
            "def scalar S\n\ndef scalar T",
            "def scalar S\n---\ndef scalar T",
        ),
    ] {
        expect(&rt, one, other, true);
    }
}

#[test]
fn a_new_schema_is_built_of_no_documents(rt: HostRuntime) {
    let schema = Schema::new(rt.alloc()).expect(&rt, "memory");
    assert!(rt; is_built_of(rt.alloc(), &ADOPTING, &schema, &[]) == Ok(true));
}
