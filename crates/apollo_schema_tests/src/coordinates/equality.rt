//! What lookups answer in two schemas, compared.

use crate::types::schemas::schema_of;
use apollo_coordinate::SchemaCoordinate;
use apollo_schema::schema::Schema;
use likeness::are_equal;
use std::process::Abort;

/// Each form that a coordinate can have points to something here.
const FIRST: &str =
    "def object Query\nfield f Int\narg a Int\ndef input I\nfield f Int\ndef enum E\nvalue f\ndirective d\narg a Int\non FIELD\n";

/// Whether what a coordinate points to in two schemas is equal; none where there is nothing, or where the
/// lookup of an attribute answers otherwise.
fn are_same(coordinate: &SchemaCoordinate, first: &Schema, second: &Schema) -> Option<bool> {
    let same = are_equal(coordinate.lookup(first), coordinate.lookup(second));
    match coordinate {
        SchemaCoordinate::TypeAttribute(attribute)
            if are_equal(attribute.lookup(first), attribute.lookup(second)) != same => { None }
        _ => same,
    }
}

/// Expects what coordinates of each form point to in the schemas of two texts to be equal, or else unequal
/// but for the enum value.
fn expect(rt: &(impl Abort + AllocGlobal), second: &str, are_equal: bool) {
    let first = schema_of(rt.alloc(), FIRST).expect(rt, "a schema");
    let second = schema_of(rt.alloc(), second).expect(rt, "a schema");
    for (input, expected) in [
        ("Query", are_equal),
        ("Query.f", are_equal),
        ("Query.f(a:)", are_equal),
        ("I.f", are_equal),
        ("E.f", true),
        ("@d", are_equal),
        ("@d(a:)", are_equal),
    ] {
        let read = SchemaCoordinate::from_str(rt.alloc(), input);
        let coordinate = read.expect(rt, "a coordinate");
        assert!(rt;
            are_same(&coordinate, &first, &second) == Some(expected),
            "of {input}"
        );
    }
}

#[test]
fn locations_and_origins_are_left_out_and_other_values_are_unequal(rt: HostRuntime) {
    for (second, are_equal) in [
        // The same at other lines, where an extension has what was in a definition.
        (
            "directive d\narg a Int\non FIELD\ndef enum E\next enum E\nvalue f\ndef input I\next input I\nfield f Int\ndef object Query\next object Query\nfield f Int\narg a Int\n",
            true,
        ),
        // The same names, but with other types. The enum value is the same.
        (
            "def object Query\nfield f Int\narg a ID\ndef input I\nfield f ID\ndef enum E\nvalue f\ndirective d\narg a ID\non QUERY\n",
            false,
        ),
    ] {
        expect(&rt, second, are_equal);
    }
}
