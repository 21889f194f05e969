//! Coordinates looked up in a schema that is built of a text.

use crate::types::schemas::schema_of;
use apollo_coordinate::SchemaCoordinate;
use apollo_coordinate::lookup_answers::{SchemaCoordinateLookup, SchemaLookupError};
use apollo_schema::schema::Schema;
use std::alloc::{AllocError, Global};
use std::process::Abort;

/// A type of each kind that has attributes or could have meta-fields.
const INPUT: &str =
    "def object Query\nfield f Int\narg a Int\ndef enum E\nvalue A\ndef union U\ndef input I\nfield g Int\ndef interface N\nfield n Int\n";

/// An enum as the root of queries, with a value that has the name of a meta-field.
const ENUM_ROOT: &str = "schema\nroot query E\ndef enum E\nvalue __schema\n";

/// Which call looks a coordinate up.
#[derive(Clone, Copy)]
enum Lookup {
    Any,
    Attribute,
    Field,
    InputField,
    EnumValue,
}

/// What a coordinate points to by this call. All but the first are calls of attributes.
fn look_up<'coord, 'schema>(
    lookup: &Lookup,
    coordinate: &'coord SchemaCoordinate,
    schema: &'schema Schema,
) -> Result<SchemaCoordinateLookup<'schema>, SchemaLookupError<'coord, 'schema>> {
    match (lookup, coordinate) {
        (Lookup::Attribute, SchemaCoordinate::TypeAttribute(it)) => Ok(it.lookup(schema)?.into()),
        (Lookup::Field, SchemaCoordinate::TypeAttribute(it)) => Ok(it.lookup_field(schema)?.into()),
        (Lookup::InputField, SchemaCoordinate::TypeAttribute(it)) => {
            Ok(it.lookup_input_field(schema)?.into())
        }
        (Lookup::EnumValue, SchemaCoordinate::TypeAttribute(it)) => {
            Ok(it.lookup_enum_value(schema)?.into())
        }
        (_, _) => coordinate.lookup(schema),
    }
}

/// What was found.
fn found(answer: SchemaCoordinateLookup<'_>) -> &'static str {
    match answer {
        SchemaCoordinateLookup::Ty(_) => "type",
        SchemaCoordinateLookup::Directive(_) => "directive",
        SchemaCoordinateLookup::Field(_) => "field",
        SchemaCoordinateLookup::InputField(_) => "input field",
        SchemaCoordinateLookup::EnumValue(_) => "enum value",
        SchemaCoordinateLookup::Argument(_) => "argument",
    }
}

/// What this call answers, or the text of its error.
fn answer(
    alloc: Global,
    lookup: &Lookup,
    coordinate: &SchemaCoordinate,
    schema: &Schema,
) -> Result<String, AllocError> {
    match look_up(lookup, coordinate, schema) {
        Ok(answer) => found(answer).to_string(alloc),
        Err(error) => error.to_string(alloc),
    }
}

/// Expects this call to answer so in the schema that a text builds.
fn expect(rt: &(impl Abort + AllocGlobal), schema: &str, lookup: &Lookup, rows: &[(&str, &str)]) {
    let schema = schema_of(rt.alloc(), schema).expect(rt, "a schema");
    for (input, expected) in rows {
        let read = SchemaCoordinate::from_str(rt.alloc(), *input);
        let coordinate = read.expect(rt, "a coordinate");
        let answer = answer(rt.alloc(), lookup, &coordinate, &schema).expect(rt, "memory");
        assert_eq!(rt; answer.as_str(), *expected, "of {input}");
    }
}

/// What calls answer at coordinates, in schemas.
const ANSWERS: [(&str, Lookup, &[(&str, &str)]); 8] = [
    // Coordinates of each form are found.
    (
        INPUT,
        Lookup::Any,
        &[
            ("Query", "type"),
            ("Query.f", "field"),
            ("Query.f(a:)", "argument"),
            ("E.A", "enum value"),
            ("I.g", "input field"),
            ("N.n", "field"),
            ("@skip", "directive"),
            ("@skip(if:)", "argument"),
            ("Query.__typename", "field"),
            ("U.__typename", "field"),
            ("Query.__schema", "field"),
            ("Query.__type(name:)", "argument"),
        ],
    ),
    // What is missing is named.
    (
        INPUT,
        Lookup::Any,
        &[
            ("Type.field(argument:)", "type `Type` does not exist"),
            ("@directive", "type `directive` does not exist"),
            ("@directive(a:)", "type `directive` does not exist"),
            ("@skip(x:)", "field or directive does not have argument `x`"),
            (
                "E.A(b:)",
                "type attribute `A` is not a field and can not have arguments",
            ),
            (
                "I.g(b:)",
                "type attribute `g` is not a field and can not have arguments",
            ),
            ("U.x", "type does not have attributes"),
            ("U.x(a:)", "type does not have attributes"),
            (
                "Query.f(z:)",
                "field or directive does not have argument `z`",
            ),
            (
                "Query.__type(x:)",
                "field or directive does not have argument `x`",
            ),
            ("E.__typename", "type does not have attribute `__typename`"),
            ("Int.__typename", "type does not have attributes"),
            ("Query.z", "type does not have attribute `z`"),
        ],
    ),
    // Attributes of one sort are found.
    (INPUT, Lookup::Attribute, &[("E.A", "enum value")]),
    (
        INPUT,
        Lookup::Field,
        &[
            ("Query.f", "field"),
            ("U.__typename", "field"),
            ("Query.z", "type does not have attribute `z`"),
            ("E.A", "type does not have attributes"),
            ("Gone.f", "type `Gone` does not exist"),
        ],
    ),
    (
        INPUT,
        Lookup::InputField,
        &[
            ("I.g", "input field"),
            ("I.z", "type does not have attribute `z`"),
            ("Query.f", "type does not have attributes"),
            ("Query.__typename", "type does not have attributes"),
        ],
    ),
    (
        INPUT,
        Lookup::EnumValue,
        &[
            ("E.A", "enum value"),
            ("E.B", "type does not have attribute `B`"),
            ("U.__typename", "type does not have attributes"),
            ("Gone.A", "type `Gone` does not exist"),
        ],
    ),
    // A value is found before a meta-field.
    (
        ENUM_ROOT,
        Lookup::Any,
        &[
            ("E.__schema", "enum value"),
            (
                "E.__schema(a:)",
                "type attribute `__schema` is not a field and can not have arguments",
            ),
            ("E.__type", "field"),
            ("E.__type(name:)", "argument"),
        ],
    ),
    (
        ENUM_ROOT,
        Lookup::Field,
        &[
            ("E.__schema", "field"),
            ("E.__typename", "type does not have attributes"),
        ],
    ),
];

#[test]
fn coordinates_point_to_what_schemas_hold(rt: HostRuntime) {
    for (schema, lookup, rows) in ANSWERS {
        expect(&rt, schema, &lookup, rows);
    }
}
