//! Lookups in schemas, over tables of names: subtypes, implementers and fields.

use crate::types::schemas::schema_of;
use apollo_schema::field_lookup_error::FieldLookupError;
use apollo_schema::implementers::Implementers;
use apollo_schema::schema::Schema;
use graphql_nodes::collections::table::Table;
use graphql_nodes::name::Name;
use likeness::is_copied;
use std::alloc::{AllocError, Global};
use std::process::Abort;
use telling::Tell;

/// An interface that an interface implements, which an object implements; and a union with a member that
/// isn't defined.
const CHAIN: &str =
    "def interface Foo\nfield me String\ndef interface Bar\nimplements Foo\nfield me String\ndef object Obj\nimplements Bar\nfield me String\ndef union U\nmember Obj\nmember Gone\n";

const CHAIN_NAMES: [&str; 6] = ["Foo", "Bar", "Obj", "U", "Gone", "NotAType"];

/// Adds which of the names are subtypes of which.
fn push_subtypes(alloc: Global, text: &mut String, schema: &Schema) -> Result<(), AllocError> {
    for of in CHAIN_NAMES {
        let of = Name::new_unchecked(alloc, of)?;
        for name in CHAIN_NAMES {
            let name = Name::new_unchecked(alloc, name)?;
            if schema.is_subtype(&of, &name) {
                write!(text, "{name} of {of}\n")?;
            }
        }
    }
    Ok(())
}

#[test]
fn nothing_is_a_subtype_through_something_else(rt: HostRuntime) {
    let schema = schema_of(rt.alloc(), CHAIN).expect(&rt, "a schema");
    let mut text = String::new(rt.alloc());
    push_subtypes(rt.alloc(), &mut text, &schema).expect(&rt, "memory");
    assert_eq!(rt;
        text.as_str(),
        "Bar of Foo\nObj of Bar\nObj of U\nGone of U\n"
    );
}

/// Adds which types implement which interfaces.
fn push_map(text: &mut String, map: &Table<Name, Implementers>) -> Result<(), AllocError> {
    for (name, implementers) in map.iter() {
        let objects = implementers.objects.len();
        write!(text, "{name} has {objects} objects:")?;
        for implementer in implementers.iter() {
            write!(text, " {implementer}")?;
        }
        text.push_str("\n")?;
    }
    let is_copied = is_copied(map);
    write!(text, "copied equal: {is_copied}\n")
}

/// An interface that isn't defined, which an interface and two objects implement, one of them with another
/// such.
const WIDE: &str =
    "def interface Wide\nimplements I\nfield a Int\ndef object B\nimplements J\nimplements I\nfield a Int\ndef object A\nimplements I\nfield a Int\n";

#[test]
fn implementers_declare_the_interface_themselves(rt: HostRuntime) {
    let mut text = String::new(rt.alloc());
    for input in [CHAIN, WIDE] {
        let schema = schema_of(rt.alloc(), input).expect(&rt, "a schema");
        let map = schema.implementers_map(rt.alloc()).expect(&rt, "memory");
        push_map(&mut text, &map).expect(&rt, "memory");
    }
    assert_eq!(rt;
        text.as_str(),
        "Foo has 0 objects: Bar\nBar has 1 objects: Obj\ncopied equal: true\nI has 2 objects: B A Wide\nJ has 1 objects: B\ncopied equal: true\n"
    );
}

/// Whether a field is found alike by the name of its type and in the type itself.
fn is_found_alike(schema: &Schema, ty: &Name, field: &Name) -> bool {
    let Some(known) = schema.types.get(ty) else {
        return true;
    };
    match (
        schema.field_of(ty, known, field),
        schema.type_field(ty, field),
    ) {
        (Some(known), Ok(found)) => known == found,
        (None, Err(_)) => true,
        _ => false,
    }
}

/// Adds the field of this name, or why there is none.
fn push_lookup(
    text: &mut String,
    schema: &Schema,
    ty: &Name,
    field: &Name,
) -> Result<(), AllocError> {
    write!(text, "{ty} {field}: ")?;
    if !is_found_alike(schema, ty, field) {
        text.push_str("otherwise in the type itself: ")?;
    }
    match schema.type_field(ty, field) {
        Ok(found) => found.tell(text),
        Err(FieldLookupError::NoSuchType) => text.push_str("no such type\n"),
        Err(FieldLookupError::NoSuchField(key, ty)) => {
            let name = ty.name();
            write!(text, "no such field under {key}, which is {name}\n")
        }
    }
}

/// Expects this to be said of the fields of these types and names.
fn expect_fields(rt: &(impl Abort + AllocGlobal), asked: &Asked) {
    let schema = schema_of(rt.alloc(), asked.input).expect(rt, "a schema");
    let mut text = String::new(rt.alloc());
    for (ty, fields) in asked.names {
        let ty = Name::new_unchecked(rt.alloc(), *ty).expect(rt, "memory");
        for field in *fields {
            let field = Name::new_unchecked(rt.alloc(), *field).expect(rt, "memory");
            push_lookup(&mut text, &schema, &ty, &field).expect(rt, "memory");
        }
    }
    assert_eq!(rt; text.as_str(), asked.told, "of {}", asked.input);
}

/// Users, and types of all other kinds.
pub const USERS: &str =
    "def object Query\nfield me User\ndef object User\nfield name String\ndef interface Node\nfield id ID\ndef union Pet\nmember User\ndef scalar Date\ndef enum Size\nvalue BIG\ndef input Filter\nfield size Size\n";

/// A query for an identity and a user, and the users' identities.
const IDENTITIES: &str =
    "def object Query\nfield id ID\nfield user User\ndef object User\nfield id ID\n";

/// Fields that are looked up in a schema, by their types' names, and what is said of them.
struct Asked {
    input: &'static str,
    names: &'static [(&'static str, &'static [&'static str])],
    told: &'static str,
}

/// What is looked up in schemas.
const ASKED: &[Asked] = &[
    // Fields are those of types, and meta-fields.
    Asked {
        input: USERS,
        names: &[
            ("Query", &["me", "__schema", "__type"]),
            ("User", &["__typename", "__schema", "me"]),
            ("Node", &["id", "__typename"]),
            ("Pet", &["__typename", "name"]),
            ("Date", &["__typename"]),
            ("Filter", &["size"]),
            ("Gone", &["__typename"]),
        ],
        told: "Query me: definition 1:2 me 1:2 User 1:2 \nQuery __schema: definition - __schema - __Schema - ! \nQuery __type: definition - __type - ( - name - - String - ! ) __Type - \nUser __typename: definition - __typename - String - ! \nUser __schema: no such field under User, which is User\nUser me: no such field under User, which is User\nNode id: definition 1:6 id 1:6 ID 1:6 \nNode __typename: definition - __typename - String - ! \nPet __typename: definition - __typename - String - ! \nPet name: no such field under Pet, which is Pet\nDate __typename: no such field under Date, which is Date\nFilter size: no such field under Filter, which is Filter\nGone __typename: no such type\n",
    },
    // The schema field is that of the root of queries alone.
    Asked {
        input: IDENTITIES,
        names: &[
            ("Query", &["__schema"]),
            ("User", &["__typename", "__schema"]),
            ("ID", &["__typename"]),
            ("Gone", &["id"]),
        ],
        told: "Query __schema: definition - __schema - __Schema - ! \nUser __typename: definition - __typename - String - ! \nUser __schema: no such field under User, which is User\nID __typename: no such field under ID, which is ID\nGone id: no such type\n",
    },
    // A declared field comes first, and any root of queries has meta-fields.
    Asked {
        input: "schema\nroot query Root\ndef scalar Root\ndef object Odd\nfield __typename Int\n",
        names: &[
            ("Odd", &["__typename", "__schema"]),
            ("Root", &["__schema", "__typename"]),
        ],
        told: "Odd __typename: definition 1:5 __typename 1:5 Int 1:5 \nOdd __schema: no such field under Odd, which is Odd\nRoot __schema: definition - __schema - __Schema - ! \nRoot __typename: no such field under Root, which is Root\n",
    },
];

#[test]
fn fields_are_those_of_types_and_meta_fields(rt: HostRuntime) {
    for asked in ASKED {
        expect_fields(&rt, asked);
    }
}
