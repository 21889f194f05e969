//! Documents whose definitions change places: their schemas are equal and their faults the same, or, where
//! extensions of one name change places, they are not.

use crate::schemas::building::{ADOPTING, PLAIN, Settings, built_of, is_built_of, schema_in};
use apollo_schema::build_failure::BuildFailure;
use bench_notation::documents::read;
use graphql_ast::document::Document;
use likeness::push_copy;
use std::alloc::{AllocError, Global};
use std::process::Abort;
use std::slice;
use telling::Tell;

/// Adds what is at fault in a document, and whether the other one builds an equal schema.
fn push_pair(
    alloc: Global,
    text: &mut String,
    settings: &Settings,
    document: &Document,
    other: &Document,
) -> Result<(), AllocError> {
    let built = built_of(alloc, settings, slice::from_ref(document))?;
    if let Err(BuildFailure::Faults(found)) = &built {
        found.errors.tell(text)?;
    }
    let is_equal = match schema_in(&built) {
        Some(schema) => is_built_of(alloc, settings, schema, slice::from_ref(other))?,
        None => false,
    };
    write!(text, "equal: {is_equal}\n")
}

/// The definitions of a document in another order, each at its own place.
fn in_order(alloc: Global, document: &Document, order: &[usize]) -> Result<Document, AllocError> {
    let mut other = Document::new(alloc);
    for place in order {
        if let Some(definition) = document.definitions.get(*place) {
            push_copy(&mut other.definitions, definition)?;
        }
    }
    Ok(other)
}

/// Expects this to be said of a document that a text says, and of its definitions in another order.
fn expect(
    rt: &(impl Abort + AllocGlobal),
    settings: &Settings,
    input: &str,
    order: &[usize],
    account: &str,
) {
    let alloc = rt.alloc();
    let documents = read(alloc, input).expect(rt, "documents");
    let document = documents.first().expect(rt, "a document");
    let other = in_order(alloc, document, order).expect(rt, "memory");
    let mut text = String::new(alloc);
    push_pair(alloc, &mut text, settings, document, &other).expect(rt, "memory");
    push_pair(alloc, &mut text, settings, &other, document).expect(rt, "memory");
    assert_eq!(rt; text.as_str(), account, "of {input:?}");
}

/// The text of a document, and the order of its definitions in the other one.
type Rearranged = (&'static str, &'static [usize]);

/// Extensions of the schema and of two types, and no definition.
const EXTENSIONS_ALONE: Rearranged = (
    "ext-schema\nroot query A\next object A\nfield a Int\next-schema\nroot query B\next object B\nfield b Int\nfield b Int",
    &[3, 1, 0, 2],
);

/// The same, one of the schema's with a directive.
const WITH_A_DIRECTIVE: Rearranged = (
    "ext-schema\n@ d\nroot query A\next-schema\nroot query B\next interface B\nfield x Int\next object A\nfield y Int",
    &[2, 3, 0, 1],
);

/// What is said of documents and of their definitions in another order.
const ROWS: [(&Settings, Rearranged, &str); 13] = [
    // Two definitions.
    (
        &PLAIN,
        (
            "def object A\nfield a Int\nfield a Int\ndef object B\nfield b Int\nfield b Int",
            &[1, 0],
        ),
        "1:3 duplicate definitions for the `a` field of object type `A`; 1:2 1:1 \n1:6 duplicate definitions for the `b` field of object type `B`; 1:5 1:4 \nequal: true\n1:6 duplicate definitions for the `b` field of object type `B`; 1:5 1:4 \n1:3 duplicate definitions for the `a` field of object type `A`; 1:2 1:1 \nequal: true\n",
    ),
    // An extension goes behind its definition.
    (
        &PLAIN,
        (
            "ext object Q\nfield a Int\ndef object Q\nfield a Int\nfield b Int",
            &[1, 0],
        ),
        "1:2 duplicate definitions for the `a` field of object type `Q`; 1:4 1:1 \nequal: true\n1:2 duplicate definitions for the `a` field of object type `Q`; 1:4 1:1 \nequal: true\n",
    ),
    (
        &PLAIN,
        (
            "ext object T\nfield a Int\ndef object T\nfield a String",
            &[1, 0],
        ),
        "1:2 duplicate definitions for the `a` field of object type `T`; 1:4 1:1 \nequal: true\n1:2 duplicate definitions for the `a` field of object type `T`; 1:4 1:1 \nequal: true\n",
    ),
    (
        &PLAIN,
        ("ext enum T\nvalue A\ndef object T\nfield x Int", &[1, 0]),
        "1:1 adding an enum type extension, but `T` is an object type; 1:3 1:1 \nequal: true\n1:1 adding an enum type extension, but `T` is an object type; 1:3 1:1 \nequal: true\n",
    ),
    // The definition of a type with six faults goes first.
    (
        &PLAIN,
        (
            "ext object T\nimplements I\nfield a Int\next enum T\nvalue X\ndef object T\nimplements I\nimplements I\nfield a String\nfield a Int\ndef interface T\next object T\nfield a ID\next union U\nmember T",
            &[2, 0, 1, 3, 4, 5],
        ),
        "1:8 object type `T` implements interface `I` more than once; 1:7 1:6 \n1:10 duplicate definitions for the `a` field of object type `T`; 1:9 1:6 \n1:2 object type `T` implements interface `I` more than once; 1:7 1:1 \n1:3 duplicate definitions for the `a` field of object type `T`; 1:9 1:1 \n1:4 adding an enum type extension, but `T` is an object type; 1:6 1:4 \n1:11 the type `T` is defined multiple times in the schema; 1:6 1:11 \n1:13 duplicate definitions for the `a` field of object type `T`; 1:9 1:12 \n1:14 type extension for undefined type `U`; 1:14 \nequal: true\n1:8 object type `T` implements interface `I` more than once; 1:7 1:6 \n1:10 duplicate definitions for the `a` field of object type `T`; 1:9 1:6 \n1:2 object type `T` implements interface `I` more than once; 1:7 1:1 \n1:3 duplicate definitions for the `a` field of object type `T`; 1:9 1:1 \n1:4 adding an enum type extension, but `T` is an object type; 1:6 1:4 \n1:11 the type `T` is defined multiple times in the schema; 1:6 1:11 \n1:13 duplicate definitions for the `a` field of object type `T`; 1:9 1:12 \n1:14 type extension for undefined type `U`; 1:14 \nequal: true\n",
    ),
    // Schema extensions go last.
    (
        &PLAIN,
        (
            "ext-schema\nroot query A\nschema\nroot query Q\ndef object Q\nfield a Int\next-schema\nroot mutation M\nroot query B",
            &[1, 2, 0, 3],
        ),
        "1:2 duplicate definitions for the `query` root operation type; 1:4 \n1:9 duplicate definitions for the `query` root operation type; 1:4 \nequal: true\n1:2 duplicate definitions for the `query` root operation type; 1:4 \n1:9 duplicate definitions for the `query` root operation type; 1:4 \nequal: true\n",
    ),
    // Early schema extensions go last under adoption.
    (
        &ADOPTING,
        (
            "ext-schema\nroot query Query\next-schema\nroot subscription S\nschema\nroot mutation Mutation\nroot query AnotherQuery\ndef object Query\ndef object Mutation\ndef object S\ndef object AnotherQuery",
            &[2, 3, 4, 5, 6, 0, 1],
        ),
        "1:2 duplicate definitions for the `query` root operation type; 1:7 \nequal: true\n1:2 duplicate definitions for the `query` root operation type; 1:7 \nequal: true\n",
    ),
    // Type extensions go before schema extensions, adopted ones and others.
    (
        &ADOPTING,
        EXTENSIONS_ALONE,
        "1:9 duplicate definitions for the `b` field of object type `B`; 1:8 1:7 \n1:6 duplicate definitions for the `query` root operation type; 1:2 \nequal: true\n1:9 duplicate definitions for the `b` field of object type `B`; 1:8 1:7 \n1:6 duplicate definitions for the `query` root operation type; 1:2 \nequal: true\n",
    ),
    (
        &PLAIN,
        EXTENSIONS_ALONE,
        "1:3 type extension for undefined type `A`; 1:3 \n1:7 type extension for undefined type `B`; 1:7 \n1:1 schema extension without a schema definition\n1:5 schema extension without a schema definition\nequal: true\n1:7 type extension for undefined type `B`; 1:7 \n1:3 type extension for undefined type `A`; 1:3 \n1:1 schema extension without a schema definition\n1:5 schema extension without a schema definition\nequal: true\n",
    ),
    // Extensions with a directive go behind those of types.
    (
        &ADOPTING,
        WITH_A_DIRECTIVE,
        "1:5 duplicate definitions for the `query` root operation type; 1:3 \nequal: true\n1:5 duplicate definitions for the `query` root operation type; 1:3 \nequal: true\n",
    ),
    (
        &PLAIN,
        WITH_A_DIRECTIVE,
        "1:6 type extension for undefined type `B`; 1:6 \n1:8 type extension for undefined type `A`; 1:8 \n1:1 schema extension without a schema definition\n1:4 schema extension without a schema definition\nequal: true\n1:6 type extension for undefined type `B`; 1:6 \n1:8 type extension for undefined type `A`; 1:8 \n1:1 schema extension without a schema definition\n1:4 schema extension without a schema definition\nequal: true\n",
    ),
    // Extensions of one name and two kinds: the schemas are not equal.
    (
        &ADOPTING,
        (
            "ext object A\nfield a Int\next interface A\nfield b Int",
            &[1, 0],
        ),
        "1:3 adding an interface type extension, but `A` is an object type; 1:1 1:3 \nequal: false\n1:1 adding an object type extension, but `A` is an interface type; 1:3 1:1 \nequal: false\n",
    ),
    // Adopted extensions of two kinds with directives do not change places.
    (
        &ADOPTING,
        (
            "ext object T\n@ dir\next interface T\n@ dir\ndirective dir\nrepeatable\non SCHEMA\non OBJECT",
            &[1, 0, 2],
        ),
        "1:3 adding an interface type extension, but `T` is an object type; 1:1 1:3 \nequal: false\n1:1 adding an object type extension, but `T` is an interface type; 1:3 1:1 \nequal: false\n",
    ),
];

#[test]
fn definitions_change_places(rt: HostRuntime) {
    for (settings, (input, order), account) in ROWS {
        expect(&rt, settings, input, order, account);
    }
}
