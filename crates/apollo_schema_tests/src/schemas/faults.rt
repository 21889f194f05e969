//! Faults of schema definitions, and refusals.

use crate::schemas::building::{PLAIN, Settings, add_all, builder_with};
use crate::schemas::rows::Row;
use apollo_component::extension::IdsSpent;
use apollo_schema::BuilderError;
use bench_notation::documents::read;

/// No number is left to give.
const SPENT: Settings = Settings {
    first_number: u64::MAX,
    adopts: false,
};

/// No number is left to give, and there are extensions to adopt.
const SPENT_ADOPTING: Settings = Settings {
    first_number: u64::MAX,
    adopts: true,
};

/// One number is left to give.
const NEARLY_SPENT: Settings = Settings {
    first_number: u64::MAX - 1,
    adopts: false,
};

/// The first number is 7.
const FROM_SEVEN: Settings = Settings {
    first_number: 7,
    adopts: false,
};

/// Two extensions of a type, in one document.
const TOGETHER: &str = "def object T\next object T\nfield a Int\next object T\nfield b Int";

pub const ROWS: [Row; 8] = [
    // A second root, a second definition, and an extension alone of the schema.
    (
        &PLAIN,
        "schema\nroot mutation M\nroot mutation N\nschema\nroot query Q",
        "1:3 duplicate definitions for the `mutation` root operation type; 1:2 \n1:4 must not have multiple `schema` definitions; 1:1 \nfaults copied equal: true\npartial schema copied equal: true\n1:1 schema \nmutation definition M 1:2 \ndefinition M 1:2 \nmutation is M, an object type: false\nschema\nroot mutation M\nrebuilt equal: true\ncopied equal: true, true, true\n0 is next\n",
    ),
    (
        &PLAIN,
        "ext-schema\n@ d",
        "1:1 schema extension without a schema definition\nfaults copied equal: true\npartial schema copied equal: true\n- schema \nrebuilt equal: true\ncopied equal: true, true, true\n0 is next\n",
    ),
    // The largest number is not given. The further document adds to a builder that has failed.
    (
        &SPENT,
        "directive d\non SCALAR\next scalar String\n@ d\n---\ndirective d\non SCALAR\next scalar String\n@ d",
        "extension identities spent\nbuilder has failed\nfailed\n18446744073709551615 is next\n",
    ),
    // A refusal leaves the source where it stood.
    (
        &NEARLY_SPENT,
        TOGETHER,
        "extension identities spent\nfailed\n18446744073709551614 is next\n",
    ),
    // A source is handed back.
    (
        &FROM_SEVEN,
        TOGETHER,
        "- schema \nT 1:1 1:1 object T 1:1 \na 1:3 extension 7 of 1:2 1:3 a 1:3 Int 1:3 \nb 1:5 extension 8 of 1:4 1:5 b 1:5 Int 1:5 \ndef object T\next object T\nfield a Int\next object T\nfield b Int\nrebuilt equal: true\ncopied equal: true, true, true\n9 is next\n",
    ),
    // An extension that is not folded takes no number.
    (
        &SPENT,
        "ext object T",
        "T waits\n1:1 type extension for undefined type `T`; 1:1 \nfaults copied equal: true\npartial schema copied equal: true\n- schema \nrebuilt equal: true\ncopied equal: true, true, true\n18446744073709551615 is next\n",
    ),
    (
        &SPENT,
        "ext enum T\nvalue A\ndef object T\nfield x Int",
        "1:1 adding an enum type extension, but `T` is an object type; 1:3 1:1 \nfaults copied equal: true\npartial schema copied equal: true\n- schema \nT 1:3 1:3 object T 1:3 \nx 1:4 definition 1:4 x 1:4 Int 1:4 \ndef object T\nfield x Int\nrebuilt equal: true\ncopied equal: true, true, true\n18446744073709551615 is next\n",
    ),
    // An adopted extension takes a number.
    (
        &SPENT_ADOPTING,
        "ext object T",
        "T waits\nno number is left\n18446744073709551615 is next\n",
    ),
];

#[test]
fn after_the_last_number_none_is_drawn(rt: HostRuntime) {
    let input = "def object T\next object T\nfield a Int";
    let documents = read(rt.alloc(), input).expect(&rt, "documents");
    let mut builder = builder_with(rt.alloc(), &NEARLY_SPENT).expect(&rt, "memory");
    add_all(&mut builder, documents.as_slice());
    let (built, mut source) = builder.build_with_source();
    assert!(rt; built.is_ok() && source.draw(None) == Err(IdsSpent));
}

#[test]
fn refusals_say_what_ran_out(rt: HostRuntime) {
    let spent = BuilderError::from(IdsSpent);
    let memory = BuilderError::Memory;
    let failed = BuilderError::Failed;
    let said = format!(in rt.alloc(); "{spent}, {memory}, {failed}").expect(&rt, "memory");
    assert_eq!(rt;
        said.as_str(),
        "extension identities spent, out of memory, builder has failed"
    );
}
