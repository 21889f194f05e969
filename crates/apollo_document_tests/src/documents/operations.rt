//! Operations of built documents: which one a request asks for, whether they ask for the schema alone, and
//! walks over them.

use crate::documents::building::{Seen, View, over, without};
use crate::documents::inputs::expect;
use graphql_nodes::name::Name;
use std::alloc::AllocError;
use std::test::Fail;
use telling::Tell;
use telling::walks::{End, push_walk};

/// The operations that requests without a name and of the name `X` ask for.
#[derive(Drop)]
struct Requests;

impl View for Requests {
    fn view(&self, seen: &Seen<'_>, text: &mut String) -> Result<(), AllocError> {
        let name = Name::new_unchecked(seen.alloc, "X")?;
        for request in [None, Some(&name)] {
            match seen.document.operations.get(request) {
                Ok(operation) => operation.name.tell(text)?,
                Err(error) => write!(text, "{error}")?,
            }
            text.push_str("\n")?;
        }
        Ok(())
    }
}

const REQUESTED: [(&str, &str); 2] = [
    // Two kept operations are ambiguous.
    (
        "def object Query\nfield a Int\n===\noperation query -\nsel 0 field a\noperation query Q\nsel 0 field a\n",
        "Ambiguous request: multiple operations but no specified `operationName`\nNo operation named 'X'\n",
    ),
    // One that is kept is asked for without a name too.
    (
        "def object Query\nfield a Int\n===\noperation query X\nsel 0 field a\noperation query -\nsel 0 field a\n",
        "X 1:4 \nX 1:4 \n",
    ),
];

/// Of each operation what walks over it give, each up to its end, and whether it asks for the schema alone.
#[derive(Drop)]
struct Walked;

impl View for Walked {
    fn view(&self, seen: &Seen<'_>, text: &mut String) -> Result<(), AllocError> {
        let Seen {
            alloc,
            document,
            ..
        } = *seen;
        for operation in document.operations.iter() {
            text.push_str("root ")?;
            let root = push_walk(text, &mut operation.root_fields(alloc, document))?;
            text.push_str("all ")?;
            let all = push_walk(text, &mut operation.all_fields(alloc, document))?;
            let are_over = root == End::Over && all == End::Over;
            let is_introspection = operation.is_introspection(alloc, document)?;
            write!(text, "over {are_over} introspection {is_introspection}\n")?;
        }
        Ok(())
    }
}

const META: [(&str, &str); 1] = [
    // Queries of meta-fields alone are introspection.
    (
        "\
===
operation query A
operation query B
sel 0 spread Name
sel 0 spread Gone
operation query C
sel 0 field __schema
sel 1 field types
operation query D
sel 0 field __type ty
sel 0 inline
sel 1 field __typename
fragment Name Query
sel 0 field __typename
fragment More Query
sel 0 field name
",
        "\
root all over true introspection true
root __typename 1:14 all __typename 1:14 over true introspection true
root __schema 1:7 all __schema 1:7 types 1:8 over true introspection true
root ty 1:10 __typename 1:12 all ty 1:10 __typename 1:12 over true introspection true
",
    ),
];

const OTHERS: [(&str, &str); 1] = [
    // Other operations are no introspection. They ask for something else, or aren't queries.
    (
        "\
===
operation mutation A
sel 0 field __typename
operation subscription B
sel 0 field __typename
operation query C
sel 0 field __schema
sel 0 spread More
operation query D
sel 0 field name __typename
operation query E
sel 0 field __types
fragment More Query
sel 0 field name
",
        "\
root __typename 1:3 all __typename 1:3 over true introspection false
root __typename 1:5 all __typename 1:5 over true introspection false
root __schema 1:7 name 1:14 all __schema 1:7 name 1:14 over true introspection false
root __typename 1:10 all __typename 1:10 over true introspection false
root __types 1:12 all __types 1:12 over true introspection false
",
    ),
];

const WALKED: [(&str, &str); 1] = [(
    "===\noperation mutation -\nsel 0 field a\nsel 1 field b\n",
    "root a 1:3 all a 1:3 b 1:4 over true introspection false\n",
)];

#[test]
fn requests_find_operations(rt: HostRuntime) -> Result<(), Fail> {
    expect(&rt, &over(Requests), &REQUESTED)
}

#[test]
fn operations_are_walked_over(rt: HostRuntime) -> Result<(), Fail> {
    expect(&rt, &without(Walked), &META)?;
    expect(&rt, &without(Walked), &OTHERS)?;
    expect(&rt, &without(Walked), &WALKED)
}
