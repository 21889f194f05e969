//! Leaf faults over the schema of the input, and over one of no documents. They are of what its documents
//! build over its schema or without one, and of a document made by calls. Shown are their places too, and
//! which are there since a build dropped what was selected below.

use crate::documents::building::{Seen, View, over, without};
use crate::documents::by_calls::{document_of, field_of, query_set};
use crate::documents::inputs::{Account, Given, expect};
use apollo_executable::{ExecutableDocument, NewFieldError, Selection};
use apollo_schema::schema::Schema;
use leafcheck::{LostSelections, leaf_faults};
use std::alloc::{AllocError, Global};
use std::test::Fail;

fn tell_leaves(
    alloc: Global,
    schema: &Schema,
    document: &ExecutableDocument,
    text: &mut String,
) -> Result<(), AllocError> {
    let faults = leaf_faults(alloc, schema, document)?;
    for fault in faults.as_slice() {
        write!(text, "{fault}\n")?;
    }
    Ok(())
}

/// The leaf faults of a document over the schema, and over the schema of no documents.
#[derive(Drop)]
struct Leaves;

impl View for Leaves {
    fn view(&self, seen: &Seen<'_>, text: &mut String) -> Result<(), AllocError> {
        tell_leaves(seen.alloc, seen.schema, seen.document, text)?;
        text.push_str("elsewhere:\n")?;
        match Schema::new(seen.alloc) {
            Ok(schema) => tell_leaves(seen.alloc, &schema, seen.document, text),
            Err(error) => Err(error),
        }
    }
}

/// `{ id { user } }`, by definitions of the schema.
fn below_id<'a>(given: &Given<'a>) -> Result<ExecutableDocument, NewFieldError<'a>> {
    let Given { alloc, schema, .. } = *given;
    let mut set = query_set(alloc)?;
    let user = field_of(alloc, schema, &set, "user")?;
    let id = field_of(alloc, schema, &set, "id")?;
    let id = id.with_selection(Selection::of_field(alloc, user)?)?;
    set.push(Selection::of_field(alloc, id)?)?;
    Ok(document_of(alloc, set)?)
}

/// The leaf faults of a document that is made by calls.
#[derive(Drop)]
struct LeavesByCalls;

impl Account for LeavesByCalls {
    fn tell(&self, given: &Given<'_>, text: &mut String) -> Result<(), AllocError> {
        match below_id(given) {
            Ok(document) => tell_leaves(given.alloc, given.schema, &document, text),
            Err(_) => text.push_str("not made\n"),
        }
    }
}

/// The leaf faults of a document with their places, and whether its build dropped something that was selected
/// below.
#[derive(Drop)]
struct Places;

impl View for Places {
    fn view(&self, seen: &Seen<'_>, text: &mut String) -> Result<(), AllocError> {
        let leaves = leaf_faults(seen.alloc, seen.schema, seen.document)?;
        let lost = LostSelections::new(seen.alloc, seen.faults)?;
        for leaf in leaves.as_slice() {
            let path = &leaf.path;
            let ty = &leaf.parent_type;
            let has_lost = lost.below(path);
            write!(text, "{path} from {ty}: {has_lost}\n")?;
            if has_lost != leaf.lost_subselections(seen.faults) {
                text.push_str("but not by itself\n")?;
            }
        }
        Ok(())
    }
}

const BY_CALLS: [(&str, &str); 1] = [
    // Below a field at fault others are too.
    (
        "\
def object Query
field id ID
field user User
def object User
===
",
        "\
`id`: a field of scalar or enum type must not have subselections
`user`: a field of object, interface or union type must have subselections
",
    ),
];

const UNKNOWN: [(&str, &str); 2] = [
    // Without a schema types are unknown.
    (
        "def object Query\nfield id ID\nfield user User\ndef object User\n===\noperation query -\nsel 0 field id\nsel 1 field user\n",
        "elsewhere:\n",
    ),
    // The schema of the input may have the unknown type.
    (
        "def union UNKNOWN\n===\nfragment F Gone\nsel 0 field a\nsel 1 field b\n",
        "`b`: a field of object, interface or union type must have subselections\nelsewhere:\n",
    ),
];

/// Types are those of the schema that is given.
const GIVEN: [(&str, &str); 1] = [(
    "def object Query\nfield user User\ndef object User\n===\noperation query -\nsel 0 field user\nsel 0 field __schema\n",
    "`user`: a field of object, interface or union type must have subselections\n`__schema`: a field of object, interface or union type must have subselections\nelsewhere:\n`__schema`: a field of object, interface or union type must have subselections\n",
)];

const PLACES: [(&str, &str); 2] = [
    (
        "def object Query\nfield user User\ndef object User\nfield id ID\nfield friend User\n===\noperation query Q\nsel 0 field user\nsel 0 field user me\nsel 1 field nope\nsel 0 inline\nsel 1 field user us\nsel 2 inline User\nsel 3 field friend\nsel 4 inline Gone\nfragment F User\nsel 0 field friend\nsel 1 field friend\nsel 2 field id\nsel 3 field x\n",
        "query Q → user from Query: false\nquery Q → me from Query: true\nquery Q → us → friend from User: true\nfragment F → friend → friend from User: true\n",
    ),
    // A fault of another definition, and one of the field itself.
    (
        "def object Query\nfield user User\nfield id ID\ndef object User\nfield id ID\n===\noperation query -\nsel 0 field user\nsel 0 field id user\nsel 1 field x\nfragment F Query\nsel 0 field user\nsel 1 inline Gone\n",
        "query → user from Query: false\nfragment F → user from Query: true\n",
    ),
];

#[test]
fn leaf_faults_are_told_with_their_places(rt: HostRuntime) -> Result<(), Fail> {
    expect(&rt, &LeavesByCalls, &BY_CALLS)?;
    expect(&rt, &without(Leaves), &UNKNOWN)?;
    expect(&rt, &over(Leaves), &GIVEN)?;
    expect(&rt, &over(Places), &PLACES)
}
