//! Selections made typed over a schema and without one, and field sets, with their faults and their
//! write-out.

use crate::documents::inputs::{Account, Given, expect};
use apollo_document::{
    ExecutableDefinitionName, Fault, FieldSet, SelectionPath, elaborate_selections,
};
use apollo_schema::schema::Schema;
use bench_notation::selection_printing::push_selections;
use graphql_ast::definition::Definition;
use graphql_ast::selection::Selection;
use graphql_nodes::collections::items::Items;
use graphql_nodes::name::Name;
use graphql_nodes::operation_type::OperationType;
use std::alloc::{AllocError, Global};
use std::test::Fail;
use telling::Tell;
use telling::containers::tell_all;

/// The selections of operations, from the type `Query` in the query `Q`, and copies of the field sets of the
/// selections of fragments, from the types of their conditions.
#[derive(Drop, PartialEq)]
pub enum Elaborated {
    /// Whole, over the schema.
    Over,
    /// The selections of operations without a schema.
    Without,
    /// The field sets as they are written out alone.
    Written,
}

fn tell_selections(
    alloc: Global,
    schema: Option<&Schema>,
    selections: &[Selection],
    text: &mut String,
) -> Result<(), AllocError> {
    let ty = Name::new_unchecked(alloc, "Query")?;
    let name = Name::new_unchecked(alloc, "Q")?;
    let mut path = SelectionPath {
        root: ExecutableDefinitionName::NamedOperation(OperationType::Query, name),
        nested_fields: Items::new(alloc),
    };
    let mut faults = Items::new(alloc);
    let set = elaborate_selections(alloc, schema, &ty, selections, &mut path, &mut faults)?;
    set.tell(text)?;
    text.push_str("\n")?;
    tell_all(faults.as_slice(), text)
}

impl Elaborated {
    /// Adds a field set, how many sources it has, and the faults, around how it is written out.
    fn tell_field_set(
        &self,
        alloc: Global,
        set: &FieldSet,
        faults: &[Fault],
        text: &mut String,
    ) -> Result<(), AllocError> {
        if *self != Elaborated::Written {
            set.tell(text)?;
            let sources = set.sources.len();
            write!(text, "{sources} sources\n")?;
        }
        let written = set.to_ast(alloc)?;
        push_selections(alloc, text, written.as_slice(), 0)?;
        tell_all(faults, text)
    }

    fn tell_definition(
        &self,
        alloc: Global,
        schema: &Schema,
        definition: &Definition,
        text: &mut String,
    ) -> Result<(), AllocError> {
        match definition {
            Definition::OperationDefinition(operation) => {
                let over = match self {
                    Elaborated::Without => None,
                    _ => Some(schema),
                };
                tell_selections(alloc, over, operation.selection_set.as_slice(), text)
            }
            Definition::FragmentDefinition(fragment) => {
                let ty = fragment.type_condition.clone()?;
                let selections = fragment.selection_set.as_slice();
                let made = FieldSet::from_ast(alloc, schema, ty, selections)?;
                let copy = made.0.clone()?;
                self.tell_field_set(alloc, &copy, made.1.as_slice(), text)
            }
            _ => Ok(()),
        }
    }
}

impl Account for Elaborated {
    fn tell(&self, given: &Given<'_>, text: &mut String) -> Result<(), AllocError> {
        for document in given.documents {
            for definition in document.definitions.as_slice() {
                self.tell_definition(given.alloc, given.schema, definition, text)?;
            }
        }
        Ok(())
    }
}

const OVER_A_SCHEMA: [(&str, &str); 5] = [
    // Fields of a missing type fall silently.
    (
        "def object Query\nfield color Color\nfield gone Gone\nfield user User\ndef object User\nfield id ID\ndef enum Color\nvalue RED\n===\noperation query Q\nsel 0 field color hue\nsel 1 field x\nsel 0 field gone\nsel 1 field y\nsel 0 field __typename\nsel 0 inline\nsel 1 field user\nsel 2 field nope\n",
        "Query - { 1:13 gone 1:13 is 1:3 gone 1:3 Gone 1:3 -> Gone 1:3 { } 1:15 __typename 1:15 is - __typename - String - ! -> String - { } 1:16 ...on -> Query - { 1:17 user 1:17 is 1:4 user 1:4 User 1:4 -> User 1:4 { } } } \n1:11 field selection of enum type `Color` must not have subselections; 1:2 (query Q → hue)\n1:18 type `User` does not have a field `nope`; 1:5 1:18 (query Q → user → nope)\n",
    ),
    // Paths go through fields alone.
    (
        "def object Query\nfield user [User!]!\ndef interface User\nfield friend User\nfield id ID!\n===\noperation query Q\nsel 0 inline Query\nsel 1 field user all\nsel 2 inline\nsel 3 field friend\nsel 4 inline Gone\nsel 5 field id\nsel 4 field id\nsel 5 field id\nsel 4 field friend\nsel 5 field id\nsel 3 inline Gone\n",
        "Query - { 1:8 ...on Query 1:8 -> Query 1:8 { 1:9 all 1:9 user 1:9 is 1:2 user 1:2 [ User 1:2 ! ]! -> User 1:2 { 1:10 ...on -> User 1:2 { 1:11 friend 1:11 is 1:4 friend 1:4 User 1:4 -> User 1:4 { 1:16 friend 1:16 is 1:4 friend 1:4 User 1:4 -> User 1:4 { 1:17 id 1:17 is 1:5 id 1:5 ID 1:5 ! -> ID 1:5 { } } } } } } } \n1:12 type condition `Gone` of inline fragment is not a type defined in the schema; 1:12 (query Q → all → friend)\n1:14 field selection of scalar type `ID` must not have subselections; 1:5 (query Q → all → friend → id)\n1:18 type condition `Gone` of inline fragment is not a type defined in the schema; 1:18 (query Q → all)\n",
    ),
    // A field that the type lacks is dropped.
    (
        "def object Query\nfield id ID\nfield organization Org\ndef object Org\nfield id ID\n===\nfragment F Query\nsel 0 field name\n",
        "Query 1:7 { } \n0 sources\n1:8 type `Query` does not have a field `name`; 1:1 1:8 (query → name)\n",
    ),
    // An emptied composite field stays.
    (
        "def object Query\nfield id ID\nfield user User\ndef object User\nfield id ID\n===\nfragment F Query\nsel 0 field id\nsel 1 field x\nsel 0 field user me\nsel 1 field nope\nsel 0 inline Gone\nsel 1 field a\nsel 0 spread F\n",
        "Query 1:7 { 1:10 me 1:10 user 1:10 is 1:3 user 1:3 User 1:3 -> User 1:3 { } 1:14 ... F 1:14 } \n0 sources\nsel 0 field user me\nsel 0 spread F\n1:8 field selection of scalar type `ID` must not have subselections; 1:2 (query → id)\n1:11 type `User` does not have a field `nope`; 1:4 1:11 (query → me → nope)\n1:12 type condition `Gone` of inline fragment is not a type defined in the schema; 1:12 (query)\n",
    ),
    // The type of a field set is the one that is named.
    (
        "def object Query\nfield user User\ndef object User\nfield id ID\n===\nfragment F User\nsel 0 field id\nsel 0 field __typename\nsel 0 field __schema\nfragment G Gone\nsel 0 field id\nsel 0 inline\nsel 1 field id\nsel 0 inline User\nsel 1 field id\n",
        "User 1:6 { 1:7 id 1:7 is 1:4 id 1:4 ID 1:4 -> ID 1:4 { } 1:8 __typename 1:8 is - __typename - String - ! -> String - { } } \n0 sources\nsel 0 field id\nsel 0 field __typename\n1:9 type `User` does not have a field `__schema`; 1:3 1:9 (query → __schema)\nGone 1:10 { 1:12 ...on -> Gone 1:10 { } 1:14 ...on User 1:14 -> User 1:14 { 1:15 id 1:15 is 1:4 id 1:4 ID 1:4 -> ID 1:4 { } } } \n0 sources\nsel 0 inline\nsel 0 inline User\nsel 1 field id\n",
    ),
];

/// All is kept.
const WITHOUT_A_SCHEMA: [(&str, &str); 1] = [(
    "def object Query\n===\noperation query Q\nsel 0 field a\nsel 1 field b c\nsel 0 inline Gone\nsel 1 field d\nsel 0 inline\nsel 1 field e\nsel 0 spread F\n",
    "Query - { 1:4 a 1:4 is - a 1:4 UNKNOWN - -> UNKNOWN - { 1:5 c 1:5 b 1:5 is - b 1:5 UNKNOWN - -> UNKNOWN - { } } 1:6 ...on Gone 1:6 -> Gone 1:6 { 1:7 d 1:7 is - d 1:7 UNKNOWN - -> UNKNOWN - { } } 1:8 ...on -> Query - { 1:9 e 1:9 is - e 1:9 UNKNOWN - -> UNKNOWN - { } } 1:10 ... F 1:10 } \n",
)];

#[test]
fn selections_and_field_sets_are_elaborated(rt: HostRuntime) -> Result<(), Fail> {
    expect(&rt, &Elaborated::Over, &OVER_A_SCHEMA)?;
    expect(&rt, &Elaborated::Without, &WITHOUT_A_SCHEMA)
}
