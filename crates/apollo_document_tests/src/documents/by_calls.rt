//! A typed document that is made by calls alone, beside one that is built.

use crate::documents::building::{Seen, View, over};
use crate::documents::inputs::expect;
use apollo_executable::{
    ExecutableDocument, Field, NewFieldError, Operation, Selection, SelectionSet,
};
use apollo_schema::schema::Schema;
use graphql_ast::directive::DirectiveList;
use graphql_nodes::collections::items::Items;
use graphql_nodes::name::Name;
use graphql_nodes::node::Node;
use graphql_nodes::operation_type::OperationType;
use std::alloc::{AllocError, Global};
use std::test::Fail;

/// Whether a document is the one that is made by calls.
#[derive(Drop)]
struct Alike;

/// No selections, of the type `Query`.
pub fn query_set(alloc: Global) -> Result<SelectionSet, AllocError> {
    Ok(SelectionSet::new(alloc, Name::new_unchecked(alloc, "Query")?))
}

/// The field of this name, in this set.
pub fn field_of<'schema>(
    alloc: Global,
    schema: &'schema Schema,
    set: &SelectionSet,
    text: &str,
) -> Result<Field, NewFieldError<'schema>> {
    let name = Name::new_unchecked(alloc, text)?;
    set.new_field(alloc, schema, name)
}

/// `{ user { } ...F }`
fn of_user<'a>(seen: &Seen<'a>) -> Result<SelectionSet, NewFieldError<'a>> {
    let alloc = seen.alloc;
    let mut set = query_set(alloc)?;
    let user = field_of(alloc, seen.schema, &set, "user")?;
    set.push(Selection::of_field(alloc, user)?)?;
    let spread = set.new_fragment_spread(alloc, Name::new_unchecked(alloc, "F")?);
    set.push(Selection::of_fragment_spread(alloc, spread)?)?;
    Ok(set)
}

/// The document of one anonymous query of these selections.
pub fn document_of(
    alloc: Global,
    selection_set: SelectionSet,
) -> Result<ExecutableDocument, AllocError> {
    let query = Operation {
        operation_type: OperationType::Query,
        name: None,
        variables: Items::new(alloc),
        directives: DirectiveList::new(alloc),
        selection_set,
    };
    let mut document = ExecutableDocument::new(alloc);
    document.operations.anonymous = Some(Node::new(alloc, query)?);
    Ok(document)
}

impl View for Alike {
    fn view(&self, seen: &Seen<'_>, text: &mut String) -> Result<(), AllocError> {
        match of_user(seen) {
            Ok(set) => {
                let is_equal = document_of(seen.alloc, set)? == *seen.document;
                write!(text, "equal: {is_equal}\n")
            }
            Err(_) => text.push_str("not made\n"),
        }
    }
}

const ROWS: [(&str, &str); 2] = [
    (
        "def object Query\nfield id ID\nfield user User\ndef object User\nfield id ID\n===\noperation query -\nsel 0 field id\nsel 1 field x\nsel 0 field user\nsel 1 field nope\nsel 0 inline Gone\nsel 1 field a\nsel 0 spread F\n",
        "equal: true\n",
    ),
    // One of another field isn't.
    (
        "def object Query\nfield id ID\nfield user User\ndef object User\nfield id ID\n===\noperation query -\nsel 0 field user\nsel 1 field id\nsel 0 spread F\n",
        "equal: false\n",
    ),
];

#[test]
fn a_document_by_calls_is_equal_to_the_built_one(rt: HostRuntime) -> Result<(), Fail> {
    expect(&rt, &over(Alike), &ROWS)
}
