//! The users' schema, and a document over it that is made by calls alone.

use crate::executable::making::{name, operation};
use apollo_executable::{
    ExecutableDocument, Field, Fragment, FragmentSpread, InlineFragment, NewFieldError, Selection,
    SelectionSet,
};
use apollo_schema::schema::Schema;
use bench_notation::documents::read;
use graphql_ast::directive::{Argument, Directive, DirectiveList};
use graphql_ast::value::Value;
use graphql_nodes::collections::items::Items;
use graphql_nodes::collections::text::Text;
use graphql_nodes::node::Node;
use graphql_nodes::operation_type::OperationType;
use std::alloc::{AllocError, Global};
use std::test::Fail;

/// Users with a name and a picture, and a query for one.
const SCHEMA: &str =
    "def object Query\nfield id ID\nfield user User\narg id ID\ndef object User\nfield id ID\nfield name String\nfield profilePic URL\narg size Int\ndef scalar URL\n";

/// The schema that typed documents are made over.
pub fn users_schema(alloc: Global) -> Result<Schema, Fail> {
    let documents = read(alloc, SCHEMA)?;
    let mut builder = Schema::builder(alloc)?;
    if let Some(document) = documents.first() {
        builder.add_ast(document)?;
    }
    Ok(builder.build()?)
}

/// The directive of this name.
fn directive(alloc: Global, text: &str) -> Result<Node<Directive>, AllocError> {
    Node::new(alloc, Directive::new(alloc, name(alloc, text)?))
}

/// The directives `@first @second`.
fn directives(alloc: Global) -> Result<Vec<Node<Directive>>, AllocError> {
    let mut list = Items::new(alloc);
    for text in ["first", "second"] {
        list.push(directive(alloc, text)?)?;
    }
    Ok(list.into_vec())
}

/// The number of these digits.
fn number(alloc: Global, digits: &str) -> Result<Node<Value>, AllocError> {
    Node::new(alloc, Value::Int(Text::from_str(alloc, digits)?))
}

/// The arguments `id: $me`.
fn arguments(alloc: Global) -> Result<Vec<Node<Argument>>, AllocError> {
    let value = Node::new(alloc, Value::Variable(name(alloc, "me")?))?;
    let argument = Node::new(alloc, Argument::new(name(alloc, "id")?, value))?;
    let mut list = Items::new(alloc);
    list.push(argument)?;
    Ok(list.into_vec())
}

/// The field of this name, in this set.
fn field<'schema>(
    alloc: Global,
    schema: &'schema Schema,
    set: &SelectionSet,
    text: &str,
) -> Result<Field, NewFieldError<'schema>> {
    let name = name(alloc, text)?;
    set.new_field(alloc, schema, name)
}

/// The selection of the field of this name, in this set.
pub fn selected<'schema>(
    alloc: Global,
    schema: &'schema Schema,
    set: &SelectionSet,
    text: &str,
) -> Result<Selection, NewFieldError<'schema>> {
    let field = field(alloc, schema, set, text)?;
    Ok(Selection::of_field(alloc, field)?)
}

/// The field `short: name @on`.
fn short_name<'schema>(
    alloc: Global,
    schema: &'schema Schema,
    set: &SelectionSet,
) -> Result<Field, NewFieldError<'schema>> {
    let field = field(alloc, schema, set, "name")?.with_alias(name(alloc, "short")?);
    Ok(field.with_directive(directive(alloc, "on")?)?)
}

/// The spread `...Picture @on @first @second`.
fn spread(alloc: Global, set: &SelectionSet) -> Result<FragmentSpread, AllocError> {
    let spread = set.new_fragment_spread(alloc, name(alloc, "Picture")?);
    let spread = spread.with_directive(directive(alloc, "on")?)?;
    spread.with_directives(directives(alloc)?)
}

/// The inline fragment `... on User @on { id }`.
fn on_users<'schema>(
    alloc: Global,
    schema: &'schema Schema,
    set: &SelectionSet,
) -> Result<InlineFragment, NewFieldError<'schema>> {
    let inline = set.new_inline_fragment(alloc, Some(name(alloc, "User")?))?;
    let inline = inline.with_directive(directive(alloc, "on")?)?;
    let id = selected(alloc, schema, &inline.selection_set, "id")?;
    Ok(inline.with_selection(id)?)
}

/// The inline fragment `... @first @second { id name }`.
fn anyway<'schema>(
    alloc: Global,
    schema: &'schema Schema,
    set: &SelectionSet,
) -> Result<InlineFragment, NewFieldError<'schema>> {
    let inline = set.new_inline_fragment(alloc, None)?;
    let inline = inline.with_directives(directives(alloc)?)?;
    let mut both = Items::new(alloc);
    both.push(selected(alloc, schema, &inline.selection_set, "id")?)?;
    both.push(selected(alloc, schema, &inline.selection_set, "name")?)?;
    Ok(inline.with_selections(both.into_vec())?)
}

/// What is selected of a user.
fn of_user<'schema>(
    alloc: Global,
    schema: &'schema Schema,
    set: &SelectionSet,
) -> Result<Vec<Selection>, NewFieldError<'schema>> {
    let mut list = Items::new(alloc);
    list.push(Selection::of_field(alloc, short_name(alloc, schema, set)?)?)?;
    list.push(Selection::of_fragment_spread(alloc, spread(alloc, set)?)?)?;
    list.push(Selection::of_inline_fragment(alloc, on_users(alloc, schema, set)?)?)?;
    list.push(Selection::from(Node::new(alloc, anyway(alloc, schema, set)?)?))?;
    Ok(list.into_vec())
}

/// The field `user(id: $me) @first @second { .. }`.
fn user<'schema>(
    alloc: Global,
    schema: &'schema Schema,
    set: &SelectionSet,
) -> Result<Field, NewFieldError<'schema>> {
    let field = field(alloc, schema, set, "user")?.with_opt_alias(None);
    let field = field.with_arguments(arguments(alloc)?)?;
    let field = field.with_directives(directives(alloc)?)?;
    let below = of_user(alloc, schema, &field.selection_set)?;
    let name = selected(alloc, schema, &field.selection_set, "name")?;
    Ok(field.with_selections(below)?.with_selection(name)?)
}

/// The selections `{ id user(..) .. }` of a query.
fn root<'schema>(
    alloc: Global,
    schema: &'schema Schema,
) -> Result<SelectionSet, NewFieldError<'schema>> {
    let mut set = SelectionSet::new(alloc, name(alloc, "Query")?);
    set.push(selected(alloc, schema, &set, "id")?)?;
    let user = Selection::of_field(alloc, user(alloc, schema, &set)?)?;
    let mut more = Items::new(alloc);
    more.push(user)?;
    set.extend(more.into_vec())?;
    Ok(set)
}

/// The fragment `Picture on User { profilePic(size: 50) }`.
fn picture<'schema>(
    alloc: Global,
    schema: &'schema Schema,
) -> Result<Node<Fragment>, NewFieldError<'schema>> {
    let mut set = SelectionSet::new(alloc, name(alloc, "User")?);
    let field = field(alloc, schema, &set, "profilePic")?;
    let field = field.with_argument(alloc, name(alloc, "size")?, number(alloc, "50")?)?;
    set.push(Selection::of_field(alloc, field)?)?;
    let fragment = Fragment {
        name: name(alloc, "Picture")?,
        directives: DirectiveList::new(alloc),
        selection_set: set,
    };
    Ok(Node::new(alloc, fragment)?)
}

/// The document of the query `GetUser` and of the fragment `Picture`.
pub fn users_document<'schema>(
    alloc: Global,
    schema: &'schema Schema,
) -> Result<ExecutableDocument, NewFieldError<'schema>> {
    let mut document = ExecutableDocument::new(alloc);
    let (get_user, set) = (name(alloc, "GetUser")?, root(alloc, schema)?);
    let query = operation(alloc, OperationType::Query, Some(get_user), set)?;
    let is_query_in = document.operations.insert(query).is_ok();
    let (key, fragment) = (name(alloc, "Picture")?, picture(alloc, schema)?);
    let is_fragment_in = document.fragments.insert(key, fragment).is_ok();
    if is_query_in && is_fragment_in {
        Ok(document)
    } else {
        Err(NewFieldError::Memory)
    }
}
