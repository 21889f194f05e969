//! A document that is made by calls alone: what its selections say of themselves, written out, and copied.

use crate::executable::making::name;
use crate::executable::users::{users_document, users_schema};
use apollo_executable::{
    ExecutableDocument, Field, Fragment, FragmentSpread, InlineFragment, Operation, Selection,
    SelectionSet,
};
use graphql_ast::directive::ArgumentByNameError;
use likeness::is_copied;
use std::alloc::{AllocError, Global};
use std::test::Fail;
use telling::Tell;

fn push_argument(
    alloc: Global,
    text: &mut String,
    field: &Field,
    argument: &str,
) -> Result<(), AllocError> {
    let name = name(alloc, argument)?;
    let specified = field.specified_argument_by_name(&name).is_some();
    write!(text, " {name} {specified} ")?;
    match field.argument_by_name(&name) {
        Ok(Some(_)) => text.push_str("given"),
        Ok(None) => text.push_str("null"),
        Err(ArgumentByNameError::NoSuchArgument) => text.push_str("unknown"),
        Err(ArgumentByNameError::RequiredArgumentNotSpecified) => text.push_str("required"),
    }
}

#[cycle(inside)]
fn push_selection(
    alloc: Global,
    text: &mut String,
    document: &ExecutableDocument,
    selection: &Selection,
) -> Result<(), AllocError> {
    let count = selection.directives().len();
    write!(text, "{count} on ")?;
    if let Some(field) = selection.as_field() {
        text.push_str(field.response_key().as_str())?;
        for argument in ["id", "size"] {
            push_argument(alloc, text, field, argument)?;
        }
        text.push_str("\n")?;
        push_set(alloc, text, document, &field.selection_set)?;
    }
    if let Some(spread) = selection.as_fragment_spread() {
        text.push_str(spread.fragment_name.as_str())?;
        if let Some(fragment) = spread.fragment_def(document) {
            text.push_str(" on ")?;
            text.push_str(fragment.type_condition().as_str())?;
        }
        text.push_str("\n")?;
    }
    if let Some(inline) = selection.as_inline_fragment() {
        text.push_str("inline fragment\n")?;
        push_set(alloc, text, document, &inline.selection_set)?;
    }
    Ok(())
}

#[cycle(inside)]
fn push_set(
    alloc: Global,
    text: &mut String,
    document: &ExecutableDocument,
    set: &SelectionSet,
) -> Result<(), AllocError> {
    if set.is_empty() {
        return Ok(());
    }
    text.push_str("of ")?;
    text.push_str(set.ty.as_str())?;
    text.push_str("\n")?;
    for selection in set.selections.as_slice() {
        push_selection(alloc, text, document, selection)?;
    }
    text.push_str("end\n")
}

/// What the selections of a document's operations say of themselves.
fn told_inside(alloc: Global, document: &ExecutableDocument) -> Result<String, AllocError> {
    let mut text = String::new(alloc);
    for operation in document.operations.iter() {
        let ty = operation.object_type();
        let (query, mutation) = (operation.is_query(), operation.is_mutation());
        let subscription = operation.is_subscription();
        write!(text, "{ty} {query} {mutation} {subscription}\n")?;
        push_set(alloc, &mut text, document, &operation.selection_set)?;
    }
    Ok(text)
}

/// Whether a selection has an equal copy, and what its node holds.
fn is_selection_copied(selection: &Selection) -> bool {
    let is_part_copied = match selection {
        Selection::Field(field) => is_copied::<Field>(field),
        Selection::FragmentSpread(spread) => is_copied::<FragmentSpread>(spread),
        Selection::InlineFragment(fragment) => is_copied::<InlineFragment>(fragment),
    };
    is_part_copied && is_copied(selection)
}

/// Whether a set and each of its selections have equal copies.
fn is_set_copied(set: &SelectionSet) -> bool {
    for selection in set.selections.as_slice() {
        if !is_selection_copied(selection) {
            return false;
        }
    }
    is_copied(set)
}

/// Whether an operation, its set and the sets of its fields have equal copies.
fn is_operation_copied(operation: &Operation) -> bool {
    for field in operation.selection_set.fields() {
        if !is_set_copied(&field.selection_set) {
            return false;
        }
    }
    is_set_copied(&operation.selection_set) && is_copied(operation)
}

/// How a document is written out, and whether it, its operations and its fragments have equal copies.
fn told_whole(alloc: Global, document: &ExecutableDocument) -> Result<String, AllocError> {
    let mut text = String::new(alloc);
    document.to_ast(alloc)?.tell(&mut text)?;
    for operation in document.operations.iter() {
        let is_copied = is_operation_copied(operation);
        write!(text, "operation copied: {is_copied}\n")?;
    }
    for fragment in document.fragments.values() {
        let is_copied = is_copied::<Fragment>(fragment);
        write!(text, "fragment copied: {is_copied}\n")?;
    }
    let is_copied = is_copied(document);
    write!(text, "copied: {is_copied}\n")?;
    Ok(text)
}

#[test]
fn the_users_document_is_made_and_written(rt: HostRuntime) -> Result<(), Fail> {
    let schema = users_schema(rt.alloc())?;
    let document = users_document(rt.alloc(), &schema)?;
    let inside = told_inside(rt.alloc(), &document)?;
    assert_eq!(rt;
        inside.as_str(),
        "Query true false false\nof Query\n0 on id id false unknown size false unknown\n2 on user id true given size false unknown\nof User\n1 on short id false unknown size false unknown\n3 on Picture on User\n1 on inline fragment\nof User\n0 on id id false unknown size false unknown\nend\n2 on inline fragment\nof User\n0 on id id false unknown size false unknown\n0 on name id false unknown size false unknown\nend\n0 on name id false unknown size false unknown\nend\nend\n"
    );
    let whole = told_whole(rt.alloc(), &document)?;
    assert_eq!(rt;
        whole.as_str(),
        "- query GetUser - { - id - { } - user - ( - id - - $ me - ) - @ first - - @ second - { - short - name - - @ on - { } - ... Picture - - @ on - - @ first - - @ second - - ...on User - - @ on - { - id - { } } - ...on - @ first - - @ second - { - id - { } - name - { } } - name - { } } }\n- fragment Picture - User - { - profilePic - ( - size - - Int(\"50\") ) { } }\noperation copied: true\nfragment copied: true\ncopied: true\n"
    );
    Ok(())
}
