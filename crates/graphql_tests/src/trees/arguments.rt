//! Arguments by their names.

use crate::nodes::samples::{PLACE, name, node, pair};
use crate::trees::values::int;
use graphql_ast::directive::{Argument, ArgumentByNameError};
use graphql_ast::type_reference::Type;
use graphql_ast::type_system::{DirectiveDefinition, FieldDefinition, InputValueDefinition};
use graphql_ast::value::Value;
use graphql_nodes::collections::items::Items;
use graphql_nodes::node::Node;
use graphql_nodes::node_str::NodeStr;
use likeness::both;
use std::alloc::{AllocError, Global};

/// The node of this integer, at the location.
pub fn number(alloc: Global, text: &str) -> Result<Node<Value>, AllocError> {
    node(alloc, int(alloc, text), Some(PLACE))
}

/// The argument `first` of this value.
fn argument(alloc: Global, value: &str) -> Result<Node<Argument>, AllocError> {
    let (name, value) = both(name(alloc, "first", None), number(alloc, value))?;
    Node::new(alloc, Argument { name, value })
}

/// The type `Int`, or `Int!` where it is required.
pub fn int_type(alloc: Global, required: bool) -> Result<Type, AllocError> {
    let int = name(alloc, "Int", None)?;
    Ok(if required {
        Type::NonNullNamed(int)
    } else {
        Type::Named(int)
    })
}

/// An argument definition of the type `Int`, or `Int!` where it is required, with a description.
pub fn defined(
    alloc: Global,
    text: &str,
    required: bool,
    default_value: Option<&str>,
) -> Result<Node<InputValueDefinition>, AllocError> {
    let parts = both(int_type(alloc, required), NodeStr::new(alloc, "text"));
    let (name, (ty, description)) = both(name(alloc, text, None), parts)?;
    let mut definition = InputValueDefinition::new(alloc, name, ty)?;
    definition.description = Some(description);
    if let Some(text) = default_value {
        definition.default_value = Some(number(alloc, text)?);
    }
    Node::new(alloc, definition)
}

/// What an answer says: the text of the number, `none`, or the name of the error.
fn said(answer: Result<Option<&Node<Value>>, ArgumentByNameError>) -> &str {
    match answer {
        Ok(Some(node)) => match &**node {
            Value::Int(text) => text.as_str(),
            _ => "another value",
        },
        Ok(None) => "none",
        Err(ArgumentByNameError::NoSuchArgument) => "no such argument",
        Err(ArgumentByNameError::RequiredArgumentNotSpecified) => "required",
    }
}

/// Whether this is the answer on the argument of this text as name, at a location, and of this definition.
/// Two of the name `first` are given there, 1 and 2.
fn is_answer(
    alloc: Global,
    text: &str,
    definition: Option<&Node<InputValueDefinition>>,
    want: &str,
) -> Result<bool, AllocError> {
    let given = pair(alloc, argument(alloc, "1"), argument(alloc, "2"));
    let (name, given) = both(name(alloc, text, Some(PLACE)), given)?;
    Ok(said(Argument::argument_by_name(given.as_slice(), &name, definition)) == want)
}

/// Whether this is the answer on the argument of this name, which is so defined.
fn is_answer_of(
    alloc: Global,
    text: &str,
    required: bool,
    default_value: Option<&str>,
    want: &str,
) -> Result<bool, AllocError> {
    let definition = defined(alloc, text, required, default_value)?;
    is_answer(alloc, text, Some(&definition), want)
}

/// Names of arguments, whether each is defined as required and with which default value, if it is, and the
/// answer.
const ANSWERS: &[(&str, Option<(bool, Option<&str>)>, &str)] = &[
    ("first", None, "1"),
    ("limit", None, "no such argument"),
    ("limit", Some((true, Some("10"))), "10"),
    ("limit", Some((true, None)), "required"),
    ("limit", Some((false, None)), "none"),
];

#[test]
fn an_argument_is_the_first_given_or_answered_by_its_definition(rt: HostRuntime) {
    for (name, definition, want) in ANSWERS {
        let is_right = match definition {
            Some((required, default)) => is_answer_of(rt.alloc(), name, *required, *default, want),
            None => is_answer(rt.alloc(), name, None, want),
        };
        assert!(rt; is_right == Ok(true), "at {want}");
    }
}

/// Three definitions of arguments, two of one name.
fn definitions(alloc: Global) -> Result<Items<Node<InputValueDefinition>>, AllocError> {
    let mut definitions = Items::new(alloc);
    for (name, required) in &[("after", false), ("limit", true), ("limit", false)] {
        definitions.push(defined(alloc, name, *required, None)?)?;
    }
    Ok(definitions)
}

/// The directive `paged`.
fn directive(alloc: Global) -> Result<DirectiveDefinition, AllocError> {
    let (name, arguments) = both(name(alloc, "paged", None), definitions(alloc))?;
    let mut directive = DirectiveDefinition::new(alloc, name);
    directive.arguments = arguments;
    Ok(directive)
}

/// The field `pages` of the type `Page`.
pub fn field(alloc: Global) -> Result<FieldDefinition, AllocError> {
    let parts = both(name(alloc, "Page", None), definitions(alloc));
    let (name, (ty, arguments)) = both(name(alloc, "pages", None), parts)?;
    let mut field = FieldDefinition::new(alloc, name, Type::named(ty));
    field.arguments = arguments;
    Ok(field)
}

/// Whether the argument is required, if there is one.
fn is_required(argument: Option<&Node<InputValueDefinition>>) -> Option<bool> {
    match argument {
        Some(argument) => Some(argument.ty.is_non_null()),
        None => None,
    }
}

/// Whether the first definition of `limit` is found, of a field and of a directive, and none of a name that
/// is not defined.
fn are_found(alloc: Global) -> Result<bool, AllocError> {
    let (field, directive) = both(field(alloc), directive(alloc))?;
    let limit = name(alloc, "limit", None)?;
    Ok(
        is_required(field.argument_by_name(&limit)) == Some(true)
            && is_required(directive.argument_by_name(&limit)) == Some(true)
            && field.argument_by_name(&field.name).is_none()
            && directive.argument_by_name(&directive.name).is_none(),
    )
}

#[test]
fn definitions_by_name(rt: HostRuntime) {
    assert!(rt; are_found(rt.alloc()) == Ok(true));
}

/// Whether an argument has to be given that is so defined.
fn has_to_be_given(
    alloc: Global,
    required: bool,
    default_value: Option<&str>,
) -> Result<bool, AllocError> {
    Ok(defined(alloc, "limit", required, default_value)?.is_required())
}

/// Whether the type of an argument is non-null, its default value, and whether it has to be given.
const GIVEN: &[(bool, Option<&str>, bool)] = &[
    (true, None, true),
    (true, Some("10"), false),
    (false, None, false),
    (false, Some("10"), false),
];

#[test]
fn an_argument_has_to_be_given_where_neither_null_nor_a_default_value_serves(rt: HostRuntime) {
    for (required, default, want) in GIVEN {
        let is_given = has_to_be_given(rt.alloc(), *required, *default);
        assert!(rt; is_given == Ok(*want), "at {required}");
    }
}
