//! Applied directives by their names.

use crate::nodes::samples::name;
use crate::trees::arguments::number;
use graphql_ast::directive::{Argument, Directive, DirectiveList};
use graphql_ast::value::Value;
use graphql_nodes::name::Name;
use graphql_nodes::node::Node;
use likeness::both;
use std::alloc::{AllocError, Global};

/// The directive `@call(at: ..)`, where both texts are given.
fn directive(alloc: Global, text: &str, at: &str) -> Result<Node<Directive>, AllocError> {
    let parts = both(name(alloc, "at", None), number(alloc, at));
    let (name, (argument, value)) = both(name(alloc, text, None), parts)?;
    let mut directive = Directive::new(alloc, name);
    let argument = Node::new(alloc, Argument::new(argument, value))?;
    directive.arguments.push(argument)?;
    Node::new(alloc, directive)
}

/// The directives `@tag(at: 1) @link(at: 2) @tag(at: 3)`.
fn directives(alloc: Global) -> Result<DirectiveList, AllocError> {
    let mut directives = DirectiveList::new(alloc);
    for (text, at) in &[("tag", "1"), ("link", "2"), ("tag", "3")] {
        directives.push(directive(alloc, text, at)?)?;
    }
    Ok(directives)
}

/// The number that a directive has as the argument of this name, or none.
fn number_of<'a>(directive: &'a Directive, at: &Name) -> &'a str {
    match directive.specified_argument_by_name(at) {
        Some(node) => match &**node {
            Value::Int(text) => text.as_str(),
            _ => "another value",
        },
        None => "none",
    }
}

/// The numbers of the directives of this name, one behind another.
fn numbers(
    alloc: Global,
    directives: &DirectiveList,
    name: &Name,
    at: &Name,
) -> Result<String, AllocError> {
    let mut text = String::new(alloc);
    for directive in directives.get_all(name) {
        text.push_str(number_of(directive, at))?;
    }
    Ok(text)
}

/// Whether the directives of the name are found: the first by its number, and all by theirs.
fn are_found(alloc: Global, text: &str, first: &str, all: &str) -> Result<bool, AllocError> {
    let (tag, at) = both(name(alloc, text, None), name(alloc, "at", None))?;
    let directives = directives(alloc)?;
    let numbers = numbers(alloc, &directives, &tag, &at)?;
    let found = match directives.get(&tag) {
        Some(directive) => number_of(directive, &at),
        None => "none",
    };
    Ok(found == first && directives.has(&tag) == (first != "none") && numbers.as_str() == all)
}

/// Names of directives, the number of the first, and those of all.
const FOUND: &[(&str, &str, &str)] = &[("tag", "1", "13"), ("link", "2", "2"), ("at", "none", "")];

#[test]
fn directives_by_name(rt: HostRuntime) {
    for (text, first, all) in FOUND {
        assert!(rt;
            are_found(rt.alloc(), text, first, all) == Ok(true),
            "at {text}"
        );
    }
}

/// Whether an argument of another name isn't found.
fn is_missing(alloc: Global) -> Result<bool, AllocError> {
    let (directive, other) = both(directive(alloc, "tag", "1"), name(alloc, "tag", None))?;
    Ok(number_of(&directive, &other) == "none")
}

#[test]
fn an_argument_of_another_name_is_none(rt: HostRuntime) {
    assert!(rt; is_missing(rt.alloc()) == Ok(true));
}
