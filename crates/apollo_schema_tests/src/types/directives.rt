//! Lists of directives: looked up by name, walked and written to; and components that are written to.

use apollo_component::component::Component;
use apollo_component::directive_list::DirectiveList;
use graphql_ast::directive::Directive;
use graphql_nodes::name::Name;
use graphql_nodes::node::Node;
use graphql_nodes::source::{FileId, SourceSpan};
use std::alloc::{AllocError, Global};
use telling::Tell;

/// The directive of this name, at the location that begins there.
fn node(alloc: Global, name: &str, start: usize) -> Result<Node<Directive>, AllocError> {
    let location = SourceSpan {
        file: FileId(5),
        start,
        end: start,
    };
    let directive = Directive::new(alloc, Name::new_unchecked(alloc, name)?);
    Node::new_opt_location(alloc, directive, Some(location))
}

/// The directives `@a @b @a`, at 1, 2 and 3.
fn list(alloc: Global) -> Result<DirectiveList, AllocError> {
    let mut list = DirectiveList::new(alloc);
    for (name, start) in [("a", 1), ("b", 2), ("a", 3)] {
        list.push(Component::from(node(alloc, name, start)?))?;
    }
    Ok(list)
}

/// Adds the directive, if it is found.
fn push_found(text: &mut String, found: Option<&Component<Directive>>) -> Result<(), AllocError> {
    match found {
        Some(directive) => directive.tell(text),
        None => text.push_str("nothing\n"),
    }
}

/// Adds whether there are directives of this name, the first, and what four calls give of all of them.
fn push_all(alloc: Global, text: &mut String, name: &str) -> Result<(), AllocError> {
    let list = list(alloc)?;
    let name = Name::new_unchecked(alloc, name)?;
    let is_there = list.has(&name);
    write!(text, "{name}: {is_there}\n")?;
    push_found(text, list.get(&name))?;
    let mut all = list.get_all(&name);
    for _call in 0..4 {
        push_found(text, all.next())?;
    }
    Ok(())
}

/// Adds each directive of a list that is made again, by value.
fn push_walked(alloc: Global, text: &mut String) -> Result<(), AllocError> {
    let list = DirectiveList::try_from_iter(alloc, list(alloc)?)?;
    for directive in &list {
        directive.tell(text)?;
    }
    Ok(())
}

/// Writes `@c` at 9 to each directive, cuts the last two off, and adds the length and what is left.
fn push_written(alloc: Global, text: &mut String) -> Result<(), AllocError> {
    let mut list = list(alloc)?;
    let c = node(alloc, "c", 9)?;
    for directive in &mut list {
        **directive = c.clone()?;
    }
    list.truncate(1);
    let length = list.len();
    write!(text, "{length}: ")?;
    list.tell(text)
}

#[test]
fn directives_are_looked_up_by_name_walked_and_written(rt: HostRuntime) {
    let mut text = String::new(rt.alloc());
    push_all(rt.alloc(), &mut text, "a").expect(&rt, "memory");
    push_all(rt.alloc(), &mut text, "c").expect(&rt, "memory");
    push_walked(rt.alloc(), &mut text).expect(&rt, "memory");
    push_written(rt.alloc(), &mut text).expect(&rt, "memory");
    assert_eq!(rt;
        text.as_str(),
        "a: true\ndefinition 5:1 @ a - \ndefinition 5:1 @ a - \ndefinition 5:3 @ a - \nnothing\nnothing\nc: false\nnothing\nnothing\nnothing\nnothing\nnothing\ndefinition 5:1 @ a - \ndefinition 5:2 @ b - \ndefinition 5:3 @ a - \n1: definition 5:9 @ c - \n"
    );
}
