//! Names and shared texts.

use crate::nodes::samples::PLACE;
use crate::nodes::shown::is_shown;
use crate::nodes::tables::expect_at;
use graphql_nodes::name::seen_names::SeenNames;
use graphql_nodes::name::{InvalidNameError, Name, NameError};
use graphql_nodes::node::Node;
use graphql_nodes::node_str::NodeStr;
use likeness::{are_alike, are_equal, is_printed};
use std::alloc::{AllocError, Global};
use std::cmp::Ordering;

/// Texts, and whether each is a name.
const TEXTS: &[(&str, bool)] = &[
    ("a", true),
    ("_", true),
    ("__typename", true),
    ("Az09_", true),
    ("_9", true),
    ("", false),
    ("9a", false),
    ("a-b", false),
    (" a", false),
    ("a ", false),
    ("[", false),
    ("@", false),
    ("`", false),
    ("{", false),
    ("a:", false),
    ("a/", false),
    ("é", false),
];

#[test]
fn grammar(rt: HostRuntime) {
    for (text, valid) in TEXTS {
        expect_at(&rt, text, Name::is_valid_syntax(text) == *valid);
    }
}

/// Whether the name reads as `field_1`, is printed and shown so, and differs from its copy at a location in
/// that alone.
fn is_field(alloc: Global, name: &Name, placed: &Name) -> bool {
    (name.as_str(), name.location(), placed.location()) == ("field_1", None, Some(PLACE))
        && is_printed(alloc, name, "field_1")
        && is_shown(alloc, name, "\"field_1\"")
        && are_alike(name, placed)
        && placed.cmp(name) == Ordering::Equal
}

/// Whether a text that is no name is kept as one, and comes before the name.
fn is_kept_unchecked(alloc: Global, name: &Name) -> bool {
    match Name::new_unchecked(alloc, "9 lives") {
        Ok(unchecked) => unchecked.as_str() == "9 lives" && unchecked < *name,
        Err(_) => false,
    }
}

/// Whether `field_1` is a name, with its text, and with the location of a copy.
fn is_field_kept(alloc: Global) -> Result<bool, NameError> {
    let name = Name::new(alloc, "field_1")?;
    let placed = name.clone()?.with_location(PLACE);
    let is_kept = placed.clone()?.location() == Some(PLACE);
    Ok(is_kept && is_field(alloc, &name, &placed) && is_kept_unchecked(alloc, &name))
}

/// Whether one error serves the name and its node.
fn is_named(alloc: Global) -> Result<bool, NameError> {
    let node = Node::new(alloc, Name::new(alloc, "field")?)?;
    Ok(node.as_str() == "field")
}

#[test]
fn names_carry_text_and_location_and_one_error_serves_their_nodes(rt: HostRuntime) {
    assert!(rt; matches!(is_field_kept(rt.alloc()), Ok(true)));
    assert!(rt; matches!(is_named(rt.alloc()), Ok(true)));
    assert!(rt; matches!(NameError::from(AllocError), NameError::Memory));
}

/// Whether each of the texts gets a name of it without a location, twice over, among those that were seen.
fn are_seen(alloc: Global) -> Result<bool, AllocError> {
    let mut seen = SeenNames::new(alloc, 0)?;
    for (text, _) in TEXTS.iter().chain(TEXTS) {
        let name = seen.name(alloc, text)?;
        if (name.as_str(), name.location()) != (*text, None) {
            return Ok(false);
        }
    }
    Ok(true)
}

#[test]
fn names_that_come_again_have_their_texts(rt: HostRuntime) {
    assert!(rt; are_seen(rt.alloc()) == Ok(true));
}

/// Whether a copy of the refusal at another location is equal.
fn is_equal_at_location(error: &InvalidNameError) -> bool {
    match error.clone() {
        Ok(mut placed) => {
            placed.location = Some(PLACE);
            placed == *error
        }
        Err(_) => false,
    }
}

/// Whether the refusal is of this text, without a location, and says this, alone and as one of the errors.
fn is_refusal(alloc: Global, error: InvalidNameError, text: &str, said: &str) -> bool {
    let are_parts = error.name.as_str() == text && error.location.is_none();
    let is_alone = is_printed(alloc, &error, said) && is_equal_at_location(&error);
    are_parts && is_alone && is_printed(alloc, &NameError::Invalid(error), said)
}

/// Whether this text is refused as no name, and the refusal says this.
fn is_refused(alloc: Global, text: &str, said: &str) -> bool {
    match Name::new(alloc, text) {
        Err(NameError::Invalid(error)) => is_refusal(alloc, error, text, said),
        _ => false,
    }
}

#[test]
fn refusals_are_printed_and_equal_without_locations(rt: HostRuntime) {
    let alloc = rt.alloc();
    assert!(rt; is_refused(alloc, "9a", "`9a` is not a valid GraphQL name"));
    assert!(rt; is_refused(alloc, "", "`` is not a valid GraphQL name"));
    assert!(rt; is_printed(alloc, &NameError::Memory, "out of memory"));
}

/// A text with quotes in it.
const QUOTED: &str = "A type, \"quoted\".";

/// Whether that text is shown with its quotes, and differs from its copy at a location in that alone.
fn is_text_located(alloc: Global, text: &NodeStr, placed: &NodeStr) -> bool {
    (text.location(), placed.location()) == (None, Some(PLACE))
        && placed.as_str() == QUOTED
        && is_shown(alloc, text, "\"A type, \\\"quoted\\\".\"")
        && are_alike(text, placed)
}

/// Whether that text can be copied to a location.
fn is_text_kept(alloc: Global) -> Result<bool, AllocError> {
    let text = NodeStr::new(alloc, QUOTED)?;
    let placed = text.clone()?.with_location(PLACE);
    Ok(is_text_located(alloc, &text, &placed))
}

#[test]
fn shared_texts_are_shown_and_equal_without_locations(rt: HostRuntime) {
    let alloc = rt.alloc();
    assert!(rt; is_text_kept(alloc) == Ok(true));
    let other = NodeStr::new(alloc, "another");
    assert!(rt; are_equal(NodeStr::new(alloc, QUOTED), other) == Some(false));
}
