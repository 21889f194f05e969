//! Values: their kinds, numbers and copies.

use crate::nodes::samples::{list, name, node, pair};
use graphql_ast::value::Value;
use graphql_nodes::collections::text::Text;
use graphql_nodes::node::Node;
use graphql_nodes::source::SourceSpan;
use likeness::{are_equal, both, is_copied, is_held_copied, is_made_copied};
use std::alloc::{AllocError, Global};

/// The list `[$id, ONE]`, all at one location.
fn ids(alloc: Global, location: Option<SourceSpan>) -> Result<Node<Value>, AllocError> {
    let variable = name(alloc, "id", location).map(Value::Variable);
    let constant = name(alloc, "ONE", location).map(Value::Enum);
    let ids = pair(
        alloc,
        node(alloc, variable, location),
        node(alloc, constant, location),
    );
    node(alloc, ids.map(Value::List), location)
}

/// The value `{ids: [$id, ONE]}`, all at one location.
pub fn value(alloc: Global, location: Option<SourceSpan>) -> Result<Value, AllocError> {
    let member = both(name(alloc, "ids", location), ids(alloc, location));
    Ok(Value::Object(list(alloc, member)?))
}

/// The integer of this text.
pub fn int(alloc: Global, text: &str) -> Result<Value, AllocError> {
    Ok(Value::Int(Text::from_str(alloc, text)?))
}

#[test]
fn values_differ_in_text_and_kind(rt: HostRuntime) {
    let alloc = rt.alloc();
    let float = Text::from_str(alloc, "1").map(Value::Float);
    assert!(rt; are_equal(int(alloc, "1"), float) == Some(false));
    assert!(rt; are_equal(int(alloc, "1"), int(alloc, "01")) == Some(false));
}

#[test]
fn values_are_copied(rt: HostRuntime) {
    let alloc = rt.alloc();
    assert!(rt; is_copied(&Value::Null) && is_copied(&Value::Boolean(true)));
    assert!(rt; is_made_copied(Text::from_str(alloc, "1").map(Value::String)));
    assert!(rt; is_made_copied(Text::from_str(alloc, "1").map(Value::Float)));
    assert!(rt; is_made_copied(int(alloc, "1")));
    assert!(rt; is_made_copied(name(alloc, "ONE", None).map(Value::Enum)));
    assert!(rt; is_made_copied(name(alloc, "id", None).map(Value::Variable)));
    assert!(rt; is_held_copied(ids(alloc, None)));
    assert!(rt; is_made_copied(value(alloc, None)));
}

/// The kind of the value and its text, by the calls that answer on it: of a list or object how many it has.
fn kind_of(value: &Value) -> (&'static str, &str) {
    if value.is_null() {
        return ("null", "");
    }
    if let Some(name) = value.as_enum() {
        return ("enum", name.as_str());
    }
    if let Some(name) = value.as_variable() {
        return ("variable", name.as_str());
    }
    if let Some(text) = value.as_str() {
        return ("string", text);
    }
    if let Some(is_true) = value.to_bool() {
        return ("boolean", if is_true { "true" } else { "false" });
    }
    if let Some(items) = value.as_list() {
        return ("list", if items.len() == 2 { "two" } else { "" });
    }
    if let Some(members) = value.as_object() {
        return ("object", if members.len() == 1 { "one" } else { "" });
    }
    ("number", "")
}

/// Whether there was memory for the value, and the calls answer so.
fn is_kind(made: Result<Value, AllocError>, kind: &str, text: &str) -> bool {
    match made {
        Ok(value) => kind_of(&value) == (kind, text),
        Err(_) => false,
    }
}

/// Whether the list in the object `{ids: [$id, ONE]}` is one.
fn is_list_in_object(alloc: Global) -> bool {
    match ids(alloc, None) {
        Ok(node) => kind_of(&node) == ("list", "two"),
        Err(_) => false,
    }
}

#[test]
fn values_answer_as_their_kind(rt: HostRuntime) {
    let alloc = rt.alloc();
    assert!(rt; is_kind(Ok(Value::Null), "null", ""));
    assert!(rt; is_kind(name(alloc, "ONE", None).map(Value::Enum), "enum", "ONE"));
    assert!(rt;
        is_kind(
            name(alloc, "id", None).map(Value::Variable),
            "variable",
            "id"
        )
    );
    assert!(rt; is_kind(Text::from_str(alloc, "1").map(Value::String), "string", "1"));
    assert!(rt; is_kind(Ok(Value::Boolean(true)), "boolean", "true"));
    assert!(rt; is_kind(Ok(Value::Boolean(false)), "boolean", "false"));
    assert!(rt; is_list_in_object(alloc));
    assert!(rt; is_kind(value(alloc, None), "object", "one"));
    assert!(rt; is_kind(int(alloc, "1"), "number", ""));
    assert!(rt; is_kind(Text::from_str(alloc, "1.0").map(Value::Float), "number", ""));
}

/// Whether there was memory for the value, and these are its numbers.
fn has_numbers(
    made: Result<Value, AllocError>,
    integer: Option<i32>,
    nearest: Option<f64>,
) -> bool {
    match made {
        Ok(value) => value.to_i32() == integer && value.to_f64() == nearest,
        Err(_) => false,
    }
}

/// Texts of integers and their numbers: those of 32 bits, and the nearest of 64 bits.
const INTEGERS: &[(&str, Option<i32>, Option<f64>)] = &[
    ("0", Some(0), Some(0.0)),
    ("-7", Some(-7), Some(-7.0)),
    ("2147483647", Some(2147483647), Some(2147483647.0)),
    ("2147483648", None, Some(2147483648.0)),
    ("-2147483648", Some(-2147483648), Some(-2147483648.0)),
    ("-2147483649", None, Some(-2147483649.0)),
    ("9007199254740993", None, Some(9007199254740992.0)),
];

/// Texts of floats and the nearest numbers.
const FLOATS: &[(&str, Option<f64>)] = &[
    ("1.0", Some(1.0)),
    ("-1.5e2", Some(-150.0)),
    ("1E-1", Some(0.1)),
    ("1e308", Some(1e308)),
    ("1e309", None),
];

#[test]
fn values_answer_with_their_numbers(rt: HostRuntime) {
    let alloc = rt.alloc();
    for (text, integer, nearest) in INTEGERS {
        assert!(rt;
            has_numbers(int(alloc, text), *integer, *nearest),
            "at {text}"
        );
    }
    for (text, nearest) in FLOATS {
        let float = Text::from_str(alloc, text).map(Value::Float);
        assert!(rt; has_numbers(float, None, *nearest), "at {text}");
    }
    let string = Text::from_str(alloc, "1").map(Value::String);
    assert!(rt; has_numbers(string, None, None));
}
