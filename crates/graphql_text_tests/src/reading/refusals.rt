//! Texts that are refused: what is wrong first, and where, in bytes.

use crate::reading::told::{FILE, Whole, are_told};
use graphql_nodes::source::FileId;
use graphql_text::parse_error::ParseErrorKind;
use graphql_text::parsing::{ParseOptions, parse_type, parse_value};
use std::alloc::{AllocError, Global};
use std::test::Fail;

/// A value in so many brackets.
fn nested(alloc: Global, depth: usize) -> Result<String, AllocError> {
    let mut text = String::new(alloc);
    for _ in 0..depth {
        text.push('[')?;
    }
    text.push('1')?;
    for _ in 0..depth {
        text.push(']')?;
    }
    Ok(text)
}

/// Whether 200 brackets may be open, and the 201st is refused.
fn depth_is_limited(alloc: Global) -> Result<bool, AllocError> {
    let allowed = nested(alloc, 200)?;
    let deeper = nested(alloc, 201)?;
    let read = parse_value(alloc, FILE, allowed.as_str(), ParseOptions::new());
    let rows = [(deeper.as_str(), "200..201 nested too deeply")];
    Ok(read.is_ok() && are_told(alloc, Whole::Value, ParseOptions::new(), &rows)?)
}

/// Whether file number 0 is refused, whatever the text.
fn built_in_is_refused(alloc: Global) -> bool {
    match parse_type(alloc, FileId::BUILT_IN, "?", ParseOptions::new()) {
        Ok(_) => false,
        Err(error) => error.kind == ParseErrorKind::BuiltInFile,
    }
}

static TOKENS: [(&str, &str); 15] = [
    ("{a ?}", "3..3 unexpected character `?`"),
    ("{é}", "1..1 unexpected character `é`"),
    ("{..a}", "1..1 unexpected character `.`"),
    ("{a}#\u{7}", "4..4 unexpected character U+0007"),
    ("{a(b:\"c", "7..7 unterminated string"),
    ("{a(b:\"c\n\")}", "7..7 unterminated string"),
    ("{a(b:\"\"\"c\"\")}", "13..13 unterminated string"),
    ("{a(b:\"\\ud83d\")}", "6..6 invalid escape sequence"),
    ("{a(b:\"c\\x\")}", "7..7 invalid escape sequence"),
    ("{a(b:01)}", "6..6 invalid number"),
    ("{a(b:1x)}", "6..6 invalid number"),
    ("{a(b:1.)}", "7..7 invalid number"),
    ("{a(b:-)}", "6..6 invalid number"),
    // What is wrong further left comes first.
    ("{} ?", "1..2 expected a selection, found `}`"),
    ("type T 1x", "8..8 invalid number"),
];

static MEANINGS: [(&str, &str); 21] = [
    (
        "fragment on on T{a}",
        "9..11 the name `on` is reserved here",
    ),
    ("enum E{true}", "7..11 the name `true` is reserved here"),
    ("enum E{A false}", "9..14 the name `false` is reserved here"),
    (
        "enum E{\"d\" null}",
        "11..15 the name `null` is reserved here",
    ),
    (
        "query($a:Int=$b){c}",
        "13..14 variable `$b` in a constant value",
    ),
    (
        "query($a:Int@d(e:[{f:$on}])){c}",
        "21..22 variable `$on` in a constant value",
    ),
    (
        "type T{f(a:Int=$b):Int}",
        "15..16 variable `$b` in a constant value",
    ),
    (
        "scalar S@d(a:$b)",
        "13..14 variable `$b` in a constant value",
    ),
    ("query($a:Int=$){c}", "13..14 expected a value, found `$`"),
    ("query($a:Int=$", "13..14 expected a value, found `$`"),
    (
        "directive @d on FIELD | NOWHERE",
        "24..31 unknown directive location `NOWHERE`",
    ),
    (
        "directive @d on field",
        "16..21 unknown directive location `field`",
    ),
    (
        "\"d\" { a }",
        "4..5 a description stands before a definition of the type system alone",
    ),
    (
        "\"d\" extend type T{a:Int}",
        "4..10 a description stands before a definition of the type system alone",
    ),
    (
        "\"d\" query Q{a}",
        "4..9 a description stands before a definition of the type system alone",
    ),
    (
        "\"\"\"d\"\"\" fragment F on T{a}",
        "8..16 a description stands before a definition of the type system alone",
    ),
    (
        "\"d\"",
        "3..3 expected a definition, found the end of the text",
    ),
    ("\"d\" \"e\"", "4..7 expected a definition, found a string"),
    ("", "0..0 expected a definition, found the end of the text"),
    (
        " # only",
        "7..7 expected a definition, found the end of the text",
    ),
    ("foo", "0..3 expected a definition, found `foo`"),
];

static EXPECTED: [(&str, &str); 40] = [
    ("{a} b", "4..5 expected a definition, found `b`"),
    ("}", "0..1 expected a definition, found `}`"),
    ("{\"a\"}", "1..4 expected a selection, found a string"),
    (
        "{\"\"\"a\"\"\"}",
        "1..8 expected a selection, found a block string",
    ),
    ("{1}", "1..2 expected a selection, found `1`"),
    ("{-1.5e3}", "1..7 expected a selection, found `-1.5e3`"),
    ("{a", "2..2 expected a selection, found the end of the text"),
    ("{a{}}", "3..4 expected a selection, found `}`"),
    ("{...}", "4..5 expected a selection, found `}`"),
    ("{...on}", "6..7 expected a name, found `}`"),
    ("{...on T}", "8..9 expected `{`, found `}`"),
    ("{a:}", "3..4 expected a name, found `}`"),
    ("{a()}", "3..4 expected an argument, found `)`"),
    ("{a(b:1}", "6..7 expected an argument, found `}`"),
    ("{a(b 1)}", "5..6 expected `:`, found `1`"),
    ("{a(b:)}", "5..6 expected a value, found `)`"),
    ("{a(b:[1)}", "7..8 expected a value, found `)`"),
    ("{a(b:{1})}", "6..7 expected an object field, found `1`"),
    ("{a(b:$)}", "6..7 expected a name, found `)`"),
    ("{a@}", "3..4 expected a name, found `}`"),
    ("query Q", "7..7 expected `{`, found the end of the text"),
    (
        "query(){a}",
        "6..7 expected a variable definition, found `)`",
    ),
    ("query($:Int){a}", "7..8 expected a name, found `:`"),
    ("query($a Int){b}", "9..12 expected `:`, found `Int`"),
    ("query($a:!){b}", "9..10 expected a type, found `!`"),
    ("query($a:[Int){b}", "13..14 expected `]`, found `)`"),
    ("fragment F{a}", "10..11 expected `on`, found `{`"),
    ("type T{}", "7..8 expected a field definition, found `}`"),
    ("type T{f Int}", "9..12 expected `:`, found `Int`"),
    (
        "type T{f():Int}",
        "9..10 expected an input value definition, found `)`",
    ),
    (
        "type T implements{f:Int}",
        "17..18 expected a name, found `{`",
    ),
    (
        "union U=",
        "8..8 expected a name, found the end of the text",
    ),
    (
        "enum E{}",
        "7..8 expected an enum value definition, found `}`",
    ),
    (
        "input I{}",
        "8..9 expected an input value definition, found `}`",
    ),
    ("schema{}", "7..8 expected a root operation type, found `}`"),
    ("schema@d", "8..8 expected `{`, found the end of the text"),
    (
        "directive @d on",
        "15..15 expected a directive location, found the end of the text",
    ),
    ("directive d on FIELD", "10..11 expected `@`, found `d`"),
    (
        "extend type T",
        "13..13 expected something that extends, found the end of the text",
    ),
    (
        "extend query Q{a}",
        "7..12 expected what is extended, found `query`",
    ),
];

static MANY: [(&str, &str); 5] = [
    (
        "{a b c}",
        "[OperationDefinition(OperationDefinition { operation_type: Query, name: None, variables: [], directives: DirectiveList([]), selection_set: [Field(Field { alias: None, name: \"a\", arguments: [], directives: DirectiveList([]), selection_set: [] }), Field(Field { alias: None, name: \"b\", arguments: [], directives: DirectiveList([]), selection_set: [] }), Field(Field { alias: None, name: \"c\", arguments: [], directives: DirectiveList([]), selection_set: [] })] })]",
    ),
    ("{a b c d}", "8..9 too many tokens"),
    ("{a{b{c}}}", "4..5 nested too deeply"),
    ("{a{b(c:1)}}", "4..5 nested too deeply"),
    // What is wrong before the limit comes first.
    ("{}}}}}}", "1..2 expected a selection, found `}`"),
];

static SELECTIONS: [(&str, &str); 6] = [
    ("", "0..0 expected a selection, found the end of the text"),
    ("{}", "1..2 expected a selection, found `}`"),
    ("{a} b", "4..5 expected the end of the text, found `b`"),
    ("a}", "1..2 expected the end of the text, found `}`"),
    (
        "a \"b\"",
        "2..5 expected the end of the text, found a string",
    ),
    (
        "a {",
        "3..3 expected a selection, found the end of the text",
    ),
];

static TYPES: [(&str, &str); 5] = [
    ("", "0..0 expected a type, found the end of the text"),
    ("Int!!", "4..5 expected the end of the text, found `!`"),
    (
        "[Int] Int",
        "6..9 expected the end of the text, found `Int`",
    ),
    ("[]", "1..2 expected a type, found `]`"),
    ("[Int", "4..4 expected `]`, found the end of the text"),
];

static VALUES: [(&str, &str); 6] = [
    ("", "0..0 expected a value, found the end of the text"),
    ("1 2", "2..3 expected the end of the text, found `2`"),
    ("$a", "0..1 variable `$a` in a constant value"),
    ("[{a:$b}]", "4..5 variable `$b` in a constant value"),
    ("$", "0..1 expected a value, found `$`"),
    ("{a:}", "3..4 expected a value, found `}`"),
];

#[test]
fn texts_are_refused_where_they_go_wrong(rt: HostRuntime) {
    for (whole, rows) in [
        (Whole::Definitions, TOKENS.as_slice()),
        (Whole::Definitions, MEANINGS.as_slice()),
        (Whole::Definitions, EXPECTED.as_slice()),
        (Whole::Selections, SELECTIONS.as_slice()),
        (Whole::Type, TYPES.as_slice()),
        (Whole::Value, VALUES.as_slice()),
    ] {
        assert!(rt; are_told(rt.alloc(), whole, ParseOptions::new(), rows) == Ok(true));
    }
}

#[test]
fn limits_are_kept(rt: HostRuntime) {
    let few = ParseOptions {
        max_depth: 2,
        max_tokens: 5,
    };
    assert!(rt; are_told(rt.alloc(), Whole::Definitions, few, &MANY) == Ok(true));
    assert!(rt; depth_is_limited(rt.alloc()) == Ok(true));
    assert!(rt; built_in_is_refused(rt.alloc()));
}
