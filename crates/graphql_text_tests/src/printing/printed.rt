//! Values, types, selections, operations and fragments that are read and printed.

use crate::printing::rows::{Sort, assert_printed};
use std::test::Fail;

static VALUES: [(&str, &str); 8] = [
    ("[ 1,-2.5e3  true,null]", "[1, -2.5e3, true, null]"),
    ("{a:1 b :E,c:{ }}", "{a: 1, b: E, c: {}}"),
    ("[[],[ [ ] ]]", "[[], [[]]]"),
    (
        "\"a\\u0022\\\\\\/\\b\\f\\n\\r\\t\"",
        "\"a\\\"\\\\/\\b\\f\\n\\r\\t\"",
    ),
    (
        "\"\\u0007\\u007f\\u0085\\u00e9\"",
        "\"\\u0007\\u007F\\u0085é\"",
    ),
    ("\"\\ud83d\\ude00\"", "\"\u{1f600}\""),
    ("\"\"\"\n  one\n    two\n\"\"\"", "\"one\\n  two\""),
    ("\"\"\"\\\"\"\"\"\"\"", "\"\\\"\\\"\\\"\""),
];

static TYPES: [(&str, &str); 3] = [
    ("Int", "Int"),
    ("[ Int ! ] !", "[Int!]!"),
    ("[[[ID]!]]", "[[[ID]!]]"),
];

static SELECTIONS: [(&str, &str); 5] = [
    ("a", "{\n  a\n}"),
    ("{ a: b(x:1) @d  c }", "{\n  a: b(x: 1) @d\n  c\n}"),
    (
        "{...F @a(b:[1]) ... on T @x {a{b c}} ...{d} ... @y{e}}",
        "{\n  ...F @a(b: [1])\n  ... on T @x {\n    a {\n      b\n      c\n    }\n  }\n  ... {\n    d\n  }\n  ... @y {\n    e\n  }\n}",
    ),
    (
        "{a{f: field(a: \"xxxxxxxxxxxxxxxxxxxxxxxxxxxxxxxxxxxxxxxxxxxxxxxxxxxxxx\", b: {c: E})@d{b}}}",
        "{\n  a {\n    f: field(a: \"xxxxxxxxxxxxxxxxxxxxxxxxxxxxxxxxxxxxxxxxxxxxxxxxxxxxxx\", b: {c: E}) @d {\n      b\n    }\n  }\n}",
    ),
    (
        "{a{f: field(a: \"xxxxxxxxxxxxxxxxxxxxxxxxxxxxxxxxxxxxxxxxxxxxxxxxxxxxxxx\", b: {c: E})@d{b}}}",
        "{\n  a {\n    f: field(\n      a: \"xxxxxxxxxxxxxxxxxxxxxxxxxxxxxxxxxxxxxxxxxxxxxxxxxxxxxxx\"\n      b: {c: E}\n    ) @d {\n      b\n    }\n  }\n}",
    ),
];

static DEFINITIONS: [(&str, &str); 7] = [
    ("query{a}", "{\n  a\n}"),
    ("query @d{a}", "query @d {\n  a\n}"),
    ("query Q{a}", "query Q {\n  a\n}"),
    ("query($a:Int){a}", "query ($a: Int) {\n  a\n}"),
    ("mutation{a}", "mutation {\n  a\n}"),
    (
        "subscription S($a:[Int!]!=[1]@x @y,$b:T)@z{a{b}}",
        "subscription S($a: [Int!]! = [1] @x @y, $b: T) @z {\n  a {\n    b\n  }\n}",
    ),
    ("fragment F on T@a @b{a}", "fragment F on T @a @b {\n  a\n}"),
];

#[test]
fn parts_of_documents_are_printed(rt: HostRuntime) {
    assert_printed(&rt, rt.alloc(), Sort::Value, &VALUES);
    assert_printed(&rt, rt.alloc(), Sort::Type, &TYPES);
    assert_printed(&rt, rt.alloc(), Sort::Selections, &SELECTIONS);
    assert_printed(&rt, rt.alloc(), Sort::Executable, &DEFINITIONS);
}
