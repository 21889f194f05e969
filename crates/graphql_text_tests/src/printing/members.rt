//! Fields, input values and enum values that are read in their types and printed by themselves, as graphql-js
//! prints their nodes.

use crate::printing::rows::{Sort, assert_printed};
use std::test::Fail;

static FIELDS: [(&str, &str); 6] = [
    ("type T{title:String}", "title: String"),
    (
        "type T{f(a:Int=1@x b:[S!]!={c:[1]}):T!@b @c(d:\"e\")}",
        "f(a: Int = 1 @x, b: [S!]! = {c: [1]}): T! @b @c(d: \"e\")",
    ),
    (
        "type T{\"\"\"What it is called.\"\"\"title(max:Int=80):String@cached}",
        "\"\"\"What it is called.\"\"\"\ntitle(max: Int = 80): String @cached",
    ),
    (
        "type T{\"\"\"one\n  two\n\n three\"\"\"f:[Int!]}",
        "\"\"\"\none\n two\n\nthree\n\"\"\"\nf: [Int!]",
    ),
    (
        "type T{f(\"\"\"a\"\"\"a:Int=1@x,b:S):T@b}",
        "f(\n  \"\"\"a\"\"\"\n  a: Int = 1 @x\n  b: S\n): T @b",
    ),
    (
        "type T{\"\"\"f\"\"\"f(a:Int,\"\"\"one\ntwo\"\"\"b:S={c:E}):T}",
        "\"\"\"f\"\"\"\nf(\n  a: Int\n  \"\"\"\n  one\n  two\n  \"\"\"\n  b: S = {c: E}\n): T",
    ),
];

static INPUT_VALUES: [(&str, &str); 8] = [
    ("input I{a:Int}", "a: Int"),
    (
        "input I{a:[S!]!={b:[1,\"c\"]}@x @y}",
        "a: [S!]! = {b: [1, \"c\"]} @x @y",
    ),
    (
        "input I{\"\"\"a\"\"\"a:Int=1@x}",
        "\"\"\"a\"\"\"\na: Int = 1 @x",
    ),
    (
        "input I{\"\"\"one\n  two\"\"\"a:S}",
        "\"\"\"\none\ntwo\n\"\"\"\na: S",
    ),
    ("directive@d(a:Int)on FIELD", "a: Int"),
    (
        "directive@d(a:[S!]!={b:[1,\"c\"]}@x @y)on FIELD",
        "a: [S!]! = {b: [1, \"c\"]} @x @y",
    ),
    (
        "directive@d(\"\"\"a\"\"\"a:Int=1@x)on FIELD",
        "\"\"\"a\"\"\"\na: Int = 1 @x",
    ),
    (
        "directive@d(\"\"\"one\n  two\"\"\"a:S)on FIELD",
        "\"\"\"\none\ntwo\n\"\"\"\na: S",
    ),
];

static ENUM_VALUES: [(&str, &str); 4] = [
    ("enum E{A}", "A"),
    ("enum E{A@b(c:1)@d}", "A @b(c: 1) @d"),
    ("enum E{\"\"\"a\"\"\"A}", "\"\"\"a\"\"\"\nA"),
    (
        "enum E{\"\"\"one\n  two\"\"\"A@b}",
        "\"\"\"\none\ntwo\n\"\"\"\nA @b",
    ),
];

#[test]
fn members_are_printed_alone(rt: HostRuntime) {
    assert_printed(&rt, rt.alloc(), Sort::Member, &FIELDS);
    assert_printed(&rt, rt.alloc(), Sort::Member, &INPUT_VALUES);
    assert_printed(&rt, rt.alloc(), Sort::Member, &ENUM_VALUES);
}
