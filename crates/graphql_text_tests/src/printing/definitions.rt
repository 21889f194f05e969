//! Definitions of the type system and documents that are read and printed, as graphql-js prints them.

use crate::printing::rows::{Sort, assert_printed};
use std::test::Fail;

static SORTS: [(&str, &str); 28] = [
    (
        "\"\"\"S\"\"\"schema@a{query:Q mutation:M}",
        "\"\"\"S\"\"\"\nschema @a {\n  query: Q\n  mutation: M\n}",
    ),
    (
        "\"\"\"one\n  two\n\"\"\"scalar S@a @b",
        "\"\"\"\none\ntwo\n\"\"\"\nscalar S @a @b",
    ),
    ("scalar S", "scalar S"),
    (
        "\"\"\"T\"\"\"type T implements&A&B@a{\"\"\"f\"\"\"f(a:Int=1@x,b:[S!]!):T!@b g:Int}",
        "\"\"\"T\"\"\"\ntype T implements A & B @a {\n  \"\"\"f\"\"\"\n  f(a: Int = 1 @x, b: [S!]!): T! @b\n  g: Int\n}",
    ),
    ("type T", "type T"),
    (
        "interface I implements A{f(\"\"\"a\"\"\"a:Int,\"\"\"b\n\n  c\"\"\" b:Int):Int}",
        "interface I implements A {\n  f(\n    \"\"\"a\"\"\"\n    a: Int\n    \"\"\"\n    b\n    \n    c\n    \"\"\"\n    b: Int\n  ): Int\n}",
    ),
    (
        "\"\"\"d\"\"\"union U@a=|A|B",
        "\"\"\"d\"\"\"\nunion U @a = A | B",
    ),
    ("union U", "union U"),
    (
        "\"\"\"E\"\"\"enum E@a{\"\"\"A\"\"\"A@b B}",
        "\"\"\"E\"\"\"\nenum E @a {\n  \"\"\"A\"\"\"\n  A @b\n  B\n}",
    ),
    (
        "\"\"\"I\"\"\"input I@a{\"\"\"a\"\"\"a:Int=1@x b:[S!]={c:1}}",
        "\"\"\"I\"\"\"\ninput I @a {\n  \"\"\"a\"\"\"\n  a: Int = 1 @x\n  b: [S!] = {c: 1}\n}",
    ),
    (
        "\"\"\"D\"\"\"directive@d(a:Int,b:S=E)repeatable on|QUERY|FIELD_DEFINITION",
        "\"\"\"D\"\"\"\ndirective @d(a: Int, b: S = E) repeatable on QUERY | FIELD_DEFINITION",
    ),
    (
        "directive@d(\"\"\"a\"\"\"a:Int)on SCHEMA",
        "directive @d(\n  \"\"\"a\"\"\"\n  a: Int\n) on SCHEMA",
    ),
    (
        "extend schema@a{subscription:S}",
        "extend schema @a {\n  subscription: S\n}",
    ),
    ("extend scalar S@a", "extend scalar S @a"),
    ("extend type T implements A", "extend type T implements A"),
    ("extend type T@a{f:Int}", "extend type T @a {\n  f: Int\n}"),
    (
        "extend interface I implements A & B@a{f(\"\"\"a\"\"\"a:Int):Int}",
        "extend interface I implements A & B @a {\n  f(\n    \"\"\"a\"\"\"\n    a: Int\n  ): Int\n}",
    ),
    ("extend union U@a=A|B", "extend union U @a = A | B"),
    (
        "extend enum E@a{A B@b}",
        "extend enum E @a {\n  A\n  B @b\n}",
    ),
    (
        "extend input I@a{a:Int}",
        "extend input I @a {\n  a: Int\n}",
    ),
    ("fragment F on T{a}", "fragment F on T {\n  a\n}"),
    ("query{a}", "{\n  a\n}"),
    (
        "query Q($x:[Int!]!=[1,2]@d){f(a:$x,b:\"é\")...F @i}",
        "query Q($x: [Int!]! = [1, 2] @d) {\n  f(a: $x, b: \"é\")\n  ...F @i\n}",
    ),
    ("{a(b:\"\\ud83d\\ude00\")}", "{\n  a(b: \"\u{1f600}\")\n}"),
    (
        "\"\"\"\n    one\n      two\n    \"\"\" scalar S",
        "\"\"\"\none\n  two\n\"\"\"\nscalar S",
    ),
    (
        "type T implements &A&B{f:Int}",
        "type T implements A & B {\n  f: Int\n}",
    ),
    ("union U=|A|B", "union U = A | B"),
    ("{a(x:{})b(y:[])}", "{\n  a(x: {})\n  b(y: [])\n}"),
];

static DOCUMENTS: [(&str, &str); 4] = [
    ("type T{f:Int}{a}", "type T {\n  f: Int\n}\n\n{\n  a\n}"),
    (
        "query Q{a}type T@d query R{a}",
        "query Q {\n  a\n}\n\ntype T @d\n\nquery R {\n  a\n}",
    ),
    ("scalar S {a}", "scalar S\n\n{\n  a\n}"),
    (
        "{a}fragment F on T{b}",
        "{\n  a\n}\n\nfragment F on T {\n  b\n}",
    ),
];

/// Behind a definition that would take its `{`, a query keeps its keyword, which graphql-js leaves out.
static KEPT: [(&str, &str); 4] = [
    ("type T query{a}", "type T\n\nquery {\n  a\n}"),
    (
        "extend enum E@d query{a}{b}",
        "extend enum E @d\n\nquery {\n  a\n}\n\n{\n  b\n}",
    ),
    (
        "extend schema@d query{a}",
        "extend schema @d\n\nquery {\n  a\n}",
    ),
    ("input I query@d{a}", "input I\n\nquery @d {\n  a\n}"),
];

#[test]
fn definitions_are_printed(rt: HostRuntime) {
    assert_printed(&rt, rt.alloc(), Sort::Definition, &SORTS);
    for sort in [Sort::Definitions, Sort::Document] {
        assert_printed(&rt, rt.alloc(), sort, &DOCUMENTS);
        assert_printed(&rt, rt.alloc(), sort, &KEPT);
    }
}
