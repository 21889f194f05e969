//! Texts that are read: their definitions, and where these stand.

use crate::reading::told::FILE;
use graphql_ast::definition::Definition;
use graphql_nodes::collections::items::Items;
use graphql_nodes::source::SourceSpan;
use graphql_text::parsing::{ParseOptions, parse_definitions};
use std::alloc::Global;
use std::test::Fail;

/// The definitions of a text that is read; none of another text.
pub(crate) fn definitions(alloc: Global, text: &str) -> Items<Definition> {
    match parse_definitions(alloc, FILE, text, ParseOptions::new()) {
        Ok(read) => read,
        Err(_) => Items::new(alloc),
    }
}

/// Whether the last definition stands at these bytes.
fn ends_at(read: &Items<Definition>, start: usize, end: usize) -> bool {
    match read.as_slice() {
        [.., last] => {
            last.location()
                == Some(SourceSpan {
                    file: FILE,
                    start,
                    end,
                })
        }
        [] => false,
    }
}

/// Whether each text has so many definitions, and the last of them stands at these bytes.
fn are_counted(alloc: Global, rows: &[(&str, usize, usize, usize)]) -> bool {
    for (text, count, start, end) in rows {
        let read = definitions(alloc, *text);
        if !(read.len() == *count && ends_at(&read, *start, *end)) {
            return false;
        }
    }
    true
}

/// Whether each text is one definition, from its first byte to its last.
fn are_single(alloc: Global, rows: &[&str]) -> bool {
    for text in rows {
        let read = definitions(alloc, *text);
        if !(read.len() == 1 && ends_at(&read, 0, text.len())) {
            return false;
        }
    }
    true
}

static COUNTED: [(&str, usize, usize, usize); 11] = [
    ("{a}", 1, 0, 3),
    ("\u{feff}# comment\n {a} ,# comment", 1, 14, 17),
    ("schema{query:Q}", 1, 0, 15),
    ("schema{query:Q}extend schema@d", 2, 15, 30),
    ("scalar S {a}", 2, 9, 12),
    ("type T {a:Int} {b}", 2, 15, 18),
    ("query Q{a}mutation M{a}subscription S{a}", 3, 23, 40),
    ("scalar S \"é\" scalar T", 2, 9, 22),
    ("union U = A | B scalar S", 2, 16, 24),
    ("scalar S@d(a:1) fragment F on T{a}", 2, 16, 34),
    ("type T implements A & B type T", 2, 24, 30),
];

/// Operations and fragments, with each part and without.
static OPERATIONS: [&str; 29] = [
    "{a}",
    "query{a}",
    "query Q{a}",
    "query query{query}",
    "mutation M{a}",
    "subscription on{a}",
    "query($a:Int){b}",
    "query($a:Int,$b:[Int!]!=[1]@c@d(e:2)){f}",
    "query@a{b}",
    "query Q($a:Int=1)@b(c:$a){d}",
    "{a b}",
    "{a:b}",
    "{a(b:1)}",
    "{a(b:1 c:2)}",
    "{a@b}",
    "{a@b(c:$d)@e}",
    "{a{b{c}}d}",
    "{a:b(c:1)@d{e}}",
    "{on fragment:type(true:1)}",
    "{...a}",
    "{...true@b@c(d:1)}",
    "{...{a}}",
    "{...@a{b}}",
    "{...on T{a}}",
    "{...on on@a(b:1){c}}",
    "fragment F on T{a}",
    "fragment fragment on on@a{b}",
    "fragment F on T@a(b:1)@c{...G}",
    "{ a , , b,# c\n}",
];

/// Values and types of each sort.
static VALUES: [&str; 24] = [
    "{a(b:$c)}",
    "{a(b:0)}",
    "{a(b:-12)}",
    "{a(b:1.5)}",
    "{a(b:-0e+1)}",
    "{a(b:\"\")}",
    "{a(b:\"\\u00e9 \\\" #\")}",
    "{a(b:\"\"\"c \\\"\"\" \"d\" \"\"\")}",
    "{a(b:true)}",
    "{a(b:false)}",
    "{a(b:null)}",
    "{a(b:C)}",
    "{a(b:on)}",
    "{a(b:[])}",
    "{a(b:[1])}",
    "{a(b:[1,$c,[D]])}",
    "{a(b:{})}",
    "{a(b:{c:1})}",
    "{a(b:{c:$d e:{f:[]}})}",
    "query($a:T){b}",
    "query($a:T!){b}",
    "query($a:[T]){b}",
    "query($a:[T!]!){b}",
    "query($a:[[T]!]){b}",
];

/// Definitions of the type system, with each part and without.
static TYPES: [&str; 54] = [
    "schema{query:Q}",
    "\"d\" schema{query:Q}",
    "schema@a@b(c:1){query:Q mutation:M,subscription:S}",
    "scalar S",
    "\"d\"scalar S@a",
    "\"\"\"d\"\"\"scalar scalar@a(b:1)",
    "type T",
    "\"d\" type T",
    "type T implements A",
    "type T implements&A",
    "type T implements A&B",
    "type T implements &A&B{f:Int}",
    "type implements implements implements@a",
    "type T@a(b:[])",
    "type T{f:Int}",
    "type T{f:Int!@a g:[Int]}",
    "type T{\"d\" f:Int \"\"\"d\"\"\" type:T}",
    "type T{f(a:Int):Int}",
    "type T{f(a:Int=1@b,\"d\" c:[Int!]!={}):Int@d}",
    "type T implements A@a{f:Int}",
    "interface T",
    "\"d\" interface T",
    "interface T implements A",
    "interface T implements &A&B",
    "interface T@a",
    "interface T{f:Int}",
    "interface T implements A@a{f(a:Int):Int}",
    "union U",
    "\"d\" union U",
    "union U@a",
    "union U=A",
    "union U=|A",
    "union U=A|B",
    "union U=|A|B",
    "union U@a=A|union",
    "enum E",
    "\"d\" enum E",
    "enum E@a",
    "enum E{A}",
    "enum E{A B}",
    "enum E@a{\"d\" A@b(c:1) on}",
    "input I",
    "\"d\" input I",
    "input I@a",
    "input I{a:Int}",
    "input I@a{a:Int=1@b \"d\" input:[I!]!={a:2}}",
    "directive@a on FIELD",
    "\"d\" directive@a on FIELD",
    "directive @a on|FIELD",
    "directive @a on FIELD|QUERY",
    "directive @a repeatable on FIELD",
    "directive @repeatable repeatable on|FIELD|ENUM_VALUE|INPUT_FIELD_DEFINITION",
    "directive @a(b:Int) on SCHEMA",
    "directive @on(b:Int=1@c \"d\" e:E=F)repeatable on VARIABLE_DEFINITION|OBJECT",
];

/// Extensions, with each part and without.
static EXTENSIONS: [&str; 26] = [
    "extend schema@a",
    "extend schema{query:Q}",
    "extend schema@a@b{query:Q mutation:M}",
    "extend scalar S@a",
    "extend scalar S@a@b(c:1)",
    "extend type T implements A",
    "extend type T implements&A&B",
    "extend type T@a",
    "extend type T{f:Int}",
    "extend type T implements A@a{\"d\" f(a:Int=1):Int@b}",
    "extend interface T implements A",
    "extend interface T implements&A&B",
    "extend interface T@a",
    "extend interface T{f:Int}",
    "extend interface T implements A@a{f:Int}",
    "extend union U@a",
    "extend union U=A",
    "extend union U=|A|B",
    "extend union U@a=A",
    "extend enum E@a",
    "extend enum E{A}",
    "extend enum E@a{\"d\" A@b B}",
    "extend input I@a",
    "extend input I{a:Int}",
    "extend input I@a{\"d\" a:Int=1@b c:Int}",
    "extend type extend{extend:extend}",
];

#[test]
fn definitions_stand_where_they_are_spelled(rt: HostRuntime) {
    assert!(rt; are_counted(rt.alloc(), &COUNTED));
}

#[test]
fn each_part_is_read(rt: HostRuntime) {
    assert!(rt; are_single(rt.alloc(), &OPERATIONS));
    assert!(rt; are_single(rt.alloc(), &VALUES));
    assert!(rt; are_single(rt.alloc(), &TYPES));
    assert!(rt; are_single(rt.alloc(), &EXTENSIONS));
}
