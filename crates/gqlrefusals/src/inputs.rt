//! The inputs of the scenarios, in the bench notation.

/// Documents of a schema, and behind `===` executable ones.
#[derive(Clone, Copy)]
pub struct Input {
    pub text: &'static str,
    /// Whether what is extended only is adopted.
    pub adopts: bool,
    /// The number that a source starts at, where one is handed to the builder.
    pub first: u64,
}

/// Extensions wherever they stand, and a directive definition, which comes first.
const EXTENDED: Input = Input {
    text: "\
ext object Query
field withArg String
field@ deprecated
arg arg Boolean
def object Query
field int Int
ext object Query
implements Inter
def interface Inter
field string String
ext object Query
@ customDirective
ext object Query
field string String
directive customDirective
on OBJECT
",
    adopts: false,
    first: 40,
};

/// A root in an extension that is dropped where the definition names it.
const ROOTED: Input = Input {
    text: "\
ext-schema
root query Query
ext-schema
root subscription S
schema
root mutation Mutation
root query AnotherQuery
def object Query
def object Mutation
def object S
def object AnotherQuery
",
    adopts: true,
    first: 40,
};

/// Each kind, with extensions, directives and faults, in three documents.
const KINDS: Input = Input {
    text: "\
directive d
repeatable
on SCALAR
directive deprecated
on OBJECT
def scalar Date
@ d
ext scalar Date
@ d
@ d
def object Query
@ d
implements Node
field id ID
field id Int
ext object Query
implements Named
field name [String!]!
arg first Int
ext interface Node
implements Named
field at Date
---
def interface Node
field id ID
def interface Named
field name String
def union Hit
@ d
member Query
ext union Hit
member Other
def enum Tone
value LOW
ext enum Tone
@ d
value HIGH
value LOW
---
def input Filter
field tone Tone
ext input Filter
field date Date
ext scalar String
@ d
ext object Left
field over Int
def scalar Date
ext-schema
@ d
root mutation Mutation
",
    adopts: false,
    first: 40,
};

/// The inputs that calls on schemas are made over.
pub static SCHEMAS: [Input; 3] = [EXTENDED, ROOTED, KINDS];

/// Selections that are not typable.
const UNTYPABLE: Input = Input {
    text: "\
def object Query
field id ID
field user User
def object User
field id ID
===
operation query -
sel 0 field id
sel 1 field x
sel 0 field user
sel 1 field nope
sel 0 inline Gone
sel 1 field a
sel 0 spread F
",
    adopts: false,
    first: 40,
};

/// A fragment that spreads itself, and a walk that starts in it.
const CYCLIC: Input = Input {
    text: "\
def object Query
field a Int
field b Int
field c Int
===
operation query -
sel 0 field a
sel 0 spread F
fragment F Query
sel 0 field b
sel 0 spread F
sel 0 field c
",
    adopts: false,
    first: 40,
};

/// Operations and fragments in several documents, with each sort of selection, and names that are there
/// already.
const SELECTED: Input = Input {
    text: "\
def object Query
field a Int
field more Query
field tone Tone
field@ deprecated
arg first Int
def enum Tone
value LOW
===
operation query One
sel 0 field more first
sel 1 inline
sel 2 field a
sel 1 inline Query
sel 2 field tone
sel 3 field gone
sel 1 spread F
---
operation mutation None
sel 0 field a
operation query One
sel 0 field a
operation query Two
sel 0 field a
sel 0 field more
sel 1 field a
sel 0 field tone
fragment F Query
sel 0 field more
sel 1 spread F
fragment F Gone
fragment G Gone
def scalar S
",
    adopts: false,
    first: 40,
};

/// The inputs that calls on executable documents are made over.
pub static DOCUMENTS: [Input; 3] = [UNTYPABLE, CYCLIC, SELECTED];

/// The schema that selections are made over.
pub static SERVED: [Input; 1] = [Input {
    text: "def object Query\nfield user User\ndef object User\nfield id ID\n",
    adopts: false,
    first: 0,
}];

/// What a scenario goes over that has no document.
pub static NONE: [Input; 1] = [Input {
    text: "",
    adopts: false,
    first: 0,
}];

/// Lists over a source that is spent, or nearly.
pub static SPENT: [Input; 7] = [
    Input {
        text: "def object T\next object T\nfield a Int\n",
        adopts: false,
        first: u64::MAX - 1,
    },
    Input {
        text: "def object T\next object T\nfield a Int\next object T\nfield b Int\n",
        adopts: false,
        first: u64::MAX - 1,
    },
    Input {
        text: "ext object T\n",
        adopts: false,
        first: u64::MAX,
    },
    Input {
        text: "ext object T\n",
        adopts: true,
        first: u64::MAX,
    },
    Input {
        text: "ext enum T\nvalue A\ndef object T\nfield x Int\n",
        adopts: false,
        first: u64::MAX,
    },
    Input {
        text: "directive d\non SCALAR\next scalar String\n@ d\n",
        adopts: false,
        first: u64::MAX,
    },
    Input {
        text: "def object Query\next-schema\n@ d\n",
        adopts: false,
        first: u64::MAX,
    },
];
