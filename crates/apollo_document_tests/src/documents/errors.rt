//! Each fault that a document can have: its text, and its copy.

use crate::documents::building::{Seen, View, over};
use crate::documents::inputs::expect;
use likeness::is_copied;
use std::alloc::AllocError;
use std::test::Fail;

/// The texts of the faults, each with whether it has an equal copy.
#[derive(Drop)]
struct Faults;

impl View for Faults {
    fn view(&self, seen: &Seen<'_>, text: &mut String) -> Result<(), AllocError> {
        for fault in seen.faults {
            let error = &fault.1;
            let is_copied = is_copied(error);
            write!(text, "{error}: {is_copied}\n")?;
        }
        Ok(())
    }
}

/// A document with a fault of each sort.
const FAULTY: &str = "\
def object Query
field a Int
field color Color
def enum Color
value RED
===
operation query Q
sel 0 field a
sel 1 field x
sel 0 field color
sel 1 field x
sel 0 field zz
sel 0 inline Gone
sel 1 field a
operation query -
sel 0 field a
operation query Q
sel 0 field a
operation mutation M
sel 0 field a
fragment F Query
fragment F Query
fragment G Gone
sel 0 field a
def object T
";

/// Their texts.
const TEXTS: &str = "\
field selection of scalar type `Int` must not have subselections: true
field selection of enum type `Color` must not have subselections: true
type `Query` does not have a field `zz`: true
type condition `Gone` of inline fragment is not a type defined in the schema: true
anonymous operation cannot be selected when the document contains other operations: true
the operation `Q` is defined multiple times in the document: true
`mutation` root operation type is not defined: true
the fragment `F` is defined multiple times in the document: true
type condition `Gone` of fragment `G` is not a type defined in the schema: true
an executable document must not contain an object type definition: true
";

#[test]
fn faults_have_their_texts_and_copies(rt: HostRuntime) -> Result<(), Fail> {
    expect(&rt, &over(Faults), &[(FAULTY, TEXTS)])
}
