//! Files that are refused, and files of strange texts.

use crate::for_people::rows::{expect_done, expect_faults, expect_refused};
use std::test::Fail;

/// A file that isn't there, beside one whose text is refused.
const BROKEN_AND_MISSING: &str = "error: expected a type, found `}`
  --> broken.graphql:2:9
   |
 2 |   book: }
   |         ^

error: cannot read `nowhere.graphql`: entity not found

2 faults
";

/// Each file that is refused is reported, wherever it stands among the others.
#[test]
fn each_refused_file_is_reported(rt: HostRuntime) -> Result<(), Fail> {
    expect_refused(
        &rt,
        &[
            (
                "schema nowhere.graphql",
                "error: cannot read `nowhere.graphql`: entity not found\n\n1 fault\n",
            ),
            (
                "schema first.graphql store.graphql last.graphql",
                "error: cannot read `first.graphql`: entity not found\n\nerror: cannot read `last.graphql`: entity not found\n\n2 faults\n",
            ),
            (
                "format bytes.graphql",
                "error: cannot read `bytes.graphql`: not UTF-8\n\n1 fault\n",
            ),
            (
                "check --schema broken.graphql nowhere.graphql",
                BROKEN_AND_MISSING,
            ),
        ],
    )
}

/// Of an empty file.
const NO_DEFINITION: &str = "error: expected a definition, found the end of the text
  --> empty.graphql:1:1
   |
 1 | 
   | ^

1 fault
";

/// An empty file is no document, a last line needs no end, and lines end in any way.
#[test]
fn strange_texts(rt: HostRuntime) -> Result<(), Fail> {
    expect_refused(&rt, &[("format empty.graphql", NO_DEFINITION)])?;
    let query = "type Query {\n  a: Int\n}\n";
    expect_done(
        &rt,
        &[
            ("format open.graphql", "scalar Date\n"),
            ("schema lines.graphql", query),
        ],
    )?;
    let changed = "lines.graphql\n";
    expect_faults(
        &rt,
        &[("format --check open.graphql lines.graphql", changed, "")],
    )
}
