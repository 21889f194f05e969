//! Standard input among the files.

use crate::for_people::rows::{FILES, ended, expect};
use graphql_nodes::collections::hash_keys::HashKeys;
use peglinden_run::running::run;
use program_io::in_memory::FilesInMemory;
use program_io::replaced_in_memory::ReplacedInMemory;
use program_io::status::Status;
use std::io::{self, Error, ErrorKind, Read};
use std::test::Fail;

/// A document that isn't, beside a file that isn't there.
const NO_DOCUMENTS: &str = "error: expected a definition, found `}`
  --> -:1:1
   |
 1 | }
   | ^

error: cannot read `nowhere.graphql`: entity not found

2 faults
";

/// Standard input is a document where it is named, or is refused as a file is.
#[test]
fn standard_input_is_a_file(rt: HostRuntime) -> Result<(), Fail> {
    let fields = "query\n  Query.book 1\n  Book.title 1\n";
    let not_text = "error: cannot read `-`: not UTF-8\n\n1 fault\n";
    let rows: [(&str, &[u8], (Status, &str, &str)); 4] = [
        (
            "fields --schema store.graphql -",
            b"{ book { title } }",
            (Status::Done, fields, ""),
        ),
        (
            "format - nowhere.graphql",
            b"}",
            (Status::Refused, "", NO_DOCUMENTS),
        ),
        ("format -", b"\xff", (Status::Refused, "", not_text)),
        (
            "format open.graphql",
            b"}",
            (Status::Done, "scalar Date\n", ""),
        ),
    ];
    for (words, input, outcome) in rows {
        expect(&rt, words, input, outcome)?;
    }
    Ok(())
}

/// Standard input is named once: twice is a mistake in the words.
#[test]
fn standard_input_twice_is_refused(rt: HostRuntime) {
    let words = ["check", "--schema", "-", "-"];
    let mut output = Vec::new(rt.alloc());
    let mut errors = Vec::new(rt.alloc());
    let status = ended(rt.alloc(), &words, b"", &mut output, &mut errors);
    assert_eq!(rt; status, Status::Refused);
    assert!(rt; output.is_empty());
    assert!(rt; errors.starts_with(b"error: standard input (`-`) can be named once"));
}

/// A reader that can't be read.
#[derive(Drop)]
struct ClosedReader;

impl Read for ClosedReader {
    fn read(&mut self, _buf: &mut [u8]) -> io::Result<usize> {
        Err(Error::from(ErrorKind::PermissionDenied))
    }
}

/// Standard input that can't be read is reported beside the other files that can't be.
#[test]
fn standard_input_fails(rt: HostRuntime) {
    let mut output = Vec::new(rt.alloc());
    let mut errors = Vec::new(rt.alloc());
    let status = run(
        rt.alloc(),
        HashKeys::FIXED,
        &["format", "nowhere.graphql", "-"],
        &FilesInMemory(&FILES),
        &mut ReplacedInMemory(Vec::new(rt.alloc())),
        &mut ClosedReader,
        &mut output,
        &mut errors,
    );
    let said =
        "error: cannot read `nowhere.graphql`: entity not found\n\nerror: cannot read `-`: permission denied\n\n2 faults\n";
    assert_eq!(rt; errors.as_slice(), said.as_bytes());
    assert_eq!(rt; status, Status::Refused);
}
