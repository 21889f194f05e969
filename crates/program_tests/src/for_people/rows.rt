//! What runs are expected to do. What a run promises stands in its contract. Here nothing is promised, so
//! that no test carries it along.

use graphql_nodes::collections::hash_keys::HashKeys;
use peglinden_run::running::run;
use program_io::in_memory::FilesInMemory;
use program_io::input::BytesInMemory;
use program_io::replaced_in_memory::ReplacedInMemory;
use program_io::status::Status;
use std::alloc::Global;
use std::io::Write;
use std::process::Abort;
use std::test::Fail;

/// The files of the runs: a schema and documents over it, one with a fault, and a schema with one. Also texts
/// of every sort, one of them in a file whose name has a control character.
pub static FILES: [(&str, &[u8]); 11] = [
    ("store.graphql", STORE),
    ("page.graphql", PAGE),
    ("faulty.graphql", FAULTY),
    (
        "twice.graphql",
        b"type Book { title: String }\ntype Book { price: Int }\n",
    ),
    ("parts.graphql", PARTS),
    ("broken.graphql", b"type Query {\n  book: }\n"),
    ("bytes.graphql", b"type Query { a: Int }\xff"),
    ("empty.graphql", b""),
    ("open.graphql", b"scalar Date"),
    ("\x1b[31m.graphql", b"scalar  Date"),
    ("lines.graphql", b"type Query {\r\n  a: Int\r\n}\r\n"),
];

const STORE: &[u8] = b"type Query {
  book: Book
}

type Book {
  title: String
}
";

const PAGE: &[u8] = b"query Page {
  book {
    title
  }
}
";

const FAULTY: &[u8] = b"query Page {
  book {
    pages
  }
}
";

/// One of each that a coordinate points to.
const PARTS: &[u8] = b"directive @shown(where: Place) on FIELD

type Book {
  \"What it costs.\"
  price(in: Money = EURO): Int
}

enum Money {
  EURO
}

input Place {
  shelf: Int = 1
}
";

/// How a run over these files and this input ends, which replaces no file.
pub fn ended<O: Write, E: Write>(
    alloc: Global,
    words: &[&str],
    input: &[u8],
    output: &mut O,
    errors: &mut E,
) -> Status {
    let files = FilesInMemory(&FILES);
    let mut writer = ReplacedInMemory(Vec::new(alloc));
    let mut reader = BytesInMemory(input);
    run(
        alloc,
        HashKeys::FIXED,
        words,
        &files,
        &mut writer,
        &mut reader,
        output,
        errors,
    )
}

/// Expects a run on these words, with a blank between two, to end so, to write this and to say that.
pub fn expect(
    rt: &(impl Abort + AllocGlobal),
    words: &str,
    input: &[u8],
    outcome: (Status, &str, &str),
) -> Result<(), Fail> {
    let words: Vec<&str> = words.split(' ').collect(rt.alloc())?;
    let mut output = Vec::new(rt.alloc());
    let mut errors = Vec::new(rt.alloc());
    let status = ended(
        rt.alloc(),
        words.as_slice(),
        input,
        &mut output,
        &mut errors,
    );
    assert_eq!(rt; errors.as_slice(), outcome.2.as_bytes());
    assert_eq!(rt; output.as_slice(), outcome.1.as_bytes());
    assert_eq!(rt; status, outcome.0);
    Ok(())
}

/// Expects runs on these words to write this, with nothing at fault.
pub fn expect_done(rt: &(impl Abort + AllocGlobal), rows: &[(&str, &str)]) -> Result<(), Fail> {
    for (words, output) in rows {
        expect(rt, *words, b"", (Status::Done, *output, ""))?;
    }
    Ok(())
}

/// Expects runs on these words to write this and to say that, with something at fault.
pub fn expect_faults(
    rt: &(impl Abort + AllocGlobal),
    rows: &[(&str, &str, &str)],
) -> Result<(), Fail> {
    for (words, output, errors) in rows {
        expect(rt, *words, b"", (Status::Faults, *output, *errors))?;
    }
    Ok(())
}

/// Expects runs on these words to be refused, and to say this.
pub fn expect_refused(rt: &(impl Abort + AllocGlobal), rows: &[(&str, &str)]) -> Result<(), Fail> {
    for (words, errors) in rows {
        expect(rt, *words, b"", (Status::Refused, "", *errors))?;
    }
    Ok(())
}
