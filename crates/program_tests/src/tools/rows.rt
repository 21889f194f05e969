//! Runs of `gqlrows`: rows that are refused, the report on rows that differ, and files and streams that fail.

use crate::over_notation::failing::FailingReader;
use gqlrows_run::row::read_rows;
use gqlrows_run::running::run_rows;
use program_io::status::Status;
use std::io::{BufWriter, ErrorKind, Read, Write};
use std::process::Abort;
use std::rt::Files;
use std::test::Fail;

/// A text of one row, which is as it says.
const ROW: &str = "* nothing\n$ schema\n";

/// Expects a run over these files or this reader to end so, to write this and to say this.
fn expect<R: Read + Drop>(
    rt: &(impl Abort + Files + AllocGlobal),
    files: &[String],
    reader: R,
    status: Status,
    written: &str,
    said: &str,
) {
    let (mut output, mut errors) = (Vec::new(rt.alloc()), Vec::new(rt.alloc()));
    let ended = run_rows(rt, files, reader, &mut output, &mut errors);
    assert_eq!(rt; ended, status);
    assert_eq!(rt; output.as_slice(), written.as_bytes());
    assert_eq!(rt; errors.as_slice(), said.as_bytes());
}

#[test]
fn rows_that_cannot_be_read(rt: HostRuntime) -> Result<(), Fail> {
    // The whole text is read before a line is tested.
    for text in [ROW, "foo\n"] {
        for (kind, status, said) in [
            (
                ErrorKind::BrokenPipe,
                Status::Refused,
                "cannot read input\n",
            ),
            (ErrorKind::OutOfMemory, Status::Exhausted, "out of memory\n"),
        ] {
            let reader = FailingReader {
                bytes: text.as_bytes(),
                kind,
            };
            expect(&rt, &[], reader, status, "", said);
        }
    }
    let files = [String::from_str(rt.alloc(), "missing.rows")?];
    let said = "missing.rows: cannot read input\n";
    expect(&rt, &files, ROW.as_bytes(), Status::Refused, "", said);
    Ok(())
}

#[test]
fn lines_that_are_refused(rt: HostRuntime) {
    for (text, said) in [
        ("foo\n", "line 1: unknown line\n"),
        ("* a\n$\tb\n", "line 2: unknown line\n"),
        ("* a\n< b\n\\ \n", "line 3: unknown line\n"),
        ("#a\n\n? 7\n", "line 3: no title above\n"),
        ("* a\n? 5\n", "line 2: no status\n"),
        ("* a\n< b\n\n\\\n", "line 4: no line of input above\n"),
        ("* a\n* b\n* a\n", "line 3: a second row of the title `a`\n"),
    ] {
        expect(&rt, &[], text.as_bytes(), Status::Refused, "", said);
    }
}

#[test]
fn texts_after_another(rt: HostRuntime) -> Result<(), Fail> {
    let alloc = rt.alloc();
    for (text, said) in [
        ("# b\n* a\n", "b: line 2: a second row of the title `a`"),
        ("$ schema\n", "b: line 1: no title above"),
    ] {
        let mut rows = Vec::new(alloc);
        read_rows(alloc, "a: ", "* a\n", &mut rows)?;
        let refused = read_rows(alloc, "b: ", text, &mut rows).expect_err(&rt, "not refused");
        assert_eq!(rt; refused.to_string(alloc)?.as_str(), said);
    }
    Ok(())
}

#[test]
fn rows_that_differ(rt: HostRuntime) {
    let text =
        "* a\n$ schema\n* b\n$ schema\n< def object T\n\\\n> T\n! said\n? 1\n? 0\n* c\n? 2\n";
    let report =
        "* b\n# status\n? 0\n# output\n> def object T\n# errors\n* c\n# errors\n! usage: gqltool schema \
[--adopt] [--ignore-builtin] | doc | walk | leaf | coord TEXT\n3 rows, 2 differ\n";
    expect(&rt, &[], text.as_bytes(), Status::Faults, report, "");
}

/// Expects a report not to be written, and that to be said, but where nothing can be said.
fn expect_unwritten<W: Write>(rt: &(impl Abort + Files + AllocGlobal), output: &mut W) {
    let mut errors = Vec::new(rt.alloc());
    let ended = run_rows(rt, &[], ROW.as_bytes(), output, &mut errors);
    assert_eq!(rt; ended, Status::NotWritten);
    assert_eq!(rt; errors.as_slice(), "cannot write output\n".as_bytes());
}

#[test]
fn reports_that_cannot_be_written(rt: HostRuntime) -> Result<(), Fail> {
    let mut room = [0; 5];
    let mut full: &mut [u8] = &mut [];
    expect_unwritten(&rt, &mut full);
    let mut short: &mut [u8] = &mut room;
    expect_unwritten(&rt, &mut short);
    // It fails when it is flushed.
    let mut held = BufWriter::new(rt.alloc(), full)?;
    expect_unwritten(&rt, &mut held);
    Ok(())
}

#[test]
fn error_writers_that_fail_change_no_status_of_rows(rt: HostRuntime) {
    for (text, status) in [("foo\n", Status::Refused), (ROW, Status::NotWritten)] {
        let mut room = [0; 3];
        let mut output: &mut [u8] = &mut [];
        let mut errors: &mut [u8] = &mut room;
        let ended = run_rows(&rt, &[], text.as_bytes(), &mut output, &mut errors);
        assert_eq!(rt; ended, status);
    }
}
