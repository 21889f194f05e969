//! Answers of `walk` that go out in pieces.

use crate::over_notation::running::{answer_on, ended, expect_run};
use program_io::input::BytesInMemory;
use program_io::status::Status;
use std::alloc::{AllocError, Global};
use std::io::{self, Error, ErrorKind, Write};
use std::test::Fail;

/// So many fields, of which each has two lines of the answer: these are a few pieces of it.
const FIELDS: usize = 20_000;

/// A query of many fields.
fn long_query(alloc: Global) -> Result<String, AllocError> {
    let fields = "sel 0 field a\n".repeat(alloc, FIELDS)?;
    let mut text = String::new(alloc);
    text.push_str("def object Query\nfield a Int\n===\noperation query -\n")?;
    text.push_str(fields.as_str())?;
    Ok(text)
}

/// What `walk` says of that query.
fn long_answer(alloc: Global) -> Result<String, AllocError> {
    let root = "root a\n".repeat(alloc, FIELDS)?;
    let all = "all a\n".repeat(alloc, FIELDS)?;
    let mut text = String::new(alloc);
    text.push_str("walk operation query -\n")?;
    text.push_str(root.as_str())?;
    text.push_str("root-turns 20001\n")?;
    text.push_str(all.as_str())?;
    text.push_str("all-turns 20001\n")?;
    Ok(text)
}

/// Whether `walk` answers this on the input, without fault.
fn is_answered(alloc: Global, input: &str, expected: &str) -> bool {
    match answer_on(alloc, &["walk"], input.as_bytes()) {
        Ok(answer) => answer.text.as_str() == expected && !answer.has_faults,
        Err(_) => false,
    }
}

#[test]
fn a_long_walk_is_written_to_its_end(rt: HostRuntime) -> Result<(), Fail> {
    let input = long_query(rt.alloc())?;
    let expected = long_answer(rt.alloc())?;
    let mut reader = BytesInMemory(input.as_bytes());
    expect_run(
        &rt,
        &["walk"],
        &mut reader,
        Status::Done,
        expected.as_str(),
        "",
    );
    // And it is answered as one text.
    assert!(rt; is_answered(rt.alloc(), input.as_str(), expected.as_str()));
    Ok(())
}

/// A writer that takes so many bytes, and then fails.
#[derive(Drop)]
struct LimitedWriter {
    bytes: Vec<u8>,
    limit: usize,
}

impl Write for LimitedWriter {
    fn write(&mut self, buf: &[u8]) -> io::Result<usize> {
        let room = self.limit.saturating_sub(self.bytes.len());
        if room == 0 {
            return Err(Error::from(ErrorKind::BrokenPipe));
        }
        self.bytes.write(&buf[..buf.len().min(room)])
    }

    fn flush(&mut self) -> io::Result<()> {
        Ok(())
    }
}

/// More than one piece of the answer, and less than two.
const LIMIT: usize = 70_000;

#[test]
fn a_long_walk_that_is_cut_short_is_a_beginning_of_the_answer(rt: HostRuntime) -> Result<(), Fail> {
    let input = long_query(rt.alloc())?;
    let expected = long_answer(rt.alloc())?;
    let mut reader = BytesInMemory(input.as_bytes());
    let mut written = LimitedWriter {
        bytes: Vec::new(rt.alloc()),
        limit: LIMIT,
    };
    let mut said = Vec::new(rt.alloc());
    let ended = ended(rt.alloc(), &["walk"], &mut reader, &mut written, &mut said);
    assert_eq!(rt; ended, Status::NotWritten);
    assert_eq!(rt; written.bytes.len(), LIMIT);
    assert!(rt; expected.as_bytes().starts_with(written.bytes.as_slice()));
    assert_eq!(rt; said.as_slice(), "cannot write output\n".as_bytes());
    Ok(())
}
