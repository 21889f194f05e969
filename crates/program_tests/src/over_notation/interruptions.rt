//! Streams that a signal interrupts before each of their calls: each call is made again.

use crate::over_notation::running::ended;
use program_io::status::Status;
use std::io::{self, Error, ErrorKind, Read, Write};

/// So many bytes at most go through at once.
const FEW: usize = 5;

/// Bytes to read, a few at once, and before each few an interruption.
#[derive(Drop)]
struct InterruptedReader<'a> {
    bytes: &'a [u8],
    is_interrupted: bool,
}

impl<'a> Read for InterruptedReader<'a> {
    fn read(&mut self, buf: &mut [u8]) -> io::Result<usize> {
        self.is_interrupted = !self.is_interrupted;
        if self.is_interrupted {
            return Err(Error::from(ErrorKind::Interrupted));
        }
        let few = buf.len().min(FEW);
        self.bytes.read(&mut buf[..few])
    }
}

/// Bytes that are written, a few at once, and before each few an interruption.
#[derive(Drop)]
struct InterruptedWriter {
    bytes: Vec<u8>,
    is_interrupted: bool,
}

impl Write for InterruptedWriter {
    fn write(&mut self, buf: &[u8]) -> io::Result<usize> {
        self.is_interrupted = !self.is_interrupted;
        if self.is_interrupted {
            return Err(Error::from(ErrorKind::Interrupted));
        }
        let few = buf.len().min(FEW);
        self.bytes.write(&buf[..few])
    }

    fn flush(&mut self) -> io::Result<()> {
        Ok(())
    }
}

#[test]
fn what_is_interrupted_is_done_again(rt: HostRuntime) {
    for (word, text, status, output, errors) in [
        (
            "schema",
            "def object T\nfield a Int\n",
            Status::Done,
            "def object T\nfield a Int\n",
            "",
        ),
        (
            "walk",
            "def object Query\nfield a Int\n===\noperation query -\nsel 0 field a\n",
            Status::Done,
            "walk operation query -\nroot a\nroot-turns 2\nall a\nall-turns 2\n",
            "",
        ),
        (
            "schema",
            "foo\n",
            Status::Refused,
            "",
            "line 1: unknown line\n",
        ),
    ] {
        let mut reader = InterruptedReader {
            bytes: text.as_bytes(),
            is_interrupted: false,
        };
        let mut written = InterruptedWriter {
            bytes: Vec::new(rt.alloc()),
            is_interrupted: false,
        };
        let mut said = InterruptedWriter {
            bytes: Vec::new(rt.alloc()),
            is_interrupted: false,
        };
        let ended = ended(rt.alloc(), &[word], &mut reader, &mut written, &mut said);
        assert_eq!(rt; ended, status);
        assert_eq!(rt; written.bytes.as_slice(), output.as_bytes());
        assert_eq!(rt; said.bytes.as_slice(), errors.as_bytes());
    }
}
