//! Writers that fail.

use crate::for_people::rows::ended;
use program_io::status::Status;
use std::io::{self, Error, ErrorKind, Write};

/// A writer that takes so many bytes, and then fails in this way.
#[derive(Drop)]
struct FailingWriter {
    room: usize,
    kind: ErrorKind,
}

impl Write for FailingWriter {
    fn write(&mut self, buf: &[u8]) -> io::Result<usize> {
        let taken = buf.len().min(self.room);
        if taken == 0 {
            return Err(Error::from(self.kind));
        }
        self.room -= taken;
        Ok(taken)
    }

    fn flush(&mut self) -> io::Result<()> {
        Ok(())
    }
}

/// A closed pipe is no message, and any other failure is one.
#[test]
fn output_that_fails(rt: HostRuntime) {
    for (room, kind, said) in [
        (0, ErrorKind::BrokenPipe, ""),
        (9, ErrorKind::BrokenPipe, ""),
        (
            0,
            ErrorKind::PermissionDenied,
            "error: cannot write output: permission denied\n",
        ),
        (
            9,
            ErrorKind::PermissionDenied,
            "error: cannot write output: permission denied\n",
        ),
    ] {
        let mut output = FailingWriter { room, kind };
        let mut errors = Vec::new(rt.alloc());
        let words = ["schema", "twice.graphql"];
        let status = ended(rt.alloc(), &words, b"", &mut output, &mut errors);
        assert_eq!(rt; errors.as_slice(), said.as_bytes());
        assert_eq!(rt; status, Status::NotWritten);
    }
}

/// That something can't be said changes nothing.
#[test]
fn errors_that_fail(rt: HostRuntime) {
    for (words, status) in [
        (&["schema", "twice.graphql"], Status::Faults),
        (&["schema", "nowhere.graphql"], Status::Refused),
        (&["schema", "--mistaken"], Status::Refused),
    ] {
        let mut output = Vec::new(rt.alloc());
        let mut errors = FailingWriter {
            room: 3,
            kind: ErrorKind::BrokenPipe,
        };
        let ended = ended(rt.alloc(), words, b"", &mut output, &mut errors);
        assert_eq!(rt; ended, status);
    }
}
