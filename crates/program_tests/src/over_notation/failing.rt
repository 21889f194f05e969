//! Readers and writers that fail.

use std::io::{self, Error, ErrorKind, Read, Write};

/// A reader that gives its bytes and then fails.
#[derive(Drop)]
pub struct FailingReader<'a> {
    pub bytes: &'a [u8],
    pub kind: ErrorKind,
}

impl<'a> Read for FailingReader<'a> {
    fn read(&mut self, buf: &mut [u8]) -> io::Result<usize> {
        if self.bytes.is_empty() {
            return Err(Error::from(self.kind));
        }
        self.bytes.read(buf)
    }
}

/// A writer that takes so many bytes, and then fails.
#[derive(Drop)]
pub struct FailingWriter {
    pub room: usize,
    pub fails_at_flush: bool,
}

impl Write for FailingWriter {
    fn write(&mut self, buf: &[u8]) -> io::Result<usize> {
        let n = buf.len().min(self.room);
        if n == 0 {
            return Err(Error::from(ErrorKind::BrokenPipe));
        }
        self.room -= n;
        Ok(n)
    }

    fn flush(&mut self) -> io::Result<()> {
        if self.fails_at_flush {
            return Err(Error::from(ErrorKind::BrokenPipe));
        }
        Ok(())
    }
}
