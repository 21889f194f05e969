//! Writing a text.
ghost use Rattle.std.specs.Prelude.{OnErr, OnOk};
ghost use Rattle.std.specs.Io.{WritesAtMost};
ghost use Rattle.std.specs.Io.KnownBytes.{Appends, WriteAppends};
ghost use Rattle.program_io.specs.Writing.{IsBegun};

use std::io::{self, ErrorKind, Write};

/// Writes all of a text, and has it written through. The error is the writer's, after which a beginning of
/// the text is written.
pub fn write_out<O: Write>(output: &mut O, text: &str) -> io::Result<()>
    ensures written { OnOk result (Appends (O.contents output.old) (O.contents output.new) text.now) }
    ensures begun { OnErr result (IsBegun text.now (O.contents output.old) (O.contents output.new)) }
{
    write_text(output, text)?;
    output.flush()
}

/// Writes all of a text. The error is the writer's, after which a beginning of the text is written.
pub fn write_text<O: Write>(output: &mut O, text: &str) -> io::Result<()>
    ensures written { OnOk result (Appends (O.contents output.old) (O.contents output.new) text.now) }
    ensures begun { OnErr result (IsBegun text.now (O.contents output.old) (O.contents output.new)) }
{
    let mut left = text.as_bytes();
    while !left.is_empty() {
        let count = write_some(output, left)?;
        if count == 0 {
            return Err(io::Error::from(ErrorKind::WriteZero));
        }
        left = &left[count..];
    }
    Ok(())
}

/// Writes some of these bytes, and answers how many. A write that a signal interrupts is tried again.
fn write_some<O: Write>(output: &mut O, bytes: &[u8]) -> io::Result<usize>
    ensures bound { WritesAtMost result bytes.now }
    ensures bytes { WriteAppends (O.contents output.old) (O.contents output.new) result bytes.now }
{
    for _ in 0..u64::MAX {
        match output.write(bytes) {
            Ok(count) => return Ok(count),
            Err(error) => {
                if error.kind() != ErrorKind::Interrupted {
                    return Err(error);
                }
            }
        }
    }
    Err(io::Error::from(ErrorKind::Interrupted))
}
