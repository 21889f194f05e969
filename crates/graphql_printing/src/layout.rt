//! How lines are put together.
ghost use Rattle.std.specs.Prelude.{◌≡◌, ◌+◌, IfOk, replicate};
ghost use Rattle.std.specs.Fmt.{WritesOnOk};
ghost use Rattle.graphql_printing.specs.Layout.{line_end};

use std::fmt;
use std::fmt::{Formatter, Write};

/// A line feed and 64 blanks.
const LINE_END: &str = "\n                                                                ";

/// Writes a line feed, and so many blanks.
pub(crate) fn write_line_end<W: Write>(f: &mut Formatter<W>, indent: usize) -> fmt::Result
    ensures { WritesOnOk W.write_str_gives f.old result (line_end indent) f.new }
{
    let first = indent.min(64);
    f.write_str(&LINE_END[..first + 1])?;
    write_blanks(f, indent - first)
}

fn write_blanks<W: Write>(f: &mut Formatter<W>, count: usize) -> fmt::Result
    ensures { WritesOnOk W.write_str_gives f.old result (replicate count 32) f.new }
{
    let mut left = count;
    while left > 0 {
        let next = left.min(64);
        f.write_str(&LINE_END[1..next + 1])?;
        left -= next;
    }
    Ok(())
}

/// Two blanks more, if a `usize` can say so.
pub(crate) fn further_in(indent: usize) -> Result<usize, fmt::Error>
    ensures { IfOk result (λ inner. inner ≡ indent + 2) }
{
    indent.checked_add(2).ok_or(fmt::Error)
}
