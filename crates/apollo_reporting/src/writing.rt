//! What lines of reports are made of.
ghost use Rattle.std.specs.Prelude.{◌≡◌, ◌≤◌, ◌+◌, decimal, length};
ghost use Rattle.std.specs.Fmt.{WritesOnOk};
ghost use Rattle.std.specs.List.{repeat};
ghost use Rattle.apollo_reporting.specs.Excerpts.{pad};
ghost use Rattle.apollo_reporting.specs.Reports.{line_begin};

use graphql_nodes::line_column::begins_char;
use std::fmt;
use std::fmt::{Formatter, Write};

/// Writes a text so many times.
pub(crate) fn write_times<W: Write>(f: &mut Formatter<W>, text: &str, count: usize) -> fmt::Result
    ensures { WritesOnOk W.write_str_gives f.old result (repeat count text.now) f.new }
{
    for _ in 0..count {
        f.write_str(text)?;
    }
    Ok(())
}

/// Writes what stands under these bytes: a tab under each tab, and a blank under each other character.
pub(crate) fn write_pad<W: Write>(f: &mut Formatter<W>, before: &[u8]) -> fmt::Result
    ensures { WritesOnOk W.write_str_gives f.old result (pad before.now) f.new }
{
    for byte in before {
        if *byte == b'\t' {
            f.write_str("\t")?;
        } else if begins_char(*byte) {
            f.write_str(" ")?;
        }
    }
    Ok(())
}

/// How many digits a number has.
pub(crate) fn number_width(number: usize) -> usize
    ensures width { result ≡ length (decimal number) }
    ensures short { result ≤ number + 1 }
{
    if number < 10 {
        1
    } else {
        1 + number_width(number / 10)
    }
}

/// Writes what a line without number begins with, beside numbers of so many digits.
#[tactic(auto, unfolding(crate::specs::Reports::line_begin))]
pub(crate) fn write_line_begin<W: Write>(f: &mut Formatter<W>, width: usize) -> fmt::Result
    ensures { WritesOnOk W.write_str_gives f.old result (line_begin width) f.new }
{
    f.write_str(" ")?;
    write_times(f, " ", width)
}
