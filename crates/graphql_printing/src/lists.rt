//! Lists of what is written, one after the other.
ghost use Rattle.std.specs.Prelude.{ℕ, List};
ghost use Rattle.std.specs.Fmt.{WritesOnOk};
ghost use Rattle.graphql_printing.specs.Layout.{braces, each_behind, enclosed, line_end, on_lines, separated};

use crate::layout::{further_in, write_line_end};
use std::fmt;
use std::fmt::{Formatter, Write};

/// What is written in lists.
pub(crate) trait Written {
    /// Its text, where it stands further in by so many blanks.
    ghost text: { ℕ → Self → List ℕ };

    /// Writes it, where it stands further in by so many blanks. The error is a sink's, or too many blanks.
    fn write<W: Write>(&self, f: &mut Formatter<W>, indent: usize) -> fmt::Result
        ensures { WritesOnOk W.write_str_gives f.old result (text indent self.now) f.new };
}

/// Writes items, each behind a separator.
pub(crate) fn write_each_behind<T: Written, W: Write>(
    f: &mut Formatter<W>,
    separator: &str,
    items: &[T],
    indent: usize,
) -> fmt::Result
    ensures { WritesOnOk W.write_str_gives f.old result (each_behind separator.now (T.text indent) items.now)
        f.new }
{
    for item in items {
        f.write_str(separator)?;
        item.write(f, indent)?;
    }
    Ok(())
}

/// Writes items with a separator between each two.
pub(crate) fn write_separated<T: Written, W: Write>(
    f: &mut Formatter<W>,
    separator: &str,
    items: &[T],
    indent: usize,
) -> fmt::Result
    ensures { WritesOnOk W.write_str_gives f.old result (separated separator.now (T.text indent) items.now)
        f.new }
{
    let [first, others @ ..] = items else {
        return Ok(());
    };
    first.write(f, indent)?;
    write_each_behind(f, separator, others, indent)
}

/// Writes items with a separator between each two, between an opening and a closing, or nothing where there
/// is none.
pub(crate) fn write_enclosed<T: Written, W: Write>(
    f: &mut Formatter<W>,
    opening: &str,
    separator: &str,
    closing: &str,
    items: &[T],
    indent: usize,
) -> fmt::Result
    ensures { WritesOnOk W.write_str_gives f.old result
        (enclosed opening.now separator.now closing.now (T.text indent) items.now) f.new }
{
    if items.is_empty() {
        return Ok(());
    }
    f.write_str(opening)?;
    write_separated(f, separator, items, indent)?;
    f.write_str(closing)
}

/// Writes items, each behind a line end.
fn write_each_line<T: Written, W: Write>(
    f: &mut Formatter<W>,
    items: &[T],
    indent: usize,
) -> fmt::Result
    ensures { WritesOnOk W.write_str_gives f.old result
        (each_behind (line_end indent) (T.text indent) items.now) f.new }
{
    for item in items {
        write_line_end(f, indent)?;
        item.write(f, indent)?;
    }
    Ok(())
}

/// Writes items, each on a line of its own and further in by two, between an opening and a closing. Where
/// there is no item, it writes nothing. The error is a sink's, or too many blanks.
pub(crate) fn write_on_lines<T: Written, W: Write>(
    f: &mut Formatter<W>,
    opening: &str,
    closing: &str,
    items: &[T],
    indent: usize,
) -> fmt::Result
    ensures { WritesOnOk W.write_str_gives f.old result
        (on_lines opening.now closing.now indent T.text items.now) f.new }
{
    if items.is_empty() {
        return Ok(());
    }
    let inner = further_in(indent)?;
    f.write_str(opening)?;
    write_each_line(f, items, inner)?;
    write_line_end(f, indent)?;
    f.write_str(closing)
}

/// Writes items on lines between an opening and its `}`, or nothing where there is none.
pub(crate) fn write_braces<T: Written, W: Write>(
    f: &mut Formatter<W>,
    opening: &str,
    items: &[T],
    indent: usize,
) -> fmt::Result
    ensures { WritesOnOk W.write_str_gives f.old result (braces opening.now indent T.text items.now) f.new }
{
    write_on_lines(f, opening, "}", items, indent)
}
