//! Values as people are shown them.
ghost use Rattle.std.specs.Prelude.{◌≡◌, option_map};
ghost use Rattle.std.specs.Fmt.{DisplaysOnOk, HasWritten, IsPlainFormatter};
ghost use Rattle.std.specs.Str.{IsUtf8};
ghost use Rattle.graphql_nodes.specs.VisibleTexts.{visible};

use graphql_nodes::take_apart;
use graphql_nodes::visible_text::visible;
use std::fmt;
use std::fmt::{Display, Formatter, Write};

/// A value, to be shown to people: `Display` is its own, as [`visible`] shows it. It takes no memory.
pub(crate) struct VisibleValue<'a, D> {
    value: &'a D,
}

impl<D> Drop for VisibleValue<'_, D> {
    fn drop(self) {
        take_apart!(self: value);
    }
}

/// A value, to be shown to people.
pub(crate) fn visible_value<D: Display>(value: &D) -> VisibleValue<'_, D>
    ensures { result.value.now ≡ value.now }
{
    VisibleValue { value }
}

impl<D: Display> Display for VisibleValue<'_, D> {
    ghost output = { λ it. option_map visible (D.output it.value.now) };

    fn fmt<W: Write>(&self, f: &mut Formatter<W>) -> fmt::Result {
        write_visible(f, self.value)
    }
}

/// A writer that writes on a formatter, as it is shown, what is written on it.
#[derive(Drop)]
struct VisibleWriter<'a, W> {
    under: &'a mut Formatter<W>,
}

impl<W: Write> Write for VisibleWriter<'_, W> {
    ghost write_str_gives = { λ before text after. (after.under.ghost_name ≡ before.under.ghost_name)
        × IsUtf8 text
        × (IsPlainFormatter before.under.now
        → HasWritten W.write_str_gives before.under.now (visible text) after.under.now) };

    fn write_str(&mut self, s: &str) -> fmt::Result {
        write!(self.under, "{}", visible(s))
    }
}

/// Writes a value as it is shown.
fn write_visible<W: Write, D: Display>(f: &mut Formatter<W>, value: &D) -> fmt::Result
    ensures { DisplaysOnOk W.write_str_gives f.old result (option_map visible (D.output value.now)) f.new }
{
    let mut inner = Formatter::new(VisibleWriter { under: f });
    let written = value.fmt(&mut inner);
    let VisibleWriter { under } = inner.into_inner();
    // No effect at run time. The proof reads what `f` holds from this use of `under`.
    let _ = &*under;
    written
}
