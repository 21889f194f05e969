//! How wide texts are, in UTF-16 units.
ghost use Rattle.std.specs.Prelude.{◌≡◌, ◌+◌, ◌-◌, min, nat_lt};
ghost use Rattle.graphql_printing.specs.Widths.{units, width};

use std::fmt::{self, Write};

/// One more than the 80 that no text in one line may pass: how wide a text is beyond that makes no
/// difference.
const ENOUGH: usize = 81;

/// How many UTF-16 units the character has whose first byte this is.
fn units(byte: u8) -> usize
    ensures { result ≡ units byte }
{
    match byte {
        0..=127 => 1,
        128..=191 => 0,
        192..=239 => 1,
        _ => 2,
    }
}

/// Whether a text has more UTF-16 units.
pub(crate) fn is_wider(text: &[u8], most: usize) -> bool
    ensures { result ≡ nat_lt most (width text.now) }
{
    let mut left = most;
    for byte in text {
        let size = units(*byte);
        if size > left {
            return true;
        }
        left -= size;
    }
    false
}

/// How many UTF-16 units a text takes that is not too wide.
fn capped_width(text: &[u8], most: usize) -> usize
    ensures { result ≡ min most (width text.now) }
{
    let mut left = most;
    for byte in text {
        left -= units(*byte).min(left);
    }
    most - left
}

/// A sink that keeps nothing but how wide the text is, up to `ENOUGH`.
#[derive(Clone, Copy)]
pub(crate) struct Width {
    pub(crate) units: usize,
}

impl Write for Width {
    ghost write_str_gives = { λ before text after. after.units
        ≡ before.units + min (81 - before.units) (width text) };

    fn write_str(&mut self, s: &str) -> fmt::Result {
        let room = ENOUGH.saturating_sub(self.units);
        self.units += capped_width(s.as_bytes(), room);
        Ok(())
    }
}
