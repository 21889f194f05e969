//! Texts as people are shown them.
ghost use Rattle.std.specs.Prelude.{◌≡◌, Some};
ghost use Rattle.std.specs.Fmt.{WritesOnOk};
ghost use Rattle.graphql_nodes.specs.VisibleTexts as spec;
ghost use Rattle.graphql_nodes.specs.VisibleTexts.{visible};

use std::fmt;
use std::fmt::{Formatter, Write};

/// A text, to be shown to people.
///
/// `Display` is the text with U+FFFD in place of each control character other than tab. These are U+0000 to
/// U+001F and U+007F to U+009F. So a terminal shows the text and does nothing else. Each character stays one
/// character.
#[derive(Clone, Copy)]
pub struct VisibleText<'a> {
    pub text: &'a str,
}

/// A text, to be shown to people.
pub fn visible(text: &str) -> VisibleText<'_>
    ensures { result.text.now ≡ text.now }
{
    VisibleText { text }
}

/// A character as it is shown.
fn visible_char(character: char) -> char
    ensures { result ≡ spec.visible_char character }
{
    if character.is_control() && character != '\t' {
        '\u{fffd}'
    } else {
        character
    }
}

/// Writes a text as it is shown.
fn write_visible<W: Write>(f: &mut Formatter<W>, text: &str) -> fmt::Result
    ensures { WritesOnOk W.write_str_gives f.old result (visible text.now) f.new }
{
    for character in text.chars() {
        f.write_char(visible_char(character))?;
    }
    Ok(())
}

impl fmt::Display for VisibleText<'_> {
    ghost output = { λ it. Some (visible it.text.now) };

    fn fmt<W: Write>(&self, f: &mut Formatter<W>) -> fmt::Result {
        write_visible(f, self.text)
    }
}
