//! The lines of a text, the words of a line, and what a word begins or ends with.
ghost use Rattle.std.specs.Prelude.{◌≡◌, ◌≢◌, ◌<◌, ◌≤◌, ◌∷◌, ◌++◌, ℕ, List, length, IfOk, MatchOption};
ghost use Rattle.bench_notation.specs.Line.{bytes_left, lines_of, pieces_left, texts_of, words_of};

use std::alloc::{AllocError, Global};

/// The lines of a text, which stand between its line feeds: so the last one is empty where the text ends with
/// a line feed. The error is out of memory.
pub fn lines_of(alloc: Global, text: &str) -> Result<Vec<&str>, AllocError>
    ensures { IfOk result (λ lines. texts_of lines.items ≡ lines_of text.now) }
{
    let mut lines = Vec::new(alloc);
    let mut left = Some(text);
    while let Some(rest) = left {
        let (line, behind) = first_line(rest);
        lines.push(line)?;
        left = behind;
    }
    Ok(lines)
}

/// The first line of a text, and what stands behind its line feed, if it has one.
fn first_line<'a>(text: &'a str) -> (&'a str, Option<&'a str>)
    ensures lines { lines_of text.now ≡ result.0.now ∷ pieces_left 10 result.1 }
    ensures shorter { bytes_left result.1 ≤ length text.now }
{
    for (at, byte) in text.as_bytes().iter().enumerate() {
        if *byte == b'\n' {
            return (&text[..at], Some(&text[at + 1..]));
        }
    }
    (text, None)
}

/// The first line of a text, and what stands behind its line feed, if it has one. Takes the words of that
/// line, which stand between its spaces, instead of those that were there. The error is out of memory.
pub(crate) fn take_words<'a>(
    words: &mut Vec<&'a str>,
    text: &'a str,
) -> Result<(&'a str, Option<&'a str>), AllocError>
    ensures lines { IfOk result (λ both. lines_of text.now ≡ both.0.now ∷ pieces_left 10 both.1) }
    ensures words { IfOk result (λ both. texts_of words.new.items ≡ words_of both.0.now) }
    ensures shorter { IfOk result (λ both. bytes_left both.1 ≤ length text.now) }
{
    words.clear();
    let mut from = 0;
    for (at, byte) in text.as_bytes().iter().enumerate() {
        // A letter ends nothing: one look shows that.
        if *byte <= b' ' {
            if *byte == b'\n' {
                words.push(&text[from..at])?;
                return Ok((&text[..at], Some(&text[at + 1..])));
            }
            if *byte == b' ' {
                words.push(&text[from..at])?;
                from = at + 1;
            }
        }
    }
    words.push(&text[from..])?;
    Ok((text, None))
}

/// What follows a byte, which is an ASCII character, in a text that begins with it, and none in any other.
pub(crate) fn after<'a>(text: &'a str, first: u8) -> Option<&'a str>
    requires { first < 128 }
    ensures { MatchOption result ((rest : List ℕ)
        → text.now ≢ first ∷ rest) (λ rest. text.now ≡ first ∷ rest.now) }
{
    match text.as_bytes() {
        [byte, ..] if *byte == first => Some(&text[1..]),
        _ => None,
    }
}

/// What comes before `suffix` in a text that ends with it, and none in any other.
pub fn before<'a>(text: &'a str, suffix: &str) -> Option<&'a str>
    ensures { MatchOption result ((front : List ℕ) → text.now ≢ front ++ suffix.now) (λ front. text.now
        ≡ front.now ++ suffix.now) }
{
    text.strip_suffix(suffix)
}
