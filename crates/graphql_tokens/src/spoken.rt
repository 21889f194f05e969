//! What characters say, one after the other.
ghost use Rattle.std.specs.Prelude.{◌≡◌, ◌++◌, ◌≤◌, ℕ, List, length, string_bytes, IfOk};
ghost use Rattle.graphql_tokens.specs.Texts.{bytes_left, left_says};

use std::alloc::{AllocError, Global};

/// A sort of characters of which texts are made.
pub(crate) trait Says {
    /// What the characters at the front of a text say, up to what is none.
    ghost say: { List ℕ → List ℕ };

    /// Adds what one character or more say that stand at the front. Answers what stands behind them, and
    /// nothing where no character stands there. The error is out of memory.
    fn push<'a>(value: &mut String, text: &'a str) -> Result<Option<&'a str>, AllocError>
        ensures said { IfOk result (λ left. string_bytes value.old ++ say text.now
            ≡ string_bytes value.new ++ left_says say left) }
        ensures shorter { IfOk result (λ left. bytes_left left ≤ length text.now) };
}

/// What the characters at the front say. The error is out of memory.
pub(crate) fn spoken<S: Says>(alloc: Global, text: &str) -> Result<String, AllocError>
    ensures { IfOk result (λ value. string_bytes value ≡ S.say text.now) }
{
    let mut value = String::with_capacity(alloc, text.len())?;
    let mut left = Some(text);
    'characters: while let Some(rest) = left {
        left = S::push(&mut value, rest)?;
    }
    Ok(value)
}
