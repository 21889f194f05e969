//! Tests of texts that are read: their tokens, the values of strings, and their trees.

/// Whether what is given of each text is what is said beside it.
macro_rules! each_gives {
    ($rows:expr; $text:ident => $given:expr) => {{
        for ($text, expected) in $rows {
            if $given.as_str() != *expected {
                return Ok(false);
            }
        }
        Ok(true)
    }};
}

mod refusals;
mod shown;
mod tokens;
mod told;
mod trees;
mod values;
