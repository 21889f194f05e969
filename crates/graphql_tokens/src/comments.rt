//! Whether a text has comments: GraphQL specification of October 2021, section 2.1.4.
ghost use Rattle.std.specs.Prelude.{◌≡◌, ◌<◌, length};
ghost use Rattle.graphql_tokens.specs.Comments.{Passes, has_comment};

use crate::ignored::one_ignored;
use crate::lexemes::first_token;

/// Whether a comment stands in a text. Where the text has something wrong, what stands before it counts.
pub fn has_comment(text: &str) -> bool
    ensures { result ≡ has_comment text.now }
{
    let bytes = text.as_bytes();
    let mut at = 0;
    'pieces: while at < bytes.len() {
        match passed(&bytes[at..]) {
            Ok(size) => at += size,
            Err(answer) => return answer,
        }
    }
    false
}

/// How many bytes has what stands at the front, where that is no comment. The error is whether it is one;
/// else no token stands there.
fn passed(text: &[u8]) -> Result<usize, bool>
    requires { 0 < length text.now }
    ensures { Passes text.now result }
{
    if text[0] == b'#' {
        return Err(true);
    }
    let size = one_ignored(text);
    if size != 0 {
        return Ok(size);
    }
    match first_token(text) {
        Ok(found) => Ok(found.size),
        Err(_) => Err(false),
    }
}
