//! What says nothing between tokens: GraphQL specification of October 2021, sections 2.1.1 to 2.1.5.
ghost use Rattle.std.specs.Prelude.{◌≡◌, ◌≤◌, length};
ghost use Rattle.std.specs.List.{prefix_len};
ghost use Rattle.graphql_tokens.specs.Bytes.{is_blank, is_control, is_line_end};
ghost use Rattle.graphql_tokens.specs.Ignored.{begins_with_mark, ignored, is_of_comment, one_ignored};

use crate::long_runs::{ByteSort, has_none_below_space, long_run};
use crate::pieces::{Piece, pieces};
use std::simd::prelude::*;

/// Whether a byte is a line feed or a carriage return.
pub(crate) fn is_line_end(byte: u8) -> bool
    ensures { result ≡ is_line_end byte }
{
    byte == b'\n' || byte == b'\r'
}

/// Whether a byte is a blank, a comma or of a line end.
fn is_blank(byte: u8) -> bool
    ensures { result ≡ is_blank byte }
{
    byte == b' ' || byte == b'\t' || byte == b',' || is_line_end(byte)
}

/// Whether a byte is a control character that stands nowhere in a text.
pub(crate) fn is_control(byte: u8) -> bool
    ensures { result ≡ is_control byte }
{
    byte < b' ' && byte != b'\t' && !is_line_end(byte)
}

/// Whether a byte may stand in a comment.
fn is_of_comment(byte: u8) -> bool
    ensures { result ≡ is_of_comment byte }
{
    !is_line_end(byte) && !is_control(byte)
}

/// The bytes that may stand in a comment.
struct OfComment;

impl ByteSort for OfComment {
    ghost test = { is_of_comment };

    fn has(byte: u8) -> bool {
        is_of_comment(byte)
    }

    #[tactic(auto, using(crate::proofs::RunLemmas::whole_comment))]
    fn has_all(bytes: u8x16) -> bool {
        has_none_below_space(bytes)
    }
}

/// How many bytes at the front may stand in a comment.
fn comment_bytes(text: &[u8]) -> usize
    ensures same { result ≡ prefix_len is_of_comment text.now }
    ensures within { result ≤ length text.now }
{
    long_run::<OfComment>(text)
}

/// Whether the byte order mark stands at the front.
fn begins_with_mark(text: &[u8]) -> bool
    ensures { result ≡ begins_with_mark text.now }
{
    match text {
        [0xEF, 0xBB, 0xBF, ..] => true,
        _ => false,
    }
}

/// Blanks, commas, line ends, comments and byte order marks.
struct Ignorable;

impl Piece for Ignorable {
    ghost size = { one_ignored };

    fn single(_text: &[u8]) -> usize {
        0
    }

    fn size(text: &[u8]) -> usize {
        match text {
            [] => 0,
            [byte, ..] if is_blank(*byte) => 1,
            [b'#', rest @ ..] => comment_bytes(rest) + 1,
            _ if begins_with_mark(text) => 3,
            _ => 0,
        }
    }
}

/// How many bytes of a blank, a byte order mark or a comment stand at the front.
pub(crate) fn one_ignored(text: &[u8]) -> usize
    ensures same { result ≡ one_ignored text.now }
    ensures within { result ≤ length text.now }
{
    Ignorable::size(text)
}

/// How many bytes at the front say nothing.
pub(crate) fn ignored(text: &[u8]) -> usize
    ensures same { result ≡ ignored text.now }
    ensures within { result ≤ length text.now }
{
    pieces::<Ignorable>(text)
}
