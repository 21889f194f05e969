//! Bytes of strings and block strings that say themselves: GraphQL specification of October 2021, section
//! 2.9.4.
ghost use Rattle.std.specs.Prelude.{◌≡◌, ◌≤◌, length, IsTrue};
ghost use Rattle.std.specs.List.{prefix_len};
ghost use Rattle.graphql_tokens.specs.BlockStringValues.{is_plain_in_block};
ghost use Rattle.graphql_tokens.specs.StringValues.{is_plain};

use crate::ignored::{is_control, is_line_end};
use crate::long_runs::{ByteSort, has_none, has_none_below_space, long_run};
use std::simd::prelude::*;

/// Whether no byte is a quote, a `\` or below 32.
#[tactic(auto, using(crate::proofs::RunLemmas::whole_string, crate::proofs::RunLemmas::whole_block))]
fn are_plain(bytes: u8x16) -> bool
    ensures string { IsTrue result → prefix_len is_plain bytes ≡ length bytes }
    ensures block { IsTrue result → prefix_len is_plain_in_block bytes ≡ length bytes }
{
    has_none_below_space(bytes) && has_none(bytes, b'"') && has_none(bytes, b'\\')
}

/// Whether a byte of a string says itself.
fn is_plain(byte: u8) -> bool
    ensures { result ≡ is_plain byte }
{
    byte != b'"' && byte != b'\\' && !is_line_end(byte) && !is_control(byte)
}

/// The bytes of strings that say themselves.
struct Plain;

impl ByteSort for Plain {
    ghost test = { is_plain };

    fn has(byte: u8) -> bool {
        is_plain(byte)
    }

    fn has_all(bytes: u8x16) -> bool {
        are_plain(bytes)
    }
}

/// How many bytes at the front of a string say themselves.
pub(crate) fn plain_bytes(text: &[u8]) -> usize
    ensures same { result ≡ prefix_len is_plain text.now }
    ensures within { result ≤ length text.now }
{
    long_run::<Plain>(text)
}

/// Whether a byte of a block string says itself, whatever follows it.
fn is_plain_in_block(byte: u8) -> bool
    ensures { result ≡ is_plain_in_block byte }
{
    byte != b'"' && byte != b'\\' && !is_control(byte)
}

/// The bytes of block strings that say themselves.
struct PlainInBlock;

impl ByteSort for PlainInBlock {
    ghost test = { is_plain_in_block };

    fn has(byte: u8) -> bool {
        is_plain_in_block(byte)
    }

    fn has_all(bytes: u8x16) -> bool {
        are_plain(bytes)
    }
}

/// How many bytes at the front of a block string say themselves, whatever follows them.
pub(crate) fn plain_block_bytes(text: &[u8]) -> usize
    ensures same { result ≡ prefix_len is_plain_in_block text.now }
    ensures within { result ≤ length text.now }
{
    long_run::<PlainInBlock>(text)
}
