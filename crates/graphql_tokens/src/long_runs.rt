//! How many bytes at the front of a text are of a sort of which many may be: sixteen are looked at together.
ghost use Rattle.std.specs.Prelude.{◌≡◌, ◌≤◌, ℕ, Bool, length, nat_eq, nat_lt, not, take, IsTrue};
ghost use Rattle.std.specs.List.{prefix_len};

use std::simd::prelude::*;

/// How many bytes are looked at together.
const CHUNK: usize = 16;

/// A sort of bytes.
pub(crate) trait ByteSort {
    /// Whether a byte is of the sort.
    ghost test: { ℕ → Bool };

    /// Whether a byte is of the sort.
    fn has(byte: u8) -> bool
        ensures { result ≡ test byte };

    /// Whether all these are of the sort. It may say no where they are.
    fn has_all(bytes: u8x16) -> bool
        ensures { IsTrue result → prefix_len test bytes ≡ length bytes };
}

/// Whether no byte is below 32, as control characters, tabs and line ends are.
pub(crate) fn has_none_below_space(bytes: u8x16) -> bool
    ensures { IsTrue result → prefix_len (λ c. not (nat_lt c 32)) bytes ≡ length bytes }
{
    bytes.simd_lt(u8x16::splat(32)).to_bitmask() == 0
}

/// Whether no byte is this one.
pub(crate) fn has_none(bytes: u8x16, byte: u8) -> bool
    ensures { IsTrue result → prefix_len (λ c. not (nat_eq c byte)) bytes ≡ length bytes }
{
    bytes.simd_eq(u8x16::splat(byte)).to_bitmask() == 0
}

/// How many bytes at the front are of a sort.
fn run<S: ByteSort>(text: &[u8]) -> usize
    ensures same { result ≡ prefix_len S.test text.now }
    ensures within { result ≤ length text.now }
{
    text.iter().take_while(|byte| S::has(**byte)).count()
}

/// How many of the first sixteen bytes are of a sort, up to the first that is not.
fn chunk_run<S: ByteSort>(text: &[u8]) -> usize
    requires { 16 ≤ length text.now }
    ensures { result ≡ prefix_len S.test (take 16 text.now) }
{
    let chunk = &text[..CHUNK];
    if S::has_all(u8x16::from_slice(chunk)) {
        return CHUNK;
    }
    run::<S>(chunk)
}

/// How many bytes at the front are of a sort.
pub(crate) fn long_run<S: ByteSort>(text: &[u8]) -> usize
    ensures same { result ≡ prefix_len S.test text.now }
    ensures within { result ≤ length text.now }
{
    let mut at = 0;
    'chunks: while text.len() - at >= CHUNK {
        let found = chunk_run::<S>(&text[at..]);
        if found < CHUNK {
            return at + found;
        }
        at += CHUNK;
    }
    at + run::<S>(&text[at..])
}
