//! The keys that tables and sets hash by, and their hasher.
//!
//! Whoever knows the keys can make names that all get one hash. A table of such names takes a time that grows
//! with their square. So a table of names from strangers is given keys that nobody can foretell. The hasher
//! is std's `FoldHasher` with both of its numbers taken from the keys. Each step multiplies two words, each
//! joined with a secret one. Of a text of at most eight bytes these are the text and its length. So without
//! the keys no two texts can be chosen that collide under many of them.
ghost use Rattle.std.specs.Prelude.{◌≡◌, ◌+◌, ◌≤◌, length};
ghost use Rattle.std.specs.Hash.FoldHasher as folding;
ghost use Rattle.graphql_nodes.specs.KeyedHash as keyed;

use std::hash::{BuildHasher, Hasher};
use std::random::RandomSource;
use std::{fmt, io};

/// What a table or set hashes by, and keeps through clones. Answers and orders never depend on it, and what
/// contracts see of a table or set leaves it out.
#[derive(Clone, Copy, PartialEq, Eq)]
pub struct HashKeys {
    start: u64,
    factor: u64,
}

impl HashKeys {
    /// The keys of a table that is given none: the same in each run. They serve wherever names are one's own.
    pub const FIXED: HashKeys = HashKeys {
        start: 0x243f_6a88_85a3_08d3,
        factor: 0x9e37_79b9_7f4a_7c15,
    };

    /// The keys of sixteen bytes that the source gives, as the runtime does. They serve servers and whoever
    /// else takes names from strangers: nobody can foretell them.
    ///
    /// The error is the source's own, where it gives no bytes. Whoever then goes on with [`HashKeys::FIXED`]
    /// goes on without protection.
    pub fn drawn<S: RandomSource>(source: &S) -> io::Result<HashKeys> {
        let mut bytes = [0; 16];
        source.fill_bytes(&mut bytes)?;
        Ok(HashKeys::from_bytes(bytes))
    }

    /// The keys that these bytes are, eight for each of the two words, the lowest first. They serve keys that
    /// are known beforehand, as in tests; where names come from strangers, [`HashKeys::drawn`] serves.
    pub fn from_bytes(bytes: [u8; 16]) -> HashKeys
        ensures start { result.start ≡ folding.read_u64 bytes 0 }
        ensures factor { result.factor ≡ folding.read_u64 bytes 8 }
    {
        HashKeys {
            start: read_u64(&bytes, 0),
            factor: read_u64(&bytes, 8),
        }
    }
}

impl fmt::Debug for HashKeys {
    fn fmt<W: fmt::Write>(&self, f: &mut fmt::Formatter<W>) -> fmt::Result {
        f.debug_struct("HashKeys").finish_non_exhaustive()
    }
}

impl BuildHasher for HashKeys {
    type Hasher = KeyedHasher;

    ghost build_hasher = { λ keys. record { state = keys.start; factor = keys.factor } };

    fn build_hasher(&self) -> KeyedHasher {
        KeyedHasher {
            state: self.start,
            factor: self.factor,
        }
    }
}

/// A hash in the making, under keys.
#[derive(Clone, Copy)]
pub struct KeyedHasher {
    state: u64,
    factor: u64,
}

impl Hasher for KeyedHasher {
    ghost write = { keyed.write };

    ghost finish = { λ hasher. hasher.state };

    fn finish(&self) -> u64 {
        self.state
    }

    fn write(&mut self, bytes: &[u8]) {
        let len = bytes.len();
        if len <= 8 {
            self.state = folded_multiply(
                self.state ^ read_short(bytes),
                self.factor ^ (2 * len as u64),
            );
            return;
        }
        let factor = self.factor;
        let mut state = self.state.wrapping_add(len as u64);
        let mut at = 0;
        while len - at > 16 {
            state = mix(bytes, state, factor, at, at + 8);
            at += 16;
        }
        self.state = mix(bytes, state, factor, len.saturating_sub(16), len - 8);
    }
}

/// The two halves of the 128 bits of a product, joined.
fn folded_multiply(left: u64, right: u64) -> u64
    ensures { result ≡ folding.folded_multiply left right }
{
    let product = left as u128 * right as u128;
    (product & 0xFFFF_FFFF_FFFF_FFFF) as u64 ^ (product >> 64) as u64
}

/// The state after the words at two places.
fn mix(bytes: &[u8], state: u64, factor: u64, first: usize, second: usize) -> u64
    requires first { first + 8 ≤ length bytes.now }
    requires second { second + 8 ≤ length bytes.now }
    ensures { result ≡ keyed.mix factor bytes.now state first second }
{
    folded_multiply(
        read_u64(bytes, first) ^ state,
        read_u64(bytes, second) ^ factor,
    )
}

/// The four bytes from a place on, the lowest first.
fn read_u32(bytes: &[u8], at: usize) -> u64
    requires { at + 4 ≤ length bytes.now }
    ensures { result ≡ folding.read_u32 bytes.now at }
{
    u32::from_le_bytes([bytes[at], bytes[at + 1], bytes[at + 2], bytes[at + 3]]) as u64
}

/// The eight bytes from a place on, the lowest first.
fn read_u64(bytes: &[u8], at: usize) -> u64
    requires { at + 8 ≤ length bytes.now }
    ensures { result ≡ folding.read_u64 bytes.now at }
{
    read_u32(bytes, at) | read_u32(bytes, at + 4) << 32
}

/// Up to eight bytes as one number, by reads that may overlap.
fn read_short(bytes: &[u8]) -> u64
    ensures { result ≡ folding.read_short bytes.now }
{
    let len = bytes.len();
    if len >= 4 {
        read_u32(bytes, 0) | read_u32(bytes, len - 4) << 32
    } else if len > 0 {
        bytes[0] as u64 | (bytes[len / 2] as u64) << 8 | (bytes[len - 1] as u64) << 16
    } else {
        0
    }
}
