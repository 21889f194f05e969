//! Names, each of which shares its text with one that was read before, where that is still kept.
ghost use Rattle.std.specs.Prelude.{◌≡◌, IfErr, IfOk, OnOk};
ghost use Rattle.graphql_nodes.specs.NameSyntax.{IsName};
ghost use Rattle.bench_notation.specs.Line.{IsNameAt};
ghost use Rattle.bench_notation.specs.Refusals.{WhenRefused};

use crate::refusal::{LineError, Reason};
use graphql_nodes::name::Name;
use graphql_nodes::source::SourceSpan;
use graphql_nodes::take_apart;
use std::alloc::{AllocError, Global};

/// How many names are kept at most: so few that they stay near in memory.
const MOST_NAMES: usize = 4096;

/// A name that is kept, with the hash of its text.
struct Kept {
    hash: u64,
    name: Name,
    ghost is_name: { ¬ ¬ IsName name.text },
}

impl Drop for Kept {
    fn drop(self) {
        take_apart!(self: hash, name);
    }
}

/// The names that are kept. Each has a place that goes by its text, and the first name of that place keeps
/// it.
pub struct Names {
    places: Vec<Option<Kept>>,
}

impl Drop for Names {
    fn drop(self) {
        take_apart!(self: places);
    }
}

impl Names {
    /// Room for about this many names, none of which is kept yet. The error is out of memory.
    pub fn new(alloc: Global, count: usize) -> Result<Names, AllocError> {
        let count = count.min(MOST_NAMES);
        let mut places = Vec::with_capacity(alloc, count)?;
        places.resize_with(count, || None)?;
        Ok(Names { places })
    }

    /// The allocator of the names.
    pub fn alloc(&self) -> Global {
        *self.places.allocator()
    }

    /// The name that a word is, at this location. A word that is no name is refused as a bad word; `Memory`
    /// is out of memory, and says nothing of the word.
    pub fn read(&mut self, word: &str, location: SourceSpan) -> Result<Name, LineError>
        ensures text { IfOk result (λ name. name.text ≡ word.now) }
        ensures name { IfOk result (IsNameAt location) }
        ensures refused { IfErr result (WhenRefused (¬ IsName word.now)) }
    {
        Ok(self.shared(word)?.with_location(location))
    }

    /// The name that a word is, which is kept from now on if its place is free. What is kept was looked
    /// at before.
    fn shared(&mut self, word: &str) -> Result<Name, LineError>
        ensures text { IfOk result (λ name. name.text ≡ word.now) }
        ensures name { OnOk result (IsName word.now) }
        ensures refused { IfErr result (WhenRefused (¬ IsName word.now)) }
    {
        let alloc = self.alloc();
        let hash = hash_of(word);
        let index = index_of(hash, self.places.len());
        let Some(place) = self.places.get_mut(index) else {
            return new_name(alloc, word);
        };
        match place {
            Some(kept) if kept.hash == hash && kept.name.as_str() == word => {
                Ok(kept.name.clone()?)
            }
            Some(_) => new_name(alloc, word),
            None => {
                let name = new_name(alloc, word)?;
                *place = Some(Kept {
                    hash,
                    name: name.clone()?,
                });
                Ok(name)
            }
        }
    }
}

/// The name that a word is, with a text of its own. A word that is no name is a bad word.
fn new_name(alloc: Global, word: &str) -> Result<Name, LineError>
    ensures text { IfOk result (λ name. name.text ≡ word.now) }
    ensures name { OnOk result (IsName word.now) }
    ensures refused { IfErr result (WhenRefused (¬ IsName word.now)) }
{
    if !Name::is_valid_syntax(word) {
        return Err(LineError::Refused(Reason::BadWord));
    }
    Ok(Name::new_unchecked(alloc, word)?)
}

/// A hash of a word. Of a long one it takes the length, the first byte and the last four, by which names
/// mostly differ.
fn hash_of(word: &str) -> u64 {
    let bytes = word.as_bytes();
    let mut hash = bytes.len() as u64;
    match bytes {
        [first, .., a, b, c, d] => {
            let last = u32::from_le_bytes([*a, *b, *c, *d]);
            hash = mixed(hash, u64::from(*first) << 32 | u64::from(last));
        }
        _ => {
            for byte in bytes {
                hash = mixed(hash, u64::from(*byte));
            }
        }
    }
    hash
}

/// A hash with a number mixed in (Fibonacci hashing).
fn mixed(hash: u64, number: u64) -> u64 {
    (hash.rotate_left(5) ^ number).wrapping_mul(0x9e37_79b9_7f4a_7c15)
}

/// Where a word of this hash has its place among this many.
fn index_of(hash: u64, count: usize) -> usize {
    ((hash >> 32).wrapping_mul(count as u64) >> 32) as usize
}
