//! Names that come again in a text, which share one block of memory.
ghost use Rattle.std.specs.Prelude.{◌≡◌, IfOk, None};

use crate::collections::hash_keys::HashKeys;
use crate::name::Name;
use crate::name_text::NameText;
use std::alloc::{AllocError, Global};
use std::hash::BuildHasher;
use std::rc::Rc;

/// How many bytes of text there are to a slot, how many slots a short text has, and how many a long one.
const BYTES_PER_SLOT: usize = 32;

const FEWEST_SLOTS: usize = 16;

const MOST_SLOTS: usize = 65536;

/// The text of a name that was seen, and its hash, which tells most others from it without a look at it.
#[derive(Drop)]
struct Seen {
    hash: u64,
    text: Rc<NameText>,
}

/// Texts of names that were seen. A text has a slot by its hash, and the first of a slot keeps it. So a name
/// takes one look, whatever names there are.
#[derive(Drop)]
pub struct SeenNames {
    slots: Vec<Option<Seen>>,
}

impl SeenNames {
    /// No name, and room for those of a text of so many bytes. The error is out of memory.
    pub fn new(alloc: Global, bytes: usize) -> Result<SeenNames, AllocError> {
        let count = (bytes / BYTES_PER_SLOT).max(FEWEST_SLOTS).min(MOST_SLOTS);
        let mut slots = Vec::with_capacity(alloc, count)?;
        slots.resize_with(count, || None)?;
        Ok(SeenNames { slots })
    }

    /// The slot of a hash. It goes by the upper half of the hash, times the number of slots, since a division
    /// takes long.
    fn place(&self, hash: u64) -> usize {
        ((hash >> 32).wrapping_mul(self.slots.len() as u64) >> 32) as usize
    }

    /// A name with this text, whatever it is, and no location. It shares its text with one that was seen, if
    /// the slot of the text holds it. The error is out of memory.
    pub fn name(&mut self, alloc: Global, text: &str) -> Result<Name, AllocError>
        ensures { IfOk result (λ name. name ≡ record { text = text.now; location = None }) }
    {
        let hash = HashKeys::FIXED.hash_one(text);
        let place = self.place(hash);
        let Some(slot) = self.slots.get_mut(place) else {
            return Name::new_unchecked(alloc, text);
        };
        match slot {
            Some(seen) if seen.hash == hash && seen.text.as_str() == text => Ok(Name {
                shared: seen.text.clone()?,
                location: None,
            }),
            Some(_) => Name::new_unchecked(alloc, text),
            None => {
                let name = Name::new_unchecked(alloc, text)?;
                *slot = Some(Seen {
                    hash,
                    text: name.shared.clone()?,
                });
                Ok(name)
            }
        }
    }
}
