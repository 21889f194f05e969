//! Values that a call changes, or leaves as they are where memory is refused.

use crate::stop::{Stop, Told, expect};
use std::alloc::{AllocError, Global};
use telling::Tell;

/// A call that changes a value.
pub trait Change<T> {
    /// Makes the call. When memory runs out it is `Memory`, if what the call hands back is right.
    fn make(&self, alloc: Global, value: &mut T) -> Told;
}

/// What a call leaves as it was: how the value was written before, with room to write it once more without a
/// request for memory.
#[derive(Drop)]
struct Before {
    told: String,
    room: String,
}

fn remembered<T: Tell>(alloc: Global, value: &T) -> Result<Before, AllocError> {
    let mut told = String::new(alloc);
    value.tell(&mut told)?;
    let room = String::with_capacity(alloc, told.len())?;
    Ok(Before { told, room })
}

/// Whether a value is written as before.
fn is_as_before<T: Tell>(before: &mut Before, value: &T) -> bool {
    value.tell(&mut before.room).is_ok() && before.room.as_str() == before.told.as_str()
}

/// Tells a value before a call and after it.
fn tell_changed<T: Tell>(text: &mut String, before: &str, value: &T) -> Result<(), AllocError> {
    write!(text, "was {before}\nis ")?;
    value.tell(text)?;
    text.push_str("\n")
}

/// Changes a value, of which there is a copy: the copy is as it was. When memory runs out so is the value,
/// and it can be changed then.
fn make_change<T: Tell + PartialEq, C: Change<T>>(
    alloc: Global,
    text: &mut String,
    before: &mut Before,
    value: &mut T,
    copy: &T,
    change: &C,
) -> Told {
    match change.make(alloc, value) {
        Ok(()) => {
            expect(is_as_before(before, copy), "its copy was changed")?;
            Ok(tell_changed(text, before.told.as_str(), value)?)
        }
        Err(Stop::Memory) => {
            let is_unchanged = *value == *copy && is_as_before(before, value);
            expect(is_unchanged, "it was changed")?;
            change.make(alloc, value)?;
            Err(Stop::Memory)
        }
        Err(wrong) => Err(wrong),
    }
}

/// Changes a value, and tells it as it was and as it is.
pub fn try_change<T: Tell + Clone + PartialEq + Drop, C: Change<T>>(
    alloc: Global,
    text: &mut String,
    value: T,
    call: &C,
) -> Told {
    let mut value = value;
    let copy = value.clone()?;
    let mut before = remembered(alloc, &value)?;
    make_change(alloc, text, &mut before, &mut value, &copy, call)
}
