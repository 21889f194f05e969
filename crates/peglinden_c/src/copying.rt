//! Copying a text into the buffer of a caller.
ghost use Rattle.std.specs.Prelude.{Some};
ghost use Rattle.peglinden_c.specs.Buffers.{IsCopied};

use crate::opening::{DONE, SHORT};

/// Copies a text to the front of a buffer, if there is room for all of it, and says how long it is.
pub(crate) fn copy_text(text: &str, buffer: &mut [u8], needed: &mut usize) -> i32
    ensures { IsCopied (Some text.now) result buffer.old buffer.new needed.new }
{
    let bytes = text.as_bytes();
    *needed = bytes.len();
    if buffer.len() < bytes.len() {
        return SHORT;
    }
    let (front, _) = buffer.split_at_mut(bytes.len());
    front.copy_from_slice(bytes);
    DONE
}
