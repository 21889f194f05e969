//! Places of a list that are marked.
ghost use Rattle.std.specs.Prelude.{◌≡◌, ◌<◌, ◌≤◌, ℕ, OnOk, length, nat_eq, slice_index_or, if◌then◌else◌};
ghost use Rattle.std.specs.Prelude.{true, false};

use std::alloc::AllocError;

/// Whether a place is marked. One past the end is not.
pub(crate) fn is_marked(flags: &[bool], place: usize) -> bool
    ensures { result ≡ slice_index_or flags.now place false }
{
    place < flags.len() && flags[place]
}

/// Makes room for so many places, of which those are marked that were so. The error is that memory ran out.
pub(crate) fn make_room(flags: &mut Vec<bool>, len: usize) -> Result<(), AllocError>
    ensures room { OnOk result (len ≤ length flags.new.items) }
    ensures marks { (k : ℕ) → slice_index_or flags.new.items k false
        ≡ slice_index_or flags.old.items k false }
{
    if flags.len() < len {
        flags.resize(len, false)?;
    }
    Ok(())
}

/// Marks a place.
pub(crate) fn mark(flags: &mut Vec<bool>, place: usize)
    requires { place < length flags.old.items }
    ensures { (k : ℕ) → slice_index_or flags.new.items k false
        ≡ (if nat_eq place k then true else slice_index_or flags.old.items k false) }
{
    flags[place] = true;
}
