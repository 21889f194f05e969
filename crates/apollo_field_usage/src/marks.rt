//! Places of a list that are marked.
ghost use Rattle.std.specs.Prelude.{◌≡◌, ◌<◌, ℕ, true, false, IfOk};
ghost use Rattle.std.specs.Prelude.{length, nat_eq, slice_index_or, if◌then◌else◌};

use std::alloc::{AllocError, Global};

/// So many places, none of which is marked. The error is that memory ran out.
pub(crate) fn no_marks(alloc: Global, len: usize) -> Result<Vec<bool>, AllocError>
    ensures len { IfOk result (λ marks. length marks.items ≡ len) }
    ensures none { IfOk result (λ marks. (k : ℕ) → slice_index_or marks.items k false ≡ false) }
{
    let mut marks = Vec::new(alloc);
    marks.resize(len, false)?;
    Ok(marks)
}

/// Marks a place.
pub(crate) fn mark(marks: &mut Vec<bool>, place: usize)
    requires { place < length marks.old.items }
    ensures len { length marks.new.items ≡ length marks.old.items }
    ensures marked { (k : ℕ) → slice_index_or marks.new.items k false
        ≡ (if nat_eq place k then true else slice_index_or marks.old.items k false) }
{
    marks[place] = true;
}
