//! The order of what is found.
ghost use Rattle.std.specs.Prelude.{OnOk};
ghost use Rattle.std.specs.List.Sorted.{IsPermutation, IsSortedBy};
ghost use Rattle.named_files.specs.Naming.{is_before};

use crate::found::Found;
use std::alloc::AllocError;

/// Puts what is found in the order of the paths, by their bytes. The error is out of memory.
pub(crate) fn put_in_order(found: &mut Vec<Found>) -> Result<(), AllocError>
    ensures same { IsPermutation found.old.items found.new.items }
    ensures ordered { OnOk result (IsSortedBy is_before found.new.items) }
{
    found.sort_by(|one, other| one.path.cmp(&other.path))
}
