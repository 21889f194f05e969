//! Rows of flags: how far the beginning of a pattern reaches in a list. The flag at a place says that it
//! matches so many of the list's first ones.
ghost use Rattle.std.specs.Prelude.{◌≡◌, IfOk, false};
ghost use Rattle.named_files.specs.Rows.{any_more, both_flags, one_more, unbegun};

use std::alloc::{AllocError, Global};

/// The row of a pattern of which nothing is looked at yet. The error is out of memory.
pub fn unbegun<T>(alloc: Global, list: &[T]) -> Result<Vec<bool>, AllocError>
    ensures { IfOk result (λ row. row.items ≡ unbegun list.now) }
{
    let mut row = Vec::new(alloc);
    row.push(true)?;
    for _item in list {
        row.push(false)?;
    }
    Ok(row)
}

/// The row behind a sign that stands for any more. The error is out of memory.
pub fn any_more(alloc: Global, row: &[bool]) -> Result<Vec<bool>, AllocError>
    ensures { IfOk result (λ more. more.items ≡ any_more false row.now) }
{
    let mut more = Vec::new(alloc);
    let mut earlier = false;
    for here in row {
        earlier |= *here;
        more.push(earlier)?;
    }
    Ok(more)
}

/// The row behind a sign that stands for one more, where these flags say which ones it stands for. The error
/// is out of memory.
pub fn one_more(alloc: Global, passing: &[bool], row: &[bool]) -> Result<Vec<bool>, AllocError>
    ensures { IfOk result (λ more. more.items ≡ one_more passing.now row.now) }
{
    let mut more = both(alloc, passing, row)?;
    more.insert(0, false)?;
    Ok(more)
}

/// For each place whether both flags are set. The error is out of memory.
fn both(alloc: Global, one: &[bool], other: &[bool]) -> Result<Vec<bool>, AllocError>
    ensures { IfOk result (λ them. them.items ≡ both_flags one.now other.now) }
{
    one.iter().zip(other).map(|(a, b)| *a && *b).collect(alloc)
}
