//! How many fields walks over a typed document give.

use apollo_executable::document::ExecutableDocument;
use apollo_executable::selection::SelectionSet;
use std::alloc::{AllocError, Global};

/// How many fields walks over all operations and fragments give: over all fields, or over root fields alone.
pub fn count_walked(
    alloc: Global,
    document: &ExecutableDocument,
    deep: bool,
) -> Result<usize, AllocError> {
    let mut count = 0;
    for operation in document.operations.iter() {
        count = count_on(alloc, document, &operation.selection_set, deep, count)?;
    }
    for fragment in document.fragments.values() {
        count = count_on(alloc, document, &fragment.selection_set, deep, count)?;
    }
    Ok(count)
}

/// How many a walk over one set gives, on from a number, as far as they can be counted.
fn count_on(
    alloc: Global,
    document: &ExecutableDocument,
    set: &SelectionSet,
    deep: bool,
    mut count: usize,
) -> Result<usize, AllocError> {
    let walk = if deep {
        set.all_fields(alloc, document)
    } else {
        set.root_fields(alloc, document)
    };
    for field in walk {
        let _field = field?;
        count = count.saturating_add(1);
    }
    Ok(count)
}
