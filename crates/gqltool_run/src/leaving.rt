//! What a run leaves to the end of its process.

use std::mem::forget;

/// Leaves a value in memory, for the end of the process to give back at once. To free a schema and its
/// documents node by node takes a third of a run.
pub fn leave_to_exit<T: Drop>(value: T) {
    forget(value)
}
