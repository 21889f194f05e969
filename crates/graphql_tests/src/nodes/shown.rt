//! How values are shown, as `{:?}` prints them.

use std::alloc::Global;
use std::fmt::Debug;

/// Whether there is memory to show the value, and this is how it is shown.
pub fn is_shown<T: Debug>(alloc: Global, value: &T, text: &str) -> bool {
    match format!(in alloc; "{value:?}") {
        Ok(shown) => shown.as_str() == text,
        Err(_) => false,
    }
}
