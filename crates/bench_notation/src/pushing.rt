//! What calls give that add to a text.

use std::alloc::AllocError;

/// Whether all was added. The error is out of memory, after which nothing is said of the text: drop it.
pub type Pushed = Result<(), AllocError>;
