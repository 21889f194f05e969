//! What is found.

use crate::refusal::Refusal;

/// A file that is found, or a name that stands for none.
#[derive(Debug, Drop)]
pub struct Found {
    /// The path of the file, or the name.
    pub path: String,
    /// Why the name stands for no file, if so.
    pub refusal: Option<Refusal>,
}
