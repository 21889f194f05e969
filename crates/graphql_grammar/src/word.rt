//! Words: GraphQL specification of October 2021, section 2.1.6.

use crate::kind::Kind;

/// A word of a text, and where it stands: from the byte `start` up to, and without, the byte `end`.
#[derive(Clone, Copy, Debug)]
pub struct Word<'a> {
    pub kind: Kind,
    /// Its bytes, those of its quotes included.
    pub text: &'a str,
    pub start: usize,
    pub end: usize,
}
