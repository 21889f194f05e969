//! What the words of the command line ask for.

use crate::request::{Reporting, Request};

/// What the words of the command line ask for.
#[derive(Debug, Drop)]
pub enum Task<'w> {
    /// An answer is written, and no file changes.
    Answer(Request<'w>),
    /// `format --write`: files change.
    Write(Writing<'w>),
}

/// Files that are put in the layout of the printer, each in its place.
#[derive(Debug, Drop)]
pub struct Writing<'w> {
    /// `--check`, which contradicts `--write`: words that have both ask for nothing.
    pub check: bool,
    /// `--drop-comments`: files that have comments are written too, without them.
    pub drop_comments: bool,
    /// How the files are reported.
    pub reporting: Reporting,
    /// The files, at least one. None is standard input.
    pub files: Vec<&'w str>,
}
