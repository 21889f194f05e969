//! Lines and columns of many offsets in one text.
ghost use Rattle.std.specs.Prelude.{◌≡◌, ◌+◌, ◌/◌, IfOk, length};
ghost use Rattle.graphql_nodes.specs.LineColumns.{line_column_of};
ghost use Rattle.graphql_nodes.specs.LineIndexes.{AreMilestones};

use crate::line_column::{LineColumn, counted};
use std::alloc::{AllocError, Global};

/// How many bytes an index leaves between the offsets whose lines and columns it keeps.
const STRIDE: usize = 256;

/// A text, with the lines and columns of offsets that stand regularly in it.
///
/// It takes one pass over the text to make, and a sixteenth of the text's memory. The line and column of an
/// offset are then found by reading less than 256 bytes, however long the text and its lines are.
#[derive(Drop)]
pub struct LineIndex<'a> {
    text: &'a str,
    milestones: Vec<LineColumn>,
    ghost known: { AreMilestones text.now milestones.items },
    ghost enough: { length milestones.items ≡ length text.now / 256 + 1 },
}

impl<'a> LineIndex<'a> {
    /// The index of a text. The error is out of memory.
    pub fn new(alloc: Global, text: &'a str) -> Result<LineIndex<'a>, AllocError>
        ensures { IfOk result (λ index. index.text.now ≡ text.now) }
    {
        let bytes = text.as_bytes();
        let last = bytes.len() / STRIDE;
        let mut place = LineColumn::FIRST;
        let mut milestones = vec![in alloc; place]?;
        for number in 0..last {
            let from = number * STRIDE;
            place = counted(bytes, from, place, from + STRIDE);
            milestones.push(place)?;
        }
        Ok(LineIndex { text, milestones })
    }

    /// The line and column of a byte offset of the text, none for an offset beyond its end. They are counted
    /// as [`SourceFile::get_line_column`](crate::source::SourceFile::get_line_column) does.
    pub fn get_line_column(&self, offset: usize) -> Option<LineColumn>
        ensures { result ≡ line_column_of self.now.text.now offset }
    {
        let bytes = self.text.as_bytes();
        if offset > bytes.len() {
            return None;
        }
        let number = offset / STRIDE;
        Some(counted(bytes, number * STRIDE, self.milestones[number], offset))
    }
}
