//! Source files, and locations in them.
//!
//! (The bench notation puts numbers of lines in its spans, so lines and columns are of spans of other texts.)
ghost use Rattle.std.specs.Prelude.{◌≡◌, ◌≢◌, [], IfOk, OnOk, OnErr};
ghost use Rattle.graphql_nodes.specs.LineColumns.{line_column_of, range_of, start_of};
ghost use Rattle.graphql_nodes.specs.Sources.{merged};

use crate::collections::shared::Shared;
use crate::collections::table::Table;
use crate::collections::text::Text;
use crate::line_column::{LineColumn, counted};
use crate::place::Place;
use std::alloc::{AllocError, Global};
use std::ops::Range;

/// The number of a source file.
#[derive(Clone, Copy, Debug, PartialEq, Eq, PartialOrd, Ord, Hash)]
pub struct FileId(pub u64);

impl FileId {
    /// The file of the definitions that every schema has.
    pub const BUILT_IN: FileId = FileId(0);
}

/// A location in a source file: from the byte `start` up to, and without, the byte `end`. (The bench notation
/// puts the number of a line in both.)
#[derive(Clone, Copy, Debug, PartialEq, Eq, Hash)]
pub struct SourceSpan {
    pub file: FileId,
    pub start: usize,
    pub end: usize,
}

impl SourceSpan {
    /// The span, to be shown with these sources.
    pub fn place(self, sources: &SourceMap) -> Place<'_>
        ensures span { result.span ≡ self }
        ensures sources { result.sources.now ≡ sources.now }
    {
        Place {
            span: self,
            sources,
        }
    }

    /// The line and column where the span starts. There are none if the sources lack its file, or if it
    /// starts beyond the end of the file's text.
    pub fn line_column(&self, sources: &SourceMap) -> Option<LineColumn>
        ensures { result ≡ start_of self.now sources.now }
    {
        sources.get(&self.file)?.get_line_column(self.start)
    }

    /// The lines and columns where the span starts and where it ends. There are none if the sources lack its
    /// file, or if either is beyond the end of the file's text.
    pub fn line_column_range(&self, sources: &SourceMap) -> Option<Range<LineColumn>>
        ensures { result ≡ range_of self.now sources.now }
    {
        let file = sources.get(&self.file)?;
        let start = file.get_line_column(self.start)?;
        let end = file.get_line_column(self.end)?;
        Some(start..end)
    }
}

/// A source file: the path that it was read from, and its text.
#[derive(Debug, PartialEq, Eq, Hash, Clone)]
pub struct SourceFile {
    pub path: Text,
    pub text: Text,
}

impl Drop for SourceFile {
    fn drop(self) {
        let Self { path: _, text: _ } = self;
    }
}

impl SourceFile {
    /// The file of this path and text. The error is out of memory.
    pub fn new(alloc: Global, path: &str, text: &str) -> Result<SourceFile, AllocError>
        ensures { IfOk result (λ file. file ≡ record { path = path.now; text = text.now }) }
    {
        let path = Text::from_str(alloc, path)?;
        let text = Text::from_str(alloc, text)?;
        Ok(SourceFile { path, text })
    }

    /// The line and column of a byte offset of the text, and none for an offset beyond the end of the text.
    ///
    /// A line feed, a carriage return, and a carriage return with a line feed after it are one line
    /// terminator each (section 2.1.3). An offset between those two is still on the line that they end. An
    /// offset within a character has the column after that character's.
    pub fn get_line_column(&self, offset: usize) -> Option<LineColumn>
        ensures { result ≡ line_column_of self.now.text offset }
    {
        let bytes = self.text.as_str().as_bytes();
        if offset > bytes.len() {
            return None;
        }
        Some(counted(bytes, 0, LineColumn::FIRST, offset))
    }
}

/// The source files of a document, by their numbers.
pub type SourceMap = Table<FileId, Shared<SourceFile>>;

/// Adds the files of other sources, in order. Of two files of one number the later stays, where the earlier
/// stood.
///
/// The error is out of memory, and leaves the sources as they were. It comes only where there are files to
/// add.
pub fn merge_sources(sources: &mut SourceMap, more: &SourceMap) -> Result<(), AllocError>
    ensures merged { OnOk result (sources.new ≡ merged sources.old more.now) }
    ensures err { OnErr result (sources.new ≡ sources.old) }
    ensures wants { OnErr result (more.now ≢ []) }
{
    if more.is_empty() {
        return Ok(());
    }
    let mut copies = more.clone()?;
    sources.append(&mut copies)
}
