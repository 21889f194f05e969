//! Source files whose lines and columns are found at once.
ghost use Rattle.std.specs.Prelude.{◌≡◌, IfOk};
ghost use Rattle.apollo_reporting.specs.SourceLines.{file_texts, indexed_texts};

use crate::sources::Sources;
use graphql_nodes::line_column::LineColumn;
use graphql_nodes::line_index::LineIndex;
use graphql_nodes::source::{FileId, SourceFile, SourceMap};
use std::alloc::{AllocError, Global};

/// Source files, with an index of the lines of each.
///
/// Make it once for many reports: each text is read once then, where [`SourceMap`] alone reads it from its
/// start for each line and column. So the time of all reports grows with the texts and with how many faults
/// there are, and not with one times the other.
#[derive(Drop)]
pub struct SourceLines<'a> {
    sources: &'a SourceMap,
    indexes: Vec<LineIndex<'a>>,
    ghost indexed: { indexed_texts indexes.items ≡ file_texts sources.now },
}

impl<'a> SourceLines<'a> {
    /// These files, each with its index. The error is out of memory.
    pub fn new(alloc: Global, sources: &'a SourceMap) -> Result<SourceLines<'a>, AllocError>
        ensures { IfOk result (λ lines. lines.sources.now ≡ sources.now) }
    {
        let mut indexes = Vec::new(alloc);
        for file in sources.values() {
            indexes.push(LineIndex::new(alloc, file.text.as_str())?)?;
        }
        Ok(SourceLines { sources, indexes })
    }
}

impl Sources for SourceLines<'_> {
    ghost files = { λ lines. lines.sources.now };

    fn file(&self, number: FileId) -> Option<&SourceFile> {
        let file: &SourceFile = self.sources.get(&number)?;
        Some(file)
    }

    fn line_column(&self, number: FileId, offset: usize) -> Option<LineColumn> {
        let (place, _, _) = self.sources.get_full(&number)?;
        self.indexes.as_slice().get(place)?.get_line_column(offset)
    }
}
