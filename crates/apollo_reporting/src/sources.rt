//! The source files that faults stand in, and lines and columns in them.
ghost use Rattle.graphql_nodes.specs.Sources.{Files};

use graphql_nodes::line_column::LineColumn;
use graphql_nodes::source::{FileId, SourceFile, SourceMap};

/// Source files by their numbers, in which faults stand.
///
/// A [`SourceMap`] is such, and reads a text from its start for each line and column that it is asked for.
/// For many reports take [`SourceLines`](crate::source_lines::SourceLines), which doesn't.
pub trait Sources {
    ghost use Rattle.std.specs.Prelude.{◌≡◌};
    ghost use Rattle.std.specs.Option.{option_copied};
    ghost use Rattle.graphql_nodes.specs.Sources.{Files, same_file};
    ghost use Rattle.graphql_nodes.specs.Tables.{lookup};
    ghost use Rattle.apollo_reporting.specs.Places.{line_column_in};

    // The files, each under its number.
    ghost files: { Self → Files };

    /// The file of this number, if there is one.
    fn file(&self, number: FileId) -> Option<&SourceFile>
        ensures { option_copied result ≡ lookup (same_file number) (files self.now) };

    /// The line and column of a byte offset in the file of this number. There are none if there is no such
    /// file, or if the offset is beyond the end of its text.
    fn line_column(&self, number: FileId, offset: usize) -> Option<LineColumn>
        ensures { result ≡ line_column_in number offset (files self.now) };
}

impl Sources for SourceMap {
    ghost files = { λ sources. sources };

    fn file(&self, number: FileId) -> Option<&SourceFile> {
        let file: &SourceFile = self.get(&number)?;
        Some(file)
    }

    fn line_column(&self, number: FileId, offset: usize) -> Option<LineColumn> {
        self.get(&number)?.get_line_column(offset)
    }
}
