//! Sources: files merged by their numbers.

use graphql_nodes::collections::shared::Shared;
use graphql_nodes::collections::table::Table;
use graphql_nodes::source::{FileId, SourceFile, SourceMap, merge_sources};
use std::alloc::{AllocError, Global};

/// The sources of one file of this text, under this number.
pub fn one(alloc: Global, number: u64, text: &str) -> Result<SourceMap, AllocError> {
    let file = Shared::new(alloc, SourceFile::new(alloc, "a.graphql", text)?)?;
    let mut sources = Table::new(alloc);
    sources.insert(FileId(number), file)?;
    Ok(sources)
}

/// Whether the file at this place has this number and text.
fn is_at(sources: &SourceMap, place: usize, number: u64, text: &str) -> bool {
    match sources.get_index(place) {
        Some((file, source)) => *file == FileId(number) && source.text.as_str() == text,
        None => false,
    }
}

/// Whether a further file comes last, and a later one of a number in the place of the earlier.
fn are_merged(alloc: Global) -> Result<bool, AllocError> {
    let mut sources = one(alloc, 1, "a")?;
    merge_sources(&mut sources, &one(alloc, 2, "b")?)?;
    merge_sources(&mut sources, &one(alloc, 1, "c")?)?;
    Ok(is_at(&sources, 0, 1, "c") && is_at(&sources, 1, 2, "b") && sources.len() == 2)
}

#[test]
fn merging(rt: HostRuntime) {
    assert!(rt; are_merged(rt.alloc()) == Ok(true));
}
