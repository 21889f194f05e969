//! What a builder of documents holds, before a refusal and after.

use crate::tables::Tables;
use graphql_nodes::source::SourceMap;

/// What was added: what its definitions come to, and its source files.
#[derive(Drop)]
pub struct Added {
    pub tables: Tables,
    pub sources: SourceMap,
}

/// What was added, until a call was refused.
#[derive(Drop)]
pub enum State {
    Open(Added),
    Failed,
}
