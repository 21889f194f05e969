//! Documents: GraphQL specification of October 2021, section 2.2.
ghost use Rattle.std.specs.Prelude.{◌≡◌, [], IfOk};

use crate::definition::Definition;
use graphql_nodes::collections::items::Items;
use graphql_nodes::collections::table::Table;
use graphql_nodes::source::SourceMap;
use std::alloc::Global;

/// The definitions of a document, in order, and the files that they come from.
///
/// Documents are equal where their definitions are, in order: the sources are left out.
#[derive(Debug, Drop, Clone)]
#[derive_where(PartialEq, Eq)]
pub struct Document {
    #[derive_where(skip(EqHashOrd))]
    pub sources: SourceMap,
    pub definitions: Items<Definition>,
}

impl Document {
    /// A document without definitions and sources. It takes no memory.
    pub fn new(alloc: Global) -> Document
        ensures definitions { result.definitions ≡ [] }
        ensures sources { result.sources ≡ [] }
    {
        Document {
            sources: Table::new(alloc),
            definitions: Items::new(alloc),
        }
    }

    /// A document of these definitions, in order, without sources.
    pub fn from_definitions(alloc: Global, definitions: Vec<Definition>) -> Document
        ensures definitions { result.definitions ≡ definitions.items }
        ensures sources { result.sources ≡ [] }
    {
        Document {
            sources: Table::new(alloc),
            definitions: Items::from_vec(definitions),
        }
    }
}
