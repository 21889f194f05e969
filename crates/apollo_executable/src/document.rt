//! Executable documents: GraphQL specification of October 2021, section 2.2.
ghost use Rattle.std.specs.Prelude.{◌≡◌, ◌≢◌, [], IfOk, OnErr};
ghost use Rattle.apollo_executable.specs.Erasure.{erased_definitions, erased_document};

use crate::operation::Fragment;
use crate::operation_map::OperationMap;
use graphql_ast::document::Document;
use graphql_nodes::collections::hash_keys::HashKeys;
use graphql_nodes::collections::items::Items;
use graphql_nodes::collections::table::Table;
use graphql_nodes::name::Name;
use graphql_nodes::node::Node;
use graphql_nodes::source::SourceMap;
use std::alloc::{AllocError, Global};

/// Fragments under their names, in order.
pub type FragmentMap = Table<Name, Node<Fragment>>;

/// The operations and fragments of a document, and the files that they come from.
///
/// Documents are equal where their operations and fragments are, in any order: locations and sources are left
/// out. A clone is the original, with both; its error is out of memory.
#[derive(Debug, Drop, Clone)]
#[derive_where(PartialEq, Eq)]
pub struct ExecutableDocument {
    #[derive_where(skip(EqHashOrd))]
    pub sources: SourceMap,
    pub operations: OperationMap,
    pub fragments: FragmentMap,
}

impl ExecutableDocument {
    ghost use Rattle.apollo_executable.specs.EmptyDocument.{empty_document};

    /// A document without operations, fragments and sources, whose tables hash by fixed keys. It takes no
    /// memory.
    pub fn new(alloc: Global) -> ExecutableDocument
        ensures { result ≡ empty_document }
    {
        ExecutableDocument::with_keys(alloc, HashKeys::FIXED)
    }

    /// The same, whose tables hash by these keys: those of a schema, for a document from strangers. It takes
    /// no memory.
    pub fn with_keys(alloc: Global, keys: HashKeys) -> ExecutableDocument
        ensures { result ≡ empty_document }
    {
        ExecutableDocument {
            sources: Table::with_keys(alloc, keys),
            operations: OperationMap::with_keys(alloc, keys),
            fragments: Table::with_keys(alloc, keys),
        }
    }

    /// The document as syntax, without its sources: the anonymous operation, the named operations and the
    /// fragments, in order, each at the location of its node. The error is out of memory, which a document
    /// without operations and fragments doesn't meet.
    pub fn to_ast(&self, alloc: Global) -> Result<Document, AllocError>
        ensures written { IfOk result (λ written. written ≡ erased_document self.now) }
        ensures memory { OnErr result (erased_definitions self.now ≢ []) }
    {
        let mut definitions = Vec::new(alloc);
        for operation in self.operations.iter() {
            definitions.push(operation.to_ast(alloc, operation.location())?)?;
        }
        for fragment in self.fragments.values() {
            definitions.push(fragment.to_ast(alloc, fragment.location())?)?;
        }
        Ok(Document {
            sources: Table::new(alloc),
            definitions: Items::from_vec(definitions),
        })
    }
}
