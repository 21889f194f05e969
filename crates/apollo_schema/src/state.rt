//! What a builder holds, before a refusal and after.
ghost use Rattle.std.specs.Prelude.{◌≡◌, ◌≢◌, [], IfErr, OnErr, OnOk};
ghost use Rattle.apollo_component.specs.Extensions.{next_number};
ghost use Rattle.apollo_folding.specs.Refusals.{RefusedAs};
ghost use Rattle.apollo_meaning.specs.Items.ListItems.{added, added_items};
ghost use Rattle.apollo_schema.specs.Takes.{SpentBy, Takes};
ghost use Rattle.graphql_nodes.specs.Sources.{merged};

use crate::tables::Tables;
use apollo_component::extension::ExtensionSource;
use apollo_folding::builder_error::BuilderError;
use graphql_ast::document::Document;
use graphql_nodes::source::{SourceMap, merge_sources};
use std::alloc::AllocError;

/// What was added: what its definitions come to, and its source files.
#[derive(Drop)]
pub struct Added {
    pub tables: Tables,
    pub sources: SourceMap,
}

impl Added {
    /// The number that the source's next identity will have.
    pub fn next_number(&self) -> u64
        ensures { result ≡ next_number self.now.tables.fold.ids }
    {
        self.tables.next_number()
    }

    /// Takes a document: its definitions, and then its sources. `Memory` is out of memory; `ExtensionIds`
    /// comes only where the numbers don't suffice for its extensions. Neither comes of a document without
    /// definitions and sources. After either nothing is said of what was added.
    pub fn take_document(&mut self, document: &Document, ignores: bool) -> Result<(), BuilderError>
        ensures stands { OnOk result
            (Takes self.old.tables (added_items (added ignores document.now.definitions)) self.new.tables) }
        ensures refused { IfErr result (λ error.
            RefusedAs error
            (SpentBy self.old.tables (added_items (added ignores document.now.definitions)))) }
        ensures sources { OnOk result (self.new.sources ≡ merged self.old.sources document.now.sources) }
        ensures wants { OnErr result (document.now.definitions ≡ [] → document.now.sources ≢ []) }
    {
        self.tables.take(document.definitions.as_slice(), ignores)?;
        merge_sources(&mut self.sources, &document.sources)?;
        Ok(())
    }
}

/// A copy of what was added. The error is out of memory.
impl Clone for Added {
    ghost is_clone = { λ a b. b ≡ a };

    fn clone(&self) -> Result<Added, AllocError> {
        let tables = self.tables.clone()?;
        let sources = self.sources.clone()?;
        Ok(Added { tables, sources })
    }
}

/// What was added, until a call was refused; then the source alone.
#[derive(Drop)]
pub enum State {
    Open(Added),
    Failed(ExtensionSource),
}

/// A copy draws the numbers that the original draws. The error is out of memory.
impl Clone for State {
    ghost is_clone = { λ a b. b ≡ a };

    fn clone(&self) -> Result<State, AllocError> {
        match self {
            State::Open(held) => Ok(State::Open(held.clone()?)),
            State::Failed(source) => {
                let copy = ExtensionSource::starting_at(source.next_number());
                Ok(State::Failed(copy))
            }
        }
    }
}
