//! The builder of executable documents: documents of syntax go in, in any number, and a typed document comes
//! out. GraphQL specification of October 2021, section 2.
ghost use Rattle.std.specs.Prelude.{◌≡◌, ◌↔◌, [], Err, OnOk, OnErr, IfOk};
ghost use Rattle.std.specs.Option.{option_copied};
ghost use Rattle.apollo_document.specs.BuilderStands.{HasFailed, IsBuiltOf};
ghost use Rattle.apollo_document.specs.BuilderStands.{building_over, refused, with_document};

use crate::build_error::Faults;
use crate::selection_laws::elaborated_sets;
use crate::state::{Added, State};
use crate::tables::Tables;
use apollo_executable::document::ExecutableDocument;
use apollo_schema::BuilderError;
use apollo_schema::schema::Schema;
use graphql_ast::added_list::AddedList;
use graphql_ast::document::Document;
use graphql_nodes::collections::hash_keys::HashKeys;
use graphql_nodes::collections::table::Table;
use graphql_nodes::source::merge_sources;
use graphql_nodes::take_apart;
use std::alloc::Global;
use std::marker::Model;
use std::mem;

/// A builder of an executable document, over a schema or without one: GraphQL specification of October 2021,
/// sections 2.2 to 2.8. Documents of syntax go in, in any number.
///
/// Of operations the first of each name is kept that has a root type in the schema. An anonymous one is kept
/// if it is the first of all operations that have a root type. Of fragments the first of each name is kept
/// whose condition is a type of the schema. Their selections are kept where they are typable, as
/// [`elaborate_selections`](crate::elaboration::elaborate_selections) says. All else is at fault, with two
/// exceptions. One is fields of a type that the schema lacks. The other is definitions of the type system
/// where these are not at fault. A kept anonymous operation that isn't the only one is at fault too.
///
/// When memory has run out the builder holds nothing, and each later call answers `Failed`.
pub struct ExecutableDocumentBuilder<'schema> {
    schema: Option<&'schema Schema>,
    state: State,
    added: AddedList,
}

impl<'schema> Drop for ExecutableDocumentBuilder<'schema> {
    fn drop(self) {
        take_apart!(self: schema, state, added);
    }
}

impl<'schema> Model for ExecutableDocumentBuilder<'schema> {
    ghost use Rattle.std.specs.Option.{option_copied};
    ghost use Rattle.apollo_document.specs.BuilderStands.{Building, building_code};

    ghost Value = { Building };

    ghost coded = { building_code };

    ghost use Rattle.apollo_document.specs.Stands.{HoldsFor, standing_of};

    ghost view = { λ b. record {
      schema = option_copied b.schema;
      standing = standing_of b.added.items b.state;
    } };

    ghost invariant = { λ b. HoldsFor (option_copied b.schema) b.added.items b.state };
}

impl<'schema> ExecutableDocumentBuilder<'schema> {
    /// A builder of no definition, over this schema or without one. Without a schema each operation has the
    /// default name of its root type, each name is that of a type, and every selection is typable. It takes
    /// no memory.
    ///
    /// The document's tables hash by the keys of the schema, and without one by fixed keys: for documents
    /// from strangers without a schema, take [`with_keys`](ExecutableDocumentBuilder::with_keys).
    pub fn new(alloc: Global, schema: Option<&'schema Schema>) -> ExecutableDocumentBuilder<'schema>
        ensures { result ≡ building_over (option_copied schema.entry) }
    {
        let keys = match schema {
            Some(schema) => schema.types.hash_keys(),
            None => HashKeys::FIXED,
        };
        ExecutableDocumentBuilder::with_keys(alloc, schema, keys)
    }

    /// A builder as [`new`](ExecutableDocumentBuilder::new) makes it, for a document whose tables hash by
    /// these keys. Answers and orders never depend on them. It takes no memory.
    pub fn with_keys(
        alloc: Global,
        schema: Option<&'schema Schema>,
        keys: HashKeys,
    ) -> ExecutableDocumentBuilder<'schema>
        ensures { result ≡ building_over (option_copied schema.entry) }
    {
        let nothing = Added {
            tables: Tables::new(alloc, keys),
            sources: Table::with_keys(alloc, keys),
        };
        ExecutableDocumentBuilder {
            schema,
            state: State::Open(nothing),
            added: AddedList::none(),
        }
    }

    /// Adds the definitions of a document, in order, and its sources: of two files of one number the later
    /// stays. Definitions of the type system are passed over; with `type_system_definitions_are_errors` each
    /// is a fault (section 2.2).
    ///
    /// `Memory` is out of memory, and drops all that was added, sources too; `Failed` comes exactly after
    /// that, and changes nothing. No other error comes, and of a document without definitions and sources
    /// `Failed` alone.
    pub fn add_ast_document(
        &mut self,
        document: &Document,
        type_system_definitions_are_errors: bool,
    ) -> Result<(), BuilderError>
        ensures added { OnOk result
            (self.new ≡ with_document type_system_definitions_are_errors document.now self.old) }
        ensures refused { OnErr result (self.new ≡ refused self.old) }
        ensures failed { HasFailed self.old ↔ (result ≡ Err BuilderError.Failed) }
        ensures memory { OnErr result (¬ HasFailed self.old → result ≡ Err BuilderError.Memory) }
        ensures wants { OnErr result
            (document.now.definitions ≡ [] → document.now.sources ≡ [] → HasFailed self.old) }
    {
        let State::Open(mut held) = mem::replace(&mut self.state, State::Failed) else {
            return Err(BuilderError::Failed);
        };
        held.tables.take(
            self.schema,
            document.definitions.as_slice(),
            type_system_definitions_are_errors,
        )?;
        merge_sources(&mut held.sources, &document.sources)?;
        self.state = State::Open(held);
        self.added = AddedList::with(&self.added, type_system_definitions_are_errors, document);
        Ok(())
    }

    /// The document of what was added, with the merged sources, and what is wrong with it, in the order of
    /// the definitions. The document comes whether anything is wrong or not. It takes no memory: `Failed`
    /// comes exactly after a refusal, and no other error does.
    pub fn build(self) -> Result<(ExecutableDocument, Faults), BuilderError>
        ensures built { IfOk result (λ built. IsBuiltOf self.entry built.0 built.1.items) }
        ensures failed { HasFailed self.entry ↔ (result ≡ Err BuilderError.Failed) }
        ensures refused { OnErr result (HasFailed self.entry) }
    {
        elaborated_sets();
        let ExecutableDocumentBuilder {
            schema: _,
            state,
            added: _,
        } = self;
        match state {
            State::Open(Added { tables, sources }) => Ok(tables.into_document(sources)),
            State::Failed => Err(BuilderError::Failed),
        }
    }
}
