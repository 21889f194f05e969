//! The schema builder: documents go in, in any number and order of definitions, and a schema comes out.
//! GraphQL specification of October 2021, section 3.
ghost use Rattle.std.specs.Prelude.{◌≡◌, ◌↔◌, ◌≤◌, [], true, Err, OnOk, OnErr, IfOk, IfErr};
ghost use Rattle.apollo_component.specs.Extensions.{next_number};
ghost use Rattle.apollo_meaning.specs.Completion.OrphanNames.{orphan_names};
ghost use Rattle.apollo_meaning.specs.Items.ListItems.{added_items};
ghost use Rattle.apollo_schema.specs.BuildAnswers.{HasBuilt, IfFaults, WasRefused};
ghost use Rattle.apollo_schema.specs.BuilderStands.{HasFailed, SpendsAtBuild, SpendsSoFar};
ghost use Rattle.apollo_schema.specs.BuilderStands.{building_from, list_of, refused};
ghost use Rattle.apollo_schema.specs.BuilderStands.{source_after, source_left, with_document};
ghost use Rattle.apollo_schema.specs.Built.{IsBuiltOf, IsFoundIn};
ghost use Rattle.apollo_schema.specs.NamesLeft.{names_left};

use crate::build_failure::BuildFailure;
use crate::orphan_names::OrphanNames;
use crate::schema::Schema;
use crate::state::{Added, State};
use crate::tables::Tables;
use apollo_component::extension::ExtensionSource;
use apollo_folding::builder_error::BuilderError;
use graphql_ast::added_list::AddedList;
use graphql_ast::document::Document;
use graphql_nodes::collections::hash_keys::HashKeys;
use graphql_nodes::collections::table::Table;
use graphql_nodes::take_apart;
use std::alloc::{AllocError, Global};
use std::marker::Model;

/// A builder of a schema: GraphQL specification of October 2021, section 3. Documents go in, in any number,
/// and their definitions and extensions in any order.
///
/// The built-in definitions stand before the first document. The first definition of a type's name stays, and
/// each later one is at fault, unless redefinitions of built-in types are ignored. Of a directive's name the
/// first definition counts that isn't built-in, which replaces a built-in one. The first definition of the
/// schema stays, too. An extension before its definition waits for it.
///
/// After a refusal the builder holds nothing more than its source, which then stands where it stood before
/// the refused call. Each later `add_ast` or `build` answers `Failed`.
pub struct SchemaBuilder {
    first_number: u64,
    state: State,
    adopt_orphan_extensions: bool,
    ignore_builtin_redefinitions: bool,
    /// What was handed in, behind the built-in definitions.
    added: AddedList,
}

impl Drop for SchemaBuilder {
    fn drop(self) {
        take_apart!(self: first_number, state, adopt_orphan_extensions, ignore_builtin_redefinitions, added);
    }
}

impl Model for SchemaBuilder {
    ghost use Rattle.graphql_nodes.specs.contracts.source.FileId as number;
    ghost use Rattle.graphql_nodes.specs.contracts.source.SourceFile as file;
    ghost use Rattle.graphql_ast.specs.contracts.definition.Definition as definition;
    ghost use Rattle.apollo_component.specs.contracts.extension.ExtensionSource as source;
    ghost use Rattle.apollo_schema.specs.BuilderStands.{Building, building_code};

    ghost Value = { Building };

    ghost coded = { building_code definition.the_row.coded number.the_row.coded
        file.the_row.coded source.the_row.coded };

    ghost use Rattle.apollo_schema.specs.Stands.{HoldsFor, standing_of};

    ghost view = { λ b. record {
      start = b.first_number;
      adopts = b.adopt_orphan_extensions;
      ignores = b.ignore_builtin_redefinitions;
      standing = standing_of b.added.items b.state;
    } };

    ghost invariant = { λ b. HoldsFor b.first_number b.added.items b.state };
}

impl SchemaBuilder {
    /// A builder of the built-in definitions alone, without sources and without either option, whose first
    /// extension has the number 0. The error is out of memory.
    pub fn new(alloc: Global) -> Result<SchemaBuilder, AllocError>
        ensures { IfOk result (λ builder. builder ≡ building_from 0) }
    {
        SchemaBuilder::with_source(alloc, ExtensionSource::new())
    }

    /// The same, drawing the numbers of extensions from this source: the first one is the source's next
    /// number. The error is out of memory, and drops the source.
    pub fn with_source(alloc: Global, source: ExtensionSource) -> Result<SchemaBuilder, AllocError>
        ensures { IfOk result (λ builder. builder ≡ building_from (next_number source)) }
    {
        SchemaBuilder::with_source_and_keys(alloc, source, HashKeys::FIXED)
    }

    /// The same as [`new`](SchemaBuilder::new), for documents from strangers. Each table of names that the
    /// builder makes hashes by these keys. So do those of the schema, and of what is made of it. What is
    /// built, and in what order, is the same under any keys. The error is out of memory.
    pub fn with_keys(alloc: Global, keys: HashKeys) -> Result<SchemaBuilder, AllocError>
        ensures { IfOk result (λ builder. builder ≡ building_from 0) }
    {
        SchemaBuilder::with_source_and_keys(alloc, ExtensionSource::new(), keys)
    }

    /// The same as [`with_keys`](SchemaBuilder::with_keys), drawing the numbers of extensions from this
    /// source. The error is out of memory, and drops the source.
    pub fn with_source_and_keys(
        alloc: Global,
        source: ExtensionSource,
        keys: HashKeys,
    ) -> Result<SchemaBuilder, AllocError>
        ensures { IfOk result (λ builder. builder ≡ building_from (next_number source)) }
    {
        let first_number = source.next_number();
        let tables = Tables::with_built_ins(alloc, keys, source)?;
        let sources = Table::with_keys(alloc, keys);
        Ok(SchemaBuilder {
            first_number,
            state: State::Open(Added { tables, sources }),
            adopt_orphan_extensions: false,
            ignore_builtin_redefinitions: false,
            added: AddedList::none(),
        })
    }

    /// The builder, which adopts at `build` what is extended only. Each type that has extensions and no
    /// definition is taken as defined, empty, at its first extension. The schema is taken as defined, without
    /// a location, with the default roots unless an extension names a root (sections 3.3.2 and 3.4.3). All
    /// else stays: what was added, the other option, and whether a call was refused.
    pub fn adopt_orphan_extensions(self) -> SchemaBuilder
        ensures { result ≡ record self { adopts = true } }
    {
        let mut builder = self;
        builder.adopt_orphan_extensions = true;
        builder
    }

    /// The builder, which ignores from now on each further definition of a name whose type is built-in: it is
    /// dropped without a fault. All else stays: what was added, the other option, and whether a call was
    /// refused.
    pub fn ignore_builtin_redefinitions(self) -> SchemaBuilder
        ensures { result ≡ record self { ignores = true } }
    {
        let mut builder = self;
        builder.ignore_builtin_redefinitions = true;
        builder
    }

    /// Adds the definitions of a document, in order, and its sources: of two files of one number the later
    /// stays. The options and the first number stay, whatever the answer.
    ///
    /// `Memory`: memory ran out. `ExtensionIds` comes only where the extensions that are folded so far, this
    /// document's included, pass the largest number, and `Ok` only where they don't. `Failed` comes exactly
    /// after a refusal, and changes nothing. A document without definitions and sources meets `Failed` alone.
    /// With another error all that was added is dropped, sources too, and the source of numbers stands where
    /// it stood before the call.
    pub fn add_ast(&mut self, document: &Document) -> Result<(), BuilderError>
        ensures added { OnOk result (self.new ≡ with_document document.now self.old) }
        ensures refused { OnErr result (self.new ≡ refused self.old) }
        ensures failed { HasFailed self.old ↔ (result ≡ Err BuilderError.Failed) }
        ensures spent { result ≡ Err BuilderError.ExtensionIds
            → SpendsSoFar (with_document document.now self.old) }
        ensures unspent { OnOk result (¬ SpendsSoFar (with_document document.now self.old)) }
        ensures wants { OnErr result
            (document.now.definitions ≡ [] → document.now.sources ≡ [] → HasFailed self.old) }
    {
        let ignores = self.ignore_builtin_redefinitions;
        let State::Open(held) = &mut self.state else {
            return Err(BuilderError::Failed);
        };
        let before = held.next_number();
        if let Err(error) = held.take_document(document, ignores) {
            self.state = State::Failed(ExtensionSource::starting_at(before));
            return Err(error);
        }
        // The next number is one, so the numbers so far sufficed.
        let _is_a_number = held.next_number();
        self.added = AddedList::with(&self.added, ignores, document);
        Ok(())
    }

    /// The schema of what was added: each name's type is its first definition with the extensions of its kind
    /// folded in, wherever they stand. The types stand in the order of first definition, those that are
    /// adopted last. A directive's name means the first definition of it that isn't built-in (in file number
    /// 0), or else the last one.
    ///
    /// The schema's definition is the first one that was added with all schema extensions folded in. Where
    /// there is none, each object type with the default name of an operation is that operation's root. The
    /// extensions are folded in after those roots. With adoption there are no default roots where an
    /// extension names a root. The schema's sources are those of the documents, merged.
    ///
    /// `Faults`, with what could be built, sources included, comes exactly where what was added has faults.
    /// First come those found as definitions are added, in that order, then extensions of types without a
    /// definition. Then comes what is found at an implied definition of the schema, and extensions of the
    /// schema without one. `Memory` is out of memory. `ExtensionIds` comes only where the extensions folded
    /// pass the largest number, and a schema, with faults or without, only where they don't. `Failed` comes
    /// exactly after a refusal. With these three errors all that was added is dropped.
    pub fn build(self) -> Result<Schema, BuildFailure>
        ensures built { IfOk result (IsBuiltOf self) }
        ensures faults { IfErr result (λ failure. IfFaults failure (IsFoundIn self)) }
        ensures failed { HasFailed self ↔ (result ≡ Err BuildFailure.Failed) }
        ensures spent { result ≡ Err BuildFailure.ExtensionIds → SpendsAtBuild self }
        ensures unspent { HasBuilt result → ¬ SpendsAtBuild self }
    {
        let (built, _source) = self.build_with_source();
        built
    }

    /// What [`build`](SchemaBuilder::build) answers, and the source of numbers, never below the builder's
    /// first number. After a schema, or faults, it is at that number plus the extensions that were folded.
    /// After `Memory` or `ExtensionIds` it stands where it stood before the call. With `Failed` it is the one
    /// that was left.
    pub fn build_with_source(self) -> (Result<Schema, BuildFailure>, ExtensionSource)
        ensures built { IfOk result.0 (IsBuiltOf self) }
        ensures faults { IfErr result.0 (λ failure. IfFaults failure (IsFoundIn self)) }
        ensures failed { HasFailed self ↔ (result.0 ≡ Err BuildFailure.Failed) }
        ensures spent { result.0 ≡ Err BuildFailure.ExtensionIds → SpendsAtBuild self }
        ensures unspent { HasBuilt result.0 → ¬ SpendsAtBuild self }
        ensures source { HasBuilt result.0 → result.1 ≡ source_after self }
        ensures rolled_back { WasRefused result.0 → result.1 ≡ source_left self.start self.standing }
        ensures not_below { self.start ≤ next_number result.1 }
    {
        let SchemaBuilder {
            first_number: _,
            state,
            adopt_orphan_extensions,
            ignore_builtin_redefinitions: _,
            added: _,
        } = self;
        match state {
            State::Open(Added { tables, sources }) => tables.finish(
                sources,
                adopt_orphan_extensions,
            ),
            State::Failed(source) => (Err(BuildFailure::Failed), source),
        }
    }

    /// The names that are extended and not defined so far, in order of first extension, each as its first
    /// extension has it. None is the name of a type that is defined so far, and extensions of types alone
    /// wait under each (the law
    /// [`orphan_names_are_extended_and_not_defined`](crate::laws::orphan_names_are_extended_and_not_defined)).
    /// After a refusal there is none.
    pub fn iter_orphan_extension_types(&self) -> OrphanNames<'_>
        ensures { names_left result ≡ orphan_names (added_items (list_of self.now)) }
    {
        match &self.state {
            State::Open(held) => held.tables.orphan_names(),
            State::Failed(_) => OrphanNames::none(),
        }
    }
}

/// A copy stands for what the original stands for, with its options and sources, and draws the numbers that
/// the original draws. A copy of a builder that has failed has failed. The error is out of memory.
impl Clone for SchemaBuilder {
    ghost is_clone = { λ a b. b ≡ a };

    fn clone(&self) -> Result<SchemaBuilder, AllocError> {
        let state = self.state.clone()?;
        Ok(SchemaBuilder {
            first_number: self.first_number,
            state,
            adopt_orphan_extensions: self.adopt_orphan_extensions,
            ignore_builtin_redefinitions: self.ignore_builtin_redefinitions,
            added: AddedList::same(&self.added),
        })
    }
}
