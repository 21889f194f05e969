//! What a builder holds, and the end of its list: what that leaves to adopt, to imply and to refuse, and the
//! schema.
ghost use Rattle.std.specs.Prelude.{◌≡◌, ◌≢◌, false, ◌+◌, ◌^◌, ◌≤◌, [], ◌∷◌, length, OnOk, OnErr, IfOk};
ghost use Rattle.std.specs.Prelude.{IfErr, List, ℕ, ◌++◌, Err};
ghost use Rattle.graphql_ast.specs.Definitions.{definition_location};
ghost use Rattle.graphql_ast.specs.DefinitionTexts.{definition_text};
ghost use Rattle.graphql_ast.specs.declared.declaration_ref.DeclarationRef.TheVariants as seen;
ghost use Rattle.apollo_component.specs.Extensions.{next_number, source_at};
ghost use Rattle.apollo_meaning.specs.Items.Parts.{schema_definition_part, schema_extension_part};
ghost use Rattle.apollo_meaning.specs.Items.ListItems.{Extended, ListItem, SchemaDefined, SchemaExtended};
ghost use Rattle.apollo_meaning.specs.Items.ListItems.{added, added_item, added_items, item_of, schema_item};
ghost use Rattle.apollo_meaning.specs.BuiltInTable.{built_in_definitions};
ghost use Rattle.apollo_meaning.specs.Completion.OrphanNames.{orphan_names};
ghost use Rattle.apollo_meaning.specs.Completion.Adoption.{with_adopted};
ghost use Rattle.apollo_meaning.specs.Completion.ImpliedSchema.{implied_schema, completed};
ghost use Rattle.apollo_meaning.specs.Schema.Whole.{folds};
ghost use Rattle.apollo_meaning.specs.Faults.ListFaults.{faults_of};
ghost use Rattle.apollo_meaning.specs.Order.SpentIds.{SpendsIds};
ghost use Rattle.apollo_meaning.specs.declared.build_error.BuildError.TheVariants as errors;
ghost use Rattle.apollo_folding.specs.DeclaredParts.{item_seen, part_seen, definition_seen};
ghost use Rattle.apollo_folding.specs.Noting.{noting};
ghost use Rattle.apollo_folding.specs.Refusals.{RefusedAs};
ghost use Rattle.apollo_folding.specs.Adopting.{adopted_for, adopted_for_each};
ghost use Rattle.apollo_schema.specs.NamesLeft.{names_left};
ghost use Rattle.apollo_schema.specs.Stands.{Stands, Ends, Completes};
ghost use Rattle.apollo_schema.specs.Takes.{Takes, SpentBy, with_schema, Becomes, SpentOn, ForLists};
ghost use Rattle.apollo_schema.specs.Takes.{ForCompleted};
ghost use Rattle.apollo_schema.specs.MeantSchema.{MeansSchema, IsPartOf};
ghost use Rattle.apollo_schema.specs.BuildAnswers.{IfFaults, HasBuilt, WasRefused};

use crate::build_failure::{BuildFailure, WithErrors, refusal};
use crate::orphan_names::OrphanNames;
use crate::schema::{Schema, definition_or_none};
use apollo_component::extension::ExtensionSource;
use apollo_folding::adoption::{adopted_from, first_extensions, implied_definition};
use apollo_folding::builder_error::BuilderError;
use apollo_folding::extension::extension_of;
use apollo_folding::fold::Fold;
use apollo_folding::waiting::{add_waiting, take_waiting};
use apollo_meaning::build_error::BuildError;
use apollo_meaning::built_in::built_in_definitions;
use apollo_types::extended_type::ExtendedType;
use apollo_types::schema_definition::SchemaDefinition;
use graphql_ast::declaration_ref::{DeclarationRef, TypeDeclarationRef};
use graphql_ast::definition::Definition;
use graphql_ast::type_system as ast;
use graphql_ast::type_system::{DirectiveDefinition, SchemaExtension};
use graphql_nodes::collections::hash_keys::HashKeys;
use graphql_nodes::collections::items::Items;
use graphql_nodes::collections::static_text::StaticText;
use graphql_nodes::collections::table::Table;
use graphql_nodes::name::Name;
use graphql_nodes::node::Node;
use graphql_nodes::source::SourceMap;
use graphql_nodes::take_apart;
use std::alloc::{AllocError, Global};
use std::mem;

/// What a builder holds until it fails. An extension before its definition waits under its name. A name that
/// is defined keeps an empty list, so that taking its extensions out moves no other.
pub struct Tables {
    schema_definition: Option<Node<SchemaDefinition>>,
    schema_extensions: Items<Node<SchemaExtension>>,
    types: Table<Name, ExtendedType>,
    directive_definitions: Table<Name, Node<DirectiveDefinition>>,
    waiting: Table<Name, Items<Definition>>,
    fold: Fold,
}

impl Drop for Tables {
    fn drop(self) {
        take_apart!(self: schema_definition, schema_extensions, types, directive_definitions, waiting, fold);
    }
}

/// Puts a copy of a value in the place of another.
fn copy_into<T: Clone + Drop>(target: &mut T, original: &T) -> Result<(), AllocError>
    ensures { OnOk result (T.Clone.is_clone original.now target.new) }
{
    *target = original.clone()?;
    Ok(())
}

impl Tables {
    /// Tables of no definition, which fold with this.
    fn new(fold: Fold) -> Tables
        ensures stands { fold.faults ≡ [] → Stands (next_number fold.ids) [] result }
        ensures given { result.fold ≡ fold }
    {
        Tables {
            schema_definition: None,
            schema_extensions: Items::new(fold.alloc),
            types: Table::with_keys(fold.alloc, fold.keys),
            directive_definitions: Table::with_keys(fold.alloc, fold.keys),
            waiting: Table::with_keys(fold.alloc, fold.keys),
            fold,
        }
    }

    /// Tables of the built-in definitions, which hash by these keys, as do those of their types. The error is
    /// out of memory.
    pub fn with_built_ins(
        alloc: Global,
        keys: HashKeys,
        ids: ExtensionSource,
    ) -> Result<Tables, AllocError>
        ensures { IfOk result (Stands (next_number ids) (added_items (added false built_in_definitions))) }
    {
        let mut tables = Tables::new(Fold::new(alloc, keys, ids));
        let definitions = built_in_definitions(alloc)?;
        match tables.take(definitions.as_slice(), false) {
            Ok(()) => Ok(tables),
            Err(_) => Err(AllocError),
        }
    }

    /// The number that the source's next identity will have.
    pub fn next_number(&self) -> u64
        ensures { result ≡ next_number self.now.fold.ids }
    {
        self.fold.ids.next_number()
    }

    /// Takes the definition of a type, under this setting of whether redefinitions of built-in types are
    /// ignored.
    fn define(
        &mut self,
        definition: &TypeDeclarationRef<'_>,
        ignores: bool,
    ) -> Result<(), BuilderError>
        ensures stands { OnOk result (Takes self.old (definition_seen ignores definition.now ∷ []) self.new) }
        ensures refused { IfErr result (λ error.
            RefusedAs error (SpentBy self.old (definition_seen ignores definition.now ∷ []))) }
    {
        if let Some(previous) = self.types.get(definition.name) {
            self.fold.note_redefinition(previous, definition, ignores)?;
            return Ok(());
        }
        let extensions = take_waiting(self.fold.alloc, &mut self.waiting, definition.name);
        let ty = self.fold.begin_type(definition, extensions.as_slice())?;
        self.types.insert(definition.name.clone()?, ty)?;
        Ok(())
    }

    /// Takes an extension of a type, which this definition of the document is.
    fn extend(
        &mut self,
        extension: &TypeDeclarationRef<'_>,
        definition: &Definition,
    ) -> Result<(), BuilderError>
        ensures stands { OnOk result (item_of definition.now ≡ Extended (part_seen extension.now)
            → Takes self.old (Extended (part_seen extension.now) ∷ []) self.new) }
        ensures refused { IfErr result (λ error.
            RefusedAs error (SpentBy self.old (Extended (part_seen extension.now) ∷ []))) }
    {
        let Some(ty) = self.types.get_mut(extension.name) else {
            add_waiting(
                self.fold.alloc,
                &mut self.waiting,
                extension.name,
                definition,
            )?;
            return Ok(());
        };
        self.fold.extend_type(ty, extension)?;
        Ok(())
    }

    /// Takes a definition or extension of a type, which this definition of the document declares.
    fn take_type(
        &mut self,
        declaration: &TypeDeclarationRef<'_>,
        definition: &Definition,
        ignores: bool,
    ) -> Result<(), BuilderError>
        ensures stands { OnOk result (item_of definition.now ≡ item_seen (seen.Type declaration.now)
            → Takes self.old (added_item (ignores, definition.now) ∷ []) self.new) }
        ensures refused { IfErr result (λ error. item_of definition.now
            ≡ item_seen (seen.Type declaration.now)
            → RefusedAs error (SpentBy self.old (added_item (ignores, definition.now) ∷ []))) }
    {
        if declaration.is_extension {
            return self.extend(declaration, definition);
        }
        self.define(declaration, ignores)
    }

    /// Puts a definition of the schema, with the extensions that wait for it folded in.
    fn put_schema(&mut self, node: &Node<ast::SchemaDefinition>) -> Result<(), BuilderError>
        ensures put { OnOk result (self.new ≡ with_schema self.old (schema_definition_part node.now)) }
        ensures refused { IfErr result (λ error.
            RefusedAs error (2 ^ 64 ≤ next_number self.old.fold.ids + length self.old.schema_extensions)) }
    {
        let extensions = mem::replace(&mut self.schema_extensions, Items::new(self.fold.alloc));
        let definition = self.fold.begin_schema(node, extensions.as_slice())?;
        self.schema_definition = Some(definition);
        Ok(())
    }

    /// Takes a definition of the schema.
    fn define_schema(&mut self, node: &Node<ast::SchemaDefinition>) -> Result<(), BuilderError>
        ensures stands { OnOk result
            (Takes self.old (SchemaDefined (schema_definition_part node.now) ∷ []) self.new) }
        ensures refused { IfErr result (λ error.
            RefusedAs error (SpentBy self.old (SchemaDefined (schema_definition_part node.now) ∷ []))) }
    {
        if let Some(previous) = &self.schema_definition {
            let error = BuildError::SchemaDefinitionCollision {
                previous_location: previous.location(),
            };
            self.fold.note((node.location(), error))?;
            return Ok(());
        }
        self.put_schema(node)?;
        Ok(())
    }

    /// Takes an extension of the schema.
    fn extend_schema(&mut self, node: &Node<SchemaExtension>) -> Result<(), BuilderError>
        ensures stands { OnOk result
            (Takes self.old (SchemaExtended (schema_extension_part node.now) ∷ []) self.new) }
        ensures refused { IfErr result (λ error.
            RefusedAs error (SpentBy self.old (SchemaExtended (schema_extension_part node.now) ∷ []))) }
    {
        let Some(definition) = &mut self.schema_definition else {
            self.schema_extensions.push(node.clone()?)?;
            return Ok(());
        };
        self.fold.extend_schema(definition, node)?;
        Ok(())
    }

    /// Notes a definition that does not belong into a schema.
    fn note_executable(&mut self, definition: &Definition) -> Result<(), AllocError>
        ensures { let error = errors.ExecutableDefinition (definition_text definition.now) in
            OnOk result (self.new
            ≡ record self.old {
              fold = noting ((definition_location definition.now, error) ∷ []) self.old.fold;
            }) }
    {
        let error = BuildError::ExecutableDefinition {
            describe: StaticText::new(definition.describe()),
        };
        self.fold.note((definition.location(), error))
    }

    /// Takes a definition, under this setting of whether redefinitions of built-in types are ignored.
    fn take_one(&mut self, definition: &Definition, ignores: bool) -> Result<(), BuilderError>
        ensures stands { OnOk result (Takes self.old (added_item (ignores, definition.now) ∷ []) self.new) }
        ensures refused { IfErr result (λ error.
            RefusedAs error (SpentBy self.old (added_item (ignores, definition.now) ∷ []))) }
    {
        if let DeclarationRef::Type(declaration) = DeclarationRef::of(definition) {
            return self.take_type(&declaration, definition, ignores);
        }
        match definition {
            Definition::SchemaDefinition(node) => self.define_schema(node)?,
            Definition::SchemaExtension(node) => self.extend_schema(node)?,
            Definition::DirectiveDefinition(node) => {
                self.fold
                    .define_directive(&mut self.directive_definitions, node)?;
            }
            _ => self.note_executable(definition)?,
        }
        Ok(())
    }

    /// Takes definitions in order, under this setting of whether redefinitions of built-in types are ignored.
    pub fn take(&mut self, definitions: &[Definition], ignores: bool) -> Result<(), BuilderError>
        ensures stands { OnOk result (Takes self.old (added_items (added ignores definitions.now)) self.new) }
        ensures refused { IfErr result (λ error.
            RefusedAs error (SpentBy self.old (added_items (added ignores definitions.now)))) }
        ensures wants { OnErr result (definitions.now ≢ []) }
    {
        for definition in definitions {
            self.take_one(definition, ignores)?;
        }
        Ok(())
    }

    /// The names that are extended and not defined so far, in order of first extension, each as its first
    /// extension has it.
    pub fn orphan_names(&self) -> OrphanNames<'_>
        ensures { (start : ℕ) (xs : List ListItem)
            → Stands start xs self.now → names_left result ≡ orphan_names xs }
    {
        OrphanNames::of(&self.waiting)
    }

    /// Takes over copies of all that others hold, but for what they fold with.
    fn copy_from(&mut self, original: &Tables) -> Result<(), AllocError>
        ensures { OnOk result (self.new ≡ record original.now { fold = self.old.fold }) }
    {
        copy_into(&mut self.schema_definition, &original.schema_definition)?;
        copy_into(&mut self.schema_extensions, &original.schema_extensions)?;
        copy_into(&mut self.types, &original.types)?;
        copy_into(
            &mut self.directive_definitions,
            &original.directive_definitions,
        )?;
        copy_into(&mut self.waiting, &original.waiting)?;
        Ok(())
    }

    /// Takes the empty definition by which this extension of a type is adopted.
    fn adopt_one(&mut self, extension: &Definition) -> Result<(), BuilderError>
        ensures stands { OnOk result (Takes self.old (adopted_for (extension.now ∷ [])) self.new) }
        ensures refused { IfErr result (λ error.
            RefusedAs error (SpentBy self.old (adopted_for (extension.now ∷ [])))) }
    {
        let Some(said) = extension_of(extension) else {
            return Ok(());
        };
        self.define(&adopted_from(&said), false)
    }

    /// Takes the empty definitions by which these extensions of types are adopted, in order.
    fn adopt_each(&mut self, firsts: &[Definition]) -> Result<(), BuilderError>
        ensures stands { OnOk result (Takes self.old (adopted_for_each firsts.now) self.new) }
        ensures refused { IfErr result (λ error.
            RefusedAs error (SpentBy self.old (adopted_for_each firsts.now))) }
    {
        for extension in firsts {
            self.adopt_one(extension)?;
        }
        Ok(())
    }

    /// Takes an empty definition for each name that is extended only, where such names are adopted.
    fn adopt(&mut self, adopts: bool) -> Result<(), BuilderError>
        ensures stands { OnOk result (Becomes self.old (with_adopted adopts) self.new) }
        ensures refused { IfErr result (λ error. RefusedAs error (SpentOn self.old (with_adopted adopts))) }
    {
        if !adopts {
            return Ok(());
        }
        let firsts = first_extensions(self.fold.alloc, &self.waiting)?;
        self.adopt_each(firsts.as_slice())?;
        Ok(())
    }

    /// The schema definition that is implied where none stands.
    fn implied_schema(
        &self,
        adopts: bool,
    ) -> Result<Option<Node<ast::SchemaDefinition>>, AllocError>
        ensures { IfOk result (λ implied. (start : ℕ) (xs : List ListItem) → Stands start xs self.now
            → schema_item implied ≡ implied_schema adopts xs) }
    {
        if self.schema_definition.is_some() {
            return Ok(None);
        }
        let implied = implied_definition(
            self.fold.alloc,
            self.schema_extensions.as_slice(),
            &self.types,
            adopts,
        )?;
        Ok(implied)
    }

    /// Ends a list: what still waits is at fault, and a schema definition may be implied.
    fn end(&mut self, adopts: bool) -> Result<(), BuilderError>
        ensures ends { OnOk result ((start : ℕ) (xs : List ListItem) → Stands start xs self.old
            → Ends start (implied_schema adopts xs) xs self.new) }
        ensures refused { IfErr result (λ error.
            RefusedAs error (SpentOn self.old (λ xs. xs ++ implied_schema adopts xs))) }
    {
        let implied = self.implied_schema(adopts)?;
        self.fold.note_orphans(&self.waiting)?;
        let Some(node) = implied else {
            self.fold
                .note_schema_orphans(self.schema_extensions.as_slice())?;
            return Ok(());
        };
        self.put_schema(&node)?;
        Ok(())
    }

    /// Completes a list: types are adopted, and it ends.
    fn complete(&mut self, adopts: bool) -> Result<(), BuilderError>
        ensures completes { OnOk result ((start : ℕ) (xs : List ListItem) → Stands start xs self.old
            → Completes start adopts xs self.new) }
        ensures refused { IfErr result (λ error. RefusedAs error (SpentOn self.old (completed adopts))) }
    {
        self.adopt(adopts)?;
        self.end(adopts)?;
        Ok(())
    }

    /// What was built, with these source files, and the source: the schema where nothing was found, or else
    /// what could be built beside the faults. The error is out of memory, and puts the source back at this
    /// number.
    fn into_schema(
        self,
        sources: SourceMap,
        before: u64,
    ) -> (Result<Schema, BuildFailure>, ExtensionSource)
        ensures built { IfOk result.0 (λ schema.
            ForCompleted self (λ start adopts xs. MeansSchema start adopts xs schema)) }
        ensures faultless { OnOk result.0 (ForCompleted self (λ start adopts xs. faults_of adopts xs ≡ [])) }
        ensures faults { IfErr result.0 (λ failure.
            IfFaults failure (λ partial faults.
            ForCompleted self (λ start adopts xs. IsPartOf start adopts xs sources partial faults))) }
        ensures sources { IfOk result.0 (λ schema. schema.sources ≡ sources) }
        ensures failed { result.0 ≢ Err BuildFailure.Failed }
        ensures unspent { result.0 ≢ Err BuildFailure.ExtensionIds }
        ensures source { HasBuilt result.0 → result.1 ≡ self.fold.ids }
        ensures rolled_back { WasRefused result.0 → result.1 ≡ source_at before }
    {
        let Tables {
            schema_definition,
            schema_extensions: _,
            types,
            directive_definitions,
            waiting: _,
            fold,
        } = self;
        let Fold {
            alloc,
            keys: _,
            ids,
            faults,
        } = fold;
        let Ok(schema_definition) = definition_or_none(alloc, schema_definition) else {
            return (
                Err(BuildFailure::Memory),
                ExtensionSource::starting_at(before),
            );
        };
        let Ok(schema) = Schema::from_parts(
            alloc,
            sources,
            schema_definition,
            directive_definitions,
            types,
        ) else {
            return (
                Err(BuildFailure::Memory),
                ExtensionSource::starting_at(before),
            );
        };
        if faults.is_empty() {
            return (Ok(schema), ids);
        }
        let found = WithErrors {
            partial: schema,
            errors: faults.into_vec(),
        };
        (Err(BuildFailure::Faults(found)), ids)
    }

    /// Completes the list, and answers what was built, with these source files, and the source. After a
    /// refusal that is the one from before the call.
    pub fn finish(
        self,
        sources: SourceMap,
        adopts: bool,
    ) -> (Result<Schema, BuildFailure>, ExtensionSource)
        ensures built { IfOk result.0 (λ schema.
            ForLists self (λ start xs. MeansSchema start adopts xs schema)) }
        ensures faultless { OnOk result.0 (ForLists self (λ start xs. faults_of adopts xs ≡ [])) }
        ensures faults { IfErr result.0 (λ failure.
            IfFaults failure (λ partial faults.
            ForLists self (λ start xs. IsPartOf start adopts xs sources partial faults))) }
        ensures sources { IfOk result.0 (λ schema. schema.sources ≡ sources) }
        ensures failed { result.0 ≢ Err BuildFailure.Failed }
        ensures spent { result.0 ≡ Err BuildFailure.ExtensionIds
            → ForLists self (λ start xs. SpendsIds start adopts xs) }
        ensures source { HasBuilt result.0
            → ForLists self (λ start xs. result.1 ≡ source_at (start + folds adopts xs)) }
        ensures rolled_back { WasRefused result.0 → result.1 ≡ self.fold.ids }
        ensures not_below { ForLists self (λ start xs. start ≤ next_number result.1) }
    {
        let before = self.next_number();
        let mut tables = self;
        match tables.complete(adopts) {
            Ok(()) => tables.into_schema(sources, before),
            Err(error) => (Err(refusal(error)), ExtensionSource::starting_at(before)),
        }
    }
}

/// A copy draws the numbers that the original draws, and hashes by its keys.
impl Clone for Tables {
    ghost is_clone = { λ a b. b ≡ a };

    fn clone(&self) -> Result<Tables, AllocError> {
        let mut copy = Tables::new(self.fold.clone()?);
        copy.copy_from(self)?;
        Ok(copy)
    }
}
