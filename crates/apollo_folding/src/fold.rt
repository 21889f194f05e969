//! What a build folds with, and its steps: GraphQL specification of October 2021, sections 3.3.2, 3.4.3 and
//! 3.13.
ghost use Rattle.std.specs.Prelude.{◌≡◌, [], ◌∷◌, OnOk, IfOk, map, ◌++◌, Bool, IfErr, ◌≤◌, length};
ghost use Rattle.std.specs.List.{flat_map};
ghost use Rattle.graphql_nodes.specs.Tables.{values_of};
ghost use Rattle.apollo_component.specs.Extensions.{next_number};
ghost use Rattle.apollo_component.specs.declared.extension.ComponentOrigin.TheVariants as origins;
ghost use Rattle.apollo_types.specs.TypeWriteOut.{type_kind};
ghost use Rattle.apollo_meaning.specs.Faults.TypeFaults.{further_definition, orphan, part_faults};
ghost use Rattle.apollo_meaning.specs.Items.ListItems.{extended_parts};
ghost use Rattle.apollo_meaning.specs.Items.Parts.{schema_extension_part, kind_of, schema_definition_part};
ghost use Rattle.apollo_meaning.specs.Faults.RootFaults.{schema_orphan, schema_faults};
ghost use Rattle.apollo_meaning.specs.Directives.{Directives, AreDirectivesOf};
ghost use Rattle.apollo_meaning.specs.Faults.OtherFaults.{directive_faults};
ghost use Rattle.apollo_meaning.specs.Types.Meaning.{type_from};
ghost use Rattle.apollo_meaning.specs.Steps.Joining.{type_begun, type_begun_faults, schema_numbered};
ghost use Rattle.apollo_meaning.specs.Steps.Joining.{schema_begun, schema_begun_faults};
ghost use Rattle.apollo_meaning.specs.Steps.Joining.{schema_joining_faults};
ghost use Rattle.apollo_meaning.specs.Schema.Definition.{schema_from};
ghost use Rattle.apollo_folding.specs.Noting.{noting, having_folded};
ghost use Rattle.apollo_folding.specs.Joins.{ForFirst, Extends, FindsJoining, how_many, Joins, Finds};
ghost use Rattle.apollo_folding.specs.DeclaredParts.{part_seen};
ghost use Rattle.apollo_folding.specs.Refusals.{RefusedAs, SpentWith, after};

use crate::builder_error::BuilderError;
use crate::extension::extension_of;
use crate::faults::{kind_mismatch, redefinition};
use crate::from_ast::kind::{extend_node, type_of_definition};
use crate::from_ast::schema_definition::{bare, fold_schema};
use apollo_component::extension::{ComponentOrigin, ExtensionId, ExtensionSource};
use apollo_meaning::build_error::{BuildError, Fault};
use apollo_types::extended_type::ExtendedType;
use apollo_types::schema_definition::SchemaDefinition;
use graphql_ast::declaration_ref::TypeDeclarationRef;
use graphql_ast::definition::Definition;
use graphql_ast::type_system as ast;
use graphql_ast::type_system::{DirectiveDefinition, SchemaExtension};
use graphql_nodes::collections::hash_keys::HashKeys;
use graphql_nodes::collections::items::Items;
use graphql_nodes::collections::table::Table;
use graphql_nodes::name::Name;
use graphql_nodes::node::Node;
use graphql_nodes::type_kind::TypeKind;
use std::alloc::{AllocError, Global};

/// What a build folds with: the source of identities, and the faults found so far, in order. What is made
/// takes memory from this allocator, and its tables hash by these keys. Neither of these two changes.
#[derive(Drop)]
pub struct Fold {
    pub alloc: Global,
    pub keys: HashKeys,
    pub ids: ExtensionSource,
    pub faults: Items<Fault>,
}

/// A copy draws the numbers that the original draws, and hashes by its keys. The error is out of memory.
impl Clone for Fold {
    ghost is_clone = { λ a b. b ≡ a };

    fn clone(&self) -> Result<Fold, AllocError> {
        Ok(Fold {
            ids: ExtensionSource::starting_at(self.ids.next_number()),
            faults: self.faults.clone()?,
            ..*self
        })
    }
}

impl Fold {
    /// What draws from this source, makes tables that hash by these keys, and has found no fault.
    pub fn new(alloc: Global, keys: HashKeys, ids: ExtensionSource) -> Fold
        ensures { result ≡ record { alloc = alloc; keys = keys; ids = ids; faults = [] } }
    {
        Fold {
            alloc,
            keys,
            ids,
            faults: Items::new(alloc),
        }
    }

    /// Adds a fault at the end. The error is out of memory.
    pub fn note(&mut self, fault: Fault) -> Result<(), AllocError>
        ensures noted { OnOk result (self.new ≡ noting (fault ∷ []) self.old) }
        ensures rest { self.new ≡ record self.old { faults = self.new.faults } }
    {
        self.faults.push(fault)
    }

    /// Adds the fault of a further definition of a type's name at the end, unless the type is built-in and
    /// such definitions are ignored. Then nothing is added. The error is out of memory.
    pub fn note_redefinition(
        &mut self,
        previous: &ExtendedType,
        further: &TypeDeclarationRef<'_>,
        ignores: bool,
    ) -> Result<(), AllocError>
        ensures noted { OnOk result (ForFirst previous.now (λ d. self.new
            ≡ noting (further_definition d (record (part_seen further.now) { ignorable = ignores }))
            self.old)) }
        ensures rest { self.new ≡ record self.old { faults = self.new.faults } }
    {
        if previous.is_built_in() && ignores {
            return Ok(());
        }
        self.note(redefinition(previous, further)?)
    }

    /// Notes an extension whose name has no definition.
    fn note_orphan(&mut self, definition: &Definition) -> Result<(), AllocError>
        ensures noted { OnOk result
            (self.new ≡ noting (map orphan (extended_parts (definition.now ∷ []))) self.old) }
        ensures rest { self.new ≡ record self.old { faults = self.new.faults } }
    {
        let Some(extension) = extension_of(definition) else {
            return Ok(());
        };
        let error = BuildError::OrphanTypeExtension {
            name: extension.name.clone()?,
        };
        self.note((extension.name.location(), error))
    }

    /// Notes extensions whose name has no definition, in order.
    fn note_orphans_of(&mut self, extensions: &[Definition]) -> Result<(), AllocError>
        ensures noted { OnOk result
            (self.new ≡ noting (map orphan (extended_parts extensions.now)) self.old) }
        ensures rest { self.new ≡ record self.old { faults = self.new.faults } }
    {
        for extension in extensions {
            self.note_orphan(extension)?;
        }
        Ok(())
    }

    /// Adds the fault of each extension of a type that still waits (section 3.4.3) at the end. They come name
    /// by name, and of one name in order. The error is out of memory.
    pub fn note_orphans(
        &mut self,
        waiting: &Table<Name, Items<Definition>>,
    ) -> Result<(), AllocError>
        ensures noted { OnOk result (self.new
            ≡ noting (map orphan (flat_map extended_parts (values_of waiting.now))) self.old) }
        ensures rest { self.new ≡ record self.old { faults = self.new.faults } }
    {
        for extensions in waiting.values() {
            self.note_orphans_of(extensions.as_slice())?;
        }
        Ok(())
    }

    /// Adds the fault of each of these extensions of a schema that has no definition (section 3.3.2) at the
    /// end, in order. The error is out of memory.
    pub fn note_schema_orphans(
        &mut self,
        extensions: &[Node<SchemaExtension>],
    ) -> Result<(), AllocError>
        ensures noted { OnOk result (self.new
            ≡ noting (map schema_orphan (map schema_extension_part extensions.now)) self.old) }
        ensures rest { self.new ≡ record self.old { faults = self.new.faults } }
    {
        for extension in extensions {
            self.note((extension.location(), BuildError::OrphanSchemaExtension))?;
        }
        Ok(())
    }

    /// Takes a directive definition: GraphQL specification of October 2021, section 3.13.
    ///
    /// The first of a name goes last. One whose name has a built-in definition replaces that, in its place. A
    /// further one of a name that isn't built-in is dropped, and its fault added at the end. The error is out
    /// of memory.
    pub fn define_directive(
        &mut self,
        table: &mut Table<Name, Node<DirectiveDefinition>>,
        node: &Node<DirectiveDefinition>,
    ) -> Result<(), AllocError>
        ensures defined { OnOk result ((ds : Directives) → AreDirectivesOf ds table.old
            → AreDirectivesOf (ds ++ node.now ∷ []) table.new) }
        ensures faults { OnOk result ((ds : Directives) → AreDirectivesOf ds table.old
            → self.new ≡ noting (directive_faults ds node.now) self.old) }
        ensures rest { self.new ≡ record self.old { faults = self.new.faults } }
    {
        let Some(previous) = table.get_mut(&node.name) else {
            table.insert(node.name.clone()?, node.clone()?)?;
            return Ok(());
        };
        if previous.is_built_in() {
            *previous = node.clone()?;
            return Ok(());
        }
        self.note((
            node.name.location(),
            BuildError::DirectiveDefinitionCollision {
                previous_location: previous.name.location(),
                name: node.name.clone()?,
            },
        ))?;
        Ok(())
    }

    /// The type of a definition alone. Components that are there already are noted.
    fn type_from_ast(&mut self, head: &TypeDeclarationRef<'_>) -> Result<ExtendedType, AllocError>
        ensures made { IfOk result (λ ty. let d = part_seen head.now in
            ty ≡ type_from d ((origins.Definition, d) ∷ [])) }
        ensures faults { OnOk result (self.new ≡ noting (part_faults [] (part_seen head.now)) self.old) }
        ensures rest { self.new ≡ record self.old { faults = self.new.faults } }
    {
        Ok(match head.kind {
            TypeKind::Scalar => ExtendedType::Scalar(type_of_definition(self, head)?),
            TypeKind::Object => ExtendedType::Object(type_of_definition(self, head)?),
            TypeKind::Interface => ExtendedType::Interface(type_of_definition(self, head)?),
            TypeKind::Union => ExtendedType::Union(type_of_definition(self, head)?),
            TypeKind::Enum => ExtendedType::Enum(type_of_definition(self, head)?),
            TypeKind::InputObject => ExtendedType::InputObject(type_of_definition(self, head)?),
        })
    }

    /// Folds an extension in under the source's next identity, if it has the type's kind (section 3.4.3).
    /// What is there already is left out, and its faults added at the end. One of another kind is a fault,
    /// and leaves the type and the source as they were.
    ///
    /// `Memory` is out of memory. `ExtensionIds` comes only where the extension has the type's kind, and the
    /// source no number left.
    pub fn extend_type(
        &mut self,
        ty: &mut ExtendedType,
        extension: &TypeDeclarationRef<'_>,
    ) -> Result<(), BuilderError>
        ensures folded { OnOk result (Extends ty.old self.old.ids (part_seen extension.now ∷ []) ty.new) }
        ensures faults { OnOk result
            (FindsJoining ty.old (part_seen extension.now ∷ []) self.old.faults self.new.faults) }
        ensures kind { OnOk result (type_kind ty.new ≡ type_kind ty.old) }
        ensures next { OnOk result (self.new.ids
            ≡ after self.old.ids (how_many (type_kind ty.old) (part_seen extension.now ∷ []))) }
        ensures rest { self.new ≡ record self.old { ids = self.new.ids; faults = self.new.faults } }
        ensures refused { IfErr result (λ error.
            RefusedAs error
            (SpentWith self.old.ids (how_many (type_kind ty.old) (part_seen extension.now ∷ [])))) }
    {
        match (&mut *ty, extension.kind) {
            (ExtendedType::Scalar(node), TypeKind::Scalar) => extend_node(self, node, extension),
            (ExtendedType::Object(node), TypeKind::Object) => extend_node(self, node, extension),
            (ExtendedType::Interface(node), TypeKind::Interface) => {
                extend_node(self, node, extension)
            }
            (ExtendedType::Union(node), TypeKind::Union) => extend_node(self, node, extension),
            (ExtendedType::Enum(node), TypeKind::Enum) => extend_node(self, node, extension),
            (ExtendedType::InputObject(node), TypeKind::InputObject) => {
                extend_node(self, node, extension)
            }
            _ => {
                self.note(kind_mismatch(ty, extension)?)?;
                Ok(())
            }
        }
    }

    /// Folds a definition in, if it is an extension of a type.
    fn extend_by(
        &mut self,
        ty: &mut ExtendedType,
        definition: &Definition,
    ) -> Result<(), BuilderError>
        ensures folded { OnOk result
            (Extends ty.old self.old.ids (extended_parts (definition.now ∷ [])) ty.new) }
        ensures faults { OnOk result
            (FindsJoining ty.old (extended_parts (definition.now ∷ [])) self.old.faults self.new.faults) }
        ensures kind { OnOk result (type_kind ty.new ≡ type_kind ty.old) }
        ensures next { OnOk result (self.new.ids
            ≡ after self.old.ids (how_many (type_kind ty.old) (extended_parts (definition.now ∷ [])))) }
        ensures rest { self.new ≡ record self.old { ids = self.new.ids; faults = self.new.faults } }
        ensures refused { IfErr result (λ error.
            RefusedAs error
            (SpentWith self.old.ids
            (how_many (type_kind ty.old) (extended_parts (definition.now ∷ []))))) }
    {
        match extension_of(definition) {
            Some(extension) => self.extend_type(ty, &extension),
            None => Ok(()),
        }
    }

    /// Folds extensions in, in order.
    fn extend_by_all(
        &mut self,
        ty: &mut ExtendedType,
        extensions: &[Definition],
    ) -> Result<(), BuilderError>
        ensures folded { OnOk result (Extends ty.old self.old.ids (extended_parts extensions.now) ty.new) }
        ensures faults { OnOk result
            (FindsJoining ty.old (extended_parts extensions.now) self.old.faults self.new.faults) }
        ensures next { OnOk result (self.new.ids
            ≡ after self.old.ids (how_many (type_kind ty.old) (extended_parts extensions.now))) }
        ensures rest { self.new ≡ record self.old { ids = self.new.ids; faults = self.new.faults } }
        ensures refused { IfErr result (λ error.
            RefusedAs error
            (SpentWith self.old.ids (how_many (type_kind ty.old) (extended_parts extensions.now)))) }
    {
        for extension in extensions {
            self.extend_by(ty, extension)?;
        }
        Ok(())
    }

    /// The type of a definition with these extensions folded in, in order, as
    /// [`extend_type`](Fold::extend_type) does. The faults of the definition are added at the end, and then
    /// those of the extensions.
    ///
    /// `Memory` is out of memory. `ExtensionIds` comes only where the source has fewer numbers left than
    /// there are extensions of the definition's kind.
    pub fn begin_type(
        &mut self,
        head: &TypeDeclarationRef<'_>,
        extensions: &[Definition],
    ) -> Result<ExtendedType, BuilderError>
        ensures made { IfOk result (λ ty. (b : Bool)
            → ty ≡ type_begun (next_number self.old.ids) (record (part_seen head.now) { ignorable = b })
            (extended_parts extensions.now)) }
        ensures faults { OnOk result ((b : Bool)
            → self.new.faults
            ≡ self.old.faults
            ++ type_begun_faults (record (part_seen head.now) { ignorable = b })
            (extended_parts extensions.now)) }
        ensures next { OnOk result (self.new.ids
            ≡ after self.old.ids
            (how_many (kind_of (part_seen head.now)) (extended_parts extensions.now))) }
        ensures rest { self.new ≡ record self.old { ids = self.new.ids; faults = self.new.faults } }
        ensures refused { IfErr result (λ error.
            RefusedAs error
            (SpentWith self.old.ids
            (how_many (kind_of (part_seen head.now)) (extended_parts extensions.now)))) }
    {
        let mut ty = self.type_from_ast(head)?;
        self.extend_by_all(&mut ty, extensions)?;
        Ok(ty)
    }

    /// The schema definition of a definition alone.
    fn schema_from_ast(
        &mut self,
        node: &Node<ast::SchemaDefinition>,
    ) -> Result<Node<SchemaDefinition>, AllocError>
        ensures made { IfOk result (λ made. let head = schema_definition_part node.now in
            made ≡ schema_from head ((origins.Definition, head) ∷ [])) }
        ensures faults { OnOk result (self.new
            ≡ noting (schema_faults [] (schema_definition_part node.now)) self.old) }
        ensures rest { self.new ≡ record self.old { faults = self.new.faults } }
    {
        let mut definition = bare(self.alloc, node)?;
        fold_schema(
            &mut definition,
            node.directives.as_slice(),
            node.root_operations.as_slice(),
            ComponentOrigin::Definition,
            &mut self.faults,
        )?;
        let made = node.same_location(self.alloc, definition)?;
        Ok(made)
    }

    /// Folds an extension of the schema in under the source's next identity (section 3.3.2). A root whose
    /// operation has one is left out, and its fault added at the end.
    ///
    /// `Memory` is out of memory. `ExtensionIds` comes only where the source has no number left.
    pub fn extend_schema(
        &mut self,
        node: &mut Node<SchemaDefinition>,
        extension: &Node<SchemaExtension>,
    ) -> Result<(), BuilderError>
        ensures folded { OnOk result
            (Joins schema_from node.old (λ _.
            schema_numbered (next_number self.old.ids) (schema_extension_part extension.now ∷ []))
            node.new) }
        ensures faults { OnOk result
            (Finds schema_from node.old (λ _ parts.
            schema_faults parts (schema_extension_part extension.now)) self.old.faults self.new.faults) }
        ensures next { OnOk result (self.new
            ≡ record self.old { ids = after self.old.ids 1; faults = self.new.faults }) }
        ensures grows { next_number self.old.ids ≤ next_number self.new.ids }
        ensures rest { self.new ≡ record self.old { ids = self.new.ids; faults = self.new.faults } }
        ensures refused { IfErr result (λ error. RefusedAs error (SpentWith self.old.ids 1)) }
    {
        let id = ExtensionId::new(&mut self.ids, extension)?;
        fold_schema(
            node.make_mut()?,
            extension.directives.as_slice(),
            extension.root_operations.as_slice(),
            ComponentOrigin::Extension(id),
            &mut self.faults,
        )?;
        Ok(())
    }

    /// Folds extensions in, in order.
    fn extend_schema_by_all(
        &mut self,
        node: &mut Node<SchemaDefinition>,
        extensions: &[Node<SchemaExtension>],
    ) -> Result<(), BuilderError>
        ensures folded { OnOk result
            (Joins schema_from node.old (λ _.
            schema_numbered (next_number self.old.ids) (map schema_extension_part extensions.now))
            node.new) }
        ensures faults { OnOk result
            (Finds schema_from node.old (λ _ parts.
            schema_joining_faults parts (map schema_extension_part extensions.now)) self.old.faults
            self.new.faults) }
        ensures next { OnOk result (self.new
            ≡ record self.old {
              ids = after self.old.ids (length extensions.now);
              faults = self.new.faults;
            }) }
        ensures grows { next_number self.old.ids ≤ next_number self.new.ids }
        ensures rest { self.new ≡ record self.old { ids = self.new.ids; faults = self.new.faults } }
        ensures refused { IfErr result (λ error.
            RefusedAs error (SpentWith self.old.ids (length extensions.now))) }
    {
        for extension in extensions {
            self.extend_schema(node, extension)?;
        }
        Ok(())
    }

    /// The schema definition of a definition with these extensions folded in, in order, as
    /// [`extend_schema`](Fold::extend_schema) does, at the location of the definition. The faults of the
    /// definition are added at the end, and then those of the extensions.
    ///
    /// `Memory` is out of memory. `ExtensionIds` comes only where the source has fewer numbers left than
    /// there are extensions.
    pub fn begin_schema(
        &mut self,
        node: &Node<ast::SchemaDefinition>,
        extensions: &[Node<SchemaExtension>],
    ) -> Result<Node<SchemaDefinition>, BuilderError>
        ensures made { IfOk result (λ made. made
            ≡ schema_begun (next_number self.old.ids) (schema_definition_part node.now)
            (map schema_extension_part extensions.now)) }
        ensures folded { OnOk result (self.new
            ≡ having_folded (length extensions.now)
            (schema_begun_faults (schema_definition_part node.now)
            (map schema_extension_part extensions.now)) self.old) }
        ensures grows { next_number self.old.ids ≤ next_number self.new.ids }
        ensures rest { self.new ≡ record self.old { ids = self.new.ids; faults = self.new.faults } }
        ensures refused { IfErr result (λ error.
            RefusedAs error (SpentWith self.old.ids (length extensions.now))) }
    {
        let mut definition = self.schema_from_ast(node)?;
        self.extend_schema_by_all(&mut definition, extensions)?;
        Ok(definition)
    }
}
