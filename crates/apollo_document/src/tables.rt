//! What a builder of documents holds until it fails, and how it takes definitions: GraphQL specification of
//! October 2021, sections 2.2 to 2.8.
ghost use Rattle.std.specs.Prelude.{◌≡◌, ◌≢◌, [], ◌∷◌, Bool, true, Option, None, Some};
ghost use Rattle.std.specs.Prelude.{IfOk, OnOk, OnErr, option_map};
ghost use Rattle.std.specs.Option.{option_copied};
ghost use Rattle.graphql_ast.specs.declared.definition.Definition.TheVariants as definitions;
ghost use Rattle.apollo_schema.specs.declared.schema.Schema.{Schema};
ghost use Rattle.apollo_document.specs.AddedDefinitions.{document_list};
ghost use Rattle.apollo_document.specs.DocumentFaults as spec;
ghost use Rattle.apollo_document.specs.Noted.{tables_noting};
ghost use Rattle.apollo_document.specs.Stands.{Stands, StandsWith, fragment_if_typed, rooted_operation};
ghost use Rattle.apollo_document.specs.Takes.{TakesDefinition};

use crate::build_error::{BuildError, Fault, Faults};
use crate::elaborating::Elaboration;
use crate::parent::Parent;
use crate::selection_path::ExecutableDefinitionName;
use crate::typed_definitions::{fragment_over, operation_over, root_type};
use apollo_executable::document::{ExecutableDocument, FragmentMap};
use apollo_executable::operation::{Fragment, Operation};
use apollo_executable::operation_map::OperationMap;
use apollo_schema::schema::Schema;
use graphql_ast::definition::Definition;
use graphql_ast::operation::{FragmentDefinition, OperationDefinition};
use graphql_nodes::collections::hash_keys::HashKeys;
use graphql_nodes::collections::items::Items;
use graphql_nodes::collections::static_text::StaticText;
use graphql_nodes::collections::table::Table;
use graphql_nodes::name::Name;
use graphql_nodes::node::Node;
use graphql_nodes::source::{SourceMap, SourceSpan};
use std::alloc::{AllocError, Global};

/// What a builder of documents holds until it fails: the kept operations and fragments, typed, and the
/// faults.
#[derive(Drop)]
pub struct Tables {
    pub alloc: Global,
    pub operations: OperationMap,
    pub fragments: FragmentMap,
    /// Whether an anonymous operation came after the kept one.
    pub multiple_anonymous: bool,
    pub faults: Items<Fault>,
}

impl Tables {
    /// Tables of no definition, which hash by these keys.
    pub fn new(alloc: Global, keys: HashKeys) -> Tables
        ensures { (schema : Option Schema) → Stands schema [] result }
    {
        Tables {
            alloc,
            operations: OperationMap::with_keys(alloc, keys),
            fragments: Table::with_keys(alloc, keys),
            multiple_anonymous: false,
            faults: Items::new(alloc),
        }
    }

    /// Takes definitions in order. The error is out of memory, and doesn't come where there are none.
    /// After it nothing is said of the tables.
    pub fn take(
        &mut self,
        schema: Option<&Schema>,
        definitions: &[Definition],
        type_system_definitions_are_errors: bool,
    ) -> Result<(), AllocError>
        ensures stands { OnOk result
            (StandsWith (option_copied schema.entry)
            (document_list type_system_definitions_are_errors definitions.now) self.old self.new) }
        ensures wants { OnErr result (definitions.now ≢ []) }
    {
        for definition in definitions {
            match definition {
                Definition::OperationDefinition(node) => match &node.name {
                    Some(name) => self.take_named(schema, node, name)?,
                    None => self.take_anonymous(schema, node)?,
                },
                Definition::FragmentDefinition(node) => self.take_fragment(schema, node)?,
                _ => self.note_type_system(definition, type_system_definitions_are_errors)?,
            }
        }
        Ok(())
    }

    /// Takes an operation of this name.
    fn take_named(
        &mut self,
        schema: Option<&Schema>,
        node: &Node<OperationDefinition>,
        name: &Name,
    ) -> Result<(), AllocError>
        ensures { OnOk result (node.now.value.name ≡ Some name.now → (errors : Bool)
            → TakesDefinition (option_copied schema.entry) (errors, definitions.OperationDefinition node.now)
            self.old self.new) }
    {
        self.note_kept()?;
        if let Some((kept, _)) = self.operations.named.get_key_value(name) {
            let error = BuildError::OperationNameCollision {
                name_at_previous_location: kept.clone()?,
            };
            self.faults.push((name.location(), error))?;
            return Ok(());
        }
        let root = ExecutableDefinitionName::NamedOperation(node.operation_type, name.clone()?);
        let Some(operation) = self.build_operation(schema, node, root)? else {
            return Ok(());
        };
        self.operations.named.insert(name.clone()?, operation)?;
        Ok(())
    }

    /// Takes an operation without a name.
    fn take_anonymous(
        &mut self,
        schema: Option<&Schema>,
        node: &Node<OperationDefinition>,
    ) -> Result<(), AllocError>
        ensures { OnOk result (node.now.value.name ≡ None → (errors : Bool)
            → TakesDefinition (option_copied schema.entry) (errors, definitions.OperationDefinition node.now)
            self.old self.new) }
    {
        if let Some(kept) = &self.operations.anonymous {
            let kept = kept.location();
            self.note_further_anonymous(kept, node.location())?;
            return Ok(());
        }
        if !self.operations.named.is_empty() {
            self.note_ambiguous(node.location())?;
            return Ok(());
        }
        let root = ExecutableDefinitionName::AnonymousOperation(node.operation_type);
        self.operations.anonymous = self.build_operation(schema, node, root)?;
        Ok(())
    }

    /// Takes a fragment.
    fn take_fragment(
        &mut self,
        schema: Option<&Schema>,
        node: &Node<FragmentDefinition>,
    ) -> Result<(), AllocError>
        ensures { OnOk result ((errors : Bool)
            → TakesDefinition (option_copied schema.entry) (errors, definitions.FragmentDefinition node.now)
            self.old self.new) }
    {
        if let Some((kept, _)) = self.fragments.get_key_value(&node.name) {
            let error = BuildError::FragmentNameCollision {
                name_at_previous_location: kept.clone()?,
            };
            self.faults.push((node.name.location(), error))?;
            return Ok(());
        }
        let Some(fragment) = self.build_fragment(schema, node)? else {
            return Ok(());
        };
        self.fragments.insert(node.name.clone()?, fragment)?;
        Ok(())
    }

    /// The operation, typed, if it has a root type. What is wrong with it is noted.
    fn build_operation(
        &mut self,
        schema: Option<&Schema>,
        node: &Node<OperationDefinition>,
        name: ExecutableDefinitionName,
    ) -> Result<Option<Node<Operation>>, AllocError>
        ensures built { IfOk result (λ operation. operation
            ≡ rooted_operation (option_copied schema.entry) node.now) }
        ensures faults { OnOk result (self.new
            ≡ tables_noting (spec.faults_in_operation (option_copied schema.entry) name node.now) self.old) }
    {
        let Some(root) = root_type(self.alloc, schema, node.operation_type)? else {
            let error = BuildError::UndefinedRootOperation {
                operation_type: StaticText::new(node.operation_type.name()),
            };
            self.faults.push((node.location(), error))?;
            return Ok(None);
        };
        let mut elaboration = Elaboration::of(self.alloc, name);
        let set = elaboration.elaborate_set(schema, &root, node.selection_set.as_slice())?;
        self.faults.append(&mut elaboration.faults)?;
        let operation = operation_over(node, set)?;
        Ok(Some(node.same_location(self.alloc, operation)?))
    }

    /// The fragment, typed, if its condition is a type. What is wrong with it is noted.
    fn build_fragment(
        &mut self,
        schema: Option<&Schema>,
        node: &Node<FragmentDefinition>,
    ) -> Result<Option<Node<Fragment>>, AllocError>
        ensures built { IfOk result (λ fragment. fragment
            ≡ fragment_if_typed (option_copied schema.entry) node.now) }
        ensures faults { OnOk result (self.new
            ≡ tables_noting (spec.faults_in_fragment (option_copied schema.entry) node.now) self.old) }
    {
        let ty = &node.type_condition;
        if !Parent::new(schema, ty).has_type() {
            let error = BuildError::UndefinedTypeInNamedFragmentTypeCondition {
                type_name: ty.clone()?,
                fragment_name: node.name.clone()?,
            };
            self.faults.push((ty.location(), error))?;
            return Ok(None);
        }
        let name = ExecutableDefinitionName::Fragment(node.name.clone()?);
        let mut elaboration = Elaboration::of(self.alloc, name);
        let set = elaboration.elaborate_set(schema, ty, node.selection_set.as_slice())?;
        self.faults.append(&mut elaboration.faults)?;
        let fragment = fragment_over(node, set)?;
        Ok(Some(node.same_location(self.alloc, fragment)?))
    }

    /// Notes that an anonymous operation at this location isn't the only one.
    fn note_ambiguous(&mut self, location: Option<SourceSpan>) -> Result<(), AllocError>
        ensures { OnOk result (self.new ≡ tables_noting (spec.ambiguous location ∷ []) self.old) }
    {
        self.faults
            .push((location, BuildError::AmbiguousAnonymousOperation))
    }

    /// Notes the anonymous operation, if there is one: another operation comes after it.
    fn note_kept(&mut self) -> Result<(), AllocError>
        ensures { OnOk result (self.new
            ≡ tables_noting (spec.ambiguous_if (option_map (λ o. o.location) self.old.operations.anonymous))
            self.old) }
    {
        if let Some(kept) = &self.operations.anonymous {
            let location = kept.location();
            self.note_ambiguous(location)?;
        }
        Ok(())
    }

    /// Notes an anonymous operation after the kept one, whose location is `kept`. That one is noted too, at
    /// the first of them.
    fn note_further_anonymous(
        &mut self,
        kept: Option<SourceSpan>,
        location: Option<SourceSpan>,
    ) -> Result<(), AllocError>
        ensures { OnOk result (self.new
            ≡ tables_noting (spec.after_anonymous self.old.multiple_anonymous kept location)
            (record self.old { multiple_anonymous = true })) }
    {
        if !self.multiple_anonymous {
            self.note_ambiguous(kept)?;
        }
        self.multiple_anonymous = true;
        self.note_ambiguous(location)
    }

    /// Notes a definition of the type system, if such are faults.
    fn note_type_system(
        &mut self,
        definition: &Definition,
        type_system_definitions_are_errors: bool,
    ) -> Result<(), AllocError>
        ensures { OnOk result (self.new
            ≡ tables_noting
            (spec.type_system_faults type_system_definitions_are_errors definition.now) self.old) }
    {
        if !type_system_definitions_are_errors {
            return Ok(());
        }
        let error = BuildError::TypeSystemDefinition {
            name: definition.name().cloned()?,
            describe: StaticText::new(definition.describe()),
        };
        self.faults.push((definition.location(), error))
    }

    /// The document of these tables, with these sources, and the faults.
    pub fn into_document(self, sources: SourceMap) -> (ExecutableDocument, Faults)
        ensures document { result.0 ≡ record {
          sources = sources;
          operations = self.operations;
          fragments = self.fragments;
        } }
        ensures faults { result.1.items ≡ self.faults }
    {
        let Tables {
            alloc: _,
            operations,
            fragments,
            multiple_anonymous: _,
            faults,
        } = self;
        let document = ExecutableDocument {
            sources,
            operations,
            fragments,
        };
        (document, faults.into_vec())
    }
}
