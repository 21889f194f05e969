//! Untyped selections made into typed ones: GraphQL specification of October 2021, sections 2.4 to 2.8.
//!
//! Input nodes are borrowed. The key of a field is pushed and popped; the whole path is copied for a fault
//! alone. A type that selections are from is looked up once.
ghost use Rattle.std.specs.Prelude.{◌≡◌, ◌++◌, [], IfOk, OnOk, Some, is_some};
ghost use Rattle.std.specs.List.{cons_option, filter_map};
ghost use Rattle.std.specs.Option.{option_copied};
ghost use Rattle.apollo_executable.specs.SelectionParts.{response_key_of};
ghost use Rattle.apollo_document.specs.Elaborated.{elaborated, elaborated_selection};
ghost use Rattle.apollo_document.specs.InParents.{field_kept, fragment_kept, noting_field, noting_fragment};
ghost use Rattle.apollo_document.specs.InParents.{noting_within};
ghost use Rattle.apollo_document.specs.Noted.{noting};
ghost use Rattle.apollo_document.specs.SelectionFaults.{below_or_wrong, faults_of_selections};
ghost use Rattle.apollo_document.specs.SelectionFaults.{faults_of_selection};
ghost use Rattle.apollo_document.specs.Typable.{definition_in, if_typable, typable_fragment, undefined};
ghost use Rattle.apollo_document.specs.Within.{faults_if, leaf_in, set_below, set_faults};

use crate::build_error::{BuildError, Fault, Faults};
use crate::parent::Parent;
use crate::selection_path::{ExecutableDefinitionName, SelectionPath};
use crate::typed_nodes::{field_over, inline_fragment_over, typed_spread, unknown_field};
use apollo_executable::selection::{Field, InlineFragment, Selection, SelectionSet};
use apollo_schema::schema::Schema;
use apollo_types::extended_type::ExtendedType;
use graphql_ast::selection as ast;
use graphql_ast::type_system::FieldDefinition;
use graphql_nodes::collections::items::Items;
use graphql_nodes::name::{Name, NamedType};
use graphql_nodes::node::Node;
use graphql_nodes::source::SourceSpan;
use std::alloc::{AllocError, Global};

/// What is typed of a node, if it is typable, where the node stands.
type Kept<T> = Result<Option<Node<T>>, AllocError>;

/// The key of a field in a response: its alias, or else its name (section 2.7).
fn response_key(field: &ast::Field) -> &Name
    ensures { result.now ≡ response_key_of field.now.alias field.now.name }
{
    match &field.alias {
        Some(alias) => alias,
        None => &field.name,
    }
}

/// Adds the selection at the end, if there is one.
fn push_kept(
    selections: &mut Items<Selection>,
    selection: Option<Selection>,
) -> Result<(), AllocError>
    ensures { OnOk result (selections.new ≡ selections.old ++ cons_option selection []) }
{
    match selection {
        Some(selection) => selections.push(selection),
        None => Ok(()),
    }
}

/// Selections on their way to typed ones: where they stand, and what was found wrong so far. Each call leaves
/// the path as it was, also out of memory.
#[derive(Drop)]
pub struct Elaboration {
    pub alloc: Global,
    pub path: SelectionPath,
    pub faults: Items<Fault>,
}

impl Elaboration {
    /// An elaboration of selections at this path, where nothing is wrong so far.
    pub fn at(alloc: Global, path: SelectionPath) -> Elaboration
        ensures path { result.path ≡ path }
        ensures faults { result.faults ≡ [] }
    {
        Elaboration {
            alloc,
            path,
            faults: Items::new(alloc),
        }
    }

    /// An elaboration of the selections of this definition itself, where nothing is wrong so far.
    pub fn of(alloc: Global, root: ExecutableDefinitionName) -> Elaboration
        ensures path { result.path ≡ record { root = root; nested_fields = [] } }
        ensures faults { result.faults ≡ [] }
    {
        let path = SelectionPath {
            root,
            nested_fields: Items::new(alloc),
        };
        Elaboration::at(alloc, path)
    }

    /// What was found wrong, in order.
    pub fn into_faults(self) -> Faults
        ensures { result.items ≡ self.faults }
    {
        let Elaboration {
            alloc: _,
            path: _,
            faults,
        } = self;
        faults.into_vec()
    }

    /// The set of the typable selections from this type, typed. The faults of the others are noted.
    pub fn elaborate_set(
        &mut self,
        schema: Option<&Schema>,
        ty: &NamedType,
        selections: &[ast::Selection],
    ) -> Result<SelectionSet, AllocError>
        ensures set { IfOk result (λ set. set
            ≡ elaborated (option_copied schema.entry) ty.now selections.now) }
        ensures faults { OnOk result (self.new
            ≡ noting (faults_of_selections (option_copied schema.entry) ty.now self.old.path selections.now)
            self.old) }
        ensures path { self.new.path ≡ self.old.path }
    {
        if selections.is_empty() {
            return Ok(SelectionSet::new(self.alloc, ty.clone()?));
        }
        let set = self.elaborate_from(&Parent::new(schema, ty), selections)?;
        Ok(set)
    }

    /// The set of the typable selections from this type, which is looked up, typed. The faults of the others
    /// are noted.
    #[cycle(elaborate)]
    fn elaborate_from(
        &mut self,
        parent: &Parent,
        selections: &[ast::Selection],
    ) -> Result<SelectionSet, AllocError>
        ensures set { IfOk result (λ set. set
            ≡ elaborated (option_copied parent.now.schema) parent.now.ty.now selections.now) }
        ensures faults { OnOk result (self.new
            ≡ noting (faults_of_selections (option_copied parent.now.schema) parent.now.ty.now self.old.path
            selections.now) self.old) }
        ensures path { self.new.path ≡ self.old.path }
    {
        let kept = self.elaborate_all(parent, selections)?;
        Ok(SelectionSet {
            ty: parent.ty.clone()?,
            selections: kept,
        })
    }

    /// The typable selections from this type, typed. The faults of the others are noted.
    #[cycle(elaborate)]
    fn elaborate_all(
        &mut self,
        parent: &Parent,
        selections: &[ast::Selection],
    ) -> Result<Items<Selection>, AllocError>
        ensures kept { IfOk result (λ kept. kept
            ≡ filter_map (elaborated_selection (option_copied parent.now.schema) parent.now.ty.now)
            selections.now) }
        ensures faults { OnOk result (self.new
            ≡ noting (faults_of_selections (option_copied parent.now.schema) parent.now.ty.now self.old.path
            selections.now) self.old) }
        ensures path { self.new.path ≡ self.old.path }
    {
        let mut kept = Items::new(self.alloc);
        kept.reserve_exact(selections.len())?;
        for selection in selections {
            let typed = self.elaborate_selection(parent, selection)?;
            push_kept(&mut kept, typed)?;
        }
        Ok(kept)
    }

    /// The selection, typed, if it is typable.
    #[cycle(elaborate)]
    fn elaborate_selection(
        &mut self,
        parent: &Parent,
        selection: &ast::Selection,
    ) -> Result<Option<Selection>, AllocError>
        ensures typed { IfOk result (λ kept. kept
            ≡ elaborated_selection (option_copied parent.now.schema) parent.now.ty.now selection.now) }
        ensures faults { OnOk result (self.new
            ≡ noting (faults_of_selection (option_copied parent.now.schema) parent.now.ty.now self.old.path
            selection.now) self.old) }
        ensures path { self.new.path ≡ self.old.path }
    {
        match selection {
            ast::Selection::Field(node) => {
                let field = self.elaborate_field(parent, node)?;
                Ok(field.map(Selection::Field))
            }
            ast::Selection::FragmentSpread(node) => {
                let spread = typed_spread(self.alloc, node)?;
                Ok(Some(Selection::FragmentSpread(spread)))
            }
            ast::Selection::InlineFragment(node) => {
                let inline = self.elaborate_fragment(parent, node)?;
                Ok(inline.map(Selection::InlineFragment))
            }
        }
    }

    /// The field, typed, if it is typable. While it is looked at, its key is the last of the path.
    #[cycle(elaborate)]
    fn elaborate_field(&mut self, parent: &Parent, node: &Node<ast::Field>) -> Kept<Field>
        ensures typed { IfOk result (λ kept. kept ≡ field_kept parent.now node.now) }
        ensures faults { OnOk result (self.new ≡ noting_field parent.now node.now self.old) }
        ensures path { self.new.path ≡ self.old.path }
    {
        self.path.nested_fields.push(response_key(node).clone()?)?;
        let typed = self.elaborate_within(parent, node);
        self.path.nested_fields.pop();
        let field = typed?;
        Ok(field)
    }

    /// The field, typed, if it is typable, where its key is the last of the path.
    #[cycle(elaborate)]
    fn elaborate_within(&mut self, parent: &Parent, node: &Node<ast::Field>) -> Kept<Field>
        ensures typed { IfOk result (λ kept. kept ≡ field_kept parent.now node.now) }
        ensures faults { OnOk result (self.new ≡ noting_within parent.now node.now self.old) }
        ensures path { self.new.path ≡ self.old.path }
    {
        let Some(definition) = self.definition_in(parent, node)? else {
            return Ok(None);
        };
        let Some(set) = self.elaborate_subselections(parent.schema, &definition, node)? else {
            return Ok(None);
        };
        let field = field_over(self.alloc, node, definition, set)?;
        Ok(Some(field))
    }

    /// The definition of a field in a type. That a type of the schema has none of its name is noted.
    fn definition_in(
        &mut self,
        parent: &Parent,
        node: &Node<ast::Field>,
    ) -> Result<Option<Node<FieldDefinition>>, AllocError>
        ensures defined { IfOk result (λ definition. definition
            ≡ if_typable (λ d. d)
            (definition_in (option_copied parent.now.schema) parent.now.ty.now node.now.value.name)) }
        ensures faults { OnOk result (self.new
            ≡ noting (below_or_wrong (λ _. []) node.now.location self.old.path
            (definition_in (option_copied parent.now.schema) parent.now.ty.now node.now.value.name))
            self.old) }
        ensures path { self.new.path ≡ self.old.path }
    {
        let name = &node.name;
        let Some(schema) = parent.schema else {
            return Ok(Some(unknown_field(self.alloc, name)?));
        };
        let Some((key, ty)) = parent.known else {
            return Ok(None);
        };
        if let Some(component) = schema.field_of(parent.ty, ty, name) {
            return Ok(Some(component.node.clone()?));
        }
        self.note_undefined(key, name)?;
        Ok(None)
    }

    /// Notes that the type of this name has no field of that name.
    // Apart from what looks fields up, which would make room for the error at each field.
    #[cold]
    #[inline(never)]
    fn note_undefined(&mut self, key: &Name, name: &Name) -> Result<(), AllocError>
        ensures faults { OnOk result (self.new
            ≡ noting (undefined name.now (Some key.now) name.now.location self.old.path) self.old) }
        ensures path { self.new.path ≡ self.old.path }
    {
        let error = BuildError::UndefinedField {
            type_name: key.clone()?,
            field_name: name.clone()?,
            path: self.path.clone()?,
        };
        self.faults.push((name.location(), error))
    }

    /// The set of a field with this definition, typed. There is none if the field has subselections from a
    /// leaf type, which is noted.
    #[cycle(elaborate)]
    fn elaborate_subselections(
        &mut self,
        schema: Option<&Schema>,
        definition: &Node<FieldDefinition>,
        node: &Node<ast::Field>,
    ) -> Result<Option<SelectionSet>, AllocError>
        ensures set { IfOk result (λ kept. kept
            ≡ set_below (option_copied schema.entry) definition.now node.now.value.selection_set) }
        ensures faults { OnOk result (self.new
            ≡ noting (set_faults (option_copied schema.entry) definition.now node.now.location self.old.path
            node.now.value.selection_set) self.old) }
        ensures path { self.new.path ≡ self.old.path }
    {
        let child = definition.ty.inner_named_type();
        let selections = node.selection_set.as_slice();
        if selections.is_empty() {
            return Ok(Some(SelectionSet::new(self.alloc, child.clone()?)));
        }
        let parent = Parent::new(schema, child);
        if parent.is_leaf() && self.notes_leaf(&parent, node.location())? {
            return Ok(None);
        }
        let set = self.elaborate_from(&parent, selections)?;
        Ok(Some(set))
    }

    /// Whether the type of subselections is a leaf type. This is noted.
    // Apart from what looks types up, as above.
    #[cold]
    #[inline(never)]
    fn notes_leaf(
        &mut self,
        parent: &Parent,
        location: Option<SourceSpan>,
    ) -> Result<bool, AllocError>
        ensures leaf { IfOk result (λ is_leaf. is_leaf
            ≡ is_some (leaf_in (option_copied parent.now.schema) parent.now.ty.now)) }
        ensures faults { OnOk result (self.new
            ≡ noting (faults_if (leaf_in (option_copied parent.now.schema) parent.now.ty.now) location
            self.old.path) self.old) }
        ensures path { self.new.path ≡ self.old.path }
    {
        let error = match parent.known {
            Some((_, ExtendedType::Scalar(_))) => BuildError::SubselectionOnScalarType {
                type_name: parent.ty.clone()?,
                path: self.path.clone()?,
            },
            Some((_, ExtendedType::Enum(_))) => BuildError::SubselectionOnEnumType {
                type_name: parent.ty.clone()?,
                path: self.path.clone()?,
            },
            _ => return Ok(false),
        };
        self.faults.push((location, error))?;
        Ok(true)
    }

    /// The inline fragment, typed, if it is typable.
    #[cycle(elaborate)]
    fn elaborate_fragment(
        &mut self,
        parent: &Parent,
        node: &Node<ast::InlineFragment>,
    ) -> Kept<InlineFragment>
        ensures typed { IfOk result (λ kept. kept ≡ fragment_kept parent.now node.now) }
        ensures faults { OnOk result (self.new ≡ noting_fragment parent.now node.now self.old) }
        ensures path { self.new.path ≡ self.old.path }
    {
        let Some(set) = self.elaborate_fragment_set(parent, node)? else {
            return Ok(None);
        };
        let inline = inline_fragment_over(self.alloc, node, set)?;
        Ok(Some(inline))
    }

    /// The set of an inline fragment, typed: from the type of its condition, or without one from the same
    /// type. There is none if the condition is no type, which is noted.
    #[cycle(elaborate)]
    fn elaborate_fragment_set(
        &mut self,
        parent: &Parent,
        node: &Node<ast::InlineFragment>,
    ) -> Result<Option<SelectionSet>, AllocError>
        ensures set { IfOk result (λ kept. kept
            ≡ if_typable (λ t. elaborated (option_copied parent.now.schema) t node.now.value.selection_set)
            (typable_fragment (option_copied parent.now.schema) parent.now.ty.now
            node.now.value.type_condition)) }
        ensures faults { OnOk result (self.new
            ≡ noting (below_or_wrong (λ t. faults_of_selections (option_copied parent.now.schema) t
            self.old.path node.now.value.selection_set) node.now.location self.old.path
            (typable_fragment (option_copied parent.now.schema) parent.now.ty.now
            node.now.value.type_condition)) self.old) }
        ensures path { self.new.path ≡ self.old.path }
    {
        let fragment: &ast::InlineFragment = node;
        let selections = fragment.selection_set.as_slice();
        let Some(condition) = &fragment.type_condition else {
            let set = self.elaborate_from(parent, selections)?;
            return Ok(Some(set));
        };
        let child = Parent::new(parent.schema, condition);
        if child.has_type() {
            let set = self.elaborate_from(&child, selections)?;
            return Ok(Some(set));
        }
        let error = BuildError::UndefinedTypeInInlineFragmentTypeCondition {
            type_name: condition.clone()?,
            path: self.path.clone()?,
        };
        self.faults.push((condition.location(), error))?;
        Ok(None)
    }
}
