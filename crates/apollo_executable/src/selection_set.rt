//! Selection sets: GraphQL specification of October 2021, section 2.4.
ghost use Rattle.std.specs.Prelude.{◌≡◌, ◌==◌, [], ◌∷◌, ◌++◌, length, Some, IfOk, IfErr, OnOk, OnErr};
ghost use Rattle.std.specs.Prelude.{filter_map, ◌≢◌, map, true, false};
ghost use Rattle.apollo_executable.specs.NewSelections.{empty_set, new_field, new_inline_fragment};
ghost use Rattle.apollo_executable.specs.NewSelections.{new_spread, IsNewField, IsNewFieldRefusal};
ghost use Rattle.apollo_executable.specs.SelectionParts.{as_field, FieldsInOrder};
ghost use Rattle.apollo_executable.specs.Erasure.{erased_set};
ghost use Rattle.apollo_executable.specs.Walks.WalkView.{AreWalked, IsNewWalk};

use crate::document::ExecutableDocument;
use crate::fields::Fields;
use crate::new_field_error::NewFieldError;
use crate::selection::{Field, FragmentSpread, InlineFragment, Selection, SelectionSet};
use crate::walks::field_walk::{AllFields, FieldWalk, RootFields};
use crate::walks::walk::Walk;
use apollo_schema::schema::Schema;
use graphql_ast::selection as ast;
use graphql_nodes::collections::items::Items;
use graphql_nodes::name::{Name, NamedType};
use graphql_nodes::node::Node;
use std::alloc::{AllocError, Global};

/// What a walk is still to give. The error is that memory ran out.
fn collect<'doc>(alloc: Global, walk: FieldWalk<'doc>) -> Result<Vec<&'doc Node<Field>>, AllocError>
    ensures { IfOk result (λ fields. map (λ field. field.now) fields.items ≡ walk.entry.coming) }
{
    let mut fields = Vec::new(alloc);
    for field in walk {
        fields.push(field?)?;
    }
    Ok(fields)
}

impl SelectionSet {
    /// No selection, from this type. It takes no memory.
    pub fn new(alloc: Global, ty: NamedType) -> SelectionSet
        ensures { result ≡ empty_set ty }
    {
        SelectionSet {
            ty,
            selections: Items::new(alloc),
        }
    }

    /// Whether there is no selection.
    pub fn is_empty(&self) -> bool
        ensures { result ≡ (length self.now.selections == 0) }
    {
        self.selections.is_empty()
    }

    /// Adds a selection at the end. The error is out of memory: the set is as it was, and the selection is
    /// dropped.
    pub fn push(&mut self, selection: Selection) -> Result<(), AllocError>
        ensures ok { OnOk result (self.new
            ≡ record self.old { selections = self.old.selections ++ selection ∷ [] }) }
        ensures err { OnErr result (self.new ≡ self.old) }
    {
        self.selections.push(selection)
    }

    /// Adds the selections at the end, in order. The error is out of memory: the set is as it was, and the
    /// selections are dropped.
    pub fn extend(&mut self, selections: Vec<Selection>) -> Result<(), AllocError>
        ensures ok { OnOk result (self.new
            ≡ record self.old { selections = self.old.selections ++ selections.items }) }
        ensures err { OnErr result (self.new ≡ self.old) }
    {
        self.selections.append(&mut Items::from_vec(selections))
    }

    /// A field of this name, to be added with [`push`](SelectionSet::push). It carries the definition that
    /// the schema's [`type_field`](Schema::type_field) gives in the type of this set. Its own set selects
    /// from the type which that definition names, inside all lists.
    ///
    /// [`NewFieldError::Lookup`] says that the schema has no such type, or the type no such field.
    /// [`NewFieldError::Memory`] is out of memory, and comes only where the type has the field. Either drops
    /// the name.
    pub fn new_field<'schema>(
        &self,
        alloc: Global,
        schema: &'schema Schema,
        name: Name,
    ) -> Result<Field, NewFieldError<'schema>>
        ensures ok { IfOk result (IsNewField schema.now self.now.ty name) }
        ensures refused { IfErr result (IsNewFieldRefusal schema.now self.now.ty name) }
    {
        let definition = schema.type_field(&self.ty, &name)?.node.clone()?;
        let field = Field::new(alloc, name, definition)?;
        Ok(field)
    }

    /// An inline fragment, to be added with [`push`](SelectionSet::push). Its set selects from the type of
    /// its condition, or without one from that of this set. The error is out of memory, and drops the
    /// condition.
    pub fn new_inline_fragment(
        &self,
        alloc: Global,
        opt_type_condition: Option<NamedType>,
    ) -> Result<InlineFragment, AllocError>
        ensures { IfOk result (λ inline. inline ≡ new_inline_fragment self.now.ty opt_type_condition) }
    {
        match opt_type_condition {
            Some(type_condition) => InlineFragment::with_type_condition(alloc, type_condition),
            None => Ok(InlineFragment::without_type_condition(alloc, self.ty.clone()?)),
        }
    }

    /// A spread of the fragment of this name, without directives, to be added with
    /// [`push`](SelectionSet::push). It takes no memory.
    pub fn new_fragment_spread(&self, alloc: Global, fragment_name: Name) -> FragmentSpread
        ensures { result ≡ new_spread fragment_name }
    {
        FragmentSpread::new(alloc, fragment_name)
    }

    /// The fields of the set itself, in order: those of fragments, inline or spread, are not among them.
    pub fn fields(&self) -> Fields<'_>
        ensures rest { result ≡ filter_map as_field self.now.selections }
        ensures runs { FieldsInOrder }
    {
        Fields::new(self.selections.as_slice())
    }

    /// The selections as syntax, in order. The error is out of memory, which a set without selections doesn't
    /// meet.
    #[cycle(to_ast)]
    #[tactic(auto, using(crate::proofs::Erasing::set_erases))]
    pub fn to_ast(&self, alloc: Global) -> Result<Vec<ast::Selection>, AllocError>
        ensures written { IfOk result (λ written. written.items ≡ erased_set self.now) }
        ensures memory { OnErr result (self.now.selections ≢ []) }
    {
        let mut written = Vec::new(alloc);
        written.reserve_exact(self.selections.len())?;
        for selection in &self.selections {
            written.push(selection.to_ast(alloc)?)?;
        }
        Ok(written)
    }

    /// A walk over the root fields of this set: those that stand in it or are reached through fragments, and
    /// none below a field. Making it takes no memory. GraphQL specification of October 2021, section 6.3.2.
    ///
    /// That the set may belong to a fragment doesn't open that fragment.
    pub fn root_fields<'doc>(
        &'doc self,
        alloc: Global,
        document: &'doc ExecutableDocument,
    ) -> RootFields<'doc>
        ensures { IsNewWalk false document.now self.now result }
    {
        RootFields {
            walk: Walk::new(alloc, document, self, false),
        }
    }

    /// A walk over all fields that this set reaches, through fragments and below fields: each field comes
    /// before those below it. Making it takes no memory. GraphQL specification of October 2021, sections 2.4
    /// and 2.8.
    ///
    /// That the set may belong to a fragment doesn't open that fragment.
    pub fn all_fields<'doc>(
        &'doc self,
        alloc: Global,
        document: &'doc ExecutableDocument,
    ) -> AllFields<'doc>
        ensures { IsNewWalk true document.now self.now result }
    {
        AllFields {
            walk: Walk::new(alloc, document, self, true),
        }
    }

    /// The fields of a whole walk over root fields, in order, as [`root_fields`](SelectionSet::root_fields)
    /// gives them. The error is that memory ran out, and drops what was given.
    pub fn collect_root<'doc>(
        &'doc self,
        alloc: Global,
        document: &'doc ExecutableDocument,
    ) -> Result<Vec<&'doc Node<Field>>, AllocError>
        ensures { IfOk result
            (λ fields. AreWalked false document.now self.now (map (λ field. field.now) fields.items)) }
    {
        collect(alloc, self.root_fields(alloc, document))
    }

    /// The fields of a whole walk over all fields, in order, as [`all_fields`](SelectionSet::all_fields)
    /// gives them. The error is that memory ran out, and drops what was given.
    pub fn collect_all<'doc>(
        &'doc self,
        alloc: Global,
        document: &'doc ExecutableDocument,
    ) -> Result<Vec<&'doc Node<Field>>, AllocError>
        ensures { IfOk result
            (λ fields. AreWalked true document.now self.now (map (λ field. field.now) fields.items)) }
    {
        collect(alloc, self.all_fields(alloc, document))
    }
}
