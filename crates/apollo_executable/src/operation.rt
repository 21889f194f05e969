//! Operations and named fragments: GraphQL specification of October 2021, sections 2.3 and 2.8. Which of them
//! ask for the schema alone is said in sections 4.1 and 4.2.
ghost use Rattle.std.specs.Prelude.{◌≡◌, ◌↔◌, IsTrue, IfOk, OnErr, true, false};
ghost use Rattle.graphql_nodes.specs.declared.operation_type.OperationType.TheVariants.{Query, Mutation};
ghost use Rattle.graphql_nodes.specs.declared.operation_type.OperationType.TheVariants.{Subscription};
ghost use Rattle.apollo_executable.specs.Erasure.{erased_operation_at, erased_fragment_at};
ghost use Rattle.apollo_executable.specs.Walks.WalkView.{IsNewWalk};
ghost use Rattle.apollo_executable.specs.Walks.Introspection.{IsIntrospection, IsMetaName};

use crate::document::ExecutableDocument;
use crate::selection::{Field, SelectionSet};
use crate::walks::field_walk::{AllFields, RootFields};
use apollo_walks::laws::walks_give_what_is_reached;
use graphql_ast::definition::Definition;
use graphql_ast::directive::DirectiveList;
use graphql_ast::operation::{FragmentDefinition, OperationDefinition, VariableDefinition};
use graphql_nodes::clone_fields;
use graphql_nodes::collections::items::Items;
use graphql_nodes::name::{Name, NamedType};
use graphql_nodes::node::Node;
use graphql_nodes::operation_type::OperationType;
use graphql_nodes::source::SourceSpan;
use std::alloc::{AllocError, Global};

/// A query, mutation or subscription, anonymous where it has no name (section 2.3).
///
/// Equality leaves out locations. A clone is the original, with them; its error is out of memory.
#[derive(Debug, Drop, PartialEq, Eq)]
pub struct Operation {
    pub operation_type: OperationType,
    pub name: Option<Name>,
    pub variables: Items<Node<VariableDefinition>>,
    pub directives: DirectiveList,
    pub selection_set: SelectionSet,
}

/// A named fragment (section 2.8). Its type condition is the type of its selection set.
///
/// Equality leaves out locations. A clone is the original, with them; its error is out of memory.
#[derive(Debug, Drop, PartialEq, Eq)]
pub struct Fragment {
    pub name: Name,
    pub directives: DirectiveList,
    pub selection_set: SelectionSet,
}

impl Clone for Operation {
    ghost is_clone = { λ a b. b ≡ a };

    fn clone(&self) -> Result<Operation, AllocError> {
        clone_fields!(self: operation_type, name, variables, directives, selection_set)
    }
}

/// Whether a field of this name stands at the root of queries of each schema.
fn is_meta_name(name: &str) -> bool
    ensures { IsTrue result ↔ IsMetaName name.now }
{
    name == "__type" || name == "__schema" || name == "__typename"
}

impl Operation {
    /// The name of the type that the operation selects from.
    pub fn object_type(&self) -> &NamedType
        ensures { result.now ≡ self.now.selection_set.ty }
    {
        &self.selection_set.ty
    }

    /// Whether it is a query.
    pub fn is_query(&self) -> bool
        ensures { IsTrue result ↔ (self.now.operation_type ≡ Query) }
    {
        self.operation_type == OperationType::Query
    }

    /// Whether it is a mutation.
    pub fn is_mutation(&self) -> bool
        ensures { IsTrue result ↔ (self.now.operation_type ≡ Mutation) }
    {
        self.operation_type == OperationType::Mutation
    }

    /// Whether it is a subscription.
    pub fn is_subscription(&self) -> bool
        ensures { IsTrue result ↔ (self.now.operation_type ≡ Subscription) }
    {
        self.operation_type == OperationType::Subscription
    }

    /// Whether the operation is a query all of whose root fields, those that are reached through fragments
    /// too, are `__type`, `__schema` or `__typename`. It stops at the first other one. The error is that
    /// memory ran out, which comes of a query alone.
    pub fn is_introspection(
        &self,
        alloc: Global,
        document: &ExecutableDocument,
    ) -> Result<bool, AllocError>
        ensures answer { IfOk result (λ is. IsTrue is ↔ IsIntrospection document.now self.now) }
        ensures query { OnErr result (self.now.operation_type ≡ Query) }
    {
        if !self.is_query() {
            return Ok(false);
        }
        walks_give_what_is_reached::<Node<Field>>();
        let mut walk = self.root_fields(alloc, document);
        while let Some(field) = walk.next() {
            if !is_meta_name(field?.name.as_str()) {
                return Ok(false);
            }
        }
        Ok(true)
    }

    /// A walk over the root fields of the operation, as [`SelectionSet::root_fields`] makes it. Making it
    /// takes no memory.
    pub fn root_fields<'doc>(
        &'doc self,
        alloc: Global,
        document: &'doc ExecutableDocument,
    ) -> RootFields<'doc>
        ensures { IsNewWalk false document.now self.now.selection_set result }
    {
        self.selection_set.root_fields(alloc, document)
    }

    /// A walk over all fields that the operation reaches, as [`SelectionSet::all_fields`] makes it. Making it
    /// takes no memory.
    pub fn all_fields<'doc>(
        &'doc self,
        alloc: Global,
        document: &'doc ExecutableDocument,
    ) -> AllFields<'doc>
        ensures { IsNewWalk true document.now self.now.selection_set result }
    {
        self.selection_set.all_fields(alloc, document)
    }

    /// The operation as a definition at this location, if one is given. The error is out of memory.
    pub fn to_ast(
        &self,
        alloc: Global,
        location: Option<SourceSpan>,
    ) -> Result<Definition, AllocError>
        ensures { IfOk result (λ written. written ≡ erased_operation_at location self.now) }
    {
        let definition = OperationDefinition {
            operation_type: self.operation_type,
            name: self.name.clone()?,
            variables: self.variables.clone()?,
            directives: self.directives.clone()?,
            selection_set: Items::from_vec(self.selection_set.to_ast(alloc)?),
        };
        let node = Node::new_opt_location(alloc, definition, location)?;
        Ok(Definition::OperationDefinition(node))
    }
}

impl Clone for Fragment {
    ghost is_clone = { λ a b. b ≡ a };

    fn clone(&self) -> Result<Fragment, AllocError> {
        clone_fields!(self: name, directives, selection_set)
    }
}

impl Fragment {
    /// The name of the type that the fragment is on.
    pub fn type_condition(&self) -> &NamedType
        ensures { result.now ≡ self.now.selection_set.ty }
    {
        &self.selection_set.ty
    }

    /// The fragment as a definition at this location, if one is given. Its condition is the type of its set.
    /// The error is out of memory.
    pub fn to_ast(
        &self,
        alloc: Global,
        location: Option<SourceSpan>,
    ) -> Result<Definition, AllocError>
        ensures { IfOk result (λ written. written ≡ erased_fragment_at location self.now) }
    {
        let definition = FragmentDefinition {
            name: self.name.clone()?,
            type_condition: self.selection_set.ty.clone()?,
            directives: self.directives.clone()?,
            selection_set: Items::from_vec(self.selection_set.to_ast(alloc)?),
        };
        let node = Node::new_opt_location(alloc, definition, location)?;
        Ok(Definition::FragmentDefinition(node))
    }
}
