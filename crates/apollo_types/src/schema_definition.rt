//! The definition of a schema: GraphQL specification of October 2021, section 3.3.
ghost use Rattle.std.specs.Prelude.{◌≡◌, IfOk};
ghost use Rattle.std.specs.List.{list_all};
ghost use Rattle.std.specs.Option.{option_copied};
ghost use Rattle.graphql_nodes.specs.SameText.{same_text};
ghost use Rattle.graphql_nodes.specs.Tables.{lookup};
ghost use Rattle.apollo_types.specs.Components.{RootsInOrder};
ghost use Rattle.apollo_types.specs.SchemaRoots.{no_schema_definition, operation_types, root_of, named_roots};
ghost use Rattle.apollo_types.specs.SchemaDefinitionWriteOut.{schema_components, is_some_object};
ghost use Rattle.apollo_types.specs.SchemaDefinitionWriteOut.{has_own_root, has_implied_root, is_implied};
ghost use Rattle.apollo_types.specs.SchemaDefinitionWriteOut.{is_written, write_schema_definition};

use crate::components::{Components, Rest};
use crate::extended_type::ExtendedType;
use crate::extensible::Extensible;
use crate::root_operations::RootOperations;
use apollo_component::component::ComponentName;
use apollo_component::directive_list::DirectiveList;
use apollo_component::extension::ComponentOrigin;
use graphql_ast::definition::Definition;
use graphql_nodes::collections::table::Table;
use graphql_nodes::name::NamedType;
use graphql_nodes::node_str::NodeStr;
use graphql_nodes::operation_type::OperationType;
use graphql_nodes::source::SourceSpan;
use graphql_nodes::take_apart;
use std::alloc::{AllocError, Global};

/// Types, under their names.
type TypesByName = Table<NamedType, ExtendedType>;

/// The operation types, in the order of the roots.
pub(crate) const OPERATION_TYPES: [OperationType; 3] = [
    OperationType::Query,
    OperationType::Mutation,
    OperationType::Subscription,
];

/// The definition of a schema, and its extensions (section 3.3): the root of each operation type. It is to be
/// the name of an object type (section 3.3.1), and may be any name. Equality leaves out locations and
/// origins, but directives are compared in order.
#[derive(Debug, PartialEq, Eq)]
pub struct SchemaDefinition {
    pub description: Option<NodeStr>,
    pub directives: DirectiveList,
    pub query: Option<ComponentName>,
    pub mutation: Option<ComponentName>,
    pub subscription: Option<ComponentName>,
}

impl Drop for SchemaDefinition {
    fn drop(self) {
        take_apart!(self: description, directives, query, mutation, subscription);
    }
}

impl SchemaDefinition {
    /// No description, directive or root.
    pub fn new(alloc: Global) -> SchemaDefinition
        ensures { result ≡ no_schema_definition }
    {
        SchemaDefinition {
            description: None,
            directives: DirectiveList::new(alloc),
            query: None,
            mutation: None,
            subscription: None,
        }
    }

    /// The root of this operation type, if one is named.
    pub fn root_operation(&self, operation_type: OperationType) -> Option<&ComponentName>
        ensures { option_copied result ≡ root_of self.now operation_type }
    {
        match operation_type {
            OperationType::Query => self.query.as_ref(),
            OperationType::Mutation => self.mutation.as_ref(),
            OperationType::Subscription => self.subscription.as_ref(),
        }
    }

    /// The roots that are named, each beside its operation type: query, mutation, subscription.
    pub fn iter_root_operations(&self) -> RootOperations<'_>
        ensures rest { result ≡ named_roots self.now }
        ensures runs { RootsInOrder }
    {
        RootOperations::new(self)
    }

    /// The definition as syntax: a schema definition, at this location, with the components of the
    /// definition. Then comes an extension for each identity of [`extensions`](Extensible::extensions), with
    /// that identity's components and location. The directives are in order, and the roots in the order
    /// query, mutation, subscription. A root has the location of its name.
    ///
    /// The schema definition is left out where none of its roots is the definition's, and where it says
    /// nothing. It says nothing if it has no description, directive or extension, and each operation type has
    /// just the root that it would have without it. That is the type of the default name (`Query`, `Mutation`
    /// or `Subscription`) where `types` has an object type of this name, and else none. Where it has no root
    /// of its own, its description and its own directives are not written. The extensions are always there.
    ///
    /// The error is out of memory.
    pub fn to_ast(
        &self,
        alloc: Global,
        location: Option<SourceSpan>,
        types: &Table<NamedType, ExtendedType>,
    ) -> Result<Vec<Definition>, AllocError>
        ensures { IfOk result (λ written. written.items
            ≡ write_schema_definition self.now location types.now) }
    {
        let is_written = self.is_written(alloc, types)?;
        let parts = self.components().by_origin(alloc)?;
        let written = parts.into_schema(alloc, is_written, self.description.clone()?, location)?;
        Ok(written)
    }

    /// Whether a root is of the definition.
    fn has_own_root(&self) -> bool
        ensures { result ≡ has_own_root self.now }
    {
        for (_, root) in self.iter_root_operations() {
            if root.origin == ComponentOrigin::Definition {
                return true;
            }
        }
        false
    }

    /// Whether the root is the one that no schema definition would have to name. The error is out of memory.
    fn has_implied_root(
        &self,
        alloc: Global,
        types: &TypesByName,
        operation_type: OperationType,
    ) -> Result<bool, AllocError>
        ensures { IfOk result (λ b. b ≡ has_implied_root types.now self.now operation_type) }
    {
        let name = operation_type.default_type_name(alloc)?;
        let is_there = has_object(types, &name);
        match self.root_operation(operation_type) {
            Some(root) => Ok(is_there && root.name == name),
            None => Ok(!is_there),
        }
    }

    /// Whether all roots are those that no schema definition would have to name. The error is out of memory.
    fn has_implied_roots(&self, alloc: Global, types: &TypesByName) -> Result<bool, AllocError>
        ensures { IfOk result (λ b. b ≡ list_all (has_implied_root types.now self.now) operation_types) }
    {
        for operation_type in OPERATION_TYPES {
            if !self.has_implied_root(alloc, types, operation_type)? {
                return Ok(false);
            }
        }
        Ok(true)
    }

    /// Whether nothing is said that isn't implied. The error is out of memory.
    fn is_implied(&self, alloc: Global, types: &TypesByName) -> Result<bool, AllocError>
        ensures { IfOk result (λ b. b ≡ is_implied types.now self.now) }
    {
        if self.description.is_some()
            || !self.directives.is_empty()
            || !self.extensions(alloc)?.is_empty()
        {
            return Ok(false);
        }
        self.has_implied_roots(alloc, types)
    }

    /// Whether the definition is written. The error is out of memory.
    fn is_written(&self, alloc: Global, types: &TypesByName) -> Result<bool, AllocError>
        ensures { IfOk result (λ b. b ≡ is_written types.now self.now) }
    {
        Ok(self.has_own_root() && !self.is_implied(alloc, types)?)
    }
}

impl Extensible for SchemaDefinition {
    ghost sourced = { schema_components };

    /// The components: directives, roots.
    fn components(&self) -> Components<'_> {
        let roots = Rest::Roots(self.iter_root_operations());
        Components::new(&self.directives, Rest::Nothing, roots)
    }
}

/// Whether an object type has this name.
fn has_object(types: &TypesByName, name: &NamedType) -> bool
    ensures { result ≡ is_some_object (lookup (same_text name.now) types.now) }
{
    match types.get(name) {
        Some(ty) => ty.is_object(),
        None => false,
    }
}
