//! Sets of fields that stand by themselves, as arguments of directives have them: GraphQL specification of
//! October 2021, section 2.4.
ghost use Rattle.std.specs.Prelude.{◌≡◌, ◌≢◌, [], Some, IfOk, OnErr};
ghost use Rattle.graphql_nodes.specs.declared.operation_type.OperationType.TheVariants.{Query};
ghost use Rattle.apollo_executable.specs.Erasure.{erased_set};
ghost use Rattle.apollo_document.specs.FieldSets.{field_set_path};
ghost use Rattle.apollo_document.specs.SelectionFaults.{faults_of_selections};
ghost use Rattle.apollo_document.specs.Stripped.{stripped};
ghost use Rattle.apollo_document.specs.TypedSelections.{IsTypedSet};

use crate::build_error::Faults;
use crate::elaborating::Elaboration;
use crate::selection_path::ExecutableDefinitionName;
use apollo_executable::selection::SelectionSet;
use apollo_schema::schema::Schema;
use graphql_ast::selection as ast;
use graphql_nodes::clone_fields;
use graphql_nodes::collections::table::Table;
use graphql_nodes::name::NamedType;
use graphql_nodes::operation_type::OperationType;
use graphql_nodes::source::SourceMap;
use std::alloc::{AllocError, Global};

/// Selections from a type of a schema, without a definition around them, and the files that they come from. A
/// clone is the original, with its sources; its error is out of memory.
#[derive(Debug, Drop)]
pub struct FieldSet {
    pub sources: SourceMap,
    pub selection_set: SelectionSet,
}

impl Clone for FieldSet {
    ghost is_clone = { λ a b. b ≡ a };

    fn clone(&self) -> Result<FieldSet, AllocError> {
        clone_fields!(self: sources, selection_set)
    }
}

impl FieldSet {
    /// The typable ones of these selections from the type of this name, without sources, and the faults of
    /// the others, in order. The typable ones are typed as
    /// [`elaborate_selections`](crate::elaboration::elaborate_selections) says. Each path begins as that of
    /// an anonymous query.
    ///
    /// The error is out of memory, and drops the name.
    #[tactic(auto, using(crate::proofs::ErasureLemmas::erased_is_stripped, crate::proofs::TypingLemmas::elaborated_is_typed))]
    pub fn from_ast(
        alloc: Global,
        schema: &Schema,
        ty: NamedType,
        selections: &[ast::Selection],
    ) -> Result<(FieldSet, Faults), AllocError>
        ensures kept { IfOk result (λ made. erased_set made.0.selection_set
            ≡ stripped (Some schema.now) ty selections.now) }
        ensures typed { IfOk result (λ made. IsTypedSet (Some schema.now) ty made.0.selection_set) }
        ensures sources { IfOk result (λ made. made.0.sources ≡ []) }
        ensures faults { IfOk result (λ made. made.1.items
            ≡ faults_of_selections (Some schema.now) ty field_set_path selections.now) }
    {
        let root = ExecutableDefinitionName::AnonymousOperation(OperationType::Query);
        let mut elaboration = Elaboration::of(alloc, root);
        let selection_set = elaboration.elaborate_set(Some(schema), &ty, selections)?;
        let set = FieldSet {
            sources: Table::with_keys(alloc, schema.types.hash_keys()),
            selection_set,
        };
        Ok((set, elaboration.into_faults()))
    }

    /// The selections as syntax, in order. The error is out of memory, which a set without selections doesn't
    /// meet.
    pub fn to_ast(&self, alloc: Global) -> Result<Vec<ast::Selection>, AllocError>
        ensures written { IfOk result (λ written. written.items ≡ erased_set self.now.selection_set) }
        ensures memory { OnErr result (self.now.selection_set.selections ≢ []) }
    {
        self.selection_set.to_ast(alloc)
    }
}
