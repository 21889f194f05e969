//! Untyped selections made into typed ones: GraphQL specification of October 2021, sections 2.4 to 2.8.
ghost use Rattle.std.specs.Prelude.{◌≡◌, ◌++◌, IfOk, OnErr, OnOk};
ghost use Rattle.std.specs.Option.{option_copied};
ghost use Rattle.apollo_executable.specs.Erasure.{erased_set};
ghost use Rattle.apollo_document.specs.SelectionFaults.{faults_of_selections};
ghost use Rattle.apollo_document.specs.Stripped.{stripped};
ghost use Rattle.apollo_document.specs.TypedSelections.{IsTypedSet};

use crate::build_error::Fault;
use crate::elaborating::Elaboration;
use crate::selection_path::SelectionPath;
use apollo_executable::selection::SelectionSet;
use apollo_schema::schema::Schema;
use graphql_ast::selection as ast;
use graphql_nodes::collections::items::Items;
use graphql_nodes::name::NamedType;
use std::alloc::{AllocError, Global};

/// The typable ones of these selections from this type, typed, each with its own selections treated likewise.
/// The faults of the others are added at the end, in order, each with its path, which begins with `path`.
///
/// A field is typable under two conditions. The schema's [`type_field`](Schema::type_field) gives a
/// definition for its name in the type. And it has no selections or isn't of a scalar or enum type. Its
/// selections are from the type that the definition names, inside all lists. Where the schema lacks the type
/// itself, its fields are left out without a fault. An inline fragment is typable if its condition is the
/// name of a type. Its selections are from that, or without a condition from the same type. A spread always
/// is. Without a schema every selection is typable, and each field has a definition of its name, whose type
/// is `UNKNOWN`.
///
/// Whatever the answer, the path is afterwards as it was before. The error is out of memory, and leaves the
/// faults as they were.
#[tactic(auto, using(crate::proofs::ErasureLemmas::erased_is_stripped, crate::proofs::TypingLemmas::elaborated_is_typed))]
pub fn elaborate_selections(
    alloc: Global,
    schema: Option<&Schema>,
    ty: &NamedType,
    selections: &[ast::Selection],
    path: &mut SelectionPath,
    faults: &mut Items<Fault>,
) -> Result<SelectionSet, AllocError>
    ensures kept { IfOk result (λ set. erased_set set
        ≡ stripped (option_copied schema.entry) ty.now selections.now) }
    ensures typed { IfOk result (IsTypedSet (option_copied schema.entry) ty.now) }
    ensures faults { OnOk result (faults.new
        ≡ faults.old ++ faults_of_selections (option_copied schema.entry) ty.now path.old selections.now) }
    ensures unchanged { OnErr result (faults.new ≡ faults.old) }
    ensures path { path.new ≡ path.old }
{
    let mut elaboration = Elaboration::at(alloc, path.clone()?);
    let set = elaboration.elaborate_set(schema, ty, selections)?;
    faults.append(&mut elaboration.faults)?;
    Ok(set)
}
