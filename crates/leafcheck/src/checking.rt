//! The leaf faults of documents: GraphQL specification of October 2021, section 5.3.3.
//!
//! Each set is looked at once, as deep as it is nested. Memory is taken for faults alone.
ghost use Rattle.std.specs.Prelude.{◌≡◌, ◌≢◌, ◌∷◌, ◌++◌, [], IfOk, None, OnOk, OnErr};
ghost use Rattle.leafcheck.specs.Around.{path_of};
ghost use Rattle.leafcheck.specs.LeafFaults as spec;
ghost use Rattle.leafcheck.specs.LeafFaults.{leaf_faults_in};
ghost use Rattle.leafcheck.specs.PlacedFields.{placed};

use crate::around::Around;
use crate::laws::fields_with_places;
use crate::leaf_fault::{LeafFault, LeafKind};
use apollo_executable::document::ExecutableDocument;
use apollo_executable::selection::{Field, Selection, SelectionSet};
use apollo_schema::schema::Schema;
use graphql_nodes::collections::items::Items;
use graphql_nodes::name::NamedType;
use graphql_nodes::node::Node;
use std::alloc::{AllocError, Global};

/// The fields of a document that are at fault over a schema. They are those of scalar or enum types that have
/// subselections, and those of object, interface or union types that have none. A field of an input object
/// type is never at fault, and neither is one of a type that the schema lacks.
///
/// The faults of operations come first, in the order of
/// [`iter`](apollo_executable::operation_map::OperationMap::iter), then those of fragments, in the order of
/// the map. Of each it is the field before those below it, through inline fragments, but not through spreads.
/// A fragment is looked at once, wherever it is spread, or nowhere. Paths are as in the faults of a build,
/// where operations and fragments stand under their own names.
///
/// The schema need not be the one that the document was built over. The error is out of memory, which a
/// document without leaf faults doesn't meet.
pub fn leaf_faults(
    alloc: Global,
    schema: &Schema,
    document: &ExecutableDocument,
) -> Result<Vec<LeafFault>, AllocError>
    ensures faults { IfOk result (λ faults. faults.items ≡ spec.leaf_faults schema.now document.now) }
    ensures memory { OnErr result (spec.leaf_faults schema.now document.now ≢ []) }
{
    let mut faults = Items::new(alloc);
    for operation in document.operations.iter() {
        let around = Around::Operation(operation);
        note_set(
            alloc,
            schema,
            &around,
            &operation.selection_set,
            &mut faults,
        )?;
    }
    for fragment in document.fragments.values() {
        let around = Around::Fragment(fragment);
        note_set(alloc, schema, &around, &fragment.selection_set, &mut faults)?;
    }
    Ok(faults.into_vec())
}

/// Notes the faults of a set.
#[cycle(note)]
fn note_set(
    alloc: Global,
    schema: &Schema,
    around: &Around,
    set: &SelectionSet,
    faults: &mut Items<LeafFault>,
) -> Result<(), AllocError>
    ensures noted { OnOk result
        (faults.new ≡ faults.old ++ spec.set_faults schema.now (path_of around.now) set.now) }
    ensures memory { OnErr result (spec.set_faults schema.now (path_of around.now) set.now ≢ []) }
{
    fields_with_places();
    for selection in &set.selections {
        note_selection(alloc, schema, around, &set.ty, selection, faults)?;
    }
    Ok(())
}

/// Notes the faults of a selection from a type. What is behind a spread is no part of it.
#[cycle(note)]
fn note_selection(
    alloc: Global,
    schema: &Schema,
    around: &Around,
    ty: &NamedType,
    selection: &Selection,
    faults: &mut Items<LeafFault>,
) -> Result<(), AllocError>
    ensures noted { OnOk result (faults.new
        ≡ faults.old ++ leaf_faults_in schema.now ty.now (path_of around.now) (selection.now ∷ [])) }
    ensures memory { OnErr result
        (leaf_faults_in schema.now ty.now (path_of around.now) (selection.now ∷ []) ≢ []) }
{
    fields_with_places();
    match selection {
        Selection::Field(node) => note_field(alloc, schema, around, ty, node, faults),
        Selection::FragmentSpread(_) => Ok(()),
        Selection::InlineFragment(node) => {
            note_set(alloc, schema, around, &node.selection_set, faults)
        }
    }
}

/// Notes the fault of a field from a type, if it has one, and those of the fields below it.
#[cycle(note)]
fn note_field(
    alloc: Global,
    schema: &Schema,
    around: &Around,
    ty: &NamedType,
    node: &Node<Field>,
    faults: &mut Items<LeafFault>,
) -> Result<(), AllocError>
    ensures noted { OnOk result (faults.new
        ≡ faults.old ++ spec.faults_from schema.now (placed ty.now (path_of around.now) node.now)) }
    ensures memory { OnErr result
        (spec.faults_from schema.now (placed ty.now (path_of around.now) node.now) ≢ []) }
{
    let inside = Around::Field(node.response_key(), &*around);
    if let Some(fault) = fault_at(alloc, schema, &inside, ty, node)? {
        faults.push(fault)?;
    }
    note_set(alloc, schema, &inside, &node.selection_set, faults)
}

/// The fault of a field from a type, if it has one. Its set has that around it.
fn fault_at(
    alloc: Global,
    schema: &Schema,
    inside: &Around,
    ty: &NamedType,
    node: &Node<Field>,
) -> Result<Option<LeafFault>, AllocError>
    ensures fault { IfOk result (λ fault. fault
        ≡ spec.fault_at schema.now
        (record { node = node.now; parent_type = ty.now; path = path_of inside.now })) }
    ensures memory { OnErr result (spec.kind_over schema.now node.now.value ≢ None) }
{
    let Some(kind) = kind_over(schema, node) else {
        return Ok(None);
    };
    Ok(Some(LeafFault {
        location: node.location(),
        parent_type: ty.clone()?,
        response_key: node.response_key().clone()?,
        path: inside.path(alloc)?,
        kind,
    }))
}

/// In which way a field is at fault, if it is.
fn kind_over(schema: &Schema, field: &Field) -> Option<LeafKind>
    ensures { result ≡ spec.kind_over schema.now field.now }
{
    let ty = field.inner_type_def(schema)?;
    let is_bare = field.selection_set.is_empty();
    if is_bare && ty.is_composite() {
        return Some(LeafKind::MissingSubselection);
    }
    if !is_bare && ty.is_leaf() {
        return Some(LeafKind::SubselectionOnLeaf);
    }
    None
}
