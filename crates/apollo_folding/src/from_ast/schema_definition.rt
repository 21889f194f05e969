//! The definition of the schema from its definitions and extensions.
ghost use Rattle.std.specs.Prelude.{◌≡◌, [], OnOk, IfOk, map, ◌++◌, List, None, Some};
ghost use Rattle.std.specs.Option.{option_or};
ghost use Rattle.apollo_types.specs.SchemaRoots.{root_of};
ghost use Rattle.apollo_types.specs.declared.schema_definition.SchemaDefinition.{};
ghost use Rattle.apollo_types.specs.declared.schema_definition.SchemaDefinition.{SchemaDefinition as AnyDefinition};
ghost use Rattle.apollo_meaning.specs.Types.Components.{component_name};
ghost use Rattle.apollo_folding.specs.Joins.{JoinsSchemaPart, FindsRoots};
ghost use Rattle.apollo_folding.specs.RootTables.{NamedRoot, root_with_origin, with_roots, put_root};
ghost use Rattle.apollo_folding.specs.RootTables.{dropped_root, held_fault, held_faults};

use crate::from_ast::folding::fold_directives;
use apollo_component::component::ComponentName;
use apollo_component::extension::ComponentOrigin;
use apollo_meaning::build_error::{BuildError, Fault};
use apollo_types::schema_definition::SchemaDefinition;
use graphql_ast::directive::Directive;
use graphql_ast::type_system as ast;
use graphql_nodes::collections::items::Items;
use graphql_nodes::collections::static_text::StaticText;
use graphql_nodes::name::NamedType;
use graphql_nodes::node::Node;
use graphql_nodes::operation_type::OperationType;
use std::alloc::{AllocError, Global};

/// The fault of a root whose operation has this one.
fn dropped_root(root: &Node<(OperationType, NamedType)>, kept: &ComponentName) -> Fault
    ensures { result ≡ dropped_root root.now kept.now }
{
    let (operation_type, _) = &**root;
    let error = BuildError::DuplicateRootOperation {
        previous_location: kept.name.location(),
        operation_type: StaticText::new(operation_type.name()),
    };
    (root.location(), error)
}

/// Names a root, or notes the fault where its operation has one.
fn name_root(
    held: &mut Option<ComponentName>,
    root: &Node<(OperationType, NamedType)>,
    origin: ComponentOrigin,
    faults: &mut Items<Fault>,
) -> Result<(), AllocError>
    ensures named { OnOk result (held.new
        ≡ option_or held.old (Some (component_name origin root.now.value.1))) }
    ensures faults { OnOk result (faults.new ≡ faults.old ++ held_fault held.old root.now) }
{
    if let Some(kept) = &*held {
        faults.push(dropped_root(root, kept))?;
        return Ok(());
    }
    let (_, name) = &**root;
    *held = Some(ComponentName::with_origin(name.clone()?, origin));
    Ok(())
}

/// Names a root of the schema, or notes the fault where its operation has one.
fn fold_root(
    definition: &mut SchemaDefinition,
    root: &Node<(OperationType, NamedType)>,
    origin: ComponentOrigin,
    faults: &mut Items<Fault>,
) -> Result<(), AllocError>
    ensures named { OnOk result (definition.new
        ≡ put_root root.now.value.0 (component_name origin root.now.value.1) definition.old) }
    ensures faults { OnOk result (faults.new
        ≡ faults.old ++ held_fault (root_of definition.old root.now.value.0) root.now) }
{
    let (operation_type, _) = &**root;
    match *operation_type {
        OperationType::Query => name_root(&mut definition.query, root, origin, faults)?,
        OperationType::Mutation => name_root(&mut definition.mutation, root, origin, faults)?,
        OperationType::Subscription => {
            name_root(&mut definition.subscription, root, origin, faults)?
        }
    }
    Ok(())
}

/// Names roots of the schema in order, and notes a fault for each whose operation has one.
fn fold_roots(
    definition: &mut SchemaDefinition,
    roots: &[Node<(OperationType, NamedType)>],
    origin: ComponentOrigin,
    faults: &mut Items<Fault>,
) -> Result<(), AllocError>
    ensures named { OnOk result ((base : AnyDefinition) (rs : List NamedRoot)
        → definition.old ≡ with_roots base rs
        → definition.new ≡ with_roots base (rs ++ map (root_with_origin origin) roots.now)) }
    ensures faults { OnOk result ((base : AnyDefinition) (rs : List NamedRoot)
        → definition.old ≡ with_roots base rs
        → faults.new ≡ faults.old ++ held_faults rs origin roots.now) }
{
    for root in roots {
        fold_root(definition, root, origin, faults)?;
    }
    Ok(())
}

/// The schema definition of a definition without its components.
pub(crate) fn bare(
    alloc: Global,
    definition: &ast::SchemaDefinition,
) -> Result<SchemaDefinition, AllocError>
    ensures { IfOk result (λ made. made
        ≡ record {
          description = definition.now.description;
          directives = record { 0 = [] };
          query = None;
          mutation = None;
          subscription = None;
        }) }
{
    let mut made = SchemaDefinition::new(alloc);
    made.description = definition.description.clone()?;
    Ok(made)
}

/// Folds the components of a definition or extension in.
pub(crate) fn fold_schema(
    definition: &mut SchemaDefinition,
    directives: &[Node<Directive>],
    roots: &[Node<(OperationType, NamedType)>],
    origin: ComponentOrigin,
    faults: &mut Items<Fault>,
) -> Result<(), AllocError>
    ensures folded { OnOk result
        (JoinsSchemaPart definition.old origin directives.now roots.now definition.new) }
    ensures faults { OnOk result (FindsRoots definition.old roots.now faults.old faults.new) }
{
    fold_directives(&mut definition.directives, directives, origin)?;
    fold_roots(definition, roots, origin, faults)?;
    Ok(())
}
