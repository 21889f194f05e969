//! The parts of a schema's write-out.
ghost use Rattle.std.specs.Prelude.{◌≡◌, ◌++◌, OnOk};
ghost use Rattle.graphql_nodes.specs.Tables.{values_of};
ghost use Rattle.apollo_schema.specs.SchemaWriteOut.{write_directives, write_held_type};

use apollo_types::extended_type::ExtendedType;
use graphql_ast::definition::Definition;
use graphql_ast::type_system::DirectiveDefinition;
use graphql_nodes::collections::table::Table;
use graphql_nodes::name::Name;
use graphql_nodes::node::Node;
use std::alloc::{AllocError, Global};

/// Adds the directive definitions at the end, in order, without the built-in ones. The error is out of
/// memory.
pub(crate) fn write_directives(
    definitions: &Table<Name, Node<DirectiveDefinition>>,
    written: &mut Vec<Definition>,
) -> Result<(), AllocError>
    ensures { OnOk result (written.new.items
        ≡ written.old.items ++ write_directives (values_of definitions.now)) }
{
    for node in definitions.values() {
        if !node.is_built_in() {
            written.push(Definition::DirectiveDefinition(node.clone()?))?;
        }
    }
    Ok(())
}

/// Adds a type at the end: its definition, unless that is a built-in one, and then its extensions. The error
/// is out of memory.
pub(crate) fn write_type(
    alloc: Global,
    ty: &ExtendedType,
    written: &mut Vec<Definition>,
) -> Result<(), AllocError>
    ensures { OnOk result (written.new.items ≡ written.old.items ++ write_held_type ty.now) }
{
    if !ty.is_built_in() {
        ty.write_to(alloc, written)?;
        return Ok(());
    }
    let mut definitions = ty.to_ast(alloc)?;
    let _definition = definitions.remove(0);
    written.append(&mut definitions)?;
    Ok(())
}
