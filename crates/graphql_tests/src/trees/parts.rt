//! Parts of operations and of types: their copies.

use crate::nodes::samples::name;
use crate::trees::arguments::{defined, field, int_type, number};
use graphql_ast::operation::VariableDefinition;
use graphql_ast::selection::FragmentSpread;
use graphql_ast::type_system::EnumValueDefinition;
use likeness::{both, is_held_copied, is_made_copied};
use std::alloc::{AllocError, Global};

/// The variable `$n: Int! = 10`.
fn variable_definition(alloc: Global) -> Result<VariableDefinition, AllocError> {
    let parts = both(int_type(alloc, true), number(alloc, "10"));
    let (name, (ty, default_value)) = both(name(alloc, "n", None), parts)?;
    let mut variable = VariableDefinition::new(alloc, name, ty)?;
    variable.default_value = Some(default_value);
    Ok(variable)
}

fn spread(alloc: Global) -> Result<FragmentSpread, AllocError> {
    Ok(FragmentSpread::new(alloc, name(alloc, "n", None)?))
}

fn enum_value(alloc: Global) -> Result<EnumValueDefinition, AllocError> {
    Ok(EnumValueDefinition::new(alloc, name(alloc, "n", None)?))
}

#[test]
fn parts_of_operations_and_types_are_copied(rt: HostRuntime) {
    let alloc = rt.alloc();
    assert!(rt; is_made_copied(variable_definition(alloc)));
    assert!(rt; is_made_copied(spread(alloc)));
    assert!(rt; is_held_copied(defined(alloc, "limit", true, Some("10"))));
    assert!(rt; is_made_copied(field(alloc)));
    assert!(rt; is_made_copied(enum_value(alloc)));
}
