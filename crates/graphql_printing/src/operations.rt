//! Operations and fragments: GraphQL specification of October 2021, sections 2.3, 2.8 and 2.10.
ghost use Rattle.std.specs.Prelude.{◌≡◌};
ghost use Rattle.std.specs.Fmt.{WritesOnOk};
ghost use Rattle.graphql_printing.specs.Operations.{default_text, fragment_definition_text, is_short};
ghost use Rattle.graphql_printing.specs.Operations.{long_text, operation_definition_text, signature_text};
ghost use Rattle.graphql_printing.specs.Operations.{variable_text, variables_text};

use crate::arguments::write_directives;
use crate::lists::{Written, write_enclosed};
use crate::selections::write_selections;
use crate::types::write_type;
use crate::values::write_value;
use graphql_ast::directive::Directive;
use graphql_ast::operation::{FragmentDefinition, OperationDefinition, VariableDefinition};
use graphql_ast::value::Value;
use graphql_nodes::name::Name;
use graphql_nodes::node::Node;
use graphql_nodes::operation_type::OperationType;
use std::fmt;
use std::fmt::{Formatter, Write};

/// Writes an operation: a query without name, variables and directives as its selections alone.
pub fn write_operation<W: Write>(
    f: &mut Formatter<W>,
    operation: &OperationDefinition,
) -> fmt::Result
    ensures { WritesOnOk W.write_str_gives f.old result (operation_definition_text operation.now) f.new }
{
    let variables = operation.variables.as_slice();
    let directives = operation.directives.0.as_slice();
    if is_short(
        operation.operation_type,
        &operation.name,
        variables,
        directives,
    ) {
        write_selections(f, "{", operation.selection_set.as_slice(), 0)
    } else {
        write_long(f, operation)
    }
}

/// Whether an operation is a query without name, variables and directives.
fn is_short(
    operation_type: OperationType,
    name: &Option<Name>,
    variables: &[Node<VariableDefinition>],
    directives: &[Node<Directive>],
) -> bool
    ensures { result ≡ is_short operation_type name.now variables.now directives.now }
{
    match operation_type {
        OperationType::Query => name.is_none() && variables.is_empty() && directives.is_empty(),
        OperationType::Mutation | OperationType::Subscription => false,
    }
}

/// Writes an operation with its keyword.
pub(crate) fn write_long<W: Write>(
    f: &mut Formatter<W>,
    operation: &OperationDefinition,
) -> fmt::Result
    ensures { WritesOnOk W.write_str_gives f.old result (long_text operation.now) f.new }
{
    f.write_str(operation.operation_type.name())?;
    write_signature(f, &operation.name, operation.variables.as_slice())?;
    write_directives(f, operation.directives.0.as_slice())?;
    write_selections(f, " {", operation.selection_set.as_slice(), 0)
}

/// Writes an operation's name and variables, behind a blank, or nothing where it has neither.
fn write_signature<W: Write>(
    f: &mut Formatter<W>,
    name: &Option<Name>,
    variables: &[Node<VariableDefinition>],
) -> fmt::Result
    ensures { WritesOnOk W.write_str_gives f.old result (signature_text name.now variables.now) f.new }
{
    match name {
        Some(name) => {
            f.write_str(" ")?;
            f.write_str(name.as_str())?;
            write_variables(f, "(", variables)
        }
        None => write_variables(f, " (", variables),
    }
}

/// Writes variables behind an opening, or nothing where there is none.
fn write_variables<W: Write>(
    f: &mut Formatter<W>,
    opening: &str,
    variables: &[Node<VariableDefinition>],
) -> fmt::Result
    ensures { WritesOnOk W.write_str_gives f.old result (variables_text opening.now variables.now) f.new }
{
    write_enclosed(f, opening, ", ", ")", variables, 0)
}

impl Written for Node<VariableDefinition> {
    ghost text = { λ indent variable. variable_text variable };

    fn write<W: Write>(&self, f: &mut Formatter<W>, _indent: usize) -> fmt::Result {
        f.write_str("$")?;
        f.write_str(self.name.as_str())?;
        f.write_str(": ")?;
        write_type(f, &self.ty)?;
        write_default(f, &self.default_value)?;
        write_directives(f, self.directives.0.as_slice())
    }
}

/// Writes a default value, or nothing where there is none.
pub(crate) fn write_default<W: Write>(
    f: &mut Formatter<W>,
    default: &Option<Node<Value>>,
) -> fmt::Result
    ensures { WritesOnOk W.write_str_gives f.old result (default_text default.now) f.new }
{
    match default {
        Some(value) => {
            f.write_str(" = ")?;
            write_value(f, value)
        }
        None => Ok(()),
    }
}

/// Writes a fragment.
pub fn write_fragment<W: Write>(f: &mut Formatter<W>, fragment: &FragmentDefinition) -> fmt::Result
    ensures { WritesOnOk W.write_str_gives f.old result (fragment_definition_text fragment.now) f.new }
{
    f.write_str("fragment ")?;
    f.write_str(fragment.name.as_str())?;
    f.write_str(" on ")?;
    f.write_str(fragment.type_condition.as_str())?;
    write_directives(f, fragment.directives.0.as_slice())?;
    write_selections(f, " {", fragment.selection_set.as_slice(), 0)
}
