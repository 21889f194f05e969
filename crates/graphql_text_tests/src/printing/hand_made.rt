//! Trees made by calls that no text is read as. They are printed too.

use graphql_ast::definition::Definition;
use graphql_ast::operation::OperationDefinition;
use graphql_ast::selection::{InlineFragment, Selection};
use graphql_ast::type_system::{
    DirectiveDefinition, ObjectTypeExtension, ScalarTypeDefinition, SchemaDefinition,
};
use graphql_ast::value::Value;
use graphql_nodes::collections::text::Text;
use graphql_nodes::name::Name;
use graphql_nodes::node::Node;
use graphql_nodes::operation_type::OperationType;
use graphql_printing::printing::{
    definition_text, definitions_text, operation_text, selections_text, value_text,
};
use std::alloc::{AllocError, Global};
use std::test::Fail;

fn query_without_selections(alloc: Global) -> Result<String, AllocError> {
    operation_text(
        alloc,
        &OperationDefinition::new(alloc, OperationType::Query),
    )
}

fn inline_fragment_without_selections(alloc: Global) -> Result<String, AllocError> {
    let fragment = InlineFragment::without_type_condition(alloc);
    let selection = Selection::InlineFragment(Node::new(alloc, fragment)?);
    selections_text(alloc, &[selection])
}

fn schema_without_roots(alloc: Global) -> Result<String, AllocError> {
    let schema = Node::new(alloc, SchemaDefinition::new(alloc))?;
    definition_text(alloc, &Definition::SchemaDefinition(schema))
}

/// The text of the definition of this sort and name that has nothing else.
macro_rules! text_of_name {
    ($alloc:expr, $sort:ident, $name:expr) => {{
        let definition = $sort::new($alloc, Name::new_unchecked($alloc, $name)?);
        definition_text($alloc, &Definition::$sort(Node::new($alloc, definition)?))?
    }};
}

/// Whether definitions that have a name alone are printed so.
fn names_alone_are_printed(alloc: Global) -> Result<bool, AllocError> {
    let extension = text_of_name!(alloc, ObjectTypeExtension, "T");
    let directive = text_of_name!(alloc, DirectiveDefinition, "d");
    let scalar = text_of_name!(alloc, ScalarTypeDefinition, "");
    Ok(
        extension.as_str() == "extend type T"
            && directive.as_str() == "directive @d on "
            && scalar.as_str() == "scalar ",
    )
}

fn number_that_is_none(alloc: Global) -> Result<String, AllocError> {
    value_text(alloc, &Value::Int(Text::from_str(alloc, "\"\n{")?))
}

/// Whether this is the text, and memory was there.
fn is_text(made: Result<String, AllocError>, text: &str) -> bool {
    match made {
        Ok(made) => made.as_str() == text,
        Err(_) => false,
    }
}

#[test]
fn trees_of_no_text_are_printed(rt: HostRuntime) {
    let alloc = rt.alloc();
    assert!(rt; is_text(definitions_text(alloc, &[]), ""));
    assert!(rt; is_text(query_without_selections(alloc), ""));
    assert!(rt; is_text(inline_fragment_without_selections(alloc), "{\n  ...\n}"));
    assert!(rt; is_text(schema_without_roots(alloc), "schema"));
    assert!(rt; names_alone_are_printed(alloc) == Ok(true));
    assert!(rt; is_text(number_that_is_none(alloc), "\"\n{"));
}
