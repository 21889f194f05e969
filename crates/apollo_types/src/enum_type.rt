//! Enum types: GraphQL specification of October 2021, section 3.9.

use apollo_component::component::Component;
use apollo_component::directive_list::DirectiveList;
use graphql_ast::type_system::EnumValueDefinition;
use graphql_nodes::collections::table::Table;
use graphql_nodes::name::Name;
use graphql_nodes::node_str::NodeStr;
use graphql_nodes::take_apart;

/// An enum type, with what its extensions add (section 3.9).
///
/// Equality leaves out locations and origins, and the order of values. Directives are compared in order.
#[derive(Debug, PartialEq, Eq)]
pub struct EnumType {
    pub description: Option<NodeStr>,
    pub name: Name,
    pub directives: DirectiveList,
    pub values: Table<Name, Component<EnumValueDefinition>>,
}

impl Drop for EnumType {
    fn drop(self) {
        take_apart!(self: description, name, directives, values);
    }
}
