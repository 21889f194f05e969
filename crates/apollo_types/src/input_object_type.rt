//! Input object types: GraphQL specification of October 2021, section 3.10.

use apollo_component::component::Component;
use apollo_component::directive_list::DirectiveList;
use graphql_ast::type_system::InputValueDefinition;
use graphql_nodes::collections::table::Table;
use graphql_nodes::name::Name;
use graphql_nodes::node_str::NodeStr;
use graphql_nodes::take_apart;

/// An input object type, with what its extensions add (section 3.10).
///
/// Equality leaves out locations and origins, and the order of fields. Directives are compared in order.
#[derive(Debug, PartialEq, Eq)]
pub struct InputObjectType {
    pub description: Option<NodeStr>,
    pub name: Name,
    pub directives: DirectiveList,
    pub fields: Table<Name, Component<InputValueDefinition>>,
}

impl Drop for InputObjectType {
    fn drop(self) {
        take_apart!(self: description, name, directives, fields);
    }
}
