//! Object types: GraphQL specification of October 2021, section 3.6.

use apollo_component::component::{Component, ComponentName};
use apollo_component::directive_list::DirectiveList;
use graphql_ast::type_system::FieldDefinition;
use graphql_nodes::collections::key_set::KeySet;
use graphql_nodes::collections::table::Table;
use graphql_nodes::name::Name;
use graphql_nodes::node_str::NodeStr;
use graphql_nodes::take_apart;

/// An object type, with what its extensions add (section 3.6).
///
/// Equality leaves out locations and origins, and the order of interfaces and fields. Directives are compared
/// in order.
#[derive(Debug, PartialEq, Eq)]
pub struct ObjectType {
    pub description: Option<NodeStr>,
    pub name: Name,
    pub implements_interfaces: KeySet<ComponentName>,
    pub directives: DirectiveList,
    pub fields: Table<Name, Component<FieldDefinition>>,
}

impl Drop for ObjectType {
    fn drop(self) {
        take_apart!(self: description, name, implements_interfaces, directives, fields);
    }
}
