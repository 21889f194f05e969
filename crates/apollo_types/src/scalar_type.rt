//! Scalar types: GraphQL specification of October 2021, section 3.5.

use apollo_component::directive_list::DirectiveList;
use graphql_nodes::name::Name;
use graphql_nodes::node_str::NodeStr;
use graphql_nodes::take_apart;
use std::hash::Hash;

/// A scalar type, with what its extensions add (section 3.5).
///
/// Equality leaves out locations and origins. Directives are compared in order.
#[derive(Debug, PartialEq, Eq, Hash)]
pub struct ScalarType {
    pub description: Option<NodeStr>,
    pub name: Name,
    pub directives: DirectiveList,
}

impl Drop for ScalarType {
    fn drop(self) {
        take_apart!(self: description, name, directives);
    }
}
