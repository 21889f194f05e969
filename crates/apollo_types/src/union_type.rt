//! Union types: GraphQL specification of October 2021, section 3.8.

use apollo_component::component::ComponentName;
use apollo_component::directive_list::DirectiveList;
use graphql_nodes::collections::key_set::KeySet;
use graphql_nodes::name::Name;
use graphql_nodes::node_str::NodeStr;
use graphql_nodes::take_apart;

/// A union type, with what its extensions add (section 3.8).
///
/// Equality leaves out locations and origins, and the order of members. Directives are compared in order.
#[derive(Debug, PartialEq, Eq)]
pub struct UnionType {
    pub description: Option<NodeStr>,
    pub name: Name,
    pub directives: DirectiveList,
    pub members: KeySet<ComponentName>,
}

impl Drop for UnionType {
    fn drop(self) {
        take_apart!(self: description, name, directives, members);
    }
}
