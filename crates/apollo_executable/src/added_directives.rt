//! Directives that are added to selections.
ghost use Rattle.std.specs.Prelude.{◌≡◌, ◌++◌, OnOk};

use graphql_ast::directive::{Directive, DirectiveList};
use graphql_nodes::collections::items::Items;
use graphql_nodes::node::Node;
use std::alloc::AllocError;

/// Adds the directives at the end, in order. The error is out of memory.
pub(crate) fn append_directives(
    list: &mut DirectiveList,
    directives: Vec<Node<Directive>>,
) -> Result<(), AllocError>
    ensures { OnOk result (list.new.0 ≡ list.old.0 ++ directives.items) }
{
    list.0.append(&mut Items::from_vec(directives))
}
