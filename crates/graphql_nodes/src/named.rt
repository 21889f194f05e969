//! What has a name, and the first of a name.
ghost use Rattle.std.specs.Prelude.{◌≡◌, find};
ghost use Rattle.std.specs.Option.{option_copied};
ghost use Rattle.graphql_nodes.specs.NodeView.{NodeView};
ghost use Rattle.graphql_nodes.specs.SameText.{same_text};

use crate::name::Name;
use crate::node::Node;

/// What has a name.
pub trait Named {
    ghost use Rattle.graphql_nodes.specs.NameView.{NameView};

    ghost name_of: { Self → NameView };

    /// The name.
    fn name(&self) -> &Name
        ensures { result.now ≡ name_of self.now };
}

/// The first of these that has the name's text, if there is one.
pub fn first_of_name<'a, T: Named>(nodes: &'a [Node<T>], name: &Name) -> Option<&'a Node<T>>
    ensures { option_copied result
        ≡ find (λ (node : NodeView T). same_text (T.name_of node.value) name.now) nodes.now }
{
    nodes.iter().find(|node| node.name() == name)
}
