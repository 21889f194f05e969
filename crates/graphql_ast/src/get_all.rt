//! The directives of one name: GraphQL specification of October 2021, section 2.12.
ghost use Rattle.std.specs.Prelude.{◌≡◌, filter, length};
ghost use Rattle.std.specs.Iterator.{at_most};
ghost use Rattle.std.specs.Map.Iter.{TakesFirst, deref};
ghost use Rattle.graphql_ast.specs.AppliedDirectives.{is_called, DirectivesInOrder};

use crate::directive::Directive;
use graphql_nodes::name::Name;
use graphql_nodes::node::Node;
use std::iter::FusedIterator;
use std::marker::Model;
use std::slice::Iter;

/// The directives of one name that a list has, in order. Contracts see the list of those that are still to
/// come.
#[derive(Drop)]
pub struct GetAll<'a, 'n> {
    directives: Iter<'a, Node<Directive>>,
    name: &'n Name,
}

impl<'a, 'n> Model for GetAll<'a, 'n> {
    ghost use Rattle.std.specs.Prelude.{List, filter};
    ghost use Rattle.std.specs.Coded.{coded_list};
    ghost use Rattle.std.specs.Slice.Iter.{iter_rest};
    ghost use Rattle.graphql_nodes.specs.NodeView.{NodeView, node_view_code};
    ghost use Rattle.graphql_ast.specs.declared.directive.Directive.{Directive};
    ghost use Rattle.graphql_ast.specs.contracts.directive.Directive as directive;
    ghost use Rattle.graphql_ast.specs.AppliedDirectives.{is_called};

    ghost Value = { List (NodeView Directive) };

    ghost coded = { coded_list (node_view_code directive.the_row.coded) };

    ghost view = { λ all. filter (is_called all.name.now) (iter_rest all.directives) };
}

impl<'a, 'n> GetAll<'a, 'n> {
    /// Those of the name among these directives.
    pub(crate) fn new(directives: &'a [Node<Directive>], name: &'n Name) -> GetAll<'a, 'n>
        ensures rest { result ≡ filter (is_called name.now) directives.now }
        ensures runs { DirectivesInOrder }
    {
        GetAll {
            directives: directives.iter(),
            name,
        }
    }
}

impl<'a, 'n> Iterator for GetAll<'a, 'n> {
    type Item = &'a Node<Directive>;

    ghost next_gives = { TakesFirst deref };

    ghost remaining = { λ left. at_most (length left) };

    /// The first directive of the name that is left, after which the rest is left. Once none is left it
    /// answers none, from then on too.
    fn next(&mut self) -> Option<&'a Node<Directive>> {
        while let Some(directive) = self.directives.next() {
            if directive.name == *self.name {
                return Some(directive);
            }
        }
        None
    }
}

impl<'a, 'n> FusedIterator for GetAll<'a, 'n> {}
