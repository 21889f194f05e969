//! Selections: GraphQL specification of October 2021, sections 2.4 to 2.8.
ghost use Rattle.std.specs.Prelude.{◌≡◌, IfOk, [], None, Some};
ghost use Rattle.std.specs.Option.{option_copied, unwrap_or};

use crate::directive::{Argument, DirectiveList};
use crate::else_empty::else_empty;
use crate::from_nodes::copied;
use graphql_nodes::collections::items::Items;
use graphql_nodes::name::{Name, NamedType};
use graphql_nodes::node::Node;
use graphql_nodes::source::SourceSpan;
use graphql_nodes::{clone_fields, take_apart};
use std::alloc::{AllocError, Global};

/// One entry of a selection set (section 2.4). `From` of a node is the variant of its kind, which holds this
/// node.
#[cycle(selection)]
#[derive(Debug, Drop, PartialEq, Eq, Hash)]
pub enum Selection {
    Field(Node<Field>),
    FragmentSpread(Node<FragmentSpread>),
    InlineFragment(Node<InlineFragment>),
}

impl Selection {
    ghost use Rattle.graphql_ast.specs.SelectionKinds.{as_field, as_fragment_spread, as_inline_fragment};
    ghost use Rattle.graphql_ast.specs.SelectionKinds.{selection_directives, selection_location};

    /// Where the selection stands in a source, if it is known.
    pub fn location(&self) -> Option<SourceSpan>
        ensures { result ≡ selection_location self.now }
    {
        match self {
            Selection::Field(node) => node.location(),
            Selection::FragmentSpread(node) => node.location(),
            Selection::InlineFragment(node) => node.location(),
        }
    }

    /// The directives of the selection.
    pub fn directives(&self) -> &DirectiveList
        ensures { result.now ≡ selection_directives self.now }
    {
        match self {
            Selection::Field(node) => &node.directives,
            Selection::FragmentSpread(node) => &node.directives,
            Selection::InlineFragment(node) => &node.directives,
        }
    }

    /// The field, if it is one.
    pub fn as_field(&self) -> Option<&Node<Field>>
        ensures { option_copied result ≡ as_field self.now }
    {
        match self {
            Selection::Field(node) => Some(node),
            _ => None,
        }
    }

    /// The inline fragment, if it is one.
    pub fn as_inline_fragment(&self) -> Option<&Node<InlineFragment>>
        ensures { option_copied result ≡ as_inline_fragment self.now }
    {
        match self {
            Selection::InlineFragment(node) => Some(node),
            _ => None,
        }
    }

    /// The spread of a fragment, if it is one.
    pub fn as_fragment_spread(&self) -> Option<&Node<FragmentSpread>>
        ensures { option_copied result ≡ as_fragment_spread self.now }
    {
        match self {
            Selection::FragmentSpread(node) => Some(node),
            _ => None,
        }
    }
}

/// A selected field (section 2.5).
#[cycle(selection)]
#[derive(Debug, PartialEq, Eq, Hash)]
pub struct Field {
    pub alias: Option<Name>,
    pub name: Name,
    pub arguments: Items<Node<Argument>>,
    pub directives: DirectiveList,
    pub selection_set: Items<Selection>,
}

impl Drop for Field {
    #[cycle(drop_selection)]
    fn drop(self) {
        take_apart!(self: alias, name, arguments, directives, selection_set);
    }
}

impl Field {
    /// A field of this name, without alias, arguments, directives and selections.
    pub fn new(alloc: Global, name: Name) -> Field
        ensures { result ≡ record {
          alias = None;
          name = name;
          arguments = [];
          directives = record { 0 = [] };
          selection_set = [];
        } }
    {
        let alias = None;
        else_empty!(alloc: alias, name; directives, arguments, selection_set)
    }

    /// The key of the field in a response: its alias, or else its name (section 2.7).
    pub fn response_key(&self) -> &Name
        ensures { result.now ≡ unwrap_or self.now.alias self.now.name }
    {
        match &self.alias {
            Some(alias) => alias,
            None => &self.name,
        }
    }
}

/// The selections of a named fragment (section 2.8).
#[derive(Debug, PartialEq, Eq, Hash, Clone)]
pub struct FragmentSpread {
    pub fragment_name: Name,
    pub directives: DirectiveList,
}

impl FragmentSpread {
    /// A spread of the fragment of this name, without directives (section 2.8). It takes no memory.
    pub fn new(alloc: Global, fragment_name: Name) -> FragmentSpread
        ensures { result ≡ record { fragment_name = fragment_name; directives = record { 0 = [] } } }
    {
        else_empty!(alloc: fragment_name; directives)
    }
}

/// Selections under a type condition, if there is one, and directives of their own (section 2.8.2).
#[cycle(selection)]
#[derive(Debug, PartialEq, Eq, Hash)]
pub struct InlineFragment {
    pub type_condition: Option<NamedType>,
    pub directives: DirectiveList,
    pub selection_set: Items<Selection>,
}

impl Drop for InlineFragment {
    #[cycle(drop_selection)]
    fn drop(self) {
        take_apart!(self: type_condition, directives, selection_set);
    }
}

impl InlineFragment {
    /// An inline fragment on this type, without directives and selections.
    pub fn with_type_condition(alloc: Global, type_condition: NamedType) -> InlineFragment
        ensures { result ≡ record {
          type_condition = Some type_condition;
          directives = record { 0 = [] };
          selection_set = [];
        } }
    {
        let type_condition = Some(type_condition);
        else_empty!(alloc: type_condition; directives, selection_set)
    }

    /// An inline fragment on the type that it stands in, without directives and selections.
    pub fn without_type_condition(alloc: Global) -> InlineFragment
        ensures { result ≡ record {
          type_condition = None;
          directives = record { 0 = [] };
          selection_set = [];
        } }
    {
        let type_condition = None;
        else_empty!(alloc: type_condition; directives, selection_set)
    }
}

impl Clone for Selection {
    ghost is_clone = { λ a b. b ≡ a };

    /// The same selection, with every location. The node is shared. The error is out of memory.
    fn clone(&self) -> Result<Selection, AllocError> {
        match self {
            Selection::Field(node) => copied(node),
            Selection::FragmentSpread(node) => copied(node),
            Selection::InlineFragment(node) => copied(node),
        }
    }
}

impl Clone for Field {
    ghost is_clone = { λ a b. b ≡ a };

    /// The same field, with every location. The error is out of memory.
    fn clone(&self) -> Result<Field, AllocError> {
        clone_fields!(self: alias, name, arguments, directives, selection_set)
    }
}

impl Clone for InlineFragment {
    ghost is_clone = { λ a b. b ≡ a };

    /// The same fragment, with every location. The error is out of memory.
    fn clone(&self) -> Result<InlineFragment, AllocError> {
        clone_fields!(self: type_condition, directives, selection_set)
    }
}

impl Drop for FragmentSpread {
    fn drop(self) {
        take_apart!(self: fragment_name, directives);
    }
}
