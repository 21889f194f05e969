//! Typed selections: GraphQL specification of October 2021, sections 2.4 to 2.8.
//!
//! They are those of the syntax tree, with two differences. A set knows the name of the type that it selects
//! from, and a field its definition in the schema. All fields are public: any value may be made, whether a
//! schema has such types and fields or not.
//!
//! Equality leaves out locations; definitions of fields and types of sets count. A clone is the original,
//! with locations, and its error is out of memory.
ghost use Rattle.std.specs.Prelude.{◌≡◌, IfOk};
ghost use Rattle.std.specs.Option.{option_copied};
ghost use Rattle.apollo_executable.specs.SelectionParts.{as_field, as_fragment_spread, as_inline_fragment};
ghost use Rattle.apollo_executable.specs.SelectionParts.{directives_of, without_location};
ghost use Rattle.apollo_executable.specs.declared.selection.Selection as selections;
ghost use Rattle.apollo_executable.specs.Erasure.{erased};

use graphql_ast::directive::{Argument, DirectiveList};
use graphql_ast::selection as ast;
use graphql_ast::type_system::FieldDefinition;
use graphql_nodes::collections::items::Items;
use graphql_nodes::name::{Name, NamedType};
use graphql_nodes::node::Node;
use graphql_nodes::{clone_fields, take_apart};
use std::alloc::{AllocError, Global};

/// Selections from a type, in order (section 2.4).
#[cycle(selection)]
#[derive(Debug, PartialEq, Eq, Hash)]
pub struct SelectionSet {
    /// The name of the type that the set selects from.
    pub ty: NamedType,
    pub selections: Items<Selection>,
}

impl Drop for SelectionSet {
    #[cycle(drop_selection)]
    fn drop(self) {
        take_apart!(self: ty, selections);
    }
}

/// One entry of a selection set. `From` of a node is the variant of its kind, which holds this node.
#[cycle(selection)]
#[derive(Debug, Drop, PartialEq, Eq, Hash)]
pub enum Selection {
    Field(Node<Field>),
    FragmentSpread(Node<FragmentSpread>),
    InlineFragment(Node<InlineFragment>),
}

/// A selected field (section 2.5).
#[cycle(selection)]
#[derive(Debug, PartialEq, Eq, Hash)]
pub struct Field {
    /// The definition of the field in the type that it is selected from.
    pub definition: Node<FieldDefinition>,
    pub alias: Option<Name>,
    pub name: Name,
    pub arguments: Items<Node<Argument>>,
    pub directives: DirectiveList,
    pub selection_set: SelectionSet,
}

impl Drop for Field {
    #[cycle(drop_selection)]
    fn drop(self) {
        take_apart!(self: definition, alias, name, arguments, directives, selection_set);
    }
}

/// The selections of a named fragment (section 2.8).
#[derive(Debug, PartialEq, Eq, Hash, Clone)]
pub struct FragmentSpread {
    pub fragment_name: Name,
    pub directives: DirectiveList,
}

impl Drop for FragmentSpread {
    fn drop(self) {
        take_apart!(self: fragment_name, directives);
    }
}

/// Selections under a type condition, if there is one, and directives of their own (section 2.8.2).
#[cycle(selection)]
#[derive(Debug, PartialEq, Eq, Hash)]
pub struct InlineFragment {
    pub type_condition: Option<NamedType>,
    pub directives: DirectiveList,
    pub selection_set: SelectionSet,
}

impl Drop for InlineFragment {
    #[cycle(drop_selection)]
    fn drop(self) {
        take_apart!(self: type_condition, directives, selection_set);
    }
}

/// A clone of a selection by its kinds, which are named. The error is out of memory.
macro_rules! clone_kind {
    ($selection:ident of $($kind:ident),*) => {
        match $selection { $(Self::$kind(node) => Ok(Self::$kind(node.clone()?)),)* }
    };
}

impl Clone for SelectionSet {
    ghost is_clone = { λ a b. b ≡ a };

    fn clone(&self) -> Result<SelectionSet, AllocError> {
        clone_fields!(self: ty, selections)
    }
}

impl Clone for Selection {
    ghost is_clone = { λ a b. b ≡ a };

    fn clone(&self) -> Result<Selection, AllocError> {
        clone_kind!(self of Field, FragmentSpread, InlineFragment)
    }
}

impl Clone for Field {
    ghost is_clone = { λ a b. b ≡ a };

    fn clone(&self) -> Result<Field, AllocError> {
        clone_fields!(self: definition, alias, name, arguments, directives, selection_set)
    }
}

impl Clone for InlineFragment {
    ghost is_clone = { λ a b. b ≡ a };

    fn clone(&self) -> Result<InlineFragment, AllocError> {
        clone_fields!(self: type_condition, directives, selection_set)
    }
}

impl Selection {
    /// A selection of this field, without a location. The error is out of memory, and drops the field.
    pub fn of_field(alloc: Global, field: Field) -> Result<Selection, AllocError>
        ensures { IfOk result (λ selection. selection ≡ selections.Field (without_location field)) }
    {
        Ok(Selection::Field(Node::new(alloc, field)?))
    }

    /// A selection of this inline fragment, without a location. The error is out of memory, and drops the
    /// fragment.
    pub fn of_inline_fragment(
        alloc: Global,
        inline_fragment: InlineFragment,
    ) -> Result<Selection, AllocError>
        ensures { IfOk result (λ selection. selection
            ≡ selections.InlineFragment (without_location inline_fragment)) }
    {
        Ok(Selection::InlineFragment(Node::new(alloc, inline_fragment)?))
    }

    /// A selection of this spread, without a location. The error is out of memory, and drops the spread.
    pub fn of_fragment_spread(
        alloc: Global,
        fragment_spread: FragmentSpread,
    ) -> Result<Selection, AllocError>
        ensures { IfOk result (λ selection. selection
            ≡ selections.FragmentSpread (without_location fragment_spread)) }
    {
        Ok(Selection::FragmentSpread(Node::new(alloc, fragment_spread)?))
    }

    /// The directives of the selection.
    pub fn directives(&self) -> &DirectiveList
        ensures { result.now ≡ directives_of self.now }
    {
        match self {
            Selection::Field(field) => &field.directives,
            Selection::FragmentSpread(spread) => &spread.directives,
            Selection::InlineFragment(inline) => &inline.directives,
        }
    }

    /// The field, if it is one.
    pub fn as_field(&self) -> Option<&Node<Field>>
        ensures { option_copied result ≡ as_field self.now }
    {
        match self {
            Selection::Field(field) => Some(field),
            _ => None,
        }
    }

    /// The inline fragment, if it is one.
    pub fn as_inline_fragment(&self) -> Option<&Node<InlineFragment>>
        ensures { option_copied result ≡ as_inline_fragment self.now }
    {
        match self {
            Selection::InlineFragment(inline) => Some(inline),
            _ => None,
        }
    }

    /// The spread of a fragment, if it is one.
    pub fn as_fragment_spread(&self) -> Option<&Node<FragmentSpread>>
        ensures { option_copied result ≡ as_fragment_spread self.now }
    {
        match self {
            Selection::FragmentSpread(spread) => Some(spread),
            _ => None,
        }
    }

    /// The selection as syntax, at the same location. The error is out of memory.
    #[cycle(to_ast)]
    pub fn to_ast(&self, alloc: Global) -> Result<ast::Selection, AllocError>
        ensures { IfOk result (λ written. written ≡ erased self.now) }
    {
        match self {
            Selection::Field(node) => {
                let field = node.to_ast(alloc)?;
                Ok(ast::Selection::Field(node.same_location(alloc, field)?))
            }
            Selection::FragmentSpread(node) => {
                let spread = node.to_ast()?;
                Ok(ast::Selection::FragmentSpread(node.same_location(alloc, spread)?))
            }
            Selection::InlineFragment(node) => {
                let inline = node.to_ast(alloc)?;
                Ok(ast::Selection::InlineFragment(node.same_location(alloc, inline)?))
            }
        }
    }
}

impl From<Node<Field>> for Selection {
    ghost from_gives = { λ node selection. selection ≡ selections.Field node };

    fn from(node: Node<Field>) -> Selection {
        Selection::Field(node)
    }
}

impl From<Node<InlineFragment>> for Selection {
    ghost from_gives = { λ node selection. selection ≡ selections.InlineFragment node };

    fn from(node: Node<InlineFragment>) -> Selection {
        Selection::InlineFragment(node)
    }
}

impl From<Node<FragmentSpread>> for Selection {
    ghost from_gives = { λ node selection. selection ≡ selections.FragmentSpread node };

    fn from(node: Node<FragmentSpread>) -> Selection {
        Selection::FragmentSpread(node)
    }
}
