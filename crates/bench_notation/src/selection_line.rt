//! What a line of selections says: GraphQL specification of October 2021, sections 2.4 to 2.8.
ghost use Rattle.std.specs.Prelude.{◌≡◌, IfOk};
ghost use Rattle.bench_notation.specs.Nesting.{levels_below, selection_of, takes_selections};

use graphql_ast::directive::DirectiveList;
use graphql_ast::selection::{Field, FragmentSpread, InlineFragment, Selection};
use graphql_nodes::collections::items::Items;
use graphql_nodes::name::{Name, NamedType};
use graphql_nodes::node::Node;
use graphql_nodes::source::SourceSpan;
use graphql_nodes::take_apart;
use std::alloc::{AllocError, Global};

/// How deep a selection stands at most.
pub const MOST_DEPTH: u8 = 200;

/// What is selected, without selections of its own.
#[derive(Drop)]
pub enum Selected {
    /// A field of this name, under this alias if there is one.
    Field(Name, Option<Name>),
    /// The fragment of this name.
    Spread(Name),
    /// What an inline fragment has, under this type condition if there is one.
    Inline(Option<NamedType>),
}

impl Selected {
    /// Whether it has selections of its own. A spread has none.
    fn takes_selections(&self) -> bool
        ensures { result ≡ takes_selections self.now }
    {
        match self {
            Selected::Field(_, _) | Selected::Inline(_) => true,
            Selected::Spread(_) => false,
        }
    }
}

/// One line of selections.
pub struct SelectionLine {
    /// In how many other selections it stands.
    pub depth: u8,
    /// Its location.
    pub location: SourceSpan,
    pub selected: Selected,
}

impl Drop for SelectionLine {
    fn drop(self) {
        take_apart!(self: depth, location, selected);
    }
}

impl SelectionLine {
    /// At how many depths the next line may stand: at each up to its own, and one deeper where it has
    /// selections.
    pub fn levels_below(&self) -> u16
        ensures { result ≡ levels_below self.now }
    {
        let level = u16::from(self.depth) + 1;
        if self.selected.takes_selections() {
            level + 1
        } else {
            level
        }
    }

    /// The selection that it says, at its location, with these selections. Of a spread they are dropped. The
    /// error is out of memory, and drops them.
    pub fn into_selection(
        self,
        alloc: Global,
        selections: Items<Selection>,
    ) -> Result<Selection, AllocError>
        ensures { IfOk result (λ selection. selection ≡ selection_of self selections) }
    {
        let SelectionLine {
            depth: _,
            location,
            selected,
        } = self;
        match selected {
            Selected::Field(name, alias) => {
                let field = Field {
                    alias,
                    name,
                    arguments: Items::new(alloc),
                    directives: DirectiveList::new(alloc),
                    selection_set: selections,
                };
                let node = Node::new_opt_location(alloc, field, Some(location))?;
                Ok(Selection::Field(node))
            }
            Selected::Spread(name) => {
                let spread = FragmentSpread::new(alloc, name);
                let node = Node::new_opt_location(alloc, spread, Some(location))?;
                Ok(Selection::FragmentSpread(node))
            }
            Selected::Inline(type_condition) => {
                let fragment = InlineFragment {
                    type_condition,
                    directives: DirectiveList::new(alloc),
                    selection_set: selections,
                };
                let node = Node::new_opt_location(alloc, fragment, Some(location))?;
                Ok(Selection::InlineFragment(node))
            }
        }
    }
}
