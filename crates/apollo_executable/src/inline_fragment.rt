//! Inline fragments: GraphQL specification of October 2021, section 2.8.2.
ghost use Rattle.std.specs.Prelude.{◌≡◌, IfOk, [], ◌∷◌, ◌++◌, Some};
ghost use Rattle.apollo_executable.specs.NewSelections.{inline_fragment_on, inline_fragment_in};
ghost use Rattle.apollo_executable.specs.Erasure.{erased_inline_fragment};

use crate::added_directives::append_directives;
use crate::selection::{InlineFragment, Selection, SelectionSet};
use graphql_ast::directive::{Directive, DirectiveList};
use graphql_ast::selection as ast;
use graphql_nodes::collections::items::Items;
use graphql_nodes::name::NamedType;
use graphql_nodes::node::Node;
use std::alloc::{AllocError, Global};

impl InlineFragment {
    /// An inline fragment on this type, without directives and selections. Its set selects from the same
    /// type. The error is out of memory, and drops the name.
    pub fn with_type_condition(
        alloc: Global,
        type_condition: NamedType,
    ) -> Result<InlineFragment, AllocError>
        ensures { IfOk result (λ inline. inline ≡ inline_fragment_on type_condition) }
    {
        let ty = type_condition.clone()?;
        Ok(InlineFragment {
            type_condition: Some(type_condition),
            directives: DirectiveList::new(alloc),
            selection_set: SelectionSet::new(alloc, ty),
        })
    }

    /// An inline fragment without condition in a set that selects from this type, as its own set does,
    /// without directives and selections. It takes no memory.
    pub fn without_type_condition(
        alloc: Global,
        parent_selection_set_type: NamedType,
    ) -> InlineFragment
        ensures { result ≡ inline_fragment_in parent_selection_set_type }
    {
        InlineFragment {
            type_condition: None,
            directives: DirectiveList::new(alloc),
            selection_set: SelectionSet::new(alloc, parent_selection_set_type),
        }
    }

    /// The same inline fragment with one more directive at the end. The error is out of memory, and drops the
    /// fragment.
    pub fn with_directive(
        mut self,
        directive: Node<Directive>,
    ) -> Result<InlineFragment, AllocError>
        ensures { IfOk result (λ inline. inline
            ≡ record self { directives = record { 0 = self.directives.0 ++ directive ∷ [] } }) }
    {
        self.directives.push(directive)?;
        Ok(self)
    }

    /// The same inline fragment with these directives at the end. The error is out of memory, and drops the
    /// fragment.
    pub fn with_directives(
        mut self,
        directives: Vec<Node<Directive>>,
    ) -> Result<InlineFragment, AllocError>
        ensures { IfOk result (λ inline. inline
            ≡ record self { directives = record { 0 = self.directives.0 ++ directives.items } }) }
    {
        append_directives(&mut self.directives, directives)?;
        Ok(self)
    }

    /// The same inline fragment with one more selection at the end of its set. The error is out of memory,
    /// and drops the fragment.
    pub fn with_selection(mut self, selection: Selection) -> Result<InlineFragment, AllocError>
        ensures { IfOk result (λ inline. inline
            ≡ record self {
              selection_set = record self.selection_set
                  { selections = self.selection_set.selections ++ selection ∷ [] };
            }) }
    {
        self.selection_set.push(selection)?;
        Ok(self)
    }

    /// The same inline fragment with these selections at the end of its set. The error is out of memory, and
    /// drops the fragment.
    pub fn with_selections(
        mut self,
        selections: Vec<Selection>,
    ) -> Result<InlineFragment, AllocError>
        ensures { IfOk result (λ inline. inline
            ≡ record self {
              selection_set = record self.selection_set
                  { selections = self.selection_set.selections ++ selections.items };
            }) }
    {
        self.selection_set.extend(selections)?;
        Ok(self)
    }

    /// The inline fragment as syntax, without the type of its set. The error is out of memory.
    #[cycle(to_ast)]
    pub fn to_ast(&self, alloc: Global) -> Result<ast::InlineFragment, AllocError>
        ensures { IfOk result (λ written. written ≡ erased_inline_fragment self.now) }
    {
        let selection_set = Items::from_vec(self.selection_set.to_ast(alloc)?);
        let inline = self.over(selection_set)?;
        Ok(inline)
    }

    /// The inline fragment as syntax over these selections.
    fn over(&self, selection_set: Items<ast::Selection>) -> Result<ast::InlineFragment, AllocError>
        ensures { IfOk result (λ written. written ≡ record {
          type_condition = self.now.type_condition;
          directives = self.now.directives;
          selection_set = selection_set;
        }) }
    {
        Ok(ast::InlineFragment {
            type_condition: self.type_condition.clone()?,
            directives: self.directives.clone()?,
            selection_set,
        })
    }
}
