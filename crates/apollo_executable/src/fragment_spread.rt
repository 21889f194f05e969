//! Spreads of fragments: GraphQL specification of October 2021, section 2.8.
ghost use Rattle.std.specs.Prelude.{◌≡◌, IfOk, [], ◌∷◌, ◌++◌};
ghost use Rattle.std.specs.Option.{option_copied};
ghost use Rattle.graphql_nodes.specs.SameText.{same_text};
ghost use Rattle.graphql_nodes.specs.Tables.{lookup};
ghost use Rattle.apollo_executable.specs.NewSelections.{new_spread};
ghost use Rattle.apollo_executable.specs.Erasure.{erased_spread};

use crate::added_directives::append_directives;
use crate::document::ExecutableDocument;
use crate::operation::Fragment;
use crate::selection::FragmentSpread;
use graphql_ast::directive::{Directive, DirectiveList};
use graphql_ast::selection as ast;
use graphql_nodes::name::Name;
use graphql_nodes::node::Node;
use std::alloc::{AllocError, Global};

impl FragmentSpread {
    /// A spread of the fragment of this name, without directives (section 2.8). It takes no memory.
    pub fn new(alloc: Global, fragment_name: Name) -> FragmentSpread
        ensures { result ≡ new_spread fragment_name }
    {
        FragmentSpread {
            fragment_name,
            directives: DirectiveList::new(alloc),
        }
    }

    /// The fragment that is spread: the one that stands under the name's text in the document, if one does.
    pub fn fragment_def<'doc>(
        &self,
        document: &'doc ExecutableDocument,
    ) -> Option<&'doc Node<Fragment>>
        ensures { option_copied result ≡ lookup (same_text self.now.fragment_name) document.now.fragments }
    {
        document.fragments.get(&self.fragment_name)
    }

    /// The same spread with one more directive at the end. The error is out of memory, and drops the spread.
    pub fn with_directive(
        mut self,
        directive: Node<Directive>,
    ) -> Result<FragmentSpread, AllocError>
        ensures { IfOk result (λ spread. spread
            ≡ record self { directives = record { 0 = self.directives.0 ++ directive ∷ [] } }) }
    {
        self.directives.push(directive)?;
        Ok(self)
    }

    /// The same spread with these directives at the end. The error is out of memory, and drops the spread.
    pub fn with_directives(
        mut self,
        directives: Vec<Node<Directive>>,
    ) -> Result<FragmentSpread, AllocError>
        ensures { IfOk result (λ spread. spread
            ≡ record self { directives = record { 0 = self.directives.0 ++ directives.items } }) }
    {
        append_directives(&mut self.directives, directives)?;
        Ok(self)
    }

    /// The spread as syntax. The error is out of memory.
    pub fn to_ast(&self) -> Result<ast::FragmentSpread, AllocError>
        ensures { IfOk result (λ written. written ≡ erased_spread self.now) }
    {
        Ok(ast::FragmentSpread {
            fragment_name: self.fragment_name.clone()?,
            directives: self.directives.clone()?,
        })
    }
}
