//! What is read into.
ghost use Rattle.std.specs.Prelude.{◌≡◌, ◌≢◌, ◌-◌, false, true, IfOk, MatchResult};
ghost use Rattle.graphql_grammar.specs.Pieces.{mapped, seq, sign};
ghost use Rattle.graphql_grammar.specs.Standing.{standing};
ghost use Rattle.graphql_grammar.specs.Words.{word_view};
ghost use Rattle.graphql_grammar.specs.declared.fault.FaultKind.TheVariants.{TooDeep};
ghost use Rattle.graphql_grammar.specs.declared.fault.ReadError.TheVariants.{Fault};
ghost use Rattle.graphql_productions.specs.Nodes.{behind, name, name_of, node_of};
ghost use Rattle.graphql_text.specs.Reads.{Reads};

use graphql_grammar::fault::{FaultKind, Item, ReadError};
use graphql_grammar::kind::{Kind, Names};
use graphql_grammar::word::Word;
use graphql_grammar::words::Words;
use graphql_nodes::name::Name;
use graphql_nodes::node::Node;
use graphql_nodes::source::{FileId, SourceSpan};
use std::alloc::{AllocError, Global};

/// What was read of words, or why nothing was.
pub(crate) type Reading<T> = Result<T, ReadError>;

/// What is read into: where memory comes from, the file that locations name, whether values are constant, and
/// how many signs may be open inside.
#[derive(Clone, Copy)]
pub(crate) struct Target {
    pub(crate) alloc: Global,
    pub(crate) file: FileId,
    pub(crate) constant: bool,
    pub(crate) depth: usize,
}

impl Target {
    /// The same where values are constant.
    pub(crate) fn constant(self) -> Target
        ensures { result ≡ record self { constant = true } }
    {
        Target {
            constant: true,
            ..self
        }
    }

    /// The same where values may be variables.
    pub(crate) fn with_variables(self) -> Target
        ensures { result ≡ record self { constant = false } }
    {
        Target {
            constant: false,
            ..self
        }
    }

    /// The same inside of one more sign that is open; the error is that none more may be.
    pub(crate) fn inside(self) -> Reading<Target>
        ensures { MatchResult result
            (λ inside. (self.depth ≢ 0) × (inside ≡ record self { depth = self.depth - 1 }))
            (λ e. (self.depth ≡ 0) × (e ≡ Fault TooDeep)) }
    {
        if self.depth == 0 {
            return Err(ReadError::Fault(FaultKind::TooDeep));
        }
        Ok(Target {
            depth: self.depth - 1,
            ..self
        })
    }

    /// The bytes from the first of these up to the second.
    pub(crate) fn span(self, start: usize, end: usize) -> SourceSpan
        ensures { result ≡ record { file = self.file; start = start; end = end } }
    {
        SourceSpan {
            file: self.file,
            start,
            end,
        }
    }

    /// A node at the words from a start on up to the last that was taken.
    pub(crate) fn node<T: Drop>(
        self,
        value: T,
        start: usize,
        end: usize,
    ) -> Result<Node<T>, AllocError>
        ensures { IfOk result (λ node. node ≡ node_of self.file (value, (start, end))) }
    {
        Node::new_opt_location(self.alloc, value, Some(self.span(start, end)))
    }

    /// The name that a word is, which was taken from these words.
    pub(crate) fn name_of(self, words: &mut Words<'_>, word: Word<'_>) -> Result<Name, AllocError>
        ensures name { IfOk result (λ name. name ≡ name_of self.file (word_view word.entry)) }
        ensures stands { standing words.new ≡ standing words.old }
    {
        words.name(self.alloc, word.text, self.span(word.start, word.end))
    }

    /// Reads a name.
    #[tactic(auto, unfolding(graphql_productions::specs::Nodes::name))]
    pub(crate) fn name(self, words: &mut Words<'_>) -> Reading<Name>
        ensures { Reads (name self.file) words.old words.new result }
    {
        let word = words.expect_name(Names::Any, FaultKind::Expected(Item::Name))?;
        Ok(self.name_of(words, word)?)
    }

    /// Reads a name behind a sign.
    pub(crate) fn name_behind(self, words: &mut Words<'_>, kind: Kind) -> Reading<Name>
        ensures { Reads (mapped behind (seq (sign kind) (name self.file))) words.old words.new result }
    {
        sign(words, kind)?;
        self.name(words)
    }
}

/// Takes a sign, where nothing else may stand.
pub(crate) fn sign(words: &mut Words<'_>, kind: Kind) -> Reading<()>
    ensures { Reads (sign kind) words.old words.new result }
{
    words.expect(kind, FaultKind::Expected(Item::Word(kind)))
}
