//! Reading all words of a text.
ghost use Rattle.std.specs.Prelude.{◌≡◌, ℕ, suc, List, true};
ghost use Rattle.graphql_nodes.specs.declared.source.FileId.{FileId as File};
ghost use Rattle.graphql_grammar.specs.Pieces.{GivesAll, Piece, read_whole};
ghost use Rattle.graphql_grammar.specs.Standing.{standing};
ghost use Rattle.graphql_grammar.specs.Words.{WordView};
ghost use Rattle.graphql_grammar.specs.declared.fault.Item.TheVariants.{Definition as DefinitionItem};
ghost use Rattle.graphql_grammar.proofs.Judged.{Judged};
ghost use Rattle.graphql_productions.specs.Documents.{any_kind, definition, document, selections};
ghost use Rattle.graphql_productions.specs.Documents.{spells_document};
ghost use Rattle.graphql_productions.specs.Types.{type};
ghost use Rattle.graphql_productions.specs.TypeSystem.{expecting};
ghost use Rattle.graphql_productions.specs.Values.{value_node};
ghost use Rattle.graphql_productions.proofs.DefinitionLaws.{one_tame};
ghost use Rattle.graphql_productions.proofs.JudgedProductions.{document_judged, selections_judged};
ghost use Rattle.graphql_productions.proofs.JudgedProductions.{type_judged, value_node_judged};
ghost use Rattle.graphql_text.specs.Reads.{Reads};

use crate::reading::definitions::definition;
use crate::reading::lists::{Read, some_items};
use crate::reading::selections::{selection_set, some_selections};
use crate::reading::target::{Reading, Target};
use crate::reading::types::type_reference;
use crate::reading::values::value_node;
use graphql_ast::definition::Definition;
use graphql_ast::selection::Selection;
use graphql_ast::type_reference::Type;
use graphql_ast::value::Value;
use graphql_grammar::fault::{FaultKind, Item, ReadError};
use graphql_grammar::kind::Kind;
use graphql_grammar::words::Words;
use graphql_nodes::collections::items::Items;
use graphql_nodes::node::Node;

/// What a whole text may be.
pub(crate) trait Tree: Drop {
    /// How it is read, where so many signs may be open.
    ghost piece: { File → ℕ → Piece Self };

    /// Which words spell it.
    ghost spells: { File → ℕ → Self → List WordView → Type 0 };

    /// Reads it, and leaves what stands behind it.
    fn read(target: Target, words: &mut Words<'_>) -> Reading<Self>
        ensures { Reads (piece target.file target.depth) words.old words.new result };

    /// What is read is spelled so, and the other way round; what is refused is refused for all words so far.
    ghost law: { (file : File) (depth : ℕ)
        → Judged (piece file depth) (spells file depth) (piece file (suc depth)).spells };
}

/// Reads what a whole text is, and nothing behind it.
pub(crate) fn whole<T: Tree>(target: Target, words: &mut Words<'_>) -> Reading<T>
    ensures { GivesAll result (standing words.new).left
        (read_whole (T.piece target.file target.depth) (standing words.old)) }
{
    let read = T::read(target, words)?;
    match words.next_kind() {
        None => Ok(read),
        Some(_) => Err(ReadError::Fault(FaultKind::Expected(Item::End))),
    }
}

impl Tree for Type {
    ghost piece = { type };

    ghost spells = { λ file depth. (type file depth).spells };

    ghost law = { type_judged };

    fn read(target: Target, words: &mut Words<'_>) -> Reading<Type> {
        type_reference(target, words)
    }
}

impl Tree for Node<Value> {
    ghost piece = { λ file depth. value_node file true depth };

    ghost spells = { λ file depth. (value_node file true depth).spells };

    ghost law = { λ file depth. value_node_judged file true depth };

    fn read(target: Target, words: &mut Words<'_>) -> Reading<Node<Value>> {
        value_node(target.constant(), words)
    }
}

impl Tree for Items<Selection> {
    ghost piece = { selections };

    ghost spells = { λ file depth. (selections file depth).spells };

    ghost law = { selections_judged };

    /// Reads selections, with braces or without.
    #[tactic(auto, unfolding(graphql_productions::specs::Selections::bare_selections))]
    fn read(target: Target, words: &mut Words<'_>) -> Reading<Items<Selection>> {
        match words.next_kind() {
            Some(Kind::LeftBrace) => selection_set(target, words),
            Some(_) => some_selections(target, words),
            None => Err(ReadError::Fault(FaultKind::Expected(Item::Selection))),
        }
    }
}

impl Read for Definition {
    ghost piece = { λ file _ depth. definition file depth };

    ghost first = { any_kind };

    ghost wrong = { expecting DefinitionItem };

    ghost law = { λ file _ depth. (one_tame file depth).law };

    fn begins(_kind: Kind) -> bool {
        true
    }

    fn fault(_words: &Words<'_>) -> FaultKind {
        FaultKind::Expected(Item::Definition)
    }

    fn read(target: Target, words: &mut Words<'_>) -> Reading<Definition> {
        definition(target, words)
    }
}

impl Tree for Items<Definition> {
    ghost piece = { document };

    ghost spells = { spells_document };

    ghost law = { document_judged };

    fn read(target: Target, words: &mut Words<'_>) -> Reading<Items<Definition>> {
        some_items(target, words)
    }
}
