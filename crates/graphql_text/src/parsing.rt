//! GraphQL text as trees: GraphQL specification of October 2021, section 2 and appendix B.
ghost use Rattle.std.specs.Prelude.{◌≡◌, ◌≢◌, suc, List, [], ◌∷◌, length, IfOk, IfErr, MatchResult, true};
ghost use Rattle.graphql_nodes.specs.NodeView.{NodeView};
ghost use Rattle.graphql_ast.specs.declared.definition.Definition.{Definition as DefinitionOf};
ghost use Rattle.graphql_ast.specs.declared.selection.Selection.{Selection as SelectionOf};
ghost use Rattle.graphql_ast.specs.declared.type_reference.Type.{«Type» as TypeOf};
ghost use Rattle.graphql_ast.specs.declared.value.Value.{Value as ValueOf};
ghost use Rattle.graphql_grammar.specs.WordsOfText.{words_of};
ghost use Rattle.graphql_productions.specs.Documents.{document, selections, spells_document};
ghost use Rattle.graphql_productions.specs.Types.{type};
ghost use Rattle.graphql_productions.specs.Values.{value_node};
ghost use Rattle.graphql_text.specs.Parses.{Answers, IsBuiltInFile, IsRefused};
ghost use Rattle.graphql_text.specs.declared.parse_error.ParseErrorKind.TheVariants.{BuiltInFile, Memory};

use crate::parse_error::{ParseError, ParseErrorKind};
use crate::reading::target::Target;
use crate::reading::whole::{Tree, whole};
use crate::refusals::parsed;
use graphql_ast::definition::Definition;
use graphql_ast::document::Document;
use graphql_ast::selection::Selection;
use graphql_ast::type_reference::Type;
use graphql_ast::value::Value;
use graphql_grammar::words::Words;
use graphql_nodes::collections::items::Items;
use graphql_nodes::collections::shared::Shared;
use graphql_nodes::collections::table::Table;
use graphql_nodes::node::Node;
use graphql_nodes::source::{FileId, SourceFile, SourceSpan};
use std::alloc::{AllocError, Global};

/// What a text may have at most.
#[derive(Clone, Copy, Debug, PartialEq, Eq)]
pub struct ParseOptions {
    /// How many `{`, `[` and `(` may be open at once.
    pub max_depth: usize,
    /// How many tokens there may be.
    pub max_tokens: usize,
}

impl ParseOptions {
    /// 200 signs open at once, and any number of tokens.
    pub fn new() -> ParseOptions
        ensures { result ≡ record { max_depth = 200; max_tokens = 18446744073709551615 } }
    {
        ParseOptions {
            max_depth: 200,
            max_tokens: usize::MAX,
        }
    }
}

/// The refusal of file number 0.
fn built_in_file() -> ParseError
    ensures { result.kind ≡ BuiltInFile }
{
    ParseError {
        location: SourceSpan {
            file: FileId::BUILT_IN,
            start: 0,
            end: 0,
        },
        kind: ParseErrorKind::BuiltInFile,
    }
}

/// What a text is, at locations in this file.
fn parse<T: Tree>(
    alloc: Global,
    file: FileId,
    text: &str,
    options: ParseOptions,
) -> Result<T, ParseError>
    ensures found { IfOk result (λ read.
        T.spells file options.max_depth read (words_of options.max_tokens text.now)) }
    ensures only { (read : T) → file.0 ≢ 0
        → T.spells file options.max_depth read (words_of options.max_tokens text.now) → Answers read result }
    ensures built_in { file.0 ≡ 0 → IsBuiltInFile result }
    ensures refused { IfErr result
        (IsRefused (T.piece file options.max_depth) (T.spells file options.max_depth)
        (T.piece file (suc options.max_depth)).spells file (length text.now)
        (words_of options.max_tokens text.now)) }
{
    if file.0 == 0 {
        return Err(built_in_file());
    }
    let mut words = Words::new(text, options.max_tokens);
    let target = Target {
        alloc,
        file,
        constant: false,
        depth: options.max_depth,
    };
    let read = whole(target, &mut words);
    parsed(alloc, file, text, &words, read)
}

/// The type that a text is (section 2.11), at locations in this file.
///
/// [`ParseErrorKind::BuiltInFile`] refuses the file number 0, before the text is looked at.
/// [`ParseErrorKind::Memory`] says nothing of the text. Every other refusal says what is wrong with it first,
/// from the left, and where, in bytes.
pub fn parse_type(
    alloc: Global,
    file: FileId,
    text: &str,
    options: ParseOptions,
) -> Result<Type, ParseError>
    // What is answered is spelled by all words of the text.
    ensures found { IfOk result (λ read.
        (type file options.max_depth).spells read (words_of options.max_tokens text.now)) }
    // What they spell is answered.
    ensures only { (read : TypeOf) → file.0 ≢ 0
        → (type file options.max_depth).spells read (words_of options.max_tokens text.now)
        → Answers read result }
    ensures built_in { file.0 ≡ 0 → IsBuiltInFile result }
    ensures refused { IfErr result
        (IsRefused (type file options.max_depth) (type file options.max_depth).spells
        (type file (suc options.max_depth)).spells file (length text.now)
        (words_of options.max_tokens text.now)) }
{
    parse(alloc, file, text, options)
}

/// The constant value that a text is (section 2.9), at locations in this file. A variable in it is refused.
///
/// The refusals are those of [`parse_type`].
pub fn parse_value(
    alloc: Global,
    file: FileId,
    text: &str,
    options: ParseOptions,
) -> Result<Node<Value>, ParseError>
    // What is answered is spelled by all words of the text.
    ensures found { IfOk result (λ read.
        (value_node file true options.max_depth).spells read (words_of options.max_tokens text.now)) }
    // What they spell is answered.
    ensures only { (read : NodeView ValueOf) → file.0 ≢ 0
        → (value_node file true options.max_depth).spells read (words_of options.max_tokens text.now)
        → Answers read result }
    ensures built_in { file.0 ≡ 0 → IsBuiltInFile result }
    ensures refused { IfErr result
        (IsRefused (value_node file true options.max_depth) (value_node file true options.max_depth).spells
        (value_node file true (suc options.max_depth)).spells file (length text.now)
        (words_of options.max_tokens text.now)) }
{
    parse(alloc, file, text, options)
}

/// The selections that a text is, with braces or without (section 2.4), at locations in this file.
///
/// The refusals are those of [`parse_type`].
pub fn parse_selections(
    alloc: Global,
    file: FileId,
    text: &str,
    options: ParseOptions,
) -> Result<Items<Selection>, ParseError>
    // What is answered is spelled by all words of the text.
    ensures found { IfOk result (λ read.
        (selections file options.max_depth).spells read (words_of options.max_tokens text.now)) }
    // What they spell is answered.
    ensures only { (read : List SelectionOf) → file.0 ≢ 0
        → (selections file options.max_depth).spells read (words_of options.max_tokens text.now)
        → Answers read result }
    ensures built_in { file.0 ≡ 0 → IsBuiltInFile result }
    ensures refused { IfErr result
        (IsRefused (selections file options.max_depth) (selections file options.max_depth).spells
        (selections file (suc options.max_depth)).spells file (length text.now)
        (words_of options.max_tokens text.now)) }
{
    parse(alloc, file, text, options)
}

/// The definitions that a text is (section 2.2), at locations in this file.
///
/// The refusals are those of [`parse_type`].
pub fn parse_definitions(
    alloc: Global,
    file: FileId,
    text: &str,
    options: ParseOptions,
) -> Result<Items<Definition>, ParseError>
    // What is answered is spelled by all words of the text.
    ensures found { IfOk result (λ read.
        spells_document file options.max_depth read (words_of options.max_tokens text.now)) }
    // What they spell is answered.
    ensures only { (read : List DefinitionOf) → file.0 ≢ 0
        → spells_document file options.max_depth read (words_of options.max_tokens text.now)
        → Answers read result }
    ensures built_in { file.0 ≡ 0 → IsBuiltInFile result }
    ensures refused { IfErr result
        (IsRefused (document file options.max_depth) (spells_document file options.max_depth)
        (document file (suc options.max_depth)).spells file (length text.now)
        (words_of options.max_tokens text.now)) }
{
    parse(alloc, file, text, options)
}

/// The document of these definitions, whose sources hold the file under this number.
fn held(
    alloc: Global,
    file: FileId,
    source: &Shared<SourceFile>,
    definitions: Items<Definition>,
) -> Result<Document, AllocError>
    ensures { IfOk result (λ made. (made.definitions ≡ definitions)
        × (made.sources ≡ (file, source.now) ∷ [])) }
{
    let mut sources = Table::new(alloc);
    sources.insert(file, source.clone()?)?;
    Ok(Document {
        sources,
        definitions,
    })
}

/// The document that the text of a file is (section 2.2), whose sources hold the file under this number.
///
/// The refusals are those of [`parse_type`].
pub fn parse_document(
    alloc: Global,
    file: FileId,
    source: &Shared<SourceFile>,
    options: ParseOptions,
) -> Result<Document, ParseError>
    ensures found { IfOk result (λ read.
        spells_document file options.max_depth read.definitions
        (words_of options.max_tokens source.now.text)) }
    ensures sources { IfOk result (λ read. read.sources ≡ (file, source.now) ∷ []) }
    ensures only { (definitions : List DefinitionOf) → file.0 ≢ 0
        → spells_document file options.max_depth definitions (words_of options.max_tokens source.now.text)
        → MatchResult result (λ read. read.definitions ≡ definitions) (λ e. e.kind ≡ Memory) }
    ensures built_in { file.0 ≡ 0 → IsBuiltInFile result }
    ensures refused { IfErr result
        (IsRefused (document file options.max_depth) (spells_document file options.max_depth)
        (document file (suc options.max_depth)).spells file (length source.now.text)
        (words_of options.max_tokens source.now.text)) }
{
    match parse_definitions(alloc, file, source.text.as_str(), options) {
        Ok(definitions) => Ok(held(alloc, file, source, definitions)?),
        Err(error) => Err(error),
    }
}
