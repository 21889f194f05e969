//! Files of GraphQL text as documents, beside the sources that reports need.
ghost use Rattle.std.specs.Prelude.{◌≡◌, ◌⊎◌, ◌∷◌, [], suc, List, length, IfErr, IfOk, MatchResult};
ghost use Rattle.graphql_ast.specs.declared.definition.Definition.{Definition};
ghost use Rattle.graphql_grammar.specs.WordsOfText.{words_of};
ghost use Rattle.graphql_productions.specs.Documents.{document, spells_document};
ghost use Rattle.graphql_text.specs.Parses.{IsRefused};
ghost use Rattle.graphql_text.specs.declared.parse_error.ParseErrorKind.TheVariants.{Memory};
ghost use Rattle.apollo_compiler.specs.SourceFiles.{file_of, next_file, with_file};

use graphql_ast::document::Document;
use graphql_nodes::collections::shared::Shared;
use graphql_nodes::source::{FileId, SourceFile, SourceMap};
use graphql_text::parse_error::ParseError;
use graphql_text::parsing::{ParseOptions, parse_document};
use std::alloc::{AllocError, Global};

/// The document that the text of a file is: GraphQL specification of October 2021, section 2.2. The file is
/// added to the sources, also where its text is refused, so that reports show its lines.
///
/// Its number is one more than how many files the sources have: files that are added so are numbered 1, 2, 3,
/// and so on. In sources that have that number already, the file takes the place of the other.
///
/// The refusals are those of [`parse_document`]; `BuiltInFile` is not among them. With `Memory` the file may
/// be missing in the sources.
pub fn parse_file(
    alloc: Global,
    sources: &mut SourceMap,
    path: &str,
    text: &str,
    options: ParseOptions,
) -> Result<Document, ParseError>
    ensures found { IfOk result (λ read.
        spells_document (next_file sources.old) options.max_depth read.definitions
        (words_of options.max_tokens text.now)) }
    ensures file { IfOk result (λ read. read.sources
        ≡ (next_file sources.old, file_of path.now text.now) ∷ []) }
    ensures added { IfOk result (λ _. sources.new ≡ with_file path.now text.now sources.old) }
    ensures only { (definitions : List Definition)
        → spells_document (next_file sources.old) options.max_depth definitions
        (words_of options.max_tokens text.now)
        → MatchResult result (λ read. read.definitions ≡ definitions) (λ e. e.kind ≡ Memory) }
    ensures refused { IfErr result (IsRefused (document (next_file sources.old) options.max_depth)
        (spells_document (next_file sources.old) options.max_depth)
        (document (next_file sources.old) (suc options.max_depth)).spells (next_file sources.old)
        (length text.now)
        (words_of options.max_tokens text.now)) }
    ensures shown { IfErr result (λ e. (e.kind ≡ Memory)
        ⊎ (sources.new ≡ with_file path.now text.now sources.old)) }
{
    let (number, file) = add_file(alloc, sources, path, text)?;
    parse_document(alloc, number, &file, options)
}

/// Adds a file to sources, and answers its number too. The error is out of memory.
fn add_file(
    alloc: Global,
    sources: &mut SourceMap,
    path: &str,
    text: &str,
) -> Result<(FileId, Shared<SourceFile>), AllocError>
    ensures number { IfOk result (λ added. added.0 ≡ next_file sources.old) }
    ensures file { IfOk result (λ added. added.1 ≡ file_of path.now text.now) }
    ensures added { IfOk result (λ _. sources.new ≡ with_file path.now text.now sources.old) }
{
    let number = FileId(sources.len() as u64 + 1);
    let file = Shared::new(alloc, SourceFile::new(alloc, path, text)?)?;
    sources.insert(number, file.clone()?)?;
    Ok((number, file))
}
