//! A typed document of files, over a schema.
ghost use Rattle.std.specs.Prelude.{IfOk};
ghost use Rattle.apollo_compiler.specs.LoadedTyped.{IsLoadedDocument};
ghost use Rattle.apollo_compiler.specs.Loading.{paths_of};

use crate::document_building::build_executable_document;
use crate::executable_options::ExecutableOptions;
use crate::file_refusal::RefusedFile;
use crate::loading::{LoadedDocuments, load_numbered};
use apollo_document::Faults;
use apollo_executable::document::ExecutableDocument;
use apollo_schema::schema::Schema;
use graphql_nodes::source::{SourceMap, merge_sources};
use graphql_text::parsing::ParseOptions;
use program_io::files::Files;
use std::alloc::{AllocError, Global};

/// A typed document of files, with all that is wrong with them.
#[derive(Drop)]
pub struct LoadedDocument {
    /// The typed document of all files; none where a file is refused. Where there are faults, it is what
    /// could be built.
    pub document: Option<ExecutableDocument>,
    /// What is wrong with the document, and where. There are none where a file is refused.
    pub faults: Faults,
    /// Why files are refused, in order.
    pub refused: Vec<RefusedFile>,
    /// The files of the schema, and those that could be read, for reports. These are numbered by their places
    /// among the paths. The first is numbered one more than how many files the schema has.
    pub sources: SourceMap,
}

/// Reads the files of these paths, and builds the typed document of all of them over a schema with these
/// options, as [`build_executable_document`] does. GraphQL specification of October 2021, sections 2.2 to
/// 2.8.
///
/// A file is refused where it can't be read, and where its text is no document with
/// [`ParseOptions::new`]. All files are read, and each refusal is there. With one there is no typed document,
/// as what the file defines would be missing in it. The error is out of memory.
pub fn load_document<F: Files>(
    alloc: Global,
    schema: &Schema,
    options: ExecutableOptions,
    files: &F,
    paths: &[&str],
) -> Result<LoadedDocument, AllocError>
    ensures { IfOk result
        (IsLoadedDocument (F.holds files.now) (F.may_fail files.now) schema.now options
        (paths_of paths.now)) }
{
    let others = schema.sources.len();
    let loaded = load_numbered(alloc, files, others, paths, ParseOptions::new())?;
    let LoadedDocuments {
        documents,
        refused,
        sources: read,
    } = loaded;
    let mut sources = schema.sources.clone()?;
    merge_sources(&mut sources, &read)?;
    if !refused.is_empty() {
        return Ok(LoadedDocument {
            document: None,
            faults: Vec::new(alloc),
            refused,
            sources,
        });
    }
    let (document, faults) = build_executable_document(
        alloc,
        schema,
        options,
        documents.as_slice(),
    )?;
    Ok(LoadedDocument {
        document: Some(document),
        faults,
        refused,
        sources,
    })
}
