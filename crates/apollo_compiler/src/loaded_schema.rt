//! A schema of files.
ghost use Rattle.std.specs.Prelude.{◌≡◌, Err, IfOk};
ghost use Rattle.apollo_compiler.specs.LoadedSchemas.{IsLoadedSchema, SpendsIdsOfFiles};
ghost use Rattle.apollo_compiler.specs.Loading.{paths_of};

use crate::building::build_schema;
use crate::compile_error::CompileError;
use crate::compile_options::CompileOptions;
use crate::file_refusal::RefusedFile;
use crate::loading::{LoadedDocuments, load_documents};
use apollo_meaning::build_error::Faults;
use apollo_schema::schema::Schema;
use graphql_nodes::collections::hash_keys::HashKeys;
use graphql_nodes::source::SourceMap;
use graphql_text::parsing::ParseOptions;
use program_io::files::Files;
use std::alloc::Global;

/// A schema of files, with all that is wrong with them.
#[derive(Drop)]
pub struct LoadedSchema {
    /// The schema of all files; none where a file is refused. Where there are faults, it is what could be
    /// built.
    pub schema: Option<Schema>,
    /// What is wrong with the schema, and where. There are none where a file is refused.
    pub faults: Faults,
    /// Why files are refused, in order.
    pub refused: Vec<RefusedFile>,
    /// The files that could be read, for reports. Each has its place among the paths as its number, from 1
    /// on.
    pub sources: SourceMap,
}

/// Reads the files of these paths, and builds the schema of all of them with these options, as
/// [`build_schema`] does. GraphQL specification of October 2021, sections 2.2 and 3.
///
/// A file is refused where it can't be read, and where its text is no document with
/// [`ParseOptions::new`]. All files are read, and each refusal is there. With one there is no schema, as what
/// the file defines would be missing in it.
///
/// `Memory` is out of memory. `ExtensionIds` comes only where no file is refused, and the numbers don't
/// suffice for the extensions that are folded.
pub fn load_schema<F: Files>(
    alloc: Global,
    keys: HashKeys,
    options: CompileOptions,
    files: &F,
    paths: &[&str],
) -> Result<LoadedSchema, CompileError>
    ensures loaded { IfOk result
        (IsLoadedSchema (F.holds files.now) (F.may_fail files.now) options (paths_of paths.now)) }
    ensures spent { result ≡ Err CompileError.ExtensionIds
        → SpendsIdsOfFiles (F.holds files.now) (F.may_fail files.now) options (paths_of paths.now) }
{
    let loaded = load_documents(alloc, files, paths, ParseOptions::new())?;
    let LoadedDocuments {
        documents,
        refused,
        sources,
    } = loaded;
    if !refused.is_empty() {
        return Ok(LoadedSchema {
            schema: None,
            faults: Vec::new(alloc),
            refused,
            sources,
        });
    }
    let (schema, faults) = build_schema(alloc, keys, options, documents.as_slice())?;
    Ok(LoadedSchema {
        schema: Some(schema),
        faults,
        refused,
        sources,
    })
}
