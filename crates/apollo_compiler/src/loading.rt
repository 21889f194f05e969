//! Files of GraphQL text, read as documents.
ghost use Rattle.std.specs.Prelude.{◌≡◌, ◌<◌, ◌^◌, ◌++◌, ◌∷◌, [], suc, IfOk, OnOk};
ghost use Rattle.std.specs.List.{filter_map};
ghost use Rattle.apollo_compiler.specs.Loading.{AreLoaded, document_of, paths_of, refusal_of, source_of};
ghost use Rattle.apollo_compiler.specs.Loading.{with_source};

use crate::file_refusal::{FileRefusal, RefusedFile};
use crate::reading::{Reading, read_file};
use graphql_ast::document::Document;
use graphql_nodes::source::{FileId, SourceMap};
use graphql_text::parse_error::ParseError;
use graphql_text::parsing::ParseOptions;
use program_io::files::Files;
use std::alloc::{AllocError, Global};

/// Documents of files, with all that keeps files from being documents.
#[derive(Drop)]
pub struct LoadedDocuments {
    /// The documents, in the order of their files.
    pub documents: Vec<Document>,
    /// Why each other file is refused, in order.
    pub refused: Vec<RefusedFile>,
    /// The files that could be read, each under its number, also those whose texts are refused.
    pub sources: SourceMap,
}

/// Reads the files of these paths as documents: GraphQL specification of October 2021, section 2.2. All files
/// are read, also behind one that is refused. Each has its place among the paths as its number, from 1 on.
///
/// A file is refused where it can't be read, and where its text is no document with these options. The error
/// is out of memory.
pub fn load_documents<F: Files>(
    alloc: Global,
    files: &F,
    paths: &[&str],
    options: ParseOptions,
) -> Result<LoadedDocuments, AllocError>
    ensures { IfOk result
        (AreLoaded (F.holds files.now) (F.may_fail files.now) options 1 (paths_of paths.now)) }
{
    load_numbered(alloc, files, 0, paths, options)
}

/// The same, behind so many other files: the first file has the number after that.
pub(crate) fn load_numbered<F: Files>(
    alloc: Global,
    files: &F,
    others: usize,
    paths: &[&str],
    options: ParseOptions,
) -> Result<LoadedDocuments, AllocError>
    requires { others < 2 ^ 63 }
    ensures { IfOk result
        (AreLoaded (F.holds files.now) (F.may_fail files.now) options (suc others) (paths_of paths.now)) }
{
    let mut loaded = LoadedDocuments {
        documents: Vec::new(alloc),
        refused: Vec::new(alloc),
        sources: SourceMap::new(alloc),
    };
    for index in 0..paths.len() {
        let number = FileId((others + index) as u64 + 1);
        loaded.push(
            number,
            read_file(alloc, files, number, paths[index], options)?,
        )?;
    }
    Ok(loaded)
}

impl LoadedDocuments {
    /// Adds what became of the file of this number. The error is out of memory.
    fn push(&mut self, number: FileId, reading: Reading) -> Result<(), AllocError>
        ensures documents { OnOk result (self.new.documents.items
            ≡ self.old.documents.items ++ filter_map document_of (reading ∷ [])) }
        ensures refused { OnOk result (self.new.refused.items
            ≡ self.old.refused.items ++ filter_map refusal_of (reading ∷ [])) }
        ensures sources { OnOk result (self.new.sources
            ≡ with_source number (source_of reading) self.old.sources) }
    {
        match reading {
            Reading::Unread(path, why) => {
                self.refused
                    .push((None, FileRefusal::Unread { path, why }))?;
            }
            Reading::Refused(source, error) => {
                self.sources.insert(number, source)?;
                let ParseError { location, kind } = error;
                self.refused
                    .push((Some(location), FileRefusal::Text(kind)))?;
            }
            Reading::Read(source, document) => {
                self.sources.insert(number, source)?;
                self.documents.push(document)?;
            }
        }
        Ok(())
    }
}
