//! Reports of all that is wrong with files that are loaded.
ghost use Rattle.std.specs.Prelude.{IfOk, string_bytes};
ghost use Rattle.apollo_reporting.specs.SpacedReports.{AreSpacedReports};
ghost use Rattle.apollo_compiler.specs.LoadedReports.{IsFollowed};

use crate::file_refusal::{FileRefusal, RefusedFile};
use crate::loaded_document::LoadedDocument;
use crate::loaded_schema::LoadedSchema;
use apollo_document::build_error as of_documents;
use apollo_meaning::build_error as of_schemas;
use apollo_reporting::{Reported, SourceLines, reports_text};
use graphql_nodes::source::{SourceMap, SourceSpan};
use std::alloc::{AllocError, Global};
use std::fmt::Display;

impl LoadedSchema {
    /// The reports of all that is wrong, with an empty line behind each: of the refusals, and then of the
    /// faults. It is an empty text where nothing is wrong. The error is out of memory.
    pub fn reports(&self, alloc: Global) -> Result<String, AllocError>
        ensures { IfOk result (λ text. IsFollowed
            (AreSpacedReports ⟦<FileRefusal as Display>⟧.output ⟦<FileRefusal as Reported>⟧.said_about
            self.now.sources self.now.refused.items)
            (AreSpacedReports ⟦<of_schemas::BuildError as Display>⟧.output
            ⟦<of_schemas::BuildError as Reported>⟧.said_about self.now.sources self.now.faults.items)
            (string_bytes text)) }
    {
        reports_of(
            alloc,
            &self.sources,
            self.refused.as_slice(),
            self.faults.as_slice(),
        )
    }
}

impl LoadedDocument {
    /// The reports of all that is wrong, with an empty line behind each: of the refusals, and then of the
    /// faults. It is an empty text where nothing is wrong. The error is out of memory.
    pub fn reports(&self, alloc: Global) -> Result<String, AllocError>
        ensures { IfOk result (λ text. IsFollowed
            (AreSpacedReports ⟦<FileRefusal as Display>⟧.output ⟦<FileRefusal as Reported>⟧.said_about
            self.now.sources self.now.refused.items)
            (AreSpacedReports ⟦<of_documents::BuildError as Display>⟧.output
            ⟦<of_documents::BuildError as Reported>⟧.said_about self.now.sources self.now.faults.items)
            (string_bytes text)) }
    {
        reports_of(
            alloc,
            &self.sources,
            self.refused.as_slice(),
            self.faults.as_slice(),
        )
    }
}

/// The reports of refusals, and then those of faults, with an empty line behind each. The error is out of
/// memory.
fn reports_of<E: Reported>(
    alloc: Global,
    sources: &SourceMap,
    refused: &[RefusedFile],
    faults: &[(Option<SourceSpan>, E)],
) -> Result<String, AllocError>
    ensures { IfOk result (λ text. IsFollowed
        (AreSpacedReports ⟦<FileRefusal as Display>⟧.output ⟦<FileRefusal as Reported>⟧.said_about
        sources.now refused.now)
        (AreSpacedReports E.output E.said_about sources.now faults.now) (string_bytes text)) }
{
    if refused.is_empty() && faults.is_empty() {
        return Ok(String::new(alloc));
    }
    let lines = SourceLines::new(alloc, sources)?;
    let mut text = reports_text(alloc, &lines, refused)?;
    text.push_str(reports_text(alloc, &lines, faults)?.as_str())?;
    Ok(text)
}
