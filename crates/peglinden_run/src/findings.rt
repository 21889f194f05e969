//! What is at fault in a schema and in documents over it.
ghost use Rattle.std.specs.Prelude.{◌≡◌, IfOk, OnOk, string_bytes};
ghost use Rattle.peglinden_run.specs.Findings.{AreSaid, IsAnswerOf, IsLeafSaid, any_fault, at_most, behind};
ghost use Rattle.peglinden_run.specs.Findings.{fault_count, first_of, found_in, of_schema, tally_of};
ghost use Rattle.peglinden_run.specs.Reports.{Adds, SaysEach};

use crate::answer::Answer;
use crate::form::{Form, form_of};
use crate::printed::{Tally, arranged};
use crate::reports::{Subject, push_each, push_said};
use apollo_document::build_error as of_documents;
use apollo_meaning::build_error as of_schemas;
use apollo_reporting::source_lines::SourceLines;
use apollo_reporting::sources::Sources;
use graphql_nodes::source::SourceMap;
use leafcheck::leaf_fault::LeafFault;
use peglinden_words::request::Reporting;
use std::alloc::{AllocError, Global};

/// What is at fault, and the sources that it stands in.
#[derive(Drop)]
pub(crate) struct Findings {
    pub sources: SourceMap,
    pub schema_faults: of_schemas::Faults,
    pub document_faults: of_documents::Faults,
    pub leaf_faults: Vec<LeafFault>,
}

/// The first faults of each sort.
#[derive(Clone, Copy)]
struct FirstFaults<'a> {
    schema: &'a [of_schemas::Fault],
    document: &'a [of_documents::Fault],
    leaves: &'a [LeafFault],
}

impl Findings {
    /// What is at fault in a schema of these sources alone.
    pub fn of_schema(alloc: Global, sources: SourceMap, faults: of_schemas::Faults) -> Findings
        ensures { found_in result ≡ of_schema sources faults.items }
    {
        Findings {
            sources,
            schema_faults: faults,
            document_faults: Vec::new(alloc),
            leaf_faults: Vec::new(alloc),
        }
    }

    /// Whether anything is at fault.
    fn any(&self) -> bool
        ensures { result ≡ any_fault (found_in self.now) }
    {
        !(self.schema_faults.is_empty()
            && self.document_faults.is_empty()
            && self.leaf_faults.is_empty())
    }

    /// How many faults there are, or the greatest number where they are more.
    fn count(&self) -> usize
        ensures { result ≡ fault_count (found_in self.now) }
    {
        self.schema_faults
            .len()
            .saturating_add(self.document_faults.len())
            .saturating_add(self.leaf_faults.len())
    }

    /// What a form says of the first faults, at most so many; nothing where there is none. The error is out
    /// of memory.
    #[tactic(auto, using(crate::proofs::SaidOfAll::nothing_said))]
    fn said(&self, alloc: Global, form: Form, most: Option<usize>) -> Result<String, AllocError>
        ensures { IfOk result (λ text. AreSaid form (first_of most (found_in self.now)) (string_bytes text)) }
    {
        if !self.any() {
            return Ok(String::new(alloc));
        }
        let lines = SourceLines::new(alloc, &self.sources)?;
        self.said_in(alloc, form, most, &lines)
    }

    /// The same, found in these sources, which are those of the faults.
    fn said_in<S: Sources>(
        &self,
        alloc: Global,
        form: Form,
        most: Option<usize>,
        sources: &S,
    ) -> Result<String, AllocError>
        requires { S.files sources.now ≡ self.now.sources }
        ensures { IfOk result (λ text. AreSaid form (first_of most (found_in self.now)) (string_bytes text)) }
    {
        let mut text = String::new(alloc);
        let shown = self.first(most);
        push_each(alloc, &mut text, form, sources, shown.schema)?;
        push_each(alloc, &mut text, form, sources, shown.document)?;
        push_leaves(alloc, &mut text, form, sources, shown.leaves)?;
        Ok(text)
    }

    /// The first faults, at most so many.
    fn first(&self, most: Option<usize>) -> FirstFaults<'_>
        ensures schema { result.schema.now ≡ (first_of most (found_in self.now)).schema }
        ensures document { result.document.now ≡ (first_of most (found_in self.now)).document }
        ensures leaves { result.leaves.now ≡ (first_of most (found_in self.now)).leaves }
    {
        let of_document = behind(most, self.schema_faults.len());
        let of_leaves = behind(of_document, self.document_faults.len());
        FirstFaults {
            schema: at_most(self.schema_faults.as_slice(), most),
            document: at_most(self.document_faults.as_slice(), of_document),
            leaves: at_most(self.leaf_faults.as_slice(), of_leaves),
        }
    }

    /// How much is at fault in so many files, of which at most so many faults are shown.
    fn tally(&self, most: Option<usize>, files: usize) -> Tally
        ensures { result ≡ tally_of most files (found_in self.now) }
    {
        let faults = self.count();
        Tally {
            faults,
            shown: match most {
                Some(most) => most.min(faults),
                None => faults,
            },
            files,
        }
    }

    /// The answer of this output, which is in the form that is asked for, to so many files with these faults.
    /// The error is out of memory.
    pub fn answer(
        &self,
        alloc: Global,
        reporting: &Reporting,
        files: usize,
        output: String,
    ) -> Result<Answer, AllocError>
        ensures { IfOk result (IsAnswerOf reporting.now files (found_in self.now) (string_bytes output)) }
    {
        let form = form_of(reporting);
        let said = self.said(alloc, form, reporting.max_faults)?;
        let tally = self.tally(reporting.max_faults, files);
        Ok(Answer {
            printed: arranged(alloc, form, tally, output, said)?,
            has_faults: self.any(),
        })
    }
}

/// The first of these, at most so many.
pub(crate) fn at_most<T>(items: &[T], most: Option<usize>) -> &[T]
    ensures { result.now ≡ at_most most items.now }
{
    match most {
        Some(most) => &items[..most.min(items.len())],
        None => items,
    }
}

/// How many may follow so many, where at most so many may be shown.
fn behind(most: Option<usize>, count: usize) -> Option<usize>
    ensures { result ≡ behind most count }
{
    match most {
        Some(most) => Some(most.saturating_sub(count)),
        None => None,
    }
}

/// Adds what a form says of leaf faults, in order. The error is out of memory.
fn push_leaves<S: Sources>(
    alloc: Global,
    text: &mut String,
    form: Form,
    sources: &S,
    faults: &[LeafFault],
) -> Result<(), AllocError>
    ensures { OnOk result
        (Adds (SaysEach (IsLeafSaid form (S.files sources.now)) faults.now) (string_bytes text.old)
        (string_bytes text.new)) }
{
    for fault in faults {
        push_said(
            alloc,
            text,
            Subject::Fault,
            form,
            sources,
            fault.location,
            fault,
        )?;
    }
    Ok(())
}
