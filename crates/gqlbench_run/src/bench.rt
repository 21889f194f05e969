//! What work is done with, and what it begins with. What builds promise stands in their contracts; here
//! nothing is promised, so that no work carries it along.

use crate::command::{Command, Work};
use crate::failure::Failure;
use crate::questions::{Question, field_questions, subtype_questions};
use apollo_compiler::building::build_schema;
use apollo_compiler::compile_options::CompileOptions;
use apollo_compiler::document_building::build_executable_document;
use apollo_compiler::executable_options::ExecutableOptions;
use apollo_compiler::text::{ParseOptions, document_text, parse_document};
use apollo_compiler::{FileId, SourceFile};
use apollo_document::Faults as DocumentFaults;
use apollo_executable::document::ExecutableDocument;
use apollo_meaning::build_error::Faults as SchemaFaults;
use apollo_schema::schema::Schema;
use bench_notation::documents::{DividedDocuments, read, read_divided};
use gqltool_run::failure::Failure as InputFailure;
use graphql_ast::document::Document;
use graphql_nodes::collections::hash_keys::HashKeys;
use graphql_nodes::collections::shared::Shared;
use std::alloc::Global;
use std::slice;

/// The options under which a write-out is built again: what extends no definition of it gets one.
const REBUILDING: CompileOptions = CompileOptions {
    adopt_orphan_extensions: true,
    ignore_builtin_redefinitions: false,
};

/// The options under which documents are typed: a definition of the type system is a fault.
const TYPING: ExecutableOptions = ExecutableOptions {
    type_system_definitions_are_errors: true,
};

/// A schema and its faults.
pub type Built = (Schema, SchemaFaults);

/// A typed document and its faults.
pub type Typed = (ExecutableDocument, DocumentFaults);

/// What is asked of fields, and of subtypes.
pub type Questions = (Vec<Question>, Vec<Question>);

/// What a work begins with. It is read and built once.
#[derive(Drop)]
pub enum Ready {
    Schema(Vec<Document>),
    Lookups((Schema, Questions)),
    Documents((DividedDocuments, Schema)),
    Walks((Schema, ExecutableDocument)),
    LeafFaults((Schema, ExecutableDocument)),
    Compilation(DividedDocuments),
    Text(Shared<SourceFile>),
}

/// What work is done with.
#[derive(Clone, Copy)]
pub struct Bench {
    pub alloc: Global,
    pub keys: HashKeys,
    pub command: Command,
}

impl Bench {
    /// What the work of the command begins with, of an input.
    pub fn read(&self, input: &str) -> Result<Ready, Failure> {
        Ok(match self.command.work {
            Work::Schema => Ready::Schema(self.read_whole(input)?),
            Work::Lookups => Ready::Lookups(self.read_questions(input)?),
            Work::Documents => Ready::Documents(self.read_over_schema(input)?),
            Work::Walks => Ready::Walks(self.read_typed(input)?),
            Work::LeafFaults => Ready::LeafFaults(self.read_typed(input)?),
            Work::Compilation => Ready::Compilation(self.read_divided(input)?),
            Work::Text => Ready::Text(self.file_of(input)?),
        })
    }

    fn read_whole(&self, input: &str) -> Result<Vec<Document>, Failure> {
        Ok(read(self.alloc, input).map_err(InputFailure::from)?)
    }

    fn read_divided(&self, input: &str) -> Result<DividedDocuments, Failure> {
        Ok(read_divided(self.alloc, input).map_err(InputFailure::from)?)
    }

    /// A file of GraphQL text.
    fn file_of(&self, input: &str) -> Result<Shared<SourceFile>, Failure> {
        let file = SourceFile::new(self.alloc, "input.graphql", input)?;
        Ok(Shared::new(self.alloc, file)?)
    }

    /// A schema, and all that is asked of it.
    fn read_questions(&self, input: &str) -> Result<(Schema, Questions), Failure> {
        let (schema, _faults) = self.build(self.read_whole(input)?.as_slice())?;
        let fields = field_questions(self.alloc, &schema)?;
        let subtypes = subtype_questions(self.alloc, &schema)?;
        Ok((schema, (fields, subtypes)))
    }

    /// Documents that a line divides, and the schema of those before it.
    fn read_over_schema(&self, input: &str) -> Result<(DividedDocuments, Schema), Failure> {
        let documents = self.read_divided(input)?;
        let (schema, _faults) = self.build(documents.schema.as_slice())?;
        Ok((documents, schema))
    }

    /// Such a schema, and the typed document over it.
    fn read_typed(&self, input: &str) -> Result<(Schema, ExecutableDocument), Failure> {
        let (documents, schema) = self.read_over_schema(input)?;
        let (document, _faults) = self.type_over(&schema, documents.executable.as_slice())?;
        Ok((schema, document))
    }

    /// The schema of documents, under the options of the command.
    pub fn build(&self, documents: &[Document]) -> Result<Built, Failure> {
        let options = self.command.options;
        Ok(build_schema(self.alloc, self.keys, options, documents)?)
    }

    /// The schema of a write-out.
    pub fn rebuild(&self, written: &Document) -> Result<Built, Failure> {
        let documents = slice::from_ref(written);
        Ok(build_schema(self.alloc, self.keys, REBUILDING, documents)?)
    }

    /// The document of a file of GraphQL text.
    pub fn parse(&self, file: &Shared<SourceFile>) -> Result<Document, Failure> {
        Ok(parse_document(self.alloc, FileId(1), file, ParseOptions::new())?)
    }

    /// The GraphQL text of a document.
    pub fn print(&self, document: &Document) -> Result<String, Failure> {
        Ok(document_text(self.alloc, document)?)
    }

    /// The typed document of documents over a schema.
    pub fn type_over(&self, schema: &Schema, documents: &[Document]) -> Result<Typed, Failure> {
        Ok(build_executable_document(self.alloc, schema, TYPING, documents)?)
    }
}
