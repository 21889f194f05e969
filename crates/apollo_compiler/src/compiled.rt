//! What documents are compiled to: GraphQL specification of October 2021, sections 2.2 to 2.8 and 3.

use apollo_document::Faults as DocumentFaults;
use apollo_executable::document::ExecutableDocument;
use apollo_meaning::build_error::Faults as SchemaFaults;
use apollo_schema::schema::Schema;
use graphql_ast::definition::Definition;
use graphql_ast::document::Document;

/// What documents are compiled to, as [`compile`](crate::compiling::compile) says.
#[derive(Drop)]
pub struct Compiled {
    /// The schema of the schema documents; where they have faults, what could be built of them. Its sources
    /// are those of these documents, merged.
    pub schema: Schema,
    /// The faults of the schema documents, in the order in which they are found.
    pub schema_faults: SchemaFaults,
    /// The schema as syntax.
    pub ast: Vec<Definition>,
    /// The schema of `ast` alone, with adoption. It has no sources.
    pub rebuilt: Schema,
    /// The faults of `ast`.
    pub rebuilt_faults: SchemaFaults,
    /// The rebuilt schema as syntax.
    pub rebuilt_ast: Vec<Definition>,
    /// The typed document of the executable documents over `schema`: what is kept of them. Its sources are
    /// those of these documents, merged.
    pub document: ExecutableDocument,
    /// The faults of the executable documents, in the order of their definitions.
    pub document_faults: DocumentFaults,
    /// The typed document as syntax, without sources.
    pub erased: Document,
}
