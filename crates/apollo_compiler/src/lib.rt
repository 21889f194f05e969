//! Documents compiled in one call: the schema of documents of the type system, its write-out built again, and
//! the typed document of executable ones. Schemas and typed documents of files. GraphQL specification of
//! October 2021, sections 2.2 to 2.8 and 3.
//!
//! Proved: one call answers the schema, its write-out, that built again, the typed document, that as syntax,
//! and all faults. A schema or a typed document of files is that of the texts that these may hold. Each file
//! that can't be read or is no document is among the refusals, with its cause, and then nothing is built.
//!
//! Not proved: that the Rust crate answers the same.
//!
//! No clause: `Prepared::new`, as the invariant of the type says what each value stands for, and no clause
//! sees keys.
#![tactic(auto)]

pub mod building;
pub mod collections;
pub mod compile_error;
pub mod compile_options;
pub mod compiled;
pub mod compiling;
pub mod document_building;
pub mod executable;
pub mod executable_options;
mod file_refusal;
pub mod files;
pub mod laws;
pub mod loaded_document;
mod loaded_reports;
pub mod loaded_schema;
pub mod loading;
mod prepared;
mod reading;
mod rebuilding;
pub mod report;
pub mod source_files;
pub mod text;

pub use crate::building::build_schema;
pub use crate::compile_error::CompileError;
pub use crate::compile_options::CompileOptions;
pub use crate::compiled::Compiled;
pub use crate::compiling::{compile, compile_with_keys};
pub use crate::document_building::build_executable_document;
pub use crate::executable_options::ExecutableOptions;
pub use crate::loaded_document::{LoadedDocument, load_document};
pub use crate::loaded_schema::{LoadedSchema, load_schema};
pub use crate::loading::{LoadedDocuments, load_documents};
pub use apollo_coordinate as coordinate;
pub use apollo_executable::document::ExecutableDocument;
pub use apollo_field_usage as usage;
pub use apollo_schema as schema;
pub use apollo_schema::schema::Schema;
pub use graphql_ast as ast;
pub use graphql_ast::definition::Definition;
pub use graphql_ast::document::Document;
pub use graphql_nodes::collections::hash_keys::HashKeys;
pub use graphql_nodes::line_column::LineColumn;
pub use graphql_nodes::line_index::LineIndex;
pub use graphql_nodes::name::{InvalidNameError, Name, NameError, NamedType};
pub use graphql_nodes::node::Node;
pub use graphql_nodes::node_str::NodeStr;
pub use graphql_nodes::source::{FileId, SourceFile, SourceMap, SourceSpan};
