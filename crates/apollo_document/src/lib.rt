//! Executable documents built from documents of syntax, over a schema or without one: GraphQL specification
//! of October 2021, sections 2.2 to 2.8.
//!
//! Proved: `build` answers exactly the typed document and its faults. Exactly the selections that have a type
//! are kept; what is written out builds again to itself.
#![tactic(auto)]

pub mod build_error;
pub mod document_builder;
mod elaborating;
pub mod elaboration;
pub mod field_set;
pub mod laws;
mod parent;
pub mod selection_laws;
pub mod selection_path;
mod state;
mod tables;
mod typed_definitions;
mod typed_nodes;

pub use crate::build_error::{BuildError, Fault, Faults};
pub use crate::document_builder::ExecutableDocumentBuilder;
pub use crate::elaboration::elaborate_selections;
pub use crate::field_set::FieldSet;
pub use crate::selection_path::{ExecutableDefinitionName, SelectionPath};
pub use apollo_executable::document::{ExecutableDocument, FragmentMap};
pub use apollo_executable::operation::{Fragment, Operation};
pub use apollo_executable::operation_map::OperationMap;
pub use apollo_executable::request_error::RequestError;
pub use apollo_executable::selection::{
    Field, FragmentSpread, InlineFragment, Selection, SelectionSet,
};
pub use apollo_schema::BuilderError;
pub use apollo_schema::schema::Schema;
pub use graphql_ast::document::Document;
pub use graphql_nodes::source::{FileId, SourceFile, SourceMap, SourceSpan};
