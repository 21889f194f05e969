//! Executable documents as typed trees: GraphQL specification of October 2021, section 2.
//!
//! A typed document is plain data, like the syntax tree: its fields are public, cloning it shares its nodes,
//! and comparing it leaves locations out. Each selection set knows the type that it selects from, each field
//! its definition.
//!
//! Proved: walks field by field; which queries are introspection; the operation that a request names; typed
//! values as syntax.
//!
//! Not proved: that `is_introspection` looks at nothing after the first other field, which a test shows.
#![tactic(auto)]

mod added_directives;
pub mod document;
mod field;
pub mod fields;
mod fragment_spread;
mod inline_fragment;
pub mod laws;
pub mod new_field_error;
pub mod operation;
pub mod operation_map;
pub mod operations;
pub mod request_error;
pub mod selection;
mod selection_set;
pub mod walks;

pub use crate::document::{ExecutableDocument, FragmentMap};
pub use crate::fields::Fields;
pub use crate::new_field_error::NewFieldError;
pub use crate::operation::{Fragment, Operation};
pub use crate::operation_map::OperationMap;
pub use crate::operations::Operations;
pub use crate::request_error::RequestError;
pub use crate::selection::{Field, FragmentSpread, InlineFragment, Selection, SelectionSet};
pub use crate::walks::field_walk::{AllFields, FieldWalk, RootFields};
pub use graphql_ast::directive::{Argument, Directive, DirectiveList};
pub use graphql_ast::operation::VariableDefinition;
pub use graphql_ast::type_reference::Type;
pub use graphql_ast::value::Value;
pub use graphql_nodes::name::{InvalidNameError, Name, NameError, NamedType};
pub use graphql_nodes::node::Node;
pub use graphql_nodes::operation_type::OperationType;
pub use graphql_nodes::source::{FileId, SourceFile, SourceMap, SourceSpan};
