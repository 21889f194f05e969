//! Executable documents as typed trees, and what builds them of syntax: GraphQL specification of October
//! 2021, section 2.
//!
//! Each name is that of the layer below: `apollo_executable` has the trees and their walks, `apollo_document`
//! field sets, faults and the builder.

pub use apollo_document::document_builder::ExecutableDocumentBuilder;
pub use apollo_document::{
    BuildError, ExecutableDefinitionName, Fault, Faults, FieldSet, SelectionPath,
};
pub use apollo_executable::{
    AllFields, Argument, Directive, DirectiveList, ExecutableDocument, Field, FieldWalk, Fields,
    Fragment, FragmentMap, FragmentSpread, InlineFragment, Name, NamedType, NewFieldError, Node,
    Operation, OperationMap, OperationType, Operations, RequestError, RootFields, Selection,
    SelectionSet, Type, Value, VariableDefinition,
};
