//! The syntax tree of GraphQL documents: every definition of the specification of October 2021, sections 2
//! and 3.
//!
//! A tree is plain data. Cloning it shares its nodes, and comparing it leaves locations out.
//!
//! Proved: `==` of trees ignores locations, of documents their sources too, and nothing else; the value of an
//! argument by name; types of variables are compatible where the specification says so. What a definition
//! says, whatever its kind, is read of it and made into it again.
#![tactic(auto)]

pub mod added_list;
pub mod declaration;
pub mod declaration_ref;
pub mod definition;
pub mod directive;
pub mod document;
mod else_empty;
mod from_nodes;
pub mod get_all;
pub mod laws;
mod named_parts;
pub mod operation;
pub mod parts;
pub mod selection;
pub mod type_reference;
pub mod type_system;
pub mod value;

pub use crate::declaration::{SchemaDeclaration, TypeDeclaration};
pub use crate::declaration_ref::{DeclarationRef, SchemaDeclarationRef, TypeDeclarationRef};
pub use crate::definition::Definition;
pub use crate::directive::{Argument, ArgumentByNameError, Directive, DirectiveList};
pub use crate::document::Document;
pub use crate::get_all::GetAll;
pub use crate::operation::{FragmentDefinition, OperationDefinition, VariableDefinition};
pub use crate::parts::{Part, Parts, PartsRef};
pub use crate::selection::{Field, FragmentSpread, InlineFragment, Selection};
pub use crate::type_reference::Type;
pub use crate::type_system::{
    DirectiveDefinition, EnumTypeDefinition, EnumTypeExtension, EnumValueDefinition,
    FieldDefinition, InputObjectTypeDefinition, InputObjectTypeExtension, InputValueDefinition,
    InterfaceTypeDefinition, InterfaceTypeExtension, ObjectTypeDefinition, ObjectTypeExtension,
    ScalarTypeDefinition, ScalarTypeExtension, SchemaDefinition, SchemaExtension,
    UnionTypeDefinition, UnionTypeExtension,
};
pub use crate::value::Value;
pub use graphql_nodes::collections::items::Items;
pub use graphql_nodes::directive_location::DirectiveLocation;
pub use graphql_nodes::name::{InvalidNameError, Name, NameError, NamedType};
pub use graphql_nodes::node::Node;
pub use graphql_nodes::node_str::NodeStr;
pub use graphql_nodes::operation_type::OperationType;
pub use graphql_nodes::source::{FileId, SourceFile, SourceMap, SourceSpan};
