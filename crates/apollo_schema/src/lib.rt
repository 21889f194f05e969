//! Schemas, built from documents of the type system: GraphQL specification of October 2021, section 3.
//!
//! Proved: `build` answers exactly the schema that the list means, and its faults; what each lookup finds;
//! `==` decides whether schemas are equal.
//!
//! No clause: `MetaFields::new`, as each value of the type holds the three; the lookups answer them.
#![tactic(auto)]

pub mod build_failure;
pub mod field_lookup_error;
pub mod implementers;
pub mod laws;
// Contracts of other crates name `Schema`, and so want the types of its fields exported.
#[doc(hidden)]
pub mod meta_fields;
pub mod orphan_names;
pub mod schema;
pub mod schema_builder;
mod state;
mod tables;
mod write_out;

pub use crate::build_failure::{BuildFailure, WithErrors};
pub use crate::field_lookup_error::FieldLookupError;
pub use crate::implementers::{Implementers, ImplementersIter};
pub use crate::orphan_names::OrphanNames;
pub use crate::schema::Schema;
pub use crate::schema_builder::SchemaBuilder;
pub use apollo_component::component::{Component, ComponentName};
pub use apollo_component::directive_list::DirectiveList;
pub use apollo_component::extension::{ComponentOrigin, ExtensionId, ExtensionSource, IdsSpent};
pub use apollo_component::get_all::GetAll;
pub use apollo_folding::builder_error::BuilderError;
pub use apollo_meaning::build_error::{BuildError, Fault, Faults};
pub use apollo_types::enum_type::EnumType;
pub use apollo_types::extended_type::ExtendedType;
pub use apollo_types::extensible::Extensible;
pub use apollo_types::input_object_type::InputObjectType;
pub use apollo_types::interface_type::InterfaceType;
pub use apollo_types::object_type::ObjectType;
pub use apollo_types::origins::Origins;
pub use apollo_types::root_operations::RootOperations;
pub use apollo_types::scalar_type::ScalarType;
pub use apollo_types::schema_definition::SchemaDefinition;
pub use apollo_types::type_of_kind::TypeOfKind;
pub use apollo_types::union_type::UnionType;
pub use graphql_ast::directive::Directive;
pub use graphql_ast::type_reference::Type;
pub use graphql_ast::type_system::{
    DirectiveDefinition, EnumValueDefinition, FieldDefinition, InputValueDefinition,
};
pub use graphql_ast::value::Value;
pub use graphql_nodes::collections::hash_keys::HashKeys;
pub use graphql_nodes::collections::items::Items;
pub use graphql_nodes::collections::key_set::KeySet;
pub use graphql_nodes::collections::table::Table;
pub use graphql_nodes::directive_location::DirectiveLocation;
pub use graphql_nodes::name::{InvalidNameError, Name, NameError, NamedType};
pub use graphql_nodes::node::Node;
pub use graphql_nodes::node_str::NodeStr;
pub use graphql_nodes::operation_type::OperationType;
pub use graphql_nodes::source::{FileId, SourceFile, SourceMap, SourceSpan};
