//! The types of a schema, each with the origin of its components, and how they are written out again.
//!
//! Proved: a type is written out as its definition and one extension for each that gave it something; so is
//! the schema definition.
#![tactic(auto)]

mod clones;
mod components;
pub mod enum_type;
pub mod extended_type;
pub mod extensible;
pub mod input_object_type;
pub mod interface_type;
pub mod laws;
pub mod object_type;
pub mod origins;
pub mod root_operations;
pub mod scalar_type;
pub mod schema_definition;
pub mod type_of_kind;
pub mod union_type;
mod write_out;

pub use crate::enum_type::EnumType;
pub use crate::extended_type::ExtendedType;
pub use crate::extensible::Extensible;
pub use crate::input_object_type::InputObjectType;
pub use crate::interface_type::InterfaceType;
pub use crate::object_type::ObjectType;
pub use crate::origins::Origins;
pub use crate::root_operations::RootOperations;
pub use crate::scalar_type::ScalarType;
pub use crate::schema_definition::SchemaDefinition;
pub use crate::type_of_kind::TypeOfKind;
pub use crate::union_type::UnionType;
