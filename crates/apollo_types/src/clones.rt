//! Clones of types and of definitions of schemas: field by field.
ghost use Rattle.std.specs.Prelude.{◌≡◌};

use crate::enum_type::EnumType;
use crate::input_object_type::InputObjectType;
use crate::interface_type::InterfaceType;
use crate::object_type::ObjectType;
use crate::scalar_type::ScalarType;
use crate::schema_definition::SchemaDefinition;
use crate::union_type::UnionType;
use graphql_nodes::clone_fields;
use std::alloc::AllocError;

impl Clone for ScalarType {
    ghost is_clone = { λ a b. b ≡ a };

    /// The same type, with every location and origin. The error is out of memory.
    fn clone(&self) -> Result<ScalarType, AllocError> {
        clone_fields!(self: description, name, directives)
    }
}

impl Clone for ObjectType {
    ghost is_clone = { λ a b. b ≡ a };

    /// The same type, with every location and origin. The error is out of memory.
    fn clone(&self) -> Result<ObjectType, AllocError> {
        clone_fields!(self: description, name, implements_interfaces, directives, fields)
    }
}

impl Clone for InterfaceType {
    ghost is_clone = { λ a b. b ≡ a };

    /// The same type, with every location and origin. The error is out of memory.
    fn clone(&self) -> Result<InterfaceType, AllocError> {
        clone_fields!(self: description, name, implements_interfaces, directives, fields)
    }
}

impl Clone for UnionType {
    ghost is_clone = { λ a b. b ≡ a };

    /// The same type, with every location and origin. The error is out of memory.
    fn clone(&self) -> Result<UnionType, AllocError> {
        clone_fields!(self: description, name, directives, members)
    }
}

impl Clone for EnumType {
    ghost is_clone = { λ a b. b ≡ a };

    /// The same type, with every location and origin. The error is out of memory.
    fn clone(&self) -> Result<EnumType, AllocError> {
        clone_fields!(self: description, name, directives, values)
    }
}

impl Clone for InputObjectType {
    ghost is_clone = { λ a b. b ≡ a };

    /// The same type, with every location and origin. The error is out of memory.
    fn clone(&self) -> Result<InputObjectType, AllocError> {
        clone_fields!(self: description, name, directives, fields)
    }
}

impl Clone for SchemaDefinition {
    ghost is_clone = { λ a b. b ≡ a };

    /// The same definition, with every location and origin. The error is out of memory.
    fn clone(&self) -> Result<SchemaDefinition, AllocError> {
        Ok(SchemaDefinition {
            description: self.description.clone()?,
            directives: self.directives.clone()?,
            query: self.query.clone()?,
            mutation: self.mutation.clone()?,
            subscription: self.subscription.clone()?,
        })
    }
}
