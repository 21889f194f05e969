//! Fields where they stand: GraphQL specification of October 2021, section 2.5.
ghost use Rattle.std.specs.Prelude.{IfOk, ◌≡◌};
ghost use Rattle.apollo_field_usage.specs.Coordinates.{coordinate};
ghost use Rattle.apollo_field_usage.specs.Seen.{seen};

use apollo_coordinate::TypeAttributeCoordinate;
use apollo_executable::selection::Field;
use graphql_nodes::name::NamedType;
use graphql_nodes::node::Node;
use std::alloc::AllocError;

/// A field, and the type of the set in which it stands.
#[derive(Drop)]
pub(crate) struct FieldOccurrence<'doc> {
    pub(crate) ty: &'doc NamedType,
    pub(crate) field: &'doc Node<Field>,
}

impl<'doc> FieldOccurrence<'doc> {
    /// The coordinate of the field, with the names that stand there. The error is that memory ran out.
    pub(crate) fn coordinate(&self) -> Result<TypeAttributeCoordinate, AllocError>
        ensures { IfOk result (λ c. c ≡ coordinate (seen self.now)) }
    {
        Ok(TypeAttributeCoordinate {
            ty: self.ty.clone()?,
            attribute: self.field.name.clone()?,
        })
    }
}
