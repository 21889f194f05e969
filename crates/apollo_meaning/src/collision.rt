//! Components whose name is kept already.
ghost use Rattle.std.specs.Prelude.{◌≡◌, IfOk};
ghost use Rattle.apollo_meaning.specs.Faults.Collisions.{collision};

use crate::build_error::BuildError;
use graphql_nodes::name::Name;
use std::alloc::AllocError;

/// A collection of a type's components, in which the first of each name stays.
#[derive(Clone, Copy)]
pub enum Collection {
    ObjectInterfaces,
    InterfaceInterfaces,
    ObjectFields,
    InterfaceFields,
    EnumValues,
    UnionMembers,
    InputFields,
}

/// The error that stands beside the collection, with these names.
macro_rules! collision_by {
    ($collection:expr, $kept:expr, $type_name:expr; $($sort:ident => $error:ident,)*) => {
        match $collection {
            $(Collection::$sort => BuildError::$error {
                name_at_previous_location: $kept,
                type_name: $type_name,
            },)*
        }
    };
}

impl Collection {
    /// The fault of a component whose name is kept already, in a definition or extension of this type name.
    /// It is that of its collection, with copies of both names. The error is out of memory.
    pub fn collision(self, kept: &Name, type_name: &Name) -> Result<BuildError, AllocError>
        ensures { IfOk result (λ error. error ≡ collision self kept.now type_name.now) }
    {
        let name_at_previous_location = kept.clone()?;
        let type_name = type_name.clone()?;
        Ok(collision_by!(self, name_at_previous_location, type_name;
            ObjectInterfaces => DuplicateImplementsInterfaceInObject,
            InterfaceInterfaces => DuplicateImplementsInterfaceInInterface,
            ObjectFields => ObjectFieldNameCollision,
            InterfaceFields => InterfaceFieldNameCollision,
            EnumValues => EnumValueNameCollision,
            UnionMembers => UnionMemberNameCollision,
            InputFields => InputFieldNameCollision,
        ))
    }
}
