//! Types of one kind, as syntax: GraphQL specification of October 2021, sections 3.5 to 3.10.
ghost use Rattle.std.specs.Prelude.{◌≡◌, IfOk};
ghost use Rattle.std.specs.Option.{option_copied};
ghost use Rattle.graphql_nodes.specs.declared.type_kind.TypeKind.TheVariants as kinds;
ghost use Rattle.apollo_component.specs.WriteOut.{by_origin, written_type};

use crate::enum_type::EnumType;
use crate::extensible::Extensible;
use crate::input_object_type::InputObjectType;
use crate::interface_type::InterfaceType;
use crate::object_type::ObjectType;
use crate::scalar_type::ScalarType;
use crate::union_type::UnionType;
use crate::write_out::{Head, type_as_syntax};
use graphql_ast::definition::Definition;
use graphql_nodes::source::SourceSpan;
use graphql_nodes::type_kind::TypeKind;
use std::alloc::{AllocError, Global};

/// A type of one kind: scalar, object, interface, union, enum or input object type.
pub trait TypeOfKind: Extensible {
    ghost use Rattle.std.specs.Prelude.{Option};
    ghost use Rattle.graphql_nodes.specs.NameView.{NameView};
    ghost use Rattle.graphql_nodes.specs.declared.type_kind.TypeKind.{TypeKind};

    /// The kind.
    ghost kind: { TypeKind };

    /// The description, if there is one.
    ghost description: { Self → Option NameView };

    /// The name.
    ghost name: { Self → NameView };

    /// What stands before the components.
    fn head(&self) -> Head<'_>
        ensures kind { result.kind ≡ kind }
        ensures description { option_copied result.description ≡ description self.now }
        ensures name { result.name.now ≡ name self.now };

    /// The type as syntax: its definition, at this location, with the components of the definition. Then
    /// comes an extension for each identity of [`extensions`](Extensible::extensions), with that identity's
    /// components and location. Each list is in the type's own order. The error is out of memory.
    final fn to_ast(
        &self,
        alloc: Global,
        location: Option<SourceSpan>,
    ) -> Result<Vec<Definition>, AllocError>
        ensures { IfOk result (λ written. written.items
            ≡ written_type kind (description self.now) (name self.now) (by_origin (Self.sourced self.now))
            location) }
    {
        type_as_syntax(alloc, self.head(), self.components(), location)
    }
}

impl TypeOfKind for ScalarType {
    ghost kind = { kinds.Scalar };

    ghost description = { λ ty. ty.description };

    ghost name = { λ ty. ty.name };

    fn head(&self) -> Head<'_> {
        Head::new(TypeKind::Scalar, &self.description, &self.name)
    }
}

impl TypeOfKind for ObjectType {
    ghost kind = { kinds.Object };

    ghost description = { λ ty. ty.description };

    ghost name = { λ ty. ty.name };

    fn head(&self) -> Head<'_> {
        Head::new(TypeKind::Object, &self.description, &self.name)
    }
}

impl TypeOfKind for InterfaceType {
    ghost kind = { kinds.Interface };

    ghost description = { λ ty. ty.description };

    ghost name = { λ ty. ty.name };

    fn head(&self) -> Head<'_> {
        Head::new(TypeKind::Interface, &self.description, &self.name)
    }
}

impl TypeOfKind for UnionType {
    ghost kind = { kinds.Union };

    ghost description = { λ ty. ty.description };

    ghost name = { λ ty. ty.name };

    fn head(&self) -> Head<'_> {
        Head::new(TypeKind::Union, &self.description, &self.name)
    }
}

impl TypeOfKind for EnumType {
    ghost kind = { kinds.Enum };

    ghost description = { λ ty. ty.description };

    ghost name = { λ ty. ty.name };

    fn head(&self) -> Head<'_> {
        Head::new(TypeKind::Enum, &self.description, &self.name)
    }
}

impl TypeOfKind for InputObjectType {
    ghost kind = { kinds.InputObject };

    ghost description = { λ ty. ty.description };

    ghost name = { λ ty. ty.name };

    fn head(&self) -> Head<'_> {
        Head::new(TypeKind::InputObject, &self.description, &self.name)
    }
}
