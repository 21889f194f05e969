//! What extensions add to: GraphQL specification of October 2021, sections 3.3.2 and 3.4.3.
ghost use Rattle.std.specs.Prelude.{◌≡◌, IfOk};
ghost use Rattle.apollo_component.specs.WriteOut.{origins_in, identities};
ghost use Rattle.apollo_types.specs.Components.{OriginsInOrder};
ghost use Rattle.apollo_types.specs.TypeWriteOut.{scalar_components, object_components, interface_components};
ghost use Rattle.apollo_types.specs.TypeWriteOut.{union_components, enum_components, input_object_components};

use crate::components::{Components, Rest};
use crate::enum_type::EnumType;
use crate::input_object_type::InputObjectType;
use crate::interface_type::InterfaceType;
use crate::object_type::ObjectType;
use crate::origins::Origins;
use crate::scalar_type::ScalarType;
use crate::union_type::UnionType;
use crate::write_out::identities_of;
use apollo_component::extension::ExtensionId;
use graphql_nodes::collections::key_set::KeySet;
use std::alloc::{AllocError, Global};

/// What extensions add to: a type, of one kind or of any, or a schema's definition. It is made of components,
/// each of the definition or of one of its extensions.
pub trait Extensible {
    ghost use Rattle.std.specs.Prelude.{List};
    ghost use Rattle.apollo_component.specs.WriteOut.{SourcedPart};

    /// The components, in order.
    ghost sourced: { Self → List SourcedPart };

    /// The components, in order: directives, then interfaces and fields, or members, values, input fields or
    /// roots.
    fn components(&self) -> Components<'_>
        ensures { result ≡ sourced self.now };

    /// The origins of the components, in their order. They are those of directives, then of interfaces and
    /// fields, or of members, values, input fields, or the roots of query, mutation and subscription.
    final fn iter_origins(&self) -> Origins<'_>
        ensures rest { result ≡ origins_in (sourced self.now) }
        ensures runs { OriginsInOrder }
    {
        Origins::new(self.components())
    }

    /// The identities of the extensions that the components come from, by first appearance among their
    /// [origins](Extensible::iter_origins). The error is out of memory.
    final fn extensions(&self, alloc: Global) -> Result<KeySet<ExtensionId>, AllocError>
        ensures { IfOk result (λ ids. ids ≡ identities (origins_in (sourced self.now))) }
    {
        identities_of(alloc, self.iter_origins())
    }
}

impl Extensible for ScalarType {
    ghost sourced = { scalar_components };

    /// The components: directives.
    fn components(&self) -> Components<'_> {
        Components::new(&self.directives, Rest::Nothing, Rest::Nothing)
    }
}

impl Extensible for ObjectType {
    ghost sourced = { object_components };

    /// The components: directives, interfaces, fields.
    fn components(&self) -> Components<'_> {
        Components::new(
            &self.directives,
            Rest::Names(self.implements_interfaces.as_slice().iter()),
            Rest::Fields(self.fields.values()),
        )
    }
}

impl Extensible for InterfaceType {
    ghost sourced = { interface_components };

    /// The components: directives, interfaces, fields.
    fn components(&self) -> Components<'_> {
        Components::new(
            &self.directives,
            Rest::Names(self.implements_interfaces.as_slice().iter()),
            Rest::Fields(self.fields.values()),
        )
    }
}

impl Extensible for UnionType {
    ghost sourced = { union_components };

    /// The components: directives, members.
    fn components(&self) -> Components<'_> {
        Components::new(
            &self.directives,
            Rest::Names(self.members.as_slice().iter()),
            Rest::Nothing,
        )
    }
}

impl Extensible for EnumType {
    ghost sourced = { enum_components };

    /// The components: directives, values.
    fn components(&self) -> Components<'_> {
        Components::new(
            &self.directives,
            Rest::Nothing,
            Rest::EnumValues(self.values.values()),
        )
    }
}

impl Extensible for InputObjectType {
    ghost sourced = { input_object_components };

    /// The components: directives, fields.
    fn components(&self) -> Components<'_> {
        Components::new(
            &self.directives,
            Rest::Nothing,
            Rest::InputFields(self.fields.values()),
        )
    }
}
