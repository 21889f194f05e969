//! What stands in the lists of a definition or extension: GraphQL specification of October 2021, sections 3.3
//! and 3.5 to 3.10.
ghost use Rattle.std.specs.Prelude.{◌≡◌, OnOk, OnErr};
ghost use Rattle.graphql_ast.specs.Parts.{with_part};
ghost use Rattle.graphql_ast.specs.declared.parts.Part.{Part};
ghost use Rattle.graphql_ast.specs.declared.parts.Part.TheVariants as sorts;

use graphql_ast::directive::Directive;
use graphql_ast::parts::Parts;
use graphql_ast::type_system::{EnumValueDefinition, FieldDefinition, InputValueDefinition};
use graphql_nodes::name::{Name, NamedType};
use graphql_nodes::node::Node;
use graphql_nodes::operation_type::OperationType;
use std::alloc::AllocError;

/// What stands in one of the lists of a definition or extension.
pub trait Listed: Drop {
    /// The part that it is.
    ghost part: { Self → Part };

    /// Adds it at the end of the list of its sort. The error is out of memory: the parts are as they were,
    /// and it is dropped. It is `Parts::push` of that part, in fewer instructions.
    fn push_to(self, parts: &mut Parts) -> Result<(), AllocError>
        ensures added { OnOk result (parts.new ≡ with_part (part self) parts.old) }
        ensures refused { OnErr result (parts.new ≡ parts.old) };

    /// Makes room for so many more at the end of the list of its sort. The error is out of memory. The parts
    /// are as they were, after a refusal too.
    fn make_room(parts: &mut Parts, count: usize) -> Result<(), AllocError>
        ensures { parts.new ≡ parts.old };
}

impl Listed for Node<Directive> {
    ghost part = { sorts.Directive };

    fn push_to(self, parts: &mut Parts) -> Result<(), AllocError> {
        parts.directives.push(self)
    }

    fn make_room(parts: &mut Parts, count: usize) -> Result<(), AllocError> {
        parts.directives.reserve_exact(count)
    }
}

/// An interface or a union member.
impl Listed for Name {
    ghost part = { sorts.Name };

    fn push_to(self, parts: &mut Parts) -> Result<(), AllocError> {
        parts.names.push(self)
    }

    fn make_room(parts: &mut Parts, count: usize) -> Result<(), AllocError> {
        parts.names.reserve_exact(count)
    }
}

impl Listed for Node<FieldDefinition> {
    ghost part = { sorts.Field };

    fn push_to(self, parts: &mut Parts) -> Result<(), AllocError> {
        parts.fields.push(self)
    }

    fn make_room(parts: &mut Parts, count: usize) -> Result<(), AllocError> {
        parts.fields.reserve_exact(count)
    }
}

impl Listed for Node<EnumValueDefinition> {
    ghost part = { sorts.EnumValue };

    fn push_to(self, parts: &mut Parts) -> Result<(), AllocError> {
        parts.values.push(self)
    }

    fn make_room(parts: &mut Parts, count: usize) -> Result<(), AllocError> {
        parts.values.reserve_exact(count)
    }
}

impl Listed for Node<InputValueDefinition> {
    ghost part = { sorts.InputField };

    fn push_to(self, parts: &mut Parts) -> Result<(), AllocError> {
        parts.input_fields.push(self)
    }

    fn make_room(parts: &mut Parts, count: usize) -> Result<(), AllocError> {
        parts.input_fields.reserve_exact(count)
    }
}

impl Listed for Node<(OperationType, NamedType)> {
    ghost part = { sorts.Root };

    fn push_to(self, parts: &mut Parts) -> Result<(), AllocError> {
        parts.roots.push(self)
    }

    fn make_room(parts: &mut Parts, count: usize) -> Result<(), AllocError> {
        parts.roots.reserve_exact(count)
    }
}
