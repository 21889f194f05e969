//! What stands in a definition or extension of a type or of the schema, whatever its kind. GraphQL
//! specification of October 2021, sections 3.3 and 3.5 to 3.10.
ghost use Rattle.std.specs.Prelude.{◌≡◌, OnOk, OnErr};
ghost use Rattle.graphql_ast.specs.Parts.{directive_list, no_parts, with_part};

use crate::directive::{Directive, DirectiveList};
use crate::type_system::{EnumValueDefinition, FieldDefinition, InputValueDefinition};
use graphql_nodes::collections::items::Items;
use graphql_nodes::name::{Name, NamedType};
use graphql_nodes::node::Node;
use graphql_nodes::operation_type::OperationType;
use std::alloc::{AllocError, Global};

/// One part of a definition or extension.
#[derive(Drop)]
pub enum Part {
    Directive(Node<Directive>),
    /// An interface of an object or interface type, or a member of a union.
    Name(Name),
    /// A field of an object or interface type.
    Field(Node<FieldDefinition>),
    EnumValue(Node<EnumValueDefinition>),
    /// A field of an input object type.
    InputField(Node<InputValueDefinition>),
    Root(Node<(OperationType, NamedType)>),
}

/// The parts of a definition or extension, a list for each sort. What is made of them leaves out those that
/// its kind does not have.
#[derive(Drop)]
pub struct Parts {
    pub directives: Items<Node<Directive>>,
    /// The interfaces of an object or interface type, or the members of a union.
    pub names: Items<Name>,
    /// The fields of an object or interface type.
    pub fields: Items<Node<FieldDefinition>>,
    /// The values of an enum.
    pub values: Items<Node<EnumValueDefinition>>,
    /// The fields of an input object type.
    pub input_fields: Items<Node<InputValueDefinition>>,
    /// The roots of the schema.
    pub roots: Items<Node<(OperationType, NamedType)>>,
}

impl Parts {
    ghost use Rattle.graphql_ast.specs.PartsSeen.{parts_seen};

    /// No part.
    pub fn new(alloc: Global) -> Parts
        ensures { result ≡ no_parts }
    {
        Parts {
            directives: Items::new(alloc),
            names: Items::new(alloc),
            fields: Items::new(alloc),
            values: Items::new(alloc),
            input_fields: Items::new(alloc),
            roots: Items::new(alloc),
        }
    }

    /// The same parts, borrowed.
    pub fn as_ref(&self) -> PartsRef<'_>
        ensures { parts_seen result ≡ self.now }
    {
        PartsRef {
            directives: self.directives.as_slice(),
            names: self.names.as_slice(),
            fields: self.fields.as_slice(),
            values: self.values.as_slice(),
            input_fields: self.input_fields.as_slice(),
            roots: self.roots.as_slice(),
        }
    }

    /// The directives and the roots, which the schema has. The others are dropped.
    pub(crate) fn into_schema_parts(
        self,
    ) -> (DirectiveList, Items<Node<(OperationType, NamedType)>>)
        ensures { result ≡ (directive_list self, self.roots) }
    {
        let Parts {
            directives,
            names: _,
            fields: _,
            values: _,
            input_fields: _,
            roots,
        } = self;
        (DirectiveList(directives), roots)
    }

    /// Adds a part at the end of the list of its sort. The error is out of memory: the parts are as they
    /// were, and this one is dropped.
    pub fn push(&mut self, part: Part) -> Result<(), AllocError>
        ensures added { OnOk result (self.new ≡ with_part part self.old) }
        ensures refused { OnErr result (self.new ≡ self.old) }
    {
        match part {
            Part::Directive(directive) => self.directives.push(directive),
            Part::Name(name) => self.names.push(name),
            Part::Field(field) => self.fields.push(field),
            Part::EnumValue(value) => self.values.push(value),
            Part::InputField(field) => self.input_fields.push(field),
            Part::Root(root) => self.roots.push(root),
        }
    }
}

/// The parts of a definition or extension, a slice for each sort, borrowed from it. Sorts that its kind
/// does not have are empty.
#[derive(Clone, Copy)]
pub struct PartsRef<'a> {
    pub directives: &'a [Node<Directive>],
    /// The interfaces of an object or interface type, or the members of a union.
    pub names: &'a [Name],
    /// The fields of an object or interface type.
    pub fields: &'a [Node<FieldDefinition>],
    /// The values of an enum.
    pub values: &'a [Node<EnumValueDefinition>],
    /// The fields of an input object type.
    pub input_fields: &'a [Node<InputValueDefinition>],
    /// The roots of the schema.
    pub roots: &'a [Node<(OperationType, NamedType)>],
}

impl<'a> PartsRef<'a> {
    ghost use Rattle.graphql_ast.specs.Parts.{directed};
    ghost use Rattle.graphql_ast.specs.PartsSeen.{parts_seen};

    /// These directives alone.
    pub(crate) fn directed(directives: &'a DirectiveList) -> PartsRef<'a>
        ensures { parts_seen result ≡ directed directives.now }
    {
        PartsRef {
            directives: directives.as_slice(),
            names: &[],
            fields: &[],
            values: &[],
            input_fields: &[],
            roots: &[],
        }
    }
}
