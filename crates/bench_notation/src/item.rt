//! What has been read of the definition or extension that is being read.
ghost use Rattle.std.specs.Prelude.{◌≡◌, IfOk, OnOk};
ghost use Rattle.bench_notation.specs.Components.{definition_with, is_input_object, with_last};

use crate::above::Above;
use crate::directive_parts::DirectiveParts;
use crate::line::{Component, Header};
use crate::nesting::nested;
use crate::nodes::{applied_directive, enum_value, input_value};
use crate::open_field::OpenField;
use crate::selection_line::SelectionLine;
use graphql_ast::declaration::{SchemaDeclaration, TypeDeclaration};
use graphql_ast::definition::Definition;
use graphql_ast::directive::{Directive, DirectiveList};
use graphql_ast::parts::{Part, Parts};
use graphql_ast::type_system::InputValueDefinition;
use graphql_nodes::collections::items::Items;
use graphql_nodes::node::Node;
use graphql_nodes::source::SourceSpan;
use graphql_nodes::take_apart;
use graphql_nodes::type_kind::TypeKind;
use std::alloc::{AllocError, Global};
use std::mem;

/// A definition or extension whose components may still come.
pub struct OpenItem {
    location: SourceSpan,
    header: Header,
    /// The components, without the last field, and without those that a directive's definition alone has.
    parts: Parts,
    directive: DirectiveParts,
    last_field: Option<OpenField>,
    /// The lines of selections, which an operation or fragment alone has.
    selections: Items<SelectionLine>,
}

impl Drop for OpenItem {
    fn drop(self) {
        take_apart!(self: location, header, parts, directive, last_field, selections);
    }
}

impl OpenItem {
    ghost use Rattle.bench_notation.specs.Components.{header_alone, above_below, levels_after, whole_item};
    ghost use Rattle.bench_notation.specs.Components.{with_argument, with_component, with_field};
    ghost use Rattle.bench_notation.specs.Components.{with_field_directive};

    /// The item of a header, without components.
    pub fn new(alloc: Global, header: Header, location: SourceSpan) -> OpenItem
        ensures { result ≡ header_alone header location }
    {
        OpenItem {
            location,
            header,
            parts: Parts::new(alloc),
            directive: DirectiveParts::new(alloc),
            last_field: None,
            selections: Items::new(alloc),
        }
    }

    /// What stands above a line that comes next.
    pub fn above(&self) -> Above
        ensures { result ≡ above_below self.now.header self.now.last_field self.now.selections }
    {
        match (&self.header, &self.last_field) {
            (Header::Type(_, kind, _), None) => Above::Type(*kind),
            (Header::Type(_, kind, _), Some(_)) => Above::Field(*kind),
            (Header::Directive(_), _) => Above::Directive,
            (Header::Schema(_), _) => Above::Schema,
            (Header::Executable(_), _) => Above::Selections(self.levels()),
        }
    }

    /// At how many depths the next selection may stand: the first at one.
    fn levels(&self) -> u16
        ensures { result ≡ levels_after self.now.selections }
    {
        match self.selections.as_slice().last() {
            Some(line) => line.levels_below(),
            None => 1,
        }
    }

    /// Adds a component, at this location. A directive of a field, where there is no field, adds nothing. The
    /// error is out of memory.
    pub fn add(
        &mut self,
        alloc: Global,
        component: Component,
        location: SourceSpan,
    ) -> Result<(), AllocError>
        ensures { OnOk result (self.new ≡ with_component component location self.old) }
    {
        match component {
            Component::Directive(name) => {
                let directive = applied_directive(alloc, name);
                let directive = Node::new_opt_location(alloc, directive, Some(location))?;
                self.parts.push(Part::Directive(directive))
            }
            Component::Implements(name) | Component::Member(name) => {
                self.parts.push(Part::Name(name))
            }
            Component::Field(name, ty) => {
                let field = OpenField::new(alloc, name, ty, location);
                self.open_field(alloc, field)
            }
            Component::FieldDirective(name) => {
                let directive = applied_directive(alloc, name);
                let directive = Node::new_opt_location(alloc, directive, Some(location))?;
                self.add_field_directive(directive)
            }
            Component::Argument(name, ty) => {
                let directives = DirectiveList::new(alloc);
                let argument = input_value(alloc, name, ty, directives, location)?;
                self.add_argument(argument)
            }
            Component::Value(name) => {
                let value = enum_value(alloc, name);
                let value = Node::new_opt_location(alloc, value, Some(location))?;
                self.parts.push(Part::EnumValue(value))
            }
            Component::On(location) => self.directive.locations.push(location),
            Component::Repeatable => {
                self.directive.is_repeatable = true;
                Ok(())
            }
            Component::Root(operation, name) => {
                let root = Node::new_opt_location(alloc, (operation, name), Some(location))?;
                self.parts.push(Part::Root(root))
            }
            Component::Selection(depth, selected) => self.selections.push(SelectionLine {
                depth,
                location,
                selected,
            }),
        }
    }

    /// Adds a directive to the last field, if there is one.
    fn add_field_directive(&mut self, directive: Node<Directive>) -> Result<(), AllocError>
        ensures { OnOk result (self.new ≡ with_field_directive directive self.old) }
    {
        match &mut self.last_field {
            Some(field) => field.directives.push(directive),
            None => Ok(()),
        }
    }

    /// Adds an argument to the last field, and where there is none, to the directive that is being read.
    fn add_argument(&mut self, argument: Node<InputValueDefinition>) -> Result<(), AllocError>
        ensures { OnOk result (self.new ≡ with_argument argument self.old) }
    {
        match &mut self.last_field {
            Some(field) => field.arguments.push(argument),
            None => self.directive.arguments.push(argument),
        }
    }

    /// Closes the last field, if there is one, after which the next is open.
    fn open_field(&mut self, alloc: Global, next: OpenField) -> Result<(), AllocError>
        ensures { OnOk result (self.new ≡ with_field next self.old) }
    {
        let last = mem::replace(&mut self.last_field, Some(next));
        add_last(alloc, &self.header, last, &mut self.parts)
    }

    /// Hands out the definition or extension, in whose place the item of this header begins. The error is out
    /// of memory.
    pub fn begin_next(
        &mut self,
        alloc: Global,
        header: Header,
        location: SourceSpan,
    ) -> Result<Definition, AllocError>
        ensures ended { IfOk result (λ definition. definition ≡ whole_item self.old) }
        ensures begun { OnOk result (self.new ≡ header_alone header location) }
    {
        let last = self.last_field.take();
        add_last(alloc, &self.header, last, &mut self.parts)?;
        let header = mem::replace(&mut self.header, header);
        let location = mem::replace(&mut self.location, location);
        let parts = mem::replace(&mut self.parts, Parts::new(alloc));
        let directive = mem::replace(&mut self.directive, DirectiveParts::new(alloc));
        let selections = mem::replace(&mut self.selections, Items::new(alloc));
        definition_with(alloc, header, parts, directive, selections, location)
    }

    /// The definition or extension. The error is out of memory.
    pub fn close(self, alloc: Global) -> Result<Definition, AllocError>
        ensures { IfOk result (λ definition. definition ≡ whole_item self) }
    {
        let OpenItem {
            location,
            header,
            mut parts,
            directive,
            last_field,
            selections,
        } = self;
        add_last(alloc, &header, last_field, &mut parts)?;
        definition_with(alloc, header, parts, directive, selections, location)
    }
}

/// Adds the last field of the item of this header, if there is one, to the parts. The error is out of memory.
fn add_last(
    alloc: Global,
    header: &Header,
    field: Option<OpenField>,
    parts: &mut Parts,
) -> Result<(), AllocError>
    ensures { OnOk result (parts.new ≡ with_last (is_input_object header.now) field parts.old) }
{
    match field {
        Some(field) => parts.push(field.close_as_part(alloc, is_input_object(header))?),
        None => Ok(()),
    }
}

/// The definition or extension of a header with these components. The error is out of memory.
fn definition_with(
    alloc: Global,
    header: Header,
    parts: Parts,
    directive: DirectiveParts,
    lines: Items<SelectionLine>,
    location: SourceSpan,
) -> Result<Definition, AllocError>
    ensures { IfOk result (λ definition. definition ≡ definition_with header parts directive lines location) }
{
    match header {
        Header::Type(role, kind, name) => {
            let declaration = TypeDeclaration {
                kind,
                name,
                is_extension: role.is_extension(),
                description: None,
                location: Some(location),
                parts,
            };
            declaration.into_definition(alloc)
        }
        Header::Directive(name) => directive.into_definition(alloc, name, location),
        Header::Schema(role) => {
            let declaration = SchemaDeclaration {
                is_extension: role.is_extension(),
                description: None,
                location: Some(location),
                parts,
            };
            declaration.into_definition(alloc)
        }
        Header::Executable(header) => {
            let Parts { directives, .. } = parts;
            let selections = nested(alloc, lines)?;
            header.into_definition(alloc, DirectiveList(directives), selections, location)
        }
    }
}

fn is_input_object(header: &Header) -> bool
    ensures { result ≡ is_input_object header.now }
{
    matches!(header, Header::Type(_, TypeKind::InputObject, _))
}
