//! The components of a type or of a schema's definition, one by one.
ghost use Rattle.std.specs.Prelude.{◌≡◌, List, ◌++◌, length, map, IfOk, OnOk, IfSome};
ghost use Rattle.std.specs.Iterator.{UpTo, at_most};
ghost use Rattle.std.specs.Iterator.SizeHint.{IsWithinCount, IsExactHint};
ghost use Rattle.std.specs.Map.Iter.{TakesFirst, deref};
ghost use Rattle.apollo_component.specs.WriteOut.{SourcedPart, by_origin, origins_in};
ghost use Rattle.apollo_types.specs.Components.{of_directive, of_root, rest_components};

use crate::root_operations::RootOperations;
use apollo_component::component::{Component, ComponentName};
use apollo_component::directive_list::DirectiveList;
use apollo_component::extension::ComponentOrigin;
use apollo_component::parts_by_origin::PartsByOrigin;
use graphql_ast::directive::Directive;
use graphql_ast::type_system::{EnumValueDefinition, FieldDefinition, InputValueDefinition};
use graphql_nodes::collections::elements::Elements;
use graphql_nodes::node::Node;
use graphql_nodes::operation_type::OperationType;
use std::alloc::{AllocError, Global};
use std::marker::Model;
use std::slice::Iter;

/// What is left of one collection of components.
#[derive(Drop)]
pub(crate) enum Rest<'a> {
    Nothing,
    Names(Iter<'a, ComponentName>),
    Fields(Elements<'a, Component<FieldDefinition>>),
    EnumValues(Elements<'a, Component<EnumValueDefinition>>),
    InputFields(Elements<'a, Component<InputValueDefinition>>),
    Roots(RootOperations<'a>),
}

impl<'a> Rest<'a> {
    /// The origin of the next component, if there is one.
    fn next_origin(&mut self) -> Option<&'a ComponentOrigin>
        ensures { TakesFirst deref (origins_in (rest_components self.old)) result
            (origins_in (rest_components self.new)) }
    {
        match self {
            Rest::Nothing => None,
            Rest::Names(names) => Some(&names.next()?.origin),
            Rest::Fields(fields) => Some(&fields.next()?.origin),
            Rest::EnumValues(values) => Some(&values.next()?.origin),
            Rest::InputFields(fields) => Some(&fields.next()?.origin),
            Rest::Roots(roots) => Some(&roots.next()?.1.origin),
        }
    }

    /// How many components are left.
    fn len(&self) -> usize
        ensures { result ≡ length (rest_components self.now) }
    {
        match self {
            Rest::Nothing => 0,
            Rest::Names(names) => names.len(),
            Rest::Fields(fields) => fields.len(),
            Rest::EnumValues(values) => values.len(),
            Rest::InputFields(fields) => fields.len(),
            Rest::Roots(roots) => roots.len(),
        }
    }

    /// Adds each component that is left, in order. The error is out of memory, after which nothing is said of
    /// the parts.
    fn add_to(self, alloc: Global, parts: &mut PartsByOrigin) -> Result<(), AllocError>
        ensures { OnOk result ((cs : List SourcedPart) → parts.old ≡ by_origin cs
            → parts.new ≡ by_origin (cs ++ rest_components self.entry)) }
    {
        match self {
            Rest::Nothing => {}
            Rest::Names(names) => parts.add_names(alloc, names.as_slice())?,
            Rest::Fields(fields) => parts.add_components(alloc, fields.as_slice())?,
            Rest::EnumValues(values) => parts.add_components(alloc, values.as_slice())?,
            Rest::InputFields(fields) => parts.add_components(alloc, fields.as_slice())?,
            Rest::Roots(roots) => add_roots(alloc, roots, parts)?,
        }
        Ok(())
    }
}

/// Adds each root that is left, in order. A root has the location of its name. The error is out of memory.
fn add_roots(
    alloc: Global,
    roots: RootOperations<'_>,
    parts: &mut PartsByOrigin,
) -> Result<(), AllocError>
    ensures { OnOk result ((cs : List SourcedPart) → parts.old ≡ by_origin cs
        → parts.new ≡ by_origin (cs ++ map of_root roots.entry)) }
{
    for (operation_type, root) in roots {
        let name = root.name.clone()?;
        let node = Node::new_opt_location(alloc, (operation_type, name), root.name.location())?;
        parts.add(alloc, root.origin, node)?;
    }
    Ok(())
}

/// The components of a type or of a schema's definition, in order: directives, then names that it lists, then
/// what stands under names, or roots. Contracts see the list of those that are still to come.
#[derive(Drop)]
pub struct Components<'a> {
    directives: Iter<'a, Component<Directive>>,
    names: Rest<'a>,
    values: Rest<'a>,
}

impl<'a> Model for Components<'a> {
    ghost use Rattle.std.specs.Prelude.{List, ◌++◌, map};
    ghost use Rattle.std.specs.Coded.{coded_list, coded×};
    ghost use Rattle.std.specs.Slice.Iter.{iter_rest};
    ghost use Rattle.apollo_component.specs.WriteOut.{SourcedPart};
    ghost use Rattle.apollo_component.specs.contracts.extension.ComponentOrigin as origin;
    ghost use Rattle.graphql_ast.specs.contracts.parts.Part as part;
    ghost use Rattle.apollo_types.specs.Components.{of_directive, rest_components};

    ghost Value = { List SourcedPart };

    ghost coded = { coded_list (coded× origin.the_row.coded part.the_row.coded) };

    ghost view = { λ it. (map of_directive (iter_rest it.directives) ++ rest_components it.names)
        ++ rest_components it.values };
}

impl<'a> Components<'a> {
    /// These directives, then these collections.
    pub(crate) fn new(
        directives: &'a DirectiveList,
        names: Rest<'a>,
        values: Rest<'a>,
    ) -> Components<'a>
        ensures { result ≡ (map of_directive directives.now.0 ++ rest_components names.entry)
            ++ rest_components values.entry }
    {
        Components {
            directives: directives.iter(),
            names,
            values,
        }
    }

    /// The components under their origins, by one pass through them. The error is out of memory.
    pub(crate) fn by_origin(self, alloc: Global) -> Result<PartsByOrigin, AllocError>
        ensures { IfOk result (λ parts. parts ≡ by_origin self.entry) }
    {
        let mut parts = PartsByOrigin::new(alloc);
        parts.add_components(alloc, self.directives.as_slice())?;
        self.names.add_to(alloc, &mut parts)?;
        self.values.add_to(alloc, &mut parts)?;
        Ok(parts)
    }

    /// The origin of the first component that is left, after which the rest is left. Once none is left it
    /// answers none, from then on too.
    pub(crate) fn next_origin(&mut self) -> Option<&'a ComponentOrigin>
        ensures { TakesFirst deref (origins_in self.old) result (origins_in self.new) }
    {
        if let Some(directive) = self.directives.next() {
            return Some(&directive.origin);
        }
        if let Some(origin) = self.names.next_origin() {
            return Some(origin);
        }
        self.values.next_origin()
    }

    /// How many components are left, as both bounds; without an upper one where a `usize` can't say it.
    pub(crate) fn size_hint(&self) -> (usize, Option<usize>)
        ensures lower { IsWithinCount result.0 (at_most (length self.now)) }
        ensures upper { IfSome result.1 (UpTo (at_most (length self.now))) }
        ensures exact { IsExactHint result (length self.now) }
    {
        match self.directives.len().checked_add(self.names.len()) {
            Some(listed) => {
                let values = self.values.len();
                (listed.saturating_add(values), listed.checked_add(values))
            }
            None => (usize::MAX, None),
        }
    }
}
