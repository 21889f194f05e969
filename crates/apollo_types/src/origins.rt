//! The origins of the components of a type or of a schema's definition: GraphQL specification of October
//! 2021, sections 3.3.2 and 3.4.3.
ghost use Rattle.std.specs.Prelude.{◌≡◌, length, IfSome};
ghost use Rattle.std.specs.Iterator.{UpTo, at_most};
ghost use Rattle.std.specs.Iterator.SizeHint.{IsWithinCount, IsExactHint};
ghost use Rattle.std.specs.Map.Iter.{TakesFirst, deref};
ghost use Rattle.apollo_component.specs.WriteOut.{origins_in};
ghost use Rattle.apollo_types.specs.Components.{OriginsInOrder};

use crate::components::Components;
use apollo_component::extension::ComponentOrigin;
use std::iter::FusedIterator;
use std::marker::Model;

/// The origins of the components of a type or of a schema's definition, in order. They are those of
/// directives, then of names that it lists, then of what stands under names, or of roots. Contracts see the
/// list of those that are still to come.
#[derive(Drop)]
pub struct Origins<'a> {
    components: Components<'a>,
}

impl<'a> Model for Origins<'a> {
    ghost use Rattle.std.specs.Prelude.{List};
    ghost use Rattle.std.specs.Coded.{coded_list};
    ghost use Rattle.apollo_component.specs.WriteOut.{origins_in};
    ghost use Rattle.apollo_component.specs.declared.extension.ComponentOrigin.{ComponentOrigin};
    ghost use Rattle.apollo_component.specs.contracts.extension.ComponentOrigin as origin;

    ghost Value = { List ComponentOrigin };

    ghost coded = { coded_list origin.the_row.coded };

    ghost view = { λ it. origins_in it.components };
}

impl<'a> Origins<'a> {
    /// The origins of these components.
    pub(crate) fn new(components: Components<'a>) -> Origins<'a>
        ensures rest { result ≡ origins_in components.entry }
        ensures runs { OriginsInOrder }
    {
        Origins { components }
    }
}

impl<'a> Iterator for Origins<'a> {
    type Item = &'a ComponentOrigin;

    ghost next_gives = { TakesFirst deref };

    ghost remaining = { λ left. at_most (length left) };

    /// The first origin that is left, after which the rest is left. Once none is left it answers none, from
    /// then on too.
    fn next(&mut self) -> Option<&'a ComponentOrigin> {
        self.components.next_origin()
    }

    /// How many origins are left, as both bounds; without an upper one where a `usize` can't say it.
    fn size_hint(&self) -> (usize, Option<usize>)
        ensures lower { IsWithinCount result.0 (at_most (length self.now)) }
        ensures upper { IfSome result.1 (UpTo (at_most (length self.now))) }
        ensures exact { IsExactHint result (length self.now) }
    {
        self.components.size_hint()
    }
}

impl<'a> FusedIterator for Origins<'a> {}
