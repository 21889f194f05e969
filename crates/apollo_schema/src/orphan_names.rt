//! The names that are extended and not defined: GraphQL specification of October 2021, section 3.4.3.
ghost use Rattle.std.specs.Prelude.{◌≡◌, []};
ghost use Rattle.std.specs.Iterator.{YieldsFirstRef, item_count};
ghost use Rattle.std.specs.Map.Iter.{TakesFirst, deref};
ghost use Rattle.apollo_schema.specs.NamesLeft.{names_held, names_left};

use graphql_ast::definition::Definition;
use graphql_nodes::collections::items::Items;
use graphql_nodes::collections::table::Table;
use graphql_nodes::collections::table::iter::Iter;
use graphql_nodes::name::Name;
use std::iter::FusedIterator;

/// The names that are extended and not defined, in order of first extension.
#[derive(Drop)]
pub struct OrphanNames<'a> {
    entries: Option<Iter<'a, Name, Items<Definition>>>,
}

/// The first name under which something is held, after which the rest is left.
fn next_held<'a>(entries: &mut Iter<'a, Name, Items<Definition>>) -> Option<&'a Name>
    ensures { TakesFirst deref (names_held entries.old) result (names_held entries.new) }
{
    while let Some((name, extensions)) = entries.next() {
        if !extensions.is_empty() {
            return Some(name);
        }
    }
    None
}

impl<'a> OrphanNames<'a> {
    /// The names under which something is held.
    pub(crate) fn of(held: &'a Table<Name, Items<Definition>>) -> OrphanNames<'a>
        ensures { names_left result ≡ names_held held.now }
    {
        OrphanNames {
            entries: Some(held.iter()),
        }
    }

    /// No name.
    pub(crate) fn none() -> OrphanNames<'a>
        ensures { names_left result ≡ [] }
    {
        OrphanNames { entries: None }
    }
}

impl<'a> Iterator for OrphanNames<'a> {
    type Item = &'a Name;

    ghost next_gives = { YieldsFirstRef names_left };

    ghost remaining = { item_count names_left };

    /// The first name that is left, as its first extension has it, after which the rest is left. Once none is
    /// left it answers none, from then on too.
    fn next(&mut self) -> Option<&'a Name> {
        match &mut self.entries {
            Some(entries) => next_held(entries),
            None => None,
        }
    }
}

impl<'a> FusedIterator for OrphanNames<'a> {}
