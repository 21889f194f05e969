//! The types that implement an interface: GraphQL specification of October 2021, sections 3.6 and 3.7.
ghost use Rattle.std.specs.Prelude.{◌≡◌, ◌++◌, length, IfSome, OnOk};
ghost use Rattle.std.specs.Iterator.{YieldsFirstRef, UpTo, item_count};
ghost use Rattle.std.specs.Iterator.SizeHint.{IsWithinCount, IsExactHint};
ghost use Rattle.apollo_schema.specs.ImplementerNames.{names_left};
ghost use Rattle.apollo_types.specs.TypeKinds.{is_object};
ghost use Rattle.apollo_schema.specs.Lookups.{declared_interfaces};
ghost use Rattle.apollo_schema.specs.Noted.{no_implementers, noted, noted_under, with_implementer};

use apollo_component::component::ComponentName;
use apollo_types::extended_type::ExtendedType;
use graphql_nodes::collections::elements::Elements;
use graphql_nodes::collections::hash_keys::HashKeys;
use graphql_nodes::collections::key_set::KeySet;
use graphql_nodes::collections::table::Table;
use graphql_nodes::name::Name;
use graphql_nodes::{clone_fields, take_apart};
use std::alloc::{AllocError, Global};
use std::iter::FusedIterator;

/// The names of the object types and of the interface types that declare an interface. Equality leaves out
/// the order of names, and their locations.
#[derive(PartialEq, Eq)]
pub struct Implementers {
    pub objects: KeySet<Name>,
    pub interfaces: KeySet<Name>,
}

impl Drop for Implementers {
    fn drop(self) {
        take_apart!(self: objects, interfaces);
    }
}

impl Clone for Implementers {
    ghost is_clone = { λ a b. b ≡ a };

    /// The same names, in the same order, with their locations. The error is out of memory.
    fn clone(&self) -> Result<Implementers, AllocError> {
        clone_fields!(self: objects, interfaces)
    }
}

impl Implementers {
    /// No name, in sets that hash by fixed keys. It takes no memory.
    pub fn new(alloc: Global) -> Implementers
        ensures { result ≡ no_implementers }
    {
        Implementers::with_keys(alloc, HashKeys::FIXED)
    }

    /// No name, in sets that hash by these keys. It takes no memory.
    pub fn with_keys(alloc: Global, keys: HashKeys) -> Implementers
        ensures { result ≡ no_implementers }
    {
        Implementers {
            objects: KeySet::with_keys(alloc, keys),
            interfaces: KeySet::with_keys(alloc, keys),
        }
    }

    /// The names, one by one: those of object types, in order, and then those of interface types, in order.
    pub fn iter(&self) -> ImplementersIter<'_>
        ensures { names_left result ≡ self.now.objects ++ self.now.interfaces }
    {
        ImplementersIter {
            objects: self.objects.iter(),
            interfaces: self.interfaces.iter(),
        }
    }

    /// Adds the name of an object type, or else of an interface type. The error is out of memory.
    pub(crate) fn add(&mut self, name: &Name, is_object: bool) -> Result<(), AllocError>
        ensures { OnOk result (self.new ≡ with_implementer is_object name.now self.old) }
    {
        if is_object {
            self.objects.insert(name.clone()?)?;
        } else {
            self.interfaces.insert(name.clone()?)?;
        }
        Ok(())
    }
}

/// The names of object types, and then those of interface types.
#[derive(Drop)]
pub struct ImplementersIter<'a> {
    objects: Elements<'a, Name>,
    interfaces: Elements<'a, Name>,
}

impl<'a> Iterator for ImplementersIter<'a> {
    type Item = &'a Name;

    ghost next_gives = { YieldsFirstRef names_left };

    ghost remaining = { item_count names_left };

    /// The first name that is left, after which the rest is left. Once none is left it answers none, from
    /// then on too.
    fn next(&mut self) -> Option<&'a Name> {
        match self.objects.next() {
            Some(name) => Some(name),
            None => self.interfaces.next(),
        }
    }

    /// How many names are left, as both bounds; without an upper one where a `usize` can't say it.
    fn size_hint(&self) -> (usize, Option<usize>)
        ensures lower { IsWithinCount result.0 (item_count names_left self.now) }
        ensures upper { IfSome result.1 (UpTo (item_count names_left self.now)) }
        ensures exact { IsExactHint result (length (names_left self.now)) }
    {
        let objects = self.objects.len();
        let interfaces = self.interfaces.len();
        (
            objects.saturating_add(interfaces),
            objects.checked_add(interfaces),
        )
    }
}

impl<'a> FusedIterator for ImplementersIter<'a> {}

/// The interfaces that the type declares.
fn declared_interfaces(ty: &ExtendedType) -> &[ComponentName]
    ensures { result.now ≡ declared_interfaces ty.now }
{
    match ty {
        ExtendedType::Object(object) => object.implements_interfaces.as_slice(),
        ExtendedType::Interface(interface) => interface.implements_interfaces.as_slice(),
        _ => &[],
    }
}

/// Notes a name under an interface: that of an object type, or else of an interface type. The error is out of
/// memory.
fn note(
    map: &mut Table<Name, Implementers>,
    interface: &ComponentName,
    name: &Name,
    is_object: bool,
) -> Result<(), AllocError>
    ensures { OnOk result (map.new ≡ noted is_object name.now map.old interface.now) }
{
    if let Some(implementers) = map.get_mut(&interface.name) {
        implementers.add(name, is_object)?;
        return Ok(());
    }
    let alloc = map.allocator();
    let mut implementers = Implementers::with_keys(alloc, map.hash_keys());
    implementers.add(name, is_object)?;
    map.insert(interface.name.clone()?, implementers)?;
    Ok(())
}

/// Notes the name of a type under each interface that the type declares. The error is out of memory.
pub(crate) fn note_type(
    map: &mut Table<Name, Implementers>,
    name: &Name,
    ty: &ExtendedType,
) -> Result<(), AllocError>
    ensures { OnOk result (map.new
        ≡ noted_under (is_object ty.now) name.now map.old (declared_interfaces ty.now)) }
{
    let interfaces = declared_interfaces(ty);
    for interface in interfaces {
        note(map, interface, name, ty.is_object())?;
    }
    Ok(())
}
