//! Identities of extensions, components with their origins, and the first of each key.

use apollo_component::component::{Component, ComponentName};
use apollo_component::extension::{ComponentOrigin, ExtensionId, ExtensionSource, IdsSpent};
use apollo_component::named::add_key;
use graphql_nodes::collections::key_set::KeySet;
use graphql_nodes::name::Name;
use graphql_nodes::node::Node;
use graphql_nodes::source::{FileId, SourceSpan};
use likeness::{are_alike, is_printed};
use std::alloc::{AllocError, Global};
use std::hash::Hash;
use telling::Tell;

const PLACE: SourceSpan = SourceSpan {
    file: FileId(5),
    start: 20,
    end: 31,
};

#[test]
fn numbers_are_drawn_in_order(rt: HostRuntime) {
    let mut source = ExtensionSource::new();
    let first = source.draw(Some(PLACE)).expect(&rt, "a number");
    let node = Node::new(rt.alloc(), 7_u8).expect(&rt, "memory");
    let second = ExtensionId::new(&mut source, &node).expect(&rt, "a number");
    let again = ExtensionSource::new().draw(None).expect(&rt, "a number");
    let beside = first.same_location(rt.alloc(), 'a').expect(&rt, "memory");
    assert!(rt; (first.number(), second.number()) == (0, 1));
    assert!(rt; (first.location(), second.location()) == (Some(PLACE), None));
    assert!(rt; first != second && are_alike(&first, &again));
    assert!(rt; (*beside, beside.location()) == ('a', Some(PLACE)));
}

#[test]
fn the_last_number_is_never_drawn(rt: HostRuntime) {
    let mut source = ExtensionSource::starting_at(u64::MAX - 1);
    let last = source.draw(None).expect(&rt, "a number");
    assert!(rt; last.number() == u64::MAX - 1);
    assert!(rt; source.draw(None) == Err(IdsSpent));
    assert!(rt; source.draw(Some(PLACE)) == Err(IdsSpent));
    assert!(rt; is_printed(rt.alloc(), &IdsSpent, "extension identities spent"));
}

/// Adds two values, of which the second is of an extension, a copy of this one, and whether the first is
/// alike.
fn push_both<T: Tell + Clone + PartialEq + Hash + Drop>(
    text: &mut String,
    defined: &T,
    extended: &T,
) -> Result<(), AllocError> {
    defined.tell(text)?;
    extended.tell(text)?;
    extended.clone()?.tell(text)?;
    let are_alike = are_alike(defined, extended);
    write!(text, "alike: {are_alike}\n")
}

/// Adds components of nodes: made of a value, with this origin, and of a node that has a location.
fn push_components(
    alloc: Global,
    text: &mut String,
    origin: ComponentOrigin,
) -> Result<(), AllocError> {
    let node = Node::new_opt_location(alloc, FileId(3), Some(PLACE))?;
    let extended = Component::with_origin(node.clone()?, origin);
    push_both(text, &Component::new(alloc, FileId(3))?, &extended)?;
    push_both(text, &Component::from(node), &extended)
}

/// Adds components of a name that has a location: of a borrowed name, with this origin, and of an own one.
fn push_names(alloc: Global, text: &mut String, origin: ComponentOrigin) -> Result<(), AllocError> {
    let name = Name::new_unchecked(alloc, "Node")?.with_location(PLACE);
    let extended = ComponentName::with_origin(name.clone()?, origin);
    write!(text, "{extended}\n")?;
    push_both(text, &ComponentName::from_name(&name)?, &extended)?;
    push_both(text, &ComponentName::from(name), &extended)
}

#[test]
fn components_and_copies_keep_origins_and_places_which_equality_leaves_out(rt: HostRuntime) {
    let id = ExtensionSource::starting_at(4)
        .draw(Some(PLACE))
        .expect(&rt, "a number");
    let origin = ComponentOrigin::Extension(id);
    let mut text = String::new(rt.alloc());
    push_components(rt.alloc(), &mut text, origin).expect(&rt, "memory");
    push_names(rt.alloc(), &mut text, origin).expect(&rt, "memory");
    assert_eq!(rt;
        text.as_str(),
        "definition - file 3 \nextension 4 of 5:20-31 5:20-31 file 3 \nextension 4 of 5:20-31 5:20-31 file 3 \nalike: true\ndefinition 5:20-31 file 3 \nextension 4 of 5:20-31 5:20-31 file 3 \nextension 4 of 5:20-31 5:20-31 file 3 \nalike: true\nNode\ndefinition Node 5:20-31 \nextension 4 of 5:20-31 Node 5:20-31 \nextension 4 of 5:20-31 Node 5:20-31 \nalike: true\ndefinition Node 5:20-31 \nextension 4 of 5:20-31 Node 5:20-31 \nextension 4 of 5:20-31 Node 5:20-31 \nalike: true\n"
    );
}

#[test]
fn origins_of_extensions_have_identities(rt: HostRuntime) {
    let id = ExtensionSource::starting_at(4)
        .draw(Some(PLACE))
        .expect(&rt, "a number");
    assert!(rt; ComponentOrigin::Extension(id).extension_id() == Some(&id));
    assert!(rt; ComponentOrigin::Extension(id) != ComponentOrigin::Definition);
    assert!(rt; ComponentOrigin::Definition.extension_id().is_none());
}

#[test]
fn the_first_of_each_key_stays(rt: HostRuntime) {
    let mut set = KeySet::new(rt.alloc());
    let added = [
        add_key(&mut set, 5),
        add_key(&mut set, 3),
        add_key(&mut set, 5),
    ];
    assert!(rt; added == [Ok(true), Ok(true), Ok(false)]);
    assert!(rt; set.as_slice() == [5, 3].as_slice());
}
