//! Types, and the schema's definition, as syntax.
ghost use Rattle.std.specs.Prelude.{◌≡◌, List, ◌∷◌, [], ◌++◌, IfOk, OnOk};
ghost use Rattle.std.specs.Option.{option_copied};
ghost use Rattle.apollo_component.specs.Beginnings.{Begins};
ghost use Rattle.apollo_component.specs.WriteOut.{identities};
ghost use Rattle.apollo_component.specs.declared.extension.ComponentOrigin.{ComponentOrigin as Origin};
ghost use Rattle.apollo_types.specs.TypeWriteOut.{headed_type};

use crate::components::Components;
use crate::origins::Origins;
use apollo_component::extension::{ComponentOrigin, ExtensionId};
use apollo_component::named::add_key;
use graphql_ast::definition::Definition;
use graphql_nodes::collections::key_set::KeySet;
use graphql_nodes::name::Name;
use graphql_nodes::node_str::NodeStr;
use graphql_nodes::source::SourceSpan;
use graphql_nodes::type_kind::TypeKind;
use std::alloc::{AllocError, Global};

/// Adds the identity of an origin, if it is an extension and new. The error is out of memory.
fn add_origin(ids: &mut KeySet<ExtensionId>, origin: ComponentOrigin) -> Result<(), AllocError>
    ensures { OnOk result ((os : List Origin) → ids.old ≡ identities os
        → ids.new ≡ identities (os ++ origin ∷ [])) }
{
    if let ComponentOrigin::Extension(id) = origin {
        add_key(ids, id)?;
    }
    Ok(())
}

/// The identities of the extensions among these origins, by first appearance. The error is out of memory.
pub(crate) fn identities_of(
    alloc: Global,
    origins: Origins<'_>,
) -> Result<KeySet<ExtensionId>, AllocError>
    ensures { IfOk result (λ ids. ids ≡ identities origins.entry) }
{
    let mut ids = KeySet::new(alloc);
    for origin in origins {
        add_origin(&mut ids, *origin)?;
    }
    Ok(ids)
}

/// What stands before the components of a type.
#[derive(Clone, Copy)]
pub struct Head<'a> {
    pub(crate) kind: TypeKind,
    pub(crate) description: Option<&'a NodeStr>,
    pub(crate) name: &'a Name,
}

impl<'a> Head<'a> {
    /// This kind, description and name.
    pub(crate) fn new(kind: TypeKind, description: &'a Option<NodeStr>, name: &'a Name) -> Head<'a>
        ensures kind { result.kind ≡ kind }
        ensures description { option_copied result.description ≡ description.now }
        ensures name { result.name.now ≡ name.now }
    {
        Head {
            kind,
            description: description.as_ref(),
            name,
        }
    }
}

/// Adds the type with this head that these components make as syntax at the end: its definition, at this
/// location, then its extensions. The error is out of memory, after which `written` begins with what it held.
pub(crate) fn add_type(
    alloc: Global,
    head: Head<'_>,
    components: Components<'_>,
    location: Option<SourceSpan>,
    written: &mut Vec<Definition>,
) -> Result<(), AllocError>
    ensures added { OnOk result (written.new.items
        ≡ written.old.items ++ headed_type head.entry components.entry location) }
    ensures kept { Begins written.old.items written.new.items }
{
    let parts = components.by_origin(alloc)?;
    let copy = head.description.cloned()?;
    parts.write_type(alloc, head.kind, copy, head.name, location, written)
}

/// The type with this head that these components make as syntax, as [`add_type`] adds it. The error is out of
/// memory.
pub(crate) fn type_as_syntax(
    alloc: Global,
    head: Head<'_>,
    components: Components<'_>,
    location: Option<SourceSpan>,
) -> Result<Vec<Definition>, AllocError>
    ensures { IfOk result (λ written. written.items ≡ headed_type head.entry components.entry location) }
{
    let mut written = Vec::new(alloc);
    add_type(alloc, head, components, location, &mut written)?;
    Ok(written)
}
