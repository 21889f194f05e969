//! Extensions that wait for the definition of their name.
ghost use Rattle.std.specs.Prelude.{◌≡◌, None, ℕ, ◌+◌, List, [], ◌∷◌, ◌++◌, is_some, OnOk, Some};
ghost use Rattle.std.specs.Prelude.{if◌then◌else◌};
ghost use Rattle.graphql_nodes.specs.Tables.{keys_of, lookup};
ghost use Rattle.apollo_meaning.specs.Items.ListItems.{held_under, item_of, items_of, items_held};
ghost use Rattle.graphql_nodes.specs.SameText.{same, by_text};

use graphql_ast::definition::Definition;
use graphql_nodes::collections::items::Items;
use graphql_nodes::collections::table::Table;
use graphql_nodes::name::Name;
use std::alloc::{AllocError, Global};
use std::mem;

/// Takes out what waits under a name, in order, and leaves the name with nothing under it. It takes no
/// memory.
pub fn take_waiting(
    alloc: Global,
    waiting: &mut Table<Name, Items<Definition>>,
    name: &Name,
) -> Items<Definition>
    ensures taken { items_of result ≡ items_held (lookup (by_text name.now.text) waiting.old) }
    ensures names { keys_of waiting.new ≡ keys_of waiting.old }
    ensures left { (n : List ℕ)
        → held_under n waiting.new ≡ (if same n name.now.text then [] else held_under n waiting.old) }
{
    match waiting.get_mut(name) {
        Some(extensions) => mem::replace(extensions, Items::new(alloc)),
        None => Items::new(alloc),
    }
}

/// Lets a copy of an extension wait for the definition of this name, behind those that wait for it. A new
/// name goes last. The error is out of memory.
pub fn add_waiting(
    alloc: Global,
    waiting: &mut Table<Name, Items<Definition>>,
    name: &Name,
    extension: &Definition,
) -> Result<(), AllocError>
    ensures waits { OnOk result ((n : List ℕ)
        → held_under n waiting.new
        ≡ (if same n name.now.text then held_under n waiting.old ++ item_of extension.now ∷ []
        else held_under n waiting.old)) }
    ensures names { OnOk result (keys_of waiting.new
        ≡ (if is_some (lookup (by_text name.now.text) waiting.old) then keys_of waiting.old
        else keys_of waiting.old ++ name.now ∷ [])) }
{
    if let Some(extensions) = waiting.get_mut(name) {
        extensions.push(extension.clone()?)?;
        return Ok(());
    }
    let mut extensions = Items::new(alloc);
    extensions.push(extension.clone()?)?;
    waiting.insert(name.clone()?, extensions)?;
    Ok(())
}
