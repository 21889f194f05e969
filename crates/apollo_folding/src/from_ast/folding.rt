//! Components folded into the collections of a type.
ghost use Rattle.apollo_folding.specs.Joins.{Lengthens, FindsIn};
ghost use Rattle.std.specs.Prelude.{◌≡◌, [], ◌∷◌, ◌++◌, map, OnOk};
ghost use Rattle.graphql_nodes.specs.Tables.{keys_of};
ghost use Rattle.apollo_meaning.specs.Types.Components.{component, component_name, distinct_names};
ghost use Rattle.apollo_meaning.specs.Types.Components.{distinct_entries};
ghost use Rattle.apollo_meaning.specs.Faults.TypeFaults.{name_entries, named_entries};
ghost use Rattle.apollo_meaning.specs.Faults.Collisions.{collision_at, collisions};

use apollo_component::component::{Component, ComponentName};
use apollo_component::directive_list::DirectiveList;
use apollo_component::extension::ComponentOrigin;
use apollo_meaning::build_error::Fault;
use apollo_meaning::collision::Collection;
use graphql_ast::declaration_ref::TypeDeclarationRef;
use graphql_ast::directive::Directive;
use graphql_nodes::collections::items::Items;
use graphql_nodes::collections::key_set::KeySet;
use graphql_nodes::collections::table::Table;
use graphql_nodes::name::Name;
use graphql_nodes::named::Named;
use graphql_nodes::node::Node;
use std::alloc::AllocError;

/// Gives an empty table room for so many entries at once. The error is out of memory.
fn make_room<T: Drop>(table: &mut Table<Name, Component<T>>, count: usize) -> Result<(), AllocError>
    ensures { OnOk result (table.new ≡ table.old) }
{
    if count == 0 || !table.is_empty() {
        return Ok(());
    }
    *table = Table::with_capacity(table.allocator(), table.hash_keys(), count)?;
    Ok(())
}

/// Adds directives at the end, in order, each with this origin. The error is out of memory.
pub fn fold_directives(
    list: &mut DirectiveList,
    directives: &[Node<Directive>],
    origin: ComponentOrigin,
) -> Result<(), AllocError>
    ensures { OnOk result (list.new.0 ≡ list.old.0 ++ map (component origin) directives.now) }
{
    for directive in directives {
        list.push(Component::with_origin(directive.clone()?, origin))?;
    }
    Ok(())
}

/// What joins a type: the components of a declaration, each with this origin.
#[derive(Clone, Copy)]
pub struct Part<'a> {
    pub of: &'a TypeDeclarationRef<'a>,
    pub origin: ComponentOrigin,
}

impl Part<'_> {
    /// Notes the fault of a name that is there.
    fn note_listed(
        &self,
        collection: Collection,
        set: &KeySet<ComponentName>,
        name: &Name,
        faults: &mut Items<Fault>,
    ) -> Result<(), AllocError>
        ensures { OnOk result
            (FindsIn distinct_names set.now (λ ks.
            collision_at collection self.now.of.now.name.now (map (λ k. k.name) ks)
            (name.now, name.now.location)) faults.old faults.new) }
    {
        let component = ComponentName::with_origin(name.clone()?, ComponentOrigin::Definition);
        if let Some(kept) = set.get(&component) {
            let error = collection.collision(&kept.name, self.of.name)?;
            faults.push((name.location(), error))?;
        }
        Ok(())
    }

    /// Adds a name, or notes the fault where it is there. It looks once where the name is new.
    fn fold_name(
        &self,
        collection: Collection,
        set: &mut KeySet<ComponentName>,
        name: &Name,
        faults: &mut Items<Fault>,
    ) -> Result<(), AllocError>
        ensures added { OnOk result
            (Lengthens distinct_names set.old (component_name self.now.origin name.now ∷ []) set.new) }
        ensures faults { OnOk result
            (FindsIn distinct_names set.old (λ ks.
            collision_at collection self.now.of.now.name.now (map (λ k. k.name) ks)
            (name.now, name.now.location)) faults.old faults.new) }
    {
        let component = ComponentName::with_origin(name.clone()?, self.origin);
        let is_new = set.insert(component)?;
        if is_new {
            return Ok(());
        }
        self.note_listed(collection, set, name, faults)?;
        Ok(())
    }

    /// Adds names in order, each unless it is there, and a fault at the end for each that is. The error is
    /// out of memory.
    pub(crate) fn fold_names(
        &self,
        collection: Collection,
        set: &mut KeySet<ComponentName>,
        faults: &mut Items<Fault>,
    ) -> Result<(), AllocError>
        ensures added { OnOk result
            (Lengthens distinct_names set.old
            (map (component_name self.now.origin) self.now.of.now.parts.names.now) set.new) }
        ensures faults { OnOk result
            (FindsIn distinct_names set.old (λ ks.
            collisions collection self.now.of.now.name.now (map (λ k. k.name) ks)
            (name_entries self.now.of.now.parts.names.now)) faults.old faults.new) }
    {
        let said = self.of;
        let names = said.parts.names;
        for name in names {
            self.fold_name(collection, set, name, faults)?;
        }
        Ok(())
    }

    /// Notes the fault of a definition whose name is there.
    fn note_collision<T: Named + Drop>(
        &self,
        collection: Collection,
        table: &Table<Name, Component<T>>,
        node: &Node<T>,
        faults: &mut Items<Fault>,
    ) -> Result<(), AllocError>
        ensures { OnOk result
            (FindsIn distinct_entries table.now (λ es.
            collision_at collection self.now.of.now.name.now (keys_of es)
            (T.name_of node.now.value, node.now.location)) faults.old faults.new) }
    {
        if let Some((kept, _)) = table.get_key_value(node.name()) {
            let error = collection.collision(kept, self.of.name)?;
            faults.push((node.location(), error))?;
        }
        Ok(())
    }

    /// Adds a definition under its name, or notes the fault where the name is there. It looks once where the
    /// name is new, and else puts back what stood there.
    fn fold_entry<T: Named + Drop>(
        &self,
        collection: Collection,
        table: &mut Table<Name, Component<T>>,
        node: &Node<T>,
        faults: &mut Items<Fault>,
    ) -> Result<(), AllocError>
        ensures added { OnOk result
            (Lengthens distinct_entries table.old
            ((T.name_of node.now.value, component self.now.origin node.now) ∷ []) table.new) }
        ensures faults { OnOk result
            (FindsIn distinct_entries table.old (λ es.
            collision_at collection self.now.of.now.name.now (keys_of es)
            (T.name_of node.now.value, node.now.location)) faults.old faults.new) }
    {
        let name = node.name().clone()?;
        let standing = table.insert(name, Component::with_origin(node.clone()?, self.origin))?;
        let Some(kept) = standing else {
            return Ok(());
        };
        table.insert(node.name().clone()?, kept)?;
        self.note_collision(collection, table, node, faults)?;
        Ok(())
    }

    /// Adds definitions under their names in order, each unless its name is there. For each whose name is
    /// there, it adds a fault at the end. The error is out of memory.
    pub(crate) fn fold_named<T: Named + Drop>(
        &self,
        collection: Collection,
        table: &mut Table<Name, Component<T>>,
        nodes: &[Node<T>],
        faults: &mut Items<Fault>,
    ) -> Result<(), AllocError>
        ensures added { OnOk result
            (Lengthens distinct_entries table.old
            (map (λ n. (T.name_of n.value, component self.now.origin n)) nodes.now) table.new) }
        ensures faults { OnOk result
            (FindsIn distinct_entries table.old (λ es.
            collisions collection self.now.of.now.name.now (keys_of es)
            (named_entries T.name_of nodes.now)) faults.old faults.new) }
    {
        make_room(table, nodes.len())?;
        for node in nodes {
            self.fold_entry(collection, table, node, faults)?;
        }
        Ok(())
    }
}
