//! The components of a type or of a schema's definition, put under their origins and written out. GraphQL
//! specification of October 2021, sections 3.3.2 and 3.4.3.
ghost use Rattle.std.specs.Prelude.{◌≡◌, List, [], ◌∷◌, ◌++◌, map, IfOk, OnOk};
ghost use Rattle.apollo_component.specs.Beginnings.{Begins};
ghost use Rattle.apollo_component.specs.WriteOut.{SourcedPart, sourced, sourced_name, by_origin};
ghost use Rattle.apollo_component.specs.WriteOut.{written_type, written_schema};

use crate::component::{Component, ComponentName};
use crate::extension::ComponentOrigin;
use crate::extension_parts::ExtensionParts;
use crate::listed::Listed;
use graphql_ast::declaration::{SchemaDeclaration, TypeDeclaration};
use graphql_ast::definition::Definition;
use graphql_ast::parts::Parts;
use graphql_nodes::name::Name;
use graphql_nodes::node::Node;
use graphql_nodes::node_str::NodeStr;
use graphql_nodes::source::SourceSpan;
use graphql_nodes::take_apart;
use graphql_nodes::type_kind::TypeKind;
use std::alloc::{AllocError, Global};

/// The parts of a definition, and those of each of its extensions, by first appearance. After a call that ran
/// out of memory nothing is said of them: drop them.
pub struct PartsByOrigin {
    definition: Parts,
    extensions: ExtensionParts,
}

impl Drop for PartsByOrigin {
    fn drop(self) {
        take_apart!(self: definition, extensions);
    }
}

impl PartsByOrigin {
    /// No part.
    pub fn new(alloc: Global) -> PartsByOrigin
        ensures { result ≡ by_origin [] }
    {
        PartsByOrigin {
            definition: Parts::new(alloc),
            extensions: ExtensionParts::new(),
        }
    }

    /// Adds a part of this origin, the last of its sort there. The error is out of memory: drop the parts
    /// then.
    pub fn add<T: Listed>(
        &mut self,
        alloc: Global,
        origin: ComponentOrigin,
        part: T,
    ) -> Result<(), AllocError>
        ensures { OnOk result ((cs : List SourcedPart) → self.old ≡ by_origin cs →
            self.new ≡ by_origin (cs ++ (origin, T.part part) ∷ [])) }
    {
        match origin {
            ComponentOrigin::Definition => part.push_to(&mut self.definition)?,
            ComponentOrigin::Extension(id) => self.extensions.add(alloc, id, part)?,
        }
        Ok(())
    }

    /// Makes room in the definition for so many parts, if the first of them stands there: what is folded into
    /// a type stands after what its definition has. The error is out of memory.
    fn make_room<T: Listed>(
        &mut self,
        first: ComponentOrigin,
        count: usize,
    ) -> Result<(), AllocError>
        ensures { self.new ≡ self.old }
    {
        match first {
            ComponentOrigin::Definition => T::make_room(&mut self.definition, count),
            ComponentOrigin::Extension(_) => Ok(()),
        }
    }

    /// Adds each of these components, in order, as [`add`](PartsByOrigin::add) does. The error is out of
    /// memory: drop the parts then.
    pub fn add_components<T: Drop>(
        &mut self,
        alloc: Global,
        components: &[Component<T>],
    ) -> Result<(), AllocError>
    where
        Node<T>: Listed,
        ensures { OnOk result ((cs : List SourcedPart) → self.old ≡ by_origin cs
            → self.new ≡ by_origin (cs ++ map (sourced ⟦<Node<T> as Listed>⟧.part) components.now)) }
    {
        if let Some(first) = components.first() {
            self.make_room::<Node<T>>(first.origin, components.len())?;
        }
        for component in components {
            self.add(alloc, component.origin, component.node.clone()?)?;
        }
        Ok(())
    }

    /// Adds each of these names, in order, as [`add`](PartsByOrigin::add) does. The error is out of memory:
    /// drop the parts then.
    pub fn add_names(&mut self, alloc: Global, names: &[ComponentName]) -> Result<(), AllocError>
        ensures { OnOk result ((cs : List SourcedPart) → self.old ≡ by_origin cs
            → self.new ≡ by_origin (cs ++ map sourced_name names.now)) }
    {
        if let Some(first) = names.first() {
            self.make_room::<Name>(first.origin, names.len())?;
        }
        for name in names {
            self.add(alloc, name.origin, name.name.clone()?)?;
        }
        Ok(())
    }

    /// Adds a type of this kind, description and name as syntax at the end. First comes its definition, at
    /// this location, with the parts of the definition. Then comes each of its extensions, in order of first
    /// appearance, at its own location, with its parts.
    ///
    /// The error is out of memory: `written` then begins with what it held, and the parts are dropped.
    pub fn write_type(
        self,
        alloc: Global,
        kind: TypeKind,
        description: Option<NodeStr>,
        name: &Name,
        location: Option<SourceSpan>,
        written: &mut Vec<Definition>,
    ) -> Result<(), AllocError>
        ensures added { OnOk result (written.new.items
            ≡ written.old.items ++ written_type kind description name.now self location) }
        ensures kept { Begins written.old.items written.new.items }
    {
        let PartsByOrigin {
            definition,
            extensions,
        } = self;
        let definition = TypeDeclaration {
            kind,
            name: name.clone()?,
            is_extension: false,
            description,
            location,
            parts: definition,
        };
        written.push(definition.into_definition(alloc)?)?;
        extensions.write_types(alloc, kind, name, written)
    }

    /// The schema's definition as syntax. First comes the definition with this description, at this location,
    /// if it is to be written. Then comes each of its extensions, in order of first appearance, at its own
    /// location, with its parts. Without the definition its description and parts are left out. The error is
    /// out of memory, and drops the parts.
    pub fn into_schema(
        self,
        alloc: Global,
        is_written: bool,
        description: Option<NodeStr>,
        location: Option<SourceSpan>,
    ) -> Result<Vec<Definition>, AllocError>
        ensures { IfOk result (λ written. written.items
            ≡ written_schema is_written description self location) }
    {
        let PartsByOrigin {
            definition,
            extensions,
        } = self;
        let mut written = Vec::new(alloc);
        if is_written {
            let definition = SchemaDeclaration {
                is_extension: false,
                description,
                location,
                parts: definition,
            };
            written.push(definition.into_definition(alloc)?)?;
        }
        extensions.write_schemas(alloc, &mut written)?;
        Ok(written)
    }
}
