//! The parts of the extensions of a type or of a schema's definition: GraphQL specification of October 2021,
//! sections 3.3.2 and 3.4.3.
ghost use Rattle.std.specs.Prelude.{◌≡◌, [], ◌++◌, map, IfOk, OnOk};
ghost use Rattle.graphql_ast.specs.Declarations.{type_extension, schema_extension};
ghost use Rattle.graphql_ast.specs.Parts.{no_parts, with_part};
ghost use Rattle.apollo_component.specs.Beginnings.{Begins};
ghost use Rattle.apollo_component.specs.Extensions.{extension_location};
ghost use Rattle.apollo_component.specs.ExtensionTables.{entries_held, with_extension_part};

use crate::extension::ExtensionId;
use crate::listed::Listed;
use graphql_ast::declaration::{SchemaDeclaration, TypeDeclaration};
use graphql_ast::definition::Definition;
use graphql_ast::parts::Parts;
use graphql_nodes::collections::table::Table;
use graphql_nodes::name::Name;
use graphql_nodes::source::SourceSpan;
use graphql_nodes::type_kind::TypeKind;
use std::alloc::{AllocError, Global};
use std::marker::Model;
use std::mem;

/// The parts of extensions under their identities. One extension needs no table.
#[derive(Drop)]
enum HeldParts {
    Nothing,
    One(ExtensionId, Parts),
    Many(Table<ExtensionId, Parts>),
}

/// The parts of each extension, by first appearance. Contracts see the list of the identities, each with its
/// parts.
#[derive(Drop)]
pub struct ExtensionParts {
    held: HeldParts,
}

impl Model for ExtensionParts {
    ghost use Rattle.std.specs.Prelude.{List};
    ghost use Rattle.std.specs.Coded.{coded_list, coded×};
    ghost use Rattle.graphql_ast.specs.contracts.parts.Parts as parts;
    ghost use Rattle.graphql_ast.specs.declared.parts.Parts.{Parts};
    ghost use Rattle.apollo_component.specs.contracts.extension.ExtensionId as id;
    ghost use Rattle.apollo_component.specs.declared.extension.ExtensionId.{ExtensionId};

    ghost Value = { List (ExtensionId × Parts) };

    ghost coded = { coded_list (coded× id.the_row.coded parts.the_row.coded) };

    ghost use Rattle.apollo_component.specs.ExtensionTables.{entries_held};

    ghost view = { λ parts. entries_held parts.held };
}

impl ExtensionParts {
    /// No extension.
    pub(crate) fn new() -> ExtensionParts
        ensures { result ≡ [] }
    {
        ExtensionParts {
            held: HeldParts::Nothing,
        }
    }

    /// Adds a part of the extension of this identity, the last of its sort there. The error is out of memory,
    /// after which nothing is said of the parts.
    pub(crate) fn add<T: Listed>(
        &mut self,
        alloc: Global,
        id: ExtensionId,
        part: T,
    ) -> Result<(), AllocError>
        ensures { OnOk result (self.new ≡ with_extension_part id (T.part part) self.old) }
    {
        self.held.add(alloc, id, part)
    }

    /// Adds each, in order, as an extension of a type of this kind and name, at its own location. The error
    /// is out of memory, after which `written` begins with what it held.
    pub(crate) fn write_types(
        self,
        alloc: Global,
        kind: TypeKind,
        name: &Name,
        written: &mut Vec<Definition>,
    ) -> Result<(), AllocError>
        ensures added { OnOk result (written.new.items
            ≡ written.old.items
            ++ map (λ e. type_extension kind name.now e.1 (extension_location e.0)) self) }
        ensures kept { Begins written.old.items written.new.items }
    {
        match self.held {
            HeldParts::Nothing => Ok(()),
            HeldParts::One(id, parts) => {
                written.push(extension_of_type(alloc, kind, name, id.location(), parts)?)?;
                Ok(())
            }
            HeldParts::Many(table) => {
                for (id, parts) in table.into_index_map()? {
                    written.push(extension_of_type(alloc, kind, name, id.location(), parts)?)?;
                }
                Ok(())
            }
        }
    }

    /// Adds each, in order, as an extension of the schema, at its own location. The error is out of memory.
    pub(crate) fn write_schemas(
        self,
        alloc: Global,
        written: &mut Vec<Definition>,
    ) -> Result<(), AllocError>
        ensures { OnOk result (written.new.items
            ≡ written.old.items ++ map (λ e. schema_extension e.1 (extension_location e.0)) self) }
    {
        for (id, parts) in self.held.into_table(alloc)?.into_index_map()? {
            written.push(extension_of_schema(alloc, id.location(), parts)?)?;
        }
        Ok(())
    }
}

impl HeldParts {
    /// Adds a part of the extension of this identity. The error is out of memory.
    fn add<T: Listed>(&mut self, alloc: Global, id: ExtensionId, part: T) -> Result<(), AllocError>
        ensures { let held = entries_held self.old in
            OnOk result (entries_held self.new ≡ with_extension_part id (T.part part) held) }
    {
        match self {
            HeldParts::Nothing => *self = HeldParts::One(id, one_part(alloc, part)?),
            HeldParts::One(first, parts) if id == *first => part.push_to(parts)?,
            HeldParts::One(_, _) => {
                let held = mem::replace(self, HeldParts::Nothing);
                let mut table = held.into_table(alloc)?;
                add_to(alloc, &mut table, id, part)?;
                *self = HeldParts::Many(table);
            }
            HeldParts::Many(table) => add_to(alloc, table, id, part)?,
        }
        Ok(())
    }

    /// These in a table. The error is out of memory.
    fn into_table(self, alloc: Global) -> Result<Table<ExtensionId, Parts>, AllocError>
        ensures { IfOk result (λ table. table ≡ entries_held self) }
    {
        match self {
            HeldParts::Nothing => Ok(Table::new(alloc)),
            HeldParts::One(id, parts) => {
                let mut table = Table::new(alloc);
                table.insert(id, parts)?;
                Ok(table)
            }
            HeldParts::Many(table) => Ok(table),
        }
    }
}

/// The extension of a type of this kind and name, at this location, with these parts. The error is out of
/// memory.
fn extension_of_type(
    alloc: Global,
    kind: TypeKind,
    name: &Name,
    location: Option<SourceSpan>,
    parts: Parts,
) -> Result<Definition, AllocError>
    ensures { IfOk result (λ made. made ≡ type_extension kind name.now parts location) }
{
    let extension = TypeDeclaration {
        kind,
        name: name.clone()?,
        is_extension: true,
        description: None,
        location,
        parts,
    };
    extension.into_definition(alloc)
}

/// The extension of the schema at this location, with these parts. The error is out of memory.
fn extension_of_schema(
    alloc: Global,
    location: Option<SourceSpan>,
    parts: Parts,
) -> Result<Definition, AllocError>
    ensures { IfOk result (λ made. made ≡ schema_extension parts location) }
{
    let extension = SchemaDeclaration {
        is_extension: true,
        description: None,
        location,
        parts,
    };
    extension.into_definition(alloc)
}

/// This part alone.
fn one_part<T: Listed>(alloc: Global, part: T) -> Result<Parts, AllocError>
    ensures { IfOk result (λ parts. parts ≡ with_part (T.part part) no_parts) }
{
    let mut parts = Parts::new(alloc);
    part.push_to(&mut parts)?;
    Ok(parts)
}

/// Adds a part of the extension of this identity.
fn add_to<T: Listed>(
    alloc: Global,
    extensions: &mut Table<ExtensionId, Parts>,
    id: ExtensionId,
    part: T,
) -> Result<(), AllocError>
    ensures { OnOk result (extensions.new ≡ with_extension_part id (T.part part) extensions.old) }
{
    if let Some(parts) = extensions.get_mut(&id) {
        part.push_to(parts)?;
        return Ok(());
    }
    extensions.insert(id, one_part(alloc, part)?)?;
    Ok(())
}
