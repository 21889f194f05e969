//! What a build completes a list with: types that are extended only, where they are adopted, and the
//! definition of the schema that is implied. GraphQL specification of October 2021, sections 3.3.1 and 3.4.3.
ghost use Rattle.std.specs.Prelude.{◌≡◌, ◌==◌, ◌&&◌, if◌then◌else◌, [], ◌++◌, length, map, not, IfOk, OnOk};
ghost use Rattle.std.specs.List.{flat_map, list_any};
ghost use Rattle.graphql_nodes.specs.Tables.{values_of};
ghost use Rattle.apollo_meaning.specs.Items.ListItems.{schema_item};
ghost use Rattle.apollo_meaning.specs.Items.Parts.{schema_extension_part, roots_in};
ghost use Rattle.apollo_meaning.specs.Completion.Adoption.{adopted_part};
ghost use Rattle.apollo_meaning.specs.Completion.ImpliedSchema.{schema_for};
ghost use Rattle.apollo_folding.specs.Adopting.{adopted_for, adopted_for_each};
ghost use Rattle.apollo_folding.specs.DeclaredParts.{part_seen};
ghost use Rattle.apollo_folding.specs.HeldRoots.{held_root, held_roots};

use crate::extension::extension_of;
use apollo_types::extended_type::ExtendedType;
use graphql_ast::declaration_ref::TypeDeclarationRef;
use graphql_ast::definition::Definition;
use graphql_ast::directive::DirectiveList;
use graphql_ast::parts::PartsRef;
use graphql_ast::type_system as ast;
use graphql_ast::type_system::SchemaExtension;
use graphql_nodes::collections::items::Items;
use graphql_nodes::collections::table::Table;
use graphql_nodes::name::{Name, NamedType};
use graphql_nodes::node::Node;
use graphql_nodes::operation_type::OperationType;
use std::alloc::{AllocError, Global};

/// What the definition says that a type is adopted by: it is empty, of the kind of this extension, with its
/// name and at its location (section 3.4.3).
pub fn adopted_from<'a>(extension: &TypeDeclarationRef<'a>) -> TypeDeclarationRef<'a>
    ensures { part_seen result ≡ adopted_part (part_seen extension.now) }
{
    TypeDeclarationRef {
        is_extension: false,
        description: None,
        parts: PartsRef {
            directives: &[],
            names: &[],
            fields: &[],
            values: &[],
            input_fields: &[],
            roots: &[],
        },
        ..*extension
    }
}

/// Adds a copy of the first of these that extends a type.
fn add_first(extensions: &[Definition], firsts: &mut Items<Definition>) -> Result<(), AllocError>
    ensures { OnOk result (adopted_for_each firsts.new
        ≡ adopted_for_each firsts.old ++ adopted_for extensions.now) }
{
    for definition in extensions {
        if extension_of(definition).is_some() {
            firsts.push(definition.clone()?)?;
            return Ok(());
        }
    }
    Ok(())
}

/// Copies of the first extensions of the names under which extensions wait, in order. The error is out of
/// memory.
pub fn first_extensions(
    alloc: Global,
    waiting: &Table<Name, Items<Definition>>,
) -> Result<Items<Definition>, AllocError>
    ensures { IfOk result (λ firsts. adopted_for_each firsts ≡ flat_map adopted_for (values_of waiting.now)) }
{
    let mut firsts = Items::new(alloc);
    for extensions in waiting.values() {
        add_first(extensions.as_slice(), &mut firsts)?;
    }
    Ok(firsts)
}

/// Adds the implicit root of an operation, if its default name is an object type's.
fn push_implicit_root(
    alloc: Global,
    types: &Table<NamedType, ExtendedType>,
    operation_type: OperationType,
    roots: &mut Items<Node<(OperationType, NamedType)>>,
) -> Result<(), AllocError>
    ensures { OnOk result (roots.new ≡ roots.old ++ held_root types.now operation_type) }
{
    let name = operation_type.default_type_name(alloc)?;
    if let Some(ExtendedType::Object(_)) = types.get(&name) {
        roots.push(Node::new(alloc, (operation_type, name))?)?;
    }
    Ok(())
}

/// The implicit roots.
fn implicit_roots(
    alloc: Global,
    types: &Table<NamedType, ExtendedType>,
) -> Result<Items<Node<(OperationType, NamedType)>>, AllocError>
    ensures { IfOk result (λ roots. roots ≡ held_roots types.now) }
{
    let mut roots = Items::new(alloc);
    push_implicit_root(alloc, types, OperationType::Query, &mut roots)?;
    push_implicit_root(alloc, types, OperationType::Mutation, &mut roots)?;
    push_implicit_root(alloc, types, OperationType::Subscription, &mut roots)?;
    Ok(roots)
}

/// Whether one of these names a root.
fn names_root(extensions: &[Node<SchemaExtension>]) -> bool
    ensures { result ≡ list_any (λ e. not (length e.value.root_operations == 0)) extensions.now }
{
    for extension in extensions {
        if !extension.root_operations.is_empty() {
            return true;
        }
    }
    false
}

/// The roots of the schema definition that is implied: the implicit ones, unless these extensions are adopted
/// and name a root.
fn implied_roots(
    alloc: Global,
    extensions: &[Node<SchemaExtension>],
    types: &Table<NamedType, ExtendedType>,
    adopts: bool,
) -> Result<Items<Node<(OperationType, NamedType)>>, AllocError>
    ensures { IfOk result (λ roots. roots
        ≡ (if adopts && list_any (λ e. not (length e.value.root_operations == 0)) extensions.now then []
        else held_roots types.now)) }
{
    if adopts && names_root(extensions) {
        return Ok(Items::new(alloc));
    }
    let roots = implicit_roots(alloc, types)?;
    Ok(roots)
}

/// The schema definition that is implied where none stands, for these extensions of the schema and these
/// types, without a location. Its roots are the implicit ones: for query, mutation and subscription the
/// default name, where that is an object type's (section 3.3.1).
///
/// With adoption there always is one, which has no root if an extension names one. Without adoption there is
/// none if there is no implicit root. The error is out of memory.
pub fn implied_definition(
    alloc: Global,
    extensions: &[Node<SchemaExtension>],
    types: &Table<NamedType, ExtendedType>,
    adopts: bool,
) -> Result<Option<Node<ast::SchemaDefinition>>, AllocError>
    ensures { IfOk result (λ implied. schema_item implied
        ≡ schema_for adopts (roots_in (map schema_extension_part extensions.now)) (held_roots types.now)) }
{
    let root_operations = implied_roots(alloc, extensions, types, adopts)?;
    if !adopts && root_operations.is_empty() {
        return Ok(None);
    }
    let definition = ast::SchemaDefinition {
        description: None,
        directives: DirectiveList::new(alloc),
        root_operations,
    };
    Ok(Some(Node::new(alloc, definition)?))
}
