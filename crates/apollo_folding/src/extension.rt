//! Definitions of documents that extend a type.
ghost use Rattle.std.specs.Prelude.{◌≡◌};
ghost use Rattle.std.specs.Option.{option_map};
ghost use Rattle.apollo_meaning.specs.Items.ListItems.{extended_part, item_of};
ghost use Rattle.apollo_folding.specs.DeclaredParts.{part_seen};

use graphql_ast::declaration_ref::{DeclarationRef, TypeDeclarationRef};
use graphql_ast::definition::Definition;

/// The extension of a type that a definition is, if it is one.
pub fn extension_of(definition: &Definition) -> Option<TypeDeclarationRef<'_>>
    ensures { option_map part_seen result ≡ extended_part (item_of definition.now) }
{
    match DeclarationRef::of(definition) {
        DeclarationRef::Type(declaration) if declaration.is_extension => Some(declaration),
        _ => None,
    }
}
