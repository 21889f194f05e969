//! Whether tables hash by the keys that they are to have. No contract sees these.

use apollo_executable::ExecutableDocument;
use apollo_schema::schema::Schema;
use apollo_types::extended_type::ExtendedType;
use graphql_nodes::collections::hash_keys::HashKeys;

/// Whether the tables of the type hash by these keys.
fn is_type_keyed(ty: &ExtendedType, keys: HashKeys) -> bool {
    match ty {
        ExtendedType::Scalar(_) => true,
        ExtendedType::Object(node) => {
            node.fields.hash_keys() == keys && node.implements_interfaces.hash_keys() == keys
        }
        ExtendedType::Interface(node) => {
            node.fields.hash_keys() == keys && node.implements_interfaces.hash_keys() == keys
        }
        ExtendedType::Union(node) => node.members.hash_keys() == keys,
        ExtendedType::Enum(node) => node.values.hash_keys() == keys,
        ExtendedType::InputObject(node) => node.fields.hash_keys() == keys,
    }
}

/// Whether each table of the schema hashes by these keys.
pub fn is_schema_keyed(schema: &Schema, keys: HashKeys) -> bool {
    schema.sources.hash_keys() == keys
        && schema.directive_definitions.hash_keys() == keys
        && schema.types.hash_keys() == keys
        && schema.types.values().all(|ty| is_type_keyed(ty, keys))
}

/// Whether each table of the document hashes by these keys.
pub fn is_document_keyed(document: &ExecutableDocument, keys: HashKeys) -> bool {
    document.operations.named.hash_keys() == keys
        && document.fragments.hash_keys() == keys
        && document.sources.hash_keys() == keys
}
