//! The type that selections are from: GraphQL specification of October 2021, section 2.5.
ghost use Rattle.std.specs.Prelude.{◌≡◌, is_some, option_map};
ghost use Rattle.std.specs.Option.{option_copied};
ghost use Rattle.apollo_document.specs.Parents.{key_in, type_in};
ghost use Rattle.apollo_document.specs.Typable.{has_type};
ghost use Rattle.apollo_document.specs.Within.{leaf_in};

use apollo_schema::schema::Schema;
use apollo_types::extended_type::ExtendedType;
use graphql_nodes::name::{Name, NamedType};

/// The type that selections are from, looked up once for all of them.
#[derive(Drop)]
pub(crate) struct Parent<'a> {
    pub(crate) schema: Option<&'a Schema>,
    pub(crate) ty: &'a NamedType,
    /// What the schema has under the name, if there is a schema and it has a type there.
    pub(crate) known: Option<(&'a Name, &'a ExtendedType)>,
    ghost keyed: { option_map (λ e. e.0.now) known ≡ key_in (option_copied schema) ty.now },
    ghost typed: { option_map (λ e. e.1.now) known ≡ type_in (option_copied schema) ty.now },
}

impl<'a> Parent<'a> {
    /// The type of this name.
    pub(crate) fn new(schema: Option<&'a Schema>, ty: &'a NamedType) -> Parent<'a>
        ensures schema { option_copied result.schema ≡ option_copied schema.entry }
        ensures ty { result.ty.now ≡ ty.now }
    {
        match schema {
            None => Parent {
                schema: None,
                ty,
                known: None,
            },
            Some(schema) => Parent {
                schema: Some(schema),
                ty,
                known: schema.types.get_key_value(ty),
            },
        }
    }

    /// Whether the type is a scalar or an enum.
    pub(crate) fn is_leaf(&self) -> bool
        ensures { result ≡ is_some (leaf_in (option_copied self.now.schema) self.now.ty.now) }
    {
        match self.known {
            Some((_, ExtendedType::Scalar(_) | ExtendedType::Enum(_))) => true,
            _ => false,
        }
    }

    /// Whether the schema has the type. Without a schema each name has one.
    pub(crate) fn has_type(&self) -> bool
        ensures { result ≡ has_type (option_copied self.now.schema) self.now.ty.now }
    {
        match self.schema {
            None => true,
            Some(_) => self.known.is_some(),
        }
    }
}
