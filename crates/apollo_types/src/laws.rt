//! What `==` answers at each type of this crate. It is whether the two are one with locations, origins and
//! the order of what stands under names left out.
//!
//! Each law is a function that does nothing. A proof cites it by a call, and finds a clause for each type
//! there.
ghost use Rattle.graphql_nodes.specs.Comparing.{ComparesBy, entries_by_text};
ghost use Rattle.apollo_types.specs.BareTypes.{bare_scalar, bare_object, bare_interface, bare_union};
ghost use Rattle.apollo_types.specs.BareTypes.{bare_enum, bare_input_object, bare_extended_type};
ghost use Rattle.apollo_types.specs.BareTypes.{bare_schema_definition};

use crate::enum_type::EnumType;
use crate::extended_type::ExtendedType;
use crate::input_object_type::InputObjectType;
use crate::interface_type::InterfaceType;
use crate::object_type::ObjectType;
use crate::scalar_type::ScalarType;
use crate::schema_definition::SchemaDefinition;
use crate::union_type::UnionType;
use graphql_nodes::collections::table::Table;
use graphql_nodes::name::Name;

/// Types are equal exactly where their kinds, names, descriptions and directives are, the latter in order,
/// and what each has under each name. Fields, values, interfaces and members stand in any order. Tables of
/// types are equal where they have equal types under each name, in any order. GraphQL specification of
/// October 2021, sections 3.4 to 3.10.
pub fn equality_of_types()
    ensures scalar_type { ComparesBy ⟦<ScalarType as PartialEq>⟧.eq bare_scalar }
    ensures object_type { ComparesBy ⟦<ObjectType as PartialEq>⟧.eq bare_object }
    ensures interface_type { ComparesBy ⟦<InterfaceType as PartialEq>⟧.eq bare_interface }
    ensures union_type { ComparesBy ⟦<UnionType as PartialEq>⟧.eq bare_union }
    ensures enum_type { ComparesBy ⟦<EnumType as PartialEq>⟧.eq bare_enum }
    ensures input_object_type { ComparesBy ⟦<InputObjectType as PartialEq>⟧.eq bare_input_object }
    ensures extended_type { ComparesBy ⟦<ExtendedType as PartialEq>⟧.eq bare_extended_type }
    ensures types_by_name { ComparesBy ⟦<Table<Name, ExtendedType> as PartialEq>⟧.eq (entries_by_text bare_extended_type) }
{}

/// Schema definitions are equal exactly where their descriptions, directives, in order, and the names of
/// their roots are. GraphQL specification of October 2021, section 3.3.
pub fn equality_of_schema_definitions()
    ensures { ComparesBy ⟦<SchemaDefinition as PartialEq>⟧.eq bare_schema_definition }
{}
