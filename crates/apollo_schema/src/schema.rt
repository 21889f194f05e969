//! Schemas: GraphQL specification of October 2021, sections 3.3 to 3.8, 4.1 and 4.2.
ghost use Rattle.std.specs.Prelude.{◌≡◌, false, [], None, Some, IfOk, IfErr, OnErr, option_map};
ghost use Rattle.std.specs.Option.{option_copied, unwrap_or};
ghost use Rattle.apollo_types.specs.TypeKinds.{as_scalar, as_object, as_interface, as_union, as_enum};
ghost use Rattle.apollo_types.specs.TypeKinds.{as_input_object, is_input_type, is_output_type};
ghost use Rattle.apollo_meaning.specs.BuiltInTable.{built_in_definitions};
ghost use Rattle.apollo_meaning.specs.Items.ListItems.{added};
ghost use Rattle.apollo_meaning.specs.Schema.Definition.{no_schema};
ghost use Rattle.apollo_schema.specs.Implementers.{implementers_map};
ghost use Rattle.apollo_schema.specs.Lookups.{type_at, node_if, refers_to, is_listed, declares, is_subtype};
ghost use Rattle.apollo_schema.specs.Lookups.{declared_field, is_query_root, meta_field, field_of_type};
ghost use Rattle.apollo_schema.specs.Lookups.{field_at, IsMissingIn};
ghost use Rattle.apollo_schema.specs.MeantSchema.{MeansSchema};

use crate::build_failure::BuildFailure;
use crate::field_lookup_error::FieldLookupError;
use crate::implementers::{Implementers, note_type};
use crate::meta_fields::MetaFields;
use crate::schema_builder::SchemaBuilder;
use crate::write_out::{write_directives, write_type};
use apollo_component::component::{Component, ComponentName};
use apollo_types::enum_type::EnumType;
use apollo_types::extended_type::ExtendedType;
use apollo_types::input_object_type::InputObjectType;
use apollo_types::interface_type::InterfaceType;
use apollo_types::object_type::ObjectType;
use apollo_types::scalar_type::ScalarType;
use apollo_types::schema_definition::SchemaDefinition;
use apollo_types::union_type::UnionType;
use graphql_ast::definition::Definition;
use graphql_ast::type_reference::Type;
use graphql_ast::type_system::{DirectiveDefinition, FieldDefinition};
use graphql_nodes::collections::key_set::KeySet;
use graphql_nodes::collections::table::Table;
use graphql_nodes::name::{Name, NamedType};
use graphql_nodes::node::Node;
use graphql_nodes::operation_type::OperationType;
use graphql_nodes::source::SourceMap;
use std::alloc::{AllocError, Global};

/// A schema: its definition, and its types and directive definitions under their names, by first definition.
///
/// Schemas are equal where their definitions are, and their types and directive definitions in any order:
/// locations, origins and sources are left out. A clone is the original, with all of these, and shares the
/// nodes.
#[derive(Drop, Clone)]
#[derive_where(Debug, PartialEq, Eq)]
pub struct Schema {
    #[derive_where(skip(EqHashOrd))]
    pub sources: SourceMap,
    pub schema_definition: Node<SchemaDefinition>,
    pub directive_definitions: Table<Name, Node<DirectiveDefinition>>,
    pub types: Table<NamedType, ExtendedType>,
    #[derive_where(skip)]
    meta_fields: MetaFields,
}

/// The definition of a schema, or the one of a schema that has none.
pub(crate) fn definition_or_none(
    alloc: Global,
    definition: Option<Node<SchemaDefinition>>,
) -> Result<Node<SchemaDefinition>, AllocError>
    ensures { IfOk result (λ node. node ≡ unwrap_or definition no_schema) }
{
    match definition {
        Some(node) => Ok(node),
        None => Node::new(alloc, SchemaDefinition::new(alloc)),
    }
}

impl Schema {
    ghost use Rattle.apollo_types.specs.SchemaRoots.{root_of};
    ghost use Rattle.apollo_schema.specs.SchemaWriteOut.{write_schema};
    ghost use Rattle.apollo_schema.specs.BuilderStands.{building_from};

    /// A builder of the built-in definitions alone, as [`SchemaBuilder::new`] makes it. The error is out of
    /// memory.
    pub fn builder(alloc: Global) -> Result<SchemaBuilder, AllocError>
        ensures { IfOk result (λ builder. builder ≡ building_from 0) }
    {
        SchemaBuilder::new(alloc)
    }

    /// The schema of no documents: that of the built-in definitions alone. The error is out of memory.
    pub fn new(alloc: Global) -> Result<Schema, AllocError>
        ensures means { IfOk result (MeansSchema 0 false (added false built_in_definitions)) }
        ensures sources { IfOk result (λ schema. schema.sources ≡ []) }
    {
        match SchemaBuilder::new(alloc)?.build() {
            Ok(schema) => Ok(schema),
            Err(BuildFailure::Memory) => Err(AllocError),
            // The built-in definitions have no faults, there are no extensions, and nothing was refused
            // before.
            Err(BuildFailure::Faults(_)) => unreachable!(),
            Err(BuildFailure::ExtensionIds) => unreachable!(),
            Err(BuildFailure::Failed) => unreachable!(),
        }
    }

    /// The schema of these parts, of which nothing is asked. The error is out of memory, and drops the parts.
    pub fn from_parts(
        alloc: Global,
        sources: SourceMap,
        schema_definition: Node<SchemaDefinition>,
        directive_definitions: Table<Name, Node<DirectiveDefinition>>,
        types: Table<NamedType, ExtendedType>,
    ) -> Result<Schema, AllocError>
        ensures { IfOk result (λ schema. schema
            ≡ record {
              sources = sources;
              schema_definition = schema_definition;
              directive_definitions = directive_definitions;
              types = types;
              meta_fields = tt;
            }) }
    {
        Ok(Schema {
            sources,
            schema_definition,
            directive_definitions,
            types,
            meta_fields: MetaFields::new(alloc)?,
        })
    }

    /// The name of the root of this operation type, if the schema has one (section 3.3.1).
    pub fn root_operation(&self, operation_type: OperationType) -> Option<&NamedType>
        ensures { option_copied result
            ≡ option_map (λ c. c.name) (root_of self.now.schema_definition.value operation_type) }
    {
        match self.schema_definition.root_operation(operation_type) {
            Some(root) => Some(&root.name),
            None => None,
        }
    }

    /// The scalar type of this name, if the name's type is one.
    pub fn get_scalar(&self, name: &Name) -> Option<&Node<ScalarType>>
        ensures { option_copied result ≡ node_if as_scalar (type_at self.now.types name.now) }
    {
        match self.types.get(name) {
            Some(ExtendedType::Scalar(node)) => Some(node),
            _ => None,
        }
    }

    /// The object type of this name, if the name's type is one.
    pub fn get_object(&self, name: &Name) -> Option<&Node<ObjectType>>
        ensures { option_copied result ≡ node_if as_object (type_at self.now.types name.now) }
    {
        match self.types.get(name) {
            Some(ExtendedType::Object(node)) => Some(node),
            _ => None,
        }
    }

    /// The interface type of this name, if the name's type is one.
    pub fn get_interface(&self, name: &Name) -> Option<&Node<InterfaceType>>
        ensures { option_copied result ≡ node_if as_interface (type_at self.now.types name.now) }
    {
        match self.types.get(name) {
            Some(ExtendedType::Interface(node)) => Some(node),
            _ => None,
        }
    }

    /// The union type of this name, if the name's type is one.
    pub fn get_union(&self, name: &Name) -> Option<&Node<UnionType>>
        ensures { option_copied result ≡ node_if as_union (type_at self.now.types name.now) }
    {
        match self.types.get(name) {
            Some(ExtendedType::Union(node)) => Some(node),
            _ => None,
        }
    }

    /// The enum type of this name, if the name's type is one.
    pub fn get_enum(&self, name: &Name) -> Option<&Node<EnumType>>
        ensures { option_copied result ≡ node_if as_enum (type_at self.now.types name.now) }
    {
        match self.types.get(name) {
            Some(ExtendedType::Enum(node)) => Some(node),
            _ => None,
        }
    }

    /// The input object type of this name, if the name's type is one.
    pub fn get_input_object(&self, name: &Name) -> Option<&Node<InputObjectType>>
        ensures { option_copied result ≡ node_if as_input_object (type_at self.now.types name.now) }
    {
        match self.types.get(name) {
            Some(ExtendedType::InputObject(node)) => Some(node),
            _ => None,
        }
    }

    /// Whether the type inside all lists is a scalar, an enum or an input object (section 3.4.2). A name
    /// without a type is none.
    pub fn is_input_type(&self, ty: &Type) -> bool
        ensures { result ≡ refers_to is_input_type self.now.types ty.now }
    {
        match self.types.get(ty.inner_named_type()) {
            Some(ty) => ty.is_input_type(),
            None => false,
        }
    }

    /// Whether the type inside all lists is a scalar, an object, an interface, a union or an enum (section
    /// 3.4.2). A name without a type is none.
    pub fn is_output_type(&self, ty: &Type) -> bool
        ensures { result ≡ refers_to is_output_type self.now.types ty.now }
    {
        match self.types.get(ty.inner_named_type()) {
            Some(ty) => ty.is_output_type(),
            None => false,
        }
    }

    /// Whether this is the name of the root type of queries.
    fn is_query_root(&self, name: &Name) -> bool
        ensures { result ≡ is_query_root self.now name.now }
    {
        match &self.schema_definition.query {
            Some(root) => *name == root.name,
            None => false,
        }
    }

    /// The meta-field of this name that the type of this name has.
    fn meta_field(
        &self,
        type_name: &Name,
        ty: &ExtendedType,
        field_name: &Name,
    ) -> Option<&Component<FieldDefinition>>
        ensures { option_copied result ≡ meta_field self.now type_name.now ty.now field_name.now }
    {
        let typename = self.meta_fields.typename();
        if ty.is_composite() && *field_name == typename.name {
            return Some(typename);
        }
        if !self.is_query_root(type_name) {
            return None;
        }
        let schema = self.meta_fields.schema();
        if *field_name == schema.name {
            return Some(schema);
        }
        let type_by_name = self.meta_fields.type_by_name();
        if *field_name == type_by_name.name {
            return Some(type_by_name);
        }
        None
    }

    /// The field of this name in this type, of which the other is the name, if it has one. It is as
    /// [`type_field`](Schema::type_field) finds it where the schema has the type under the name. So whoever
    /// looks up many fields of one type looks it up once.
    pub fn field_of<'schema>(
        &'schema self,
        type_name: &Name,
        ty: &'schema ExtendedType,
        field_name: &Name,
    ) -> Option<&'schema Component<FieldDefinition>>
        ensures { option_copied result ≡ field_of_type self.now type_name.now field_name.now ty.now }
    {
        match declared_field(ty, field_name) {
            Some(field) => Some(field),
            None => self.meta_field(type_name, ty, field_name),
        }
    }

    /// The field of this name in the type of this name: the one that an object or interface type declares, or
    /// else a meta-field. Object, interface and union types have `__typename`. The type whose name is that of
    /// the root of queries has `__schema` and `__type`, whatever its kind (sections 4.1 and 4.2). It takes no
    /// memory.
    ///
    /// `NoSuchType` comes where the schema has no type of the name; `NoSuchField` where it has, with its key
    /// and the type.
    pub fn type_field<'schema>(
        &'schema self,
        type_name: &Name,
        field_name: &Name,
    ) -> Result<&'schema Component<FieldDefinition>, FieldLookupError<'schema>>
        ensures found { IfOk result (λ field. field_at self.now type_name.now field_name.now
            ≡ Some field.now) }
        ensures none { OnErr result (field_at self.now type_name.now field_name.now ≡ None) }
        ensures missing { IfErr result (IsMissingIn self.now.types type_name.now) }
    {
        let Some((key, ty)) = self.types.get_key_value(type_name) else {
            return Err(FieldLookupError::NoSuchType);
        };
        match self.field_of(type_name, ty, field_name) {
            Some(field) => Ok(field),
            None => Err(FieldLookupError::NoSuchField(key, ty)),
        }
    }

    /// Under the name of each interface that a type declares, the object types and the interface types that
    /// declare it (sections 3.6 and 3.7). The name is there whether the schema has that interface or not.
    /// Nothing is there through another interface.
    ///
    /// The names of interfaces stand in the order in which the types, in the schema's order, declare them
    /// first, each as it is written there. The types under each stand in the schema's order, by their keys.
    /// The map hashes as the schema's types do. The error is out of memory.
    pub fn implementers_map(&self, alloc: Global) -> Result<Table<Name, Implementers>, AllocError>
        ensures { IfOk result (λ map. map ≡ implementers_map self.now.types) }
    {
        let mut map = Table::with_keys(alloc, self.types.hash_keys());
        for (name, ty) in self.types.iter() {
            note_type(&mut map, name, ty)?;
        }
        Ok(map)
    }

    /// Whether the one name is that of an interface, and the other that of an object or interface type that
    /// declares it. Or the one name is that of a union that lists the other, whether that has a type or not
    /// (sections 3.7 and 3.8). Nothing is a subtype through something else. It answers where there is no
    /// memory, too.
    pub fn is_subtype(&self, abstract_type: &Name, maybe_subtype: &Name) -> bool
        ensures { result ≡ is_subtype self.now.types abstract_type.now maybe_subtype.now }
    {
        match self.types.get(abstract_type) {
            Some(ExtendedType::Interface(_)) => match self.types.get(maybe_subtype) {
                Some(ty) => declares(abstract_type, ty),
                None => false,
            },
            Some(ExtendedType::Union(union)) => is_listed(maybe_subtype, &union.members),
            _ => false,
        }
    }

    /// The schema as syntax (section 3). First comes the schema definition with its extensions. Then come the
    /// directive definitions, in order. Then comes each type, in order, as its definition and its extensions.
    ///
    /// The schema definition is left out where it would be implied, or has no root of its own, as
    /// [`SchemaDefinition::to_ast`] says. Its description and its own directives are not written then. Its
    /// extensions are always there. Built-in definitions of types and directives are left out, but not the
    /// extensions of those types. The error is out of memory.
    pub fn to_ast(&self, alloc: Global) -> Result<Vec<Definition>, AllocError>
        ensures { IfOk result (λ written. written.items ≡ write_schema self.now) }
    {
        let location = self.schema_definition.location();
        let mut written = self.schema_definition.to_ast(alloc, location, &self.types)?;
        write_directives(&self.directive_definitions, &mut written)?;
        for ty in self.types.values() {
            write_type(alloc, ty, &mut written)?;
        }
        Ok(written)
    }
}

/// The field of this name that the type declares.
fn declared_field<'a>(ty: &'a ExtendedType, name: &Name) -> Option<&'a Component<FieldDefinition>>
    ensures { option_copied result ≡ declared_field ty.now name.now }
{
    match ty {
        ExtendedType::Object(object) => object.fields.get(name),
        ExtendedType::Interface(interface) => interface.fields.get(name),
        _ => None,
    }
}

/// Whether the name is among these.
fn is_listed(name: &Name, names: &KeySet<ComponentName>) -> bool
    ensures { result ≡ is_listed name.now names.now }
{
    // The key shares the name's text, and takes no memory. A text that can't be shared once more is compared
    // with each.
    match ComponentName::from_name(name) {
        Ok(key) => names.contains(&key),
        Err(_) => names.as_slice().iter().any(|listed| *name == listed.name),
    }
}

/// Whether the type declares the interface of this name.
fn declares(interface: &Name, ty: &ExtendedType) -> bool
    ensures { result ≡ declares interface.now ty.now }
{
    match ty {
        ExtendedType::Object(object) => is_listed(interface, &object.implements_interfaces),
        ExtendedType::Interface(other) => is_listed(interface, &other.implements_interfaces),
        _ => false,
    }
}
