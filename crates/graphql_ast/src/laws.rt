//! What `==` answers at each type of the tree, which is whether the two are one with every location left out.
//! Clones are the originals. Types are compatible step by step as the specification has it.
//!
//! Each law is a function that does nothing. A proof cites it by a call, and finds a clause for each type
//! there. That equal values have equal hashes is part of each type's `Hash`.
ghost use Rattle.std.specs.Prelude.{◌≡◌, ◌≢◌, true, false};
ghost use Rattle.graphql_nodes.specs.Comparing.{ComparesBy};
ghost use Rattle.graphql_ast.specs.Bare.{bare_value, bare_type, bare_argument, bare_directive};
ghost use Rattle.graphql_ast.specs.Bare.{bare_directive_list};
ghost use Rattle.graphql_ast.specs.BareSelections.{bare_selection, bare_field, bare_inline_fragment};
ghost use Rattle.graphql_ast.specs.BareSelections.{bare_fragment_spread};
ghost use Rattle.graphql_ast.specs.BareTypeSystem.{bare_field_definition, bare_input_value_definition};
ghost use Rattle.graphql_ast.specs.BareTypeSystem.{bare_enum_value_definition, bare_directive_definition};
ghost use Rattle.graphql_ast.specs.BareTypeSystem.{bare_schema_definition, bare_scalar_type_definition};
ghost use Rattle.graphql_ast.specs.BareTypeSystem.{bare_object_type_definition};
ghost use Rattle.graphql_ast.specs.BareTypeSystem.{bare_interface_type_definition};
ghost use Rattle.graphql_ast.specs.BareTypeSystem.{bare_union_type_definition, bare_enum_type_definition};
ghost use Rattle.graphql_ast.specs.BareTypeSystem.{bare_input_object_type_definition, bare_schema_extension};
ghost use Rattle.graphql_ast.specs.BareTypeSystem.{bare_scalar_type_extension, bare_object_type_extension};
ghost use Rattle.graphql_ast.specs.BareTypeSystem.{bare_interface_type_extension, bare_union_type_extension};
ghost use Rattle.graphql_ast.specs.BareTypeSystem.{bare_enum_type_extension};
ghost use Rattle.graphql_ast.specs.BareTypeSystem.{bare_input_object_type_extension};
ghost use Rattle.graphql_ast.specs.BareDocuments.{bare_variable_definition, bare_operation_definition};
ghost use Rattle.graphql_ast.specs.BareDocuments.{bare_fragment_definition, bare_definition, bare_document};
ghost use Rattle.graphql_ast.specs.BareDeclarations.{bare_declaration};
ghost use Rattle.graphql_ast.specs.Declarations.{Declaration, declaration_of, made, sayable};
ghost use Rattle.graphql_nodes.specs.SameText.{same_text};
ghost use Rattle.graphql_ast.specs.TypeReferences.{inner_name, is_list, is_required, item_type};
ghost use Rattle.graphql_ast.specs.TypeReferences.{made_nullable};
ghost use Rattle.graphql_ast.specs.TypesCompatible.{are_types_compatible};
ghost use Rattle.graphql_ast.specs.declared.definition.Definition.{Definition};
ghost use Rattle.graphql_ast.specs.declared.type_reference.Type.{«Type» as TypeReference};
ghost use Rattle.graphql_nodes.specs.Clones.{IsExact};

use crate::definition::Definition;
use crate::directive::{Argument, ArgumentByNameError, Directive, DirectiveList};
use crate::document::Document;
use crate::operation::{FragmentDefinition, OperationDefinition, VariableDefinition};
use crate::selection::{Field, FragmentSpread, InlineFragment, Selection};
use crate::type_reference::Type;
use crate::type_system::{
    DirectiveDefinition, EnumTypeDefinition, EnumTypeExtension, EnumValueDefinition,
    FieldDefinition, InputObjectTypeDefinition, InputObjectTypeExtension, InputValueDefinition,
    InterfaceTypeDefinition, InterfaceTypeExtension, ObjectTypeDefinition, ObjectTypeExtension,
    ScalarTypeDefinition, ScalarTypeExtension, SchemaDefinition, SchemaExtension,
    UnionTypeDefinition, UnionTypeExtension,
};
use crate::value::Value;
use graphql_nodes::collections::hash_keys::HashKeys;
use graphql_nodes::collections::items::Items;
use graphql_nodes::collections::key_set::KeySet;
use graphql_nodes::collections::table::Table;
use graphql_nodes::directive_location::DirectiveLocation;
use graphql_nodes::line_column::LineColumn;
use graphql_nodes::name::InvalidNameError;
use graphql_nodes::operation_type::OperationType;
use graphql_nodes::source::{FileId, SourceFile, SourceSpan};
use graphql_nodes::type_kind::TypeKind;
use std::hash::Hash;

/// Values, type references, arguments and directives are equal exactly where they are one without their
/// locations.
pub fn equality_of_values_and_directives()
    ensures value { ComparesBy ⟦<Value as PartialEq>⟧.eq bare_value }
    ensures ty { ComparesBy ⟦<Type as PartialEq>⟧.eq bare_type }
    ensures argument { ComparesBy ⟦<Argument as PartialEq>⟧.eq bare_argument }
    ensures directive { ComparesBy ⟦<Directive as PartialEq>⟧.eq bare_directive }
    ensures directive_list { ComparesBy ⟦<DirectiveList as PartialEq>⟧.eq bare_directive_list }
    ensures argument_by_name_error { ComparesBy ⟦<ArgumentByNameError as PartialEq>⟧.eq (λ error. error) }
{}

/// Selections are equal exactly where they are one without their locations.
pub fn equality_of_selections()
    ensures selection { ComparesBy ⟦<Selection as PartialEq>⟧.eq bare_selection }
    ensures field { ComparesBy ⟦<Field as PartialEq>⟧.eq bare_field }
    ensures fragment_spread { ComparesBy ⟦<FragmentSpread as PartialEq>⟧.eq bare_fragment_spread }
    ensures inline_fragment { ComparesBy ⟦<InlineFragment as PartialEq>⟧.eq bare_inline_fragment }
{}

/// Definitions and extensions of the type system are equal exactly where they are one without their
/// locations.
pub fn equality_of_the_type_system()
    ensures field_definition { ComparesBy ⟦<FieldDefinition as PartialEq>⟧.eq bare_field_definition }
    ensures input_value_definition { ComparesBy ⟦<InputValueDefinition as PartialEq>⟧.eq
        bare_input_value_definition }
    ensures enum_value_definition { ComparesBy ⟦<EnumValueDefinition as PartialEq>⟧.eq
        bare_enum_value_definition }
    ensures directive_definition { ComparesBy ⟦<DirectiveDefinition as PartialEq>⟧.eq
        bare_directive_definition }
    ensures schema_definition { ComparesBy ⟦<SchemaDefinition as PartialEq>⟧.eq bare_schema_definition }
    ensures scalar_type_definition { ComparesBy ⟦<ScalarTypeDefinition as PartialEq>⟧.eq
        bare_scalar_type_definition }
    ensures object_type_definition { ComparesBy ⟦<ObjectTypeDefinition as PartialEq>⟧.eq
        bare_object_type_definition }
    ensures interface_type_definition { ComparesBy ⟦<InterfaceTypeDefinition as PartialEq>⟧.eq
        bare_interface_type_definition }
    ensures union_type_definition { ComparesBy ⟦<UnionTypeDefinition as PartialEq>⟧.eq
        bare_union_type_definition }
    ensures enum_type_definition { ComparesBy ⟦<EnumTypeDefinition as PartialEq>⟧.eq
        bare_enum_type_definition }
    ensures input_object_type_definition { ComparesBy ⟦<InputObjectTypeDefinition as PartialEq>⟧.eq
        bare_input_object_type_definition }
    ensures schema_extension { ComparesBy ⟦<SchemaExtension as PartialEq>⟧.eq bare_schema_extension }
    ensures scalar_type_extension { ComparesBy ⟦<ScalarTypeExtension as PartialEq>⟧.eq
        bare_scalar_type_extension }
    ensures object_type_extension { ComparesBy ⟦<ObjectTypeExtension as PartialEq>⟧.eq
        bare_object_type_extension }
    ensures interface_type_extension { ComparesBy ⟦<InterfaceTypeExtension as PartialEq>⟧.eq
        bare_interface_type_extension }
    ensures union_type_extension { ComparesBy ⟦<UnionTypeExtension as PartialEq>⟧.eq
        bare_union_type_extension }
    ensures enum_type_extension { ComparesBy ⟦<EnumTypeExtension as PartialEq>⟧.eq bare_enum_type_extension }
    ensures input_object_type_extension { ComparesBy ⟦<InputObjectTypeExtension as PartialEq>⟧.eq
        bare_input_object_type_extension }
{}

/// Operations, fragments and documents are equal exactly where they are one without their locations, and
/// documents also without the files that they come from.
pub fn equality_of_documents()
    ensures variable_definition { ComparesBy ⟦<VariableDefinition as PartialEq>⟧.eq bare_variable_definition }
    ensures operation_definition { ComparesBy ⟦<OperationDefinition as PartialEq>⟧.eq
        bare_operation_definition }
    ensures fragment_definition { ComparesBy ⟦<FragmentDefinition as PartialEq>⟧.eq bare_fragment_definition }
    ensures definition { ComparesBy ⟦<Definition as PartialEq>⟧.eq bare_definition }
    ensures document { ComparesBy ⟦<Document as PartialEq>⟧.eq bare_document }
{}

/// Each clone of a list, table or set is the original, where each clone of what is in it is.
pub fn clones_of_containers_are_exact<T: Eq + Hash + Clone, V: Clone>()
    ensures items { IsExact T.is_clone → IsExact ⟦<Items<T> as Clone>⟧.is_clone }
    ensures table { IsExact T.is_clone → IsExact V.is_clone → IsExact ⟦<Table<T, V> as Clone>⟧.is_clone }
    ensures key_set { IsExact T.is_clone → IsExact ⟦<KeySet<T> as Clone>⟧.is_clone }
{}

/// Each clone of a part of a tree is the original, with its locations and the sources of a document. So is
/// each clone of a location, a kind, keys or an error.
///
/// The `Clone` of the other types says so itself.
pub fn clones_are_exact()
    ensures invalid_name_error { IsExact ⟦<InvalidNameError as Clone>⟧.is_clone }
    ensures argument { IsExact ⟦<Argument as Clone>⟧.is_clone }
    ensures directive { IsExact ⟦<Directive as Clone>⟧.is_clone }
    ensures directive_list { IsExact ⟦<DirectiveList as Clone>⟧.is_clone }
    ensures fragment_spread { IsExact ⟦<FragmentSpread as Clone>⟧.is_clone }
    ensures variable_definition { IsExact ⟦<VariableDefinition as Clone>⟧.is_clone }
    ensures operation_definition { IsExact ⟦<OperationDefinition as Clone>⟧.is_clone }
    ensures fragment_definition { IsExact ⟦<FragmentDefinition as Clone>⟧.is_clone }
    ensures field_definition { IsExact ⟦<FieldDefinition as Clone>⟧.is_clone }
    ensures input_value_definition { IsExact ⟦<InputValueDefinition as Clone>⟧.is_clone }
    ensures enum_value_definition { IsExact ⟦<EnumValueDefinition as Clone>⟧.is_clone }
    ensures directive_definition { IsExact ⟦<DirectiveDefinition as Clone>⟧.is_clone }
    ensures schema_definition { IsExact ⟦<SchemaDefinition as Clone>⟧.is_clone }
    ensures scalar_type_definition { IsExact ⟦<ScalarTypeDefinition as Clone>⟧.is_clone }
    ensures object_type_definition { IsExact ⟦<ObjectTypeDefinition as Clone>⟧.is_clone }
    ensures interface_type_definition { IsExact ⟦<InterfaceTypeDefinition as Clone>⟧.is_clone }
    ensures union_type_definition { IsExact ⟦<UnionTypeDefinition as Clone>⟧.is_clone }
    ensures enum_type_definition { IsExact ⟦<EnumTypeDefinition as Clone>⟧.is_clone }
    ensures input_object_type_definition { IsExact ⟦<InputObjectTypeDefinition as Clone>⟧.is_clone }
    ensures schema_extension { IsExact ⟦<SchemaExtension as Clone>⟧.is_clone }
    ensures scalar_type_extension { IsExact ⟦<ScalarTypeExtension as Clone>⟧.is_clone }
    ensures object_type_extension { IsExact ⟦<ObjectTypeExtension as Clone>⟧.is_clone }
    ensures interface_type_extension { IsExact ⟦<InterfaceTypeExtension as Clone>⟧.is_clone }
    ensures union_type_extension { IsExact ⟦<UnionTypeExtension as Clone>⟧.is_clone }
    ensures enum_type_extension { IsExact ⟦<EnumTypeExtension as Clone>⟧.is_clone }
    ensures input_object_type_extension { IsExact ⟦<InputObjectTypeExtension as Clone>⟧.is_clone }
    ensures source_file { IsExact ⟦<SourceFile as Clone>⟧.is_clone }
    ensures source_span { IsExact ⟦<SourceSpan as Clone>⟧.is_clone }
    ensures line_column { IsExact ⟦<LineColumn as Clone>⟧.is_clone }
    ensures file_id { IsExact ⟦<FileId as Clone>⟧.is_clone }
    ensures operation_type { IsExact ⟦<OperationType as Clone>⟧.is_clone }
    ensures type_kind { IsExact ⟦<TypeKind as Clone>⟧.is_clone }
    ensures directive_location { IsExact ⟦<DirectiveLocation as Clone>⟧.is_clone }
    ensures hash_keys { IsExact ⟦<HashKeys as Clone>⟧.is_clone }
    ensures argument_by_name_error { IsExact ⟦<ArgumentByNameError as Clone>⟧.is_clone }
    ensures document { IsExact ⟦<Document as Clone>⟧.is_clone }
{}

/// What a definition says, made into a definition, is the definition again. What is made of a declaration
/// says what a definition can say of it. These are the parts that its kind has, and of an extension no
/// description.
pub fn declarations_are_definitions()
    ensures made_again { (definition : Definition) → made (declaration_of definition) ≡ definition }
    ensures read_again { (declaration : Declaration)
        → declaration_of (made declaration) ≡ sayable declaration }
{}

/// What a definition without its locations says is what the definition says, without its locations.
pub fn bare_definitions_are_read_bare()
    ensures { (definition : Definition) →
        declaration_of (bare_definition definition) ≡ bare_declaration (declaration_of definition) }
{}

/// The type of a variable and that of a location where it stands are compatible as `AreTypesCompatible` of
/// section 5.8.5 says, step by step. A non-null location takes no variable of a nullable type. Else the two
/// are compared without their non-null. A list location takes lists alone, by the types of their items, and
/// no other location takes a list. Else the two have one name.
pub fn compatibility_of_types()
    ensures nullable_at_non_null { (variable location : TypeReference) → is_required location ≡ true
        → is_required variable ≡ false → are_types_compatible variable location ≡ false }
    ensures both_non_null { (variable location : TypeReference) → is_required location ≡ true
        → is_required variable ≡ true → are_types_compatible variable location
        ≡ are_types_compatible (made_nullable variable) (made_nullable location) }
    ensures non_null_at_nullable { (variable location : TypeReference) → is_required location ≡ false
        → is_required variable ≡ true → are_types_compatible variable location
        ≡ are_types_compatible (made_nullable variable) location }
    ensures lists { (variable location : TypeReference) → is_required location ≡ false
        → is_required variable ≡ false → is_list location ≡ true → is_list variable ≡ true
        → are_types_compatible variable location
        ≡ are_types_compatible (item_type variable) (item_type location) }
    ensures one_list { (variable location : TypeReference) → is_required location ≡ false
        → is_required variable ≡ false → is_list location ≢ is_list variable
        → are_types_compatible variable location ≡ false }
    ensures names { (variable location : TypeReference) → is_required location ≡ false
        → is_required variable ≡ false → is_list location ≡ false → is_list variable ≡ false
        → are_types_compatible variable location ≡ same_text (inner_name variable) (inner_name location) }
{}
