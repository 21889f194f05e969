//! Definitions as text.
ghost use Rattle.std.specs.Prelude.{◌≡◌, ◌++◌, OnOk, IfOk, codes, string_bytes};
ghost use Rattle.graphql_ast.specs.DeclarationsSeen.{declaration_seen};
ghost use Rattle.graphql_ast.specs.PartsSeen.{parts_seen};
ghost use Rattle.bench_notation.specs.Text.{word_line, named_line, typed_line, directives_text, names_text};
ghost use Rattle.bench_notation.specs.Text.{arguments_text, field_line_text, field_definition_text};
ghost use Rattle.bench_notation.specs.Text.{fields_text, input_fields_text, parts_text, values_text};
ghost use Rattle.bench_notation.specs.Text.{type_head_text, schema_head_text, operation_head_text};
ghost use Rattle.bench_notation.specs.Text.{fragment_head_text, header_text, body_text, directive_body_text};
ghost use Rattle.bench_notation.specs.Text.{root_text, roots_text, printed_definition, printed_definitions};

use crate::kind_words::{Role, kind_word};
use crate::pushing::Pushed;
use crate::selection_printing::push_selections;
use crate::type_notation::push_type;
use graphql_ast::declaration_ref::DeclarationRef;
use graphql_ast::definition::Definition;
use graphql_ast::directive::Directive;
use graphql_ast::operation::{FragmentDefinition, OperationDefinition};
use graphql_ast::parts::PartsRef;
use graphql_ast::type_reference::Type;
use graphql_ast::type_system::{
    DirectiveDefinition, EnumValueDefinition, FieldDefinition, InputValueDefinition,
};
use graphql_nodes::name::{Name, NamedType};
use graphql_nodes::node::Node;
use graphql_nodes::operation_type::OperationType;
use graphql_nodes::type_kind::TypeKind;
use std::alloc::{AllocError, Global};

/// The text of definitions and extensions, in order. What the notation has no line for is left out. The error
/// is out of memory.
pub fn print(alloc: Global, definitions: &[Definition]) -> Result<String, AllocError>
    ensures { IfOk result (λ text. string_bytes text ≡ printed_definitions definitions.now) }
{
    let mut text = String::new(alloc);
    for definition in definitions {
        push_definition(alloc, &mut text, definition)?;
    }
    Ok(text)
}

fn push_definition(alloc: Global, text: &mut String, definition: &Definition) -> Pushed
    ensures { OnOk result (string_bytes text.new
        ≡ string_bytes text.old ++ printed_definition definition.now) }
{
    let said = DeclarationRef::of(definition);
    push_header(text, &said)?;
    push_body(alloc, text, &said)
}

/// The header of a definition or extension, and its own directives.
fn push_header(text: &mut String, said: &DeclarationRef<'_>) -> Pushed
    ensures { OnOk result (string_bytes text.new
        ≡ string_bytes text.old ++ header_text (declaration_seen said.now)) }
{
    match said {
        DeclarationRef::Type(said) => {
            let role = Role::of(said.is_extension);
            push_head(text, role, said.kind, said.name, said.parts.directives)
        }
        DeclarationRef::Schema(said) => {
            push_schema_head(text, Role::of(said.is_extension), said.parts.directives)
        }
        DeclarationRef::Directive(item) => push_named_line(text, "directive ", &item.name),
        DeclarationRef::Operation(item) => push_operation_head(text, item),
        DeclarationRef::Fragment(item) => push_fragment_head(text, item),
    }
}

/// The lines below the header of a definition or extension, and below its own directives.
fn push_body(alloc: Global, text: &mut String, said: &DeclarationRef<'_>) -> Pushed
    ensures { OnOk result (string_bytes text.new
        ≡ string_bytes text.old ++ body_text (declaration_seen said.now)) }
{
    match said {
        DeclarationRef::Type(said) => push_parts(text, said.kind, said.parts),
        DeclarationRef::Schema(said) => push_roots(text, said.parts.roots),
        DeclarationRef::Directive(item) => push_directive_body(text, item),
        DeclarationRef::Operation(item) => {
            push_selections(alloc, text, item.selection_set.as_slice(), 0)
        }
        DeclarationRef::Fragment(item) => {
            push_selections(alloc, text, item.selection_set.as_slice(), 0)
        }
    }
}

/// What a type of this kind has besides directives.
fn push_parts(text: &mut String, kind: TypeKind, parts: PartsRef<'_>) -> Pushed
    ensures { OnOk result (string_bytes text.new
        ≡ string_bytes text.old ++ parts_text kind (parts_seen parts.entry)) }
{
    match kind {
        TypeKind::Scalar => Ok(()),
        TypeKind::Object | TypeKind::Interface => push_fields(text, parts.names, parts.fields),
        TypeKind::Union => push_names(text, "member ", parts.names),
        TypeKind::Enum => push_values(text, parts.values),
        TypeKind::InputObject => push_input_fields(text, parts.input_fields),
    }
}

/// The header of a type, and the directives of the type.
fn push_head(
    text: &mut String,
    role: Role,
    kind: TypeKind,
    name: &Name,
    directives: &[Node<Directive>],
) -> Pushed
    ensures { OnOk result (string_bytes text.new
        ≡ string_bytes text.old ++ type_head_text role kind name.now directives.now) }
{
    text.push_str(role.word())?;
    text.push_str(" ")?;
    text.push_str(kind_word(kind))?;
    push_named_line(text, " ", name)?;
    push_directives(text, "@ ", directives)
}

/// The header of the schema, and its directives.
fn push_schema_head(text: &mut String, role: Role, directives: &[Node<Directive>]) -> Pushed
    ensures { OnOk result (string_bytes text.new
        ≡ string_bytes text.old ++ schema_head_text role directives.now) }
{
    text.push_str(role.schema_word())?;
    text.push_str("\n")?;
    push_directives(text, "@ ", directives)
}

/// The header of an operation, and its directives.
fn push_operation_head(text: &mut String, item: &OperationDefinition) -> Pushed
    ensures { OnOk result (string_bytes text.new ≡ string_bytes text.old ++ operation_head_text item.now) }
{
    text.push_str("operation ")?;
    text.push_str(item.operation_type.name())?;
    text.push_str(" ")?;
    match &item.name {
        Some(name) => text.push_str(name.as_str())?,
        None => text.push_str("-")?,
    }
    text.push_str("\n")?;
    push_directives(text, "@ ", item.directives.as_slice())
}

/// The header of a fragment, and its directives.
fn push_fragment_head(text: &mut String, item: &FragmentDefinition) -> Pushed
    ensures { OnOk result (string_bytes text.new ≡ string_bytes text.old ++ fragment_head_text item.now) }
{
    text.push_str("fragment ")?;
    text.push_str(item.name.as_str())?;
    push_named_line(text, " ", &item.type_condition)?;
    push_directives(text, "@ ", item.directives.as_slice())
}

/// What an object or interface type has.
fn push_fields(text: &mut String, interfaces: &[Name], fields: &[Node<FieldDefinition>]) -> Pushed
    ensures { OnOk result (string_bytes text.new
        ≡ string_bytes text.old ++ fields_text interfaces.now fields.now) }
{
    push_names(text, "implements ", interfaces)?;
    for field in fields {
        push_field(text, field)?;
    }
    Ok(())
}

fn push_values(text: &mut String, values: &[Node<EnumValueDefinition>]) -> Pushed
    ensures { OnOk result (string_bytes text.new ≡ string_bytes text.old ++ values_text values.now) }
{
    for value in values {
        push_named_line(text, "value ", &value.value)?;
    }
    Ok(())
}

fn push_input_fields(text: &mut String, fields: &[Node<InputValueDefinition>]) -> Pushed
    ensures { OnOk result (string_bytes text.new ≡ string_bytes text.old ++ input_fields_text fields.now) }
{
    for field in fields {
        push_field_line(text, &field.name, &field.ty, field.directives.as_slice())?;
    }
    Ok(())
}

/// What the definition of a directive has.
fn push_directive_body(text: &mut String, item: &DirectiveDefinition) -> Pushed
    ensures { OnOk result (string_bytes text.new ≡ string_bytes text.old ++ directive_body_text item.now) }
{
    push_arguments(text, item.arguments.as_slice())?;
    if item.repeatable {
        text.push_str("repeatable\n")?;
    }
    for location in item.locations.as_slice() {
        push_line(text, "on ", location.name())?;
    }
    Ok(())
}

fn push_roots(text: &mut String, roots: &[Node<(OperationType, NamedType)>]) -> Pushed
    ensures { OnOk result (string_bytes text.new ≡ string_bytes text.old ++ roots_text roots.now) }
{
    for root in roots {
        push_root(text, root)?;
    }
    Ok(())
}

fn push_root(text: &mut String, root: &Node<(OperationType, NamedType)>) -> Pushed
    ensures { OnOk result (string_bytes text.new ≡ string_bytes text.old ++ root_text root.now) }
{
    let (operation, name) = &**root;
    text.push_str("root ")?;
    text.push_str(operation.name())?;
    push_named_line(text, " ", name)
}

fn push_directives(text: &mut String, word: &str, directives: &[Node<Directive>]) -> Pushed
    ensures { OnOk result (string_bytes text.new
        ≡ string_bytes text.old ++ directives_text word.now directives.now) }
{
    for directive in directives {
        push_named_line(text, word, &directive.name)?;
    }
    Ok(())
}

fn push_names(text: &mut String, word: &str, names: &[Name]) -> Pushed
    ensures { OnOk result (string_bytes text.new ≡ string_bytes text.old ++ names_text word.now names.now) }
{
    for name in names {
        push_named_line(text, word, name)?;
    }
    Ok(())
}

fn push_field(text: &mut String, field: &Node<FieldDefinition>) -> Pushed
    ensures { OnOk result (string_bytes text.new ≡ string_bytes text.old ++ field_definition_text field.now) }
{
    push_field_line(text, &field.name, &field.ty, field.directives.as_slice())?;
    push_arguments(text, field.arguments.as_slice())
}

/// A field, and its directives.
fn push_field_line(
    text: &mut String,
    name: &Name,
    ty: &Type,
    directives: &[Node<Directive>],
) -> Pushed
    ensures { OnOk result (string_bytes text.new
        ≡ string_bytes text.old ++ field_line_text name.now ty.now directives.now) }
{
    push_typed_line(text, "field ", name, ty)?;
    push_directives(text, "field@ ", directives)
}

fn push_arguments(text: &mut String, arguments: &[Node<InputValueDefinition>]) -> Pushed
    ensures { OnOk result (string_bytes text.new ≡ string_bytes text.old ++ arguments_text arguments.now) }
{
    for argument in arguments {
        push_typed_line(text, "arg ", &argument.name, &argument.ty)?;
    }
    Ok(())
}

fn push_named_line(text: &mut String, word: &str, name: &Name) -> Pushed
    ensures { OnOk result (string_bytes text.new ≡ string_bytes text.old ++ named_line word.now name.now) }
{
    push_line(text, word, name.as_str())
}

fn push_line(text: &mut String, first: &str, word: &str) -> Pushed
    ensures { OnOk result (string_bytes text.new ≡ string_bytes text.old ++ word_line first.now word.now) }
{
    text.push_str(first)?;
    text.push_str(word)?;
    text.push_str("\n")
}

fn push_typed_line(text: &mut String, word: &str, name: &Name, ty: &Type) -> Pushed
    ensures { OnOk result (string_bytes text.new
        ≡ string_bytes text.old ++ typed_line word.now name.now ty.now) }
{
    text.push_str(word)?;
    text.push_str(name.as_str())?;
    text.push_str(" ")?;
    push_type(text, ty)?;
    text.push_str("\n")
}
