//! Trees as text.
ghost use Rattle.std.specs.Prelude.{◌≡◌, IfOk, Some, false, string_bytes};
ghost use Rattle.graphql_printing.specs.Documents.{definition_text, definitions_text};
ghost use Rattle.graphql_printing.specs.Operations.{fragment_definition_text, operation_definition_text};
ghost use Rattle.graphql_printing.specs.Selections.{selections_text};
ghost use Rattle.graphql_printing.specs.Texts.{type_text, value_text};

use crate::documents::{write_definition, write_definitions};
use crate::operations::{write_fragment, write_operation};
use crate::selections::write_selections;
use crate::types::write_type;
use crate::values::write_value;
use graphql_ast::definition::Definition;
use graphql_ast::document::Document;
use graphql_ast::operation::{FragmentDefinition, OperationDefinition};
use graphql_ast::selection::Selection;
use graphql_ast::type_reference::Type;
use graphql_ast::value::Value;
use std::alloc::{AllocError, Global};
use std::fmt;

/// A value that is printed as its text.
#[derive(Clone, Copy)]
pub struct ValueText<'a>(&'a Value);

impl<'a> fmt::Display for ValueText<'a> {
    ghost output = { λ it. Some (value_text it.0.now) };

    fn fmt<W: fmt::Write>(&self, f: &mut fmt::Formatter<W>) -> fmt::Result {
        write_value(f, self.0)
    }
}

/// A type that is printed as its text.
#[derive(Clone, Copy)]
pub struct TypeText<'a>(&'a Type);

impl<'a> fmt::Display for TypeText<'a> {
    ghost output = { λ it. Some (type_text it.0.now) };

    fn fmt<W: fmt::Write>(&self, f: &mut fmt::Formatter<W>) -> fmt::Result {
        write_type(f, self.0)
    }
}

/// Selections that are printed as their text.
#[derive(Clone, Copy)]
pub struct SelectionsText<'a>(&'a [Selection]);

impl<'a> fmt::Display for SelectionsText<'a> {
    ghost output = { λ it. Some (selections_text 0 it.0.now) };

    fn fmt<W: fmt::Write>(&self, f: &mut fmt::Formatter<W>) -> fmt::Result {
        write_selections(f, "{", self.0, 0)
    }
}

/// An operation that is printed as its text.
#[derive(Clone, Copy)]
pub struct OperationText<'a>(&'a OperationDefinition);

impl<'a> fmt::Display for OperationText<'a> {
    ghost output = { λ it. Some (operation_definition_text it.0.now) };

    fn fmt<W: fmt::Write>(&self, f: &mut fmt::Formatter<W>) -> fmt::Result {
        write_operation(f, self.0)
    }
}

/// A fragment that is printed as its text.
#[derive(Clone, Copy)]
pub struct FragmentText<'a>(&'a FragmentDefinition);

impl<'a> fmt::Display for FragmentText<'a> {
    ghost output = { λ it. Some (fragment_definition_text it.0.now) };

    fn fmt<W: fmt::Write>(&self, f: &mut fmt::Formatter<W>) -> fmt::Result {
        write_fragment(f, self.0)
    }
}

/// A definition or extension that is printed as its text.
#[derive(Clone, Copy)]
pub struct DefinitionText<'a>(&'a Definition);

impl<'a> fmt::Display for DefinitionText<'a> {
    ghost output = { λ it. Some (definition_text false it.0.now) };

    fn fmt<W: fmt::Write>(&self, f: &mut fmt::Formatter<W>) -> fmt::Result {
        write_definition(f, self.0, false)
    }
}

/// Definitions that are printed as their text.
#[derive(Clone, Copy)]
pub struct DefinitionsText<'a>(&'a [Definition]);

impl<'a> fmt::Display for DefinitionsText<'a> {
    ghost output = { λ it. Some (definitions_text it.0.now) };

    fn fmt<W: fmt::Write>(&self, f: &mut fmt::Formatter<W>) -> fmt::Result {
        write_definitions(f, self.0)
    }
}

/// A value, to be printed: `Display` writes its text, and takes no memory.
pub fn value<'a>(value: &'a Value) -> ValueText<'a>
    ensures { result.0.now ≡ value.now }
{
    ValueText(value)
}

/// A type, to be printed: `Display` writes its text, and takes no memory.
pub fn ty<'a>(ty: &'a Type) -> TypeText<'a>
    ensures { result.0.now ≡ ty.now }
{
    TypeText(ty)
}

/// Selections, to be printed in braces: `Display` writes their text, and takes no memory.
pub fn selections<'a>(selections: &'a [Selection]) -> SelectionsText<'a>
    ensures { result.0.now ≡ selections.now }
{
    SelectionsText(selections)
}

/// An operation, to be printed: `Display` writes its text, and takes no memory.
pub fn operation<'a>(operation: &'a OperationDefinition) -> OperationText<'a>
    ensures { result.0.now ≡ operation.now }
{
    OperationText(operation)
}

/// A fragment, to be printed: `Display` writes its text, and takes no memory.
pub fn fragment<'a>(fragment: &'a FragmentDefinition) -> FragmentText<'a>
    ensures { result.0.now ≡ fragment.now }
{
    FragmentText(fragment)
}

/// A definition or extension of any sort, to be printed: `Display` writes its text, and takes no memory.
pub fn definition<'a>(definition: &'a Definition) -> DefinitionText<'a>
    ensures { result.0.now ≡ definition.now }
{
    DefinitionText(definition)
}

/// Definitions, to be printed with an empty line between each two. `Display` writes their text, as that of a
/// document (see [`text`]), and takes no memory.
pub fn definitions<'a>(definitions: &'a [Definition]) -> DefinitionsText<'a>
    ensures { result.0.now ≡ definitions.now }
{
    DefinitionsText(definitions)
}

/// A document, to be printed: `Display` writes the text of its definitions, and takes no memory. An empty
/// line stands between each two, and no line end behind the last. The sources are left out.
///
/// The layout is that of `print` of graphql-js 16, with one exception. A query without name, variables and
/// directives keeps its keyword `query` behind a definition that would take its `{` for its own. `type T`
/// without fields is such a definition. Trees don't say which strings were block strings. Here a description
/// is one wherever it is read back as its text, and a value never is.
pub fn text<'a>(document: &'a Document) -> DefinitionsText<'a>
    ensures { result.0.now ≡ document.now.definitions }
{
    DefinitionsText(document.definitions.as_slice())
}

/// The text of a value. The error is out of memory.
pub fn value_text(alloc: Global, value: &Value) -> Result<String, AllocError>
    ensures { IfOk result (λ text. string_bytes text ≡ value_text value.now) }
{
    ValueText(value).to_string(alloc)
}

/// The text of a type. The error is out of memory.
pub fn type_text(alloc: Global, ty: &Type) -> Result<String, AllocError>
    ensures { IfOk result (λ text. string_bytes text ≡ type_text ty.now) }
{
    TypeText(ty).to_string(alloc)
}

/// The text of selections, in braces. The error is out of memory.
pub fn selections_text(alloc: Global, selections: &[Selection]) -> Result<String, AllocError>
    ensures { IfOk result (λ text. string_bytes text ≡ selections_text 0 selections.now) }
{
    SelectionsText(selections).to_string(alloc)
}

/// The text of an operation. The error is out of memory.
pub fn operation_text(alloc: Global, operation: &OperationDefinition) -> Result<String, AllocError>
    ensures { IfOk result (λ text. string_bytes text ≡ operation_definition_text operation.now) }
{
    OperationText(operation).to_string(alloc)
}

/// The text of a fragment. The error is out of memory.
pub fn fragment_text(alloc: Global, fragment: &FragmentDefinition) -> Result<String, AllocError>
    ensures { IfOk result (λ text. string_bytes text ≡ fragment_definition_text fragment.now) }
{
    FragmentText(fragment).to_string(alloc)
}

/// The text of a definition or extension of any sort. The error is out of memory.
pub fn definition_text(alloc: Global, definition: &Definition) -> Result<String, AllocError>
    ensures { IfOk result (λ text. string_bytes text ≡ definition_text false definition.now) }
{
    DefinitionText(definition).to_string(alloc)
}

/// The text of definitions, with an empty line between each two. The error is out of memory.
pub fn definitions_text(alloc: Global, definitions: &[Definition]) -> Result<String, AllocError>
    ensures { IfOk result (λ text. string_bytes text ≡ definitions_text definitions.now) }
{
    DefinitionsText(definitions).to_string(alloc)
}

/// The text of a document, as [`text`] writes it. The error is out of memory.
pub fn document_text(alloc: Global, document: &Document) -> Result<String, AllocError>
    ensures { IfOk result (λ text. string_bytes text ≡ definitions_text document.now.definitions) }
{
    text(document).to_string(alloc)
}
