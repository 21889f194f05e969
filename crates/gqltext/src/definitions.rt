//! Definitions and extensions, and their parts.

use crate::tree::{Tell, push_place};
use graphql_ast::declaration_ref::{DeclarationRef, TypeDeclarationRef};
use graphql_ast::definition::Definition;
use graphql_ast::operation::{FragmentDefinition, OperationDefinition};
use graphql_ast::type_system::{
    DirectiveDefinition, EnumValueDefinition, FieldDefinition, InputValueDefinition,
};
use graphql_nodes::node_str::NodeStr;
use graphql_nodes::type_kind::TypeKind;
use std::alloc::AllocError;

impl Tell for OperationDefinition {
    fn tell(&self, text: &mut String) -> Result<(), AllocError> {
        tell!(text; self.operation_type, self.name, self.variables, self.directives)?;
        tell!(text; self.selection_set)
    }
}

impl Tell for FragmentDefinition {
    fn tell(&self, text: &mut String) -> Result<(), AllocError> {
        tell!(text; self.name, self.type_condition, self.directives, self.selection_set)
    }
}

impl Tell for DirectiveDefinition {
    fn tell(&self, text: &mut String) -> Result<(), AllocError> {
        tell!(text; self.description, self.name, self.arguments)?;
        write!(text, "{} ", self.repeatable)?;
        self.locations.tell(text)
    }
}

impl Tell for InputValueDefinition {
    fn tell(&self, text: &mut String) -> Result<(), AllocError> {
        tell!(text; self.description, self.name, self.ty, self.default_value, self.directives)
    }
}

impl Tell for FieldDefinition {
    fn tell(&self, text: &mut String) -> Result<(), AllocError> {
        tell!(text; self.description, self.name, self.arguments, self.ty, self.directives)
    }
}

impl Tell for EnumValueDefinition {
    fn tell(&self, text: &mut String) -> Result<(), AllocError> {
        tell!(text; self.description, self.value, self.directives)
    }
}

/// The description of a definition. An extension has no place for one.
fn tell_description(
    text: &mut String,
    is_extension: bool,
    description: Option<&NodeStr>,
) -> Result<(), AllocError> {
    match description {
        Some(description) => description.tell(text),
        None if is_extension => Ok(()),
        None => text.push_str("- "),
    }
}

/// The name and the parts, in the order of the specification: interfaces stand before the directives, and
/// members behind them.
fn tell_type(text: &mut String, ty: TypeDeclarationRef<'_>) -> Result<(), AllocError> {
    let (name, parts) = (ty.name, ty.parts);
    match ty.kind {
        TypeKind::Scalar => tell!(text; name, parts.directives),
        TypeKind::Object | TypeKind::Interface => {
            tell!(text; name, parts.names, parts.directives, parts.fields)
        }
        TypeKind::Union => tell!(text; name, parts.directives, parts.names),
        TypeKind::Enum => tell!(text; name, parts.directives, parts.values),
        TypeKind::InputObject => tell!(text; name, parts.directives, parts.input_fields),
    }
}

/// What the definition is called, where it stands, and what it says.
impl Tell for Definition {
    fn tell(&self, text: &mut String) -> Result<(), AllocError> {
        self.describe().tell(text)?;
        push_place(text, self.location())?;
        match DeclarationRef::of(self) {
            DeclarationRef::Type(ty) => {
                tell_description(text, ty.is_extension, ty.description)?;
                tell_type(text, ty)
            }
            DeclarationRef::Schema(schema) => {
                tell_description(text, schema.is_extension, schema.description)?;
                tell!(text; schema.parts.directives, schema.parts.roots)
            }
            DeclarationRef::Directive(node) => (**node).tell(text),
            DeclarationRef::Operation(node) => (**node).tell(text),
            DeclarationRef::Fragment(node) => (**node).tell(text),
        }
    }
}
