//! The syntax tree. Each definition has its line.

use crate::containers::{At, Enclosed, tell_all, tell_enclosed};
use crate::{Tell, Told};
use graphql_ast::declaration_ref::{DeclarationRef, SchemaDeclarationRef, TypeDeclarationRef};
use graphql_ast::definition::Definition;
use graphql_ast::directive::{Argument, Directive, DirectiveList};
use graphql_ast::document::Document;
use graphql_ast::operation::{FragmentDefinition, OperationDefinition, VariableDefinition};
use graphql_ast::parts::PartsRef;
use graphql_ast::selection::{Field, FragmentSpread, InlineFragment, Selection};
use graphql_ast::type_reference::Type;
use graphql_ast::type_system::{
    DirectiveDefinition, EnumValueDefinition, FieldDefinition, InputValueDefinition,
};
use graphql_ast::value::Value;
use graphql_nodes::collections::items::Items;
use graphql_nodes::name::{Name, NamedType};
use graphql_nodes::node::Node;
use graphql_nodes::node_str::NodeStr;
use graphql_nodes::operation_type::OperationType;

impl Tell for Type {
    #[cycle(tell_type)]
    fn tell(&self, text: &mut String) -> Told {
        match self {
            Type::Named(name) => name.tell(text),
            Type::NonNullNamed(name) => tell!(text; name, "! "),
            Type::List(inner) => tell!(text; "[ ", **inner, "] "),
            Type::NonNullList(inner) => tell!(text; "[ ", **inner, "]! "),
        }
    }
}

impl Tell for Value {
    #[cycle(tell_value)]
    fn tell(&self, text: &mut String) -> Told {
        match self {
            Value::Enum(name) => tell!(text; "enum ", name),
            Value::Variable(name) => tell!(text; "$ ", name),
            Value::List(items) => tell!(text; "[ ", items, "] "),
            Value::Object(members) => tell_members(text, members),
            _ => write!(text, "{self:?} "),
        }
    }
}

/// Tells the members of an object.
#[cycle(tell_value)]
fn tell_members(text: &mut String, members: &Items<(Name, Node<Value>)>) -> Told {
    text.push_str("{ ")?;
    for (name, value) in members {
        tell!(text; name, value)?;
    }
    text.push_str("} ")
}

impl Tell for Argument {
    fn tell(&self, text: &mut String) -> Told {
        tell!(text; self.name, self.value)
    }
}

impl Tell for Directive {
    fn tell(&self, text: &mut String) -> Told {
        tell!(text; "@ ", self.name, Enclosed(&self.arguments))
    }
}

impl Tell for DirectiveList {
    fn tell(&self, text: &mut String) -> Told {
        self.as_slice().tell(text)
    }
}

impl Tell for InputValueDefinition {
    fn tell(&self, text: &mut String) -> Told {
        tell!(text; self.description, self.name, self.ty, self.default_value, self.directives)
    }
}

impl Tell for FieldDefinition {
    fn tell(&self, text: &mut String) -> Told {
        let arguments = Enclosed(&self.arguments);
        tell!(text; self.description, self.name, arguments, self.ty, self.directives)
    }
}

impl Tell for EnumValueDefinition {
    fn tell(&self, text: &mut String) -> Told {
        tell!(text; self.description, self.value, self.directives)
    }
}

impl Tell for DirectiveDefinition {
    fn tell(&self, text: &mut String) -> Told {
        tell!(text; "directive ", self.description, self.name, Enclosed(&self.arguments))?;
        let (repeatable, locations) = (self.repeatable, &self.locations);
        write!(text, "{repeatable} {locations:?}\n")
    }
}

/// A root of an operation.
impl Tell for (OperationType, NamedType) {
    fn tell(&self, text: &mut String) -> Told {
        tell!(text; self.0.name(), " ", self.1)
    }
}

/// A sort that the kind does not have has no part to tell.
impl<'a> Tell for PartsRef<'a> {
    fn tell(&self, text: &mut String) -> Told {
        tell_all(self.directives, text)?;
        tell_all(self.names, text)?;
        tell_enclosed(self.fields, text)?;
        tell_all(self.values, text)?;
        tell_all(self.input_fields, text)?;
        tell_all(self.roots, text)
    }
}

/// A description that is borrowed, where there is one.
fn tell_description(text: &mut String, description: Option<&NodeStr>) -> Told {
    match description {
        Some(description) => description.tell(text),
        None => Ok(()),
    }
}

impl<'a> Tell for TypeDeclarationRef<'a> {
    fn tell(&self, text: &mut String) -> Told {
        let (word, kind) = (if self.is_extension { "ext" } else { "def" }, self.kind);
        At(self.location).tell(text)?;
        write!(text, "{word} {kind:?} ")?;
        tell_description(text, self.description)?;
        tell!(text; self.name, self.parts, "\n")
    }
}

impl<'a> Tell for SchemaDeclarationRef<'a> {
    fn tell(&self, text: &mut String) -> Told {
        let word = if self.is_extension {
            "ext-schema "
        } else {
            "schema "
        };
        tell!(text; At(self.location), word)?;
        tell_description(text, self.description)?;
        tell!(text; self.parts, "\n")
    }
}

impl Tell for Definition {
    fn tell(&self, text: &mut String) -> Told {
        match DeclarationRef::of(self) {
            DeclarationRef::Type(declaration) => declaration.tell(text),
            DeclarationRef::Schema(declaration) => declaration.tell(text),
            DeclarationRef::Directive(node) => node.tell(text),
            DeclarationRef::Operation(node) => node.tell(text),
            DeclarationRef::Fragment(node) => node.tell(text),
        }
    }
}

/// The sources, and the definitions.
impl Tell for Document {
    fn tell(&self, text: &mut String) -> Told {
        tell!(text; self.sources, self.definitions)
    }
}

impl Tell for VariableDefinition {
    fn tell(&self, text: &mut String) -> Told {
        tell!(text; self.name, self.ty, self.default_value, self.directives)
    }
}

impl Tell for OperationDefinition {
    fn tell(&self, text: &mut String) -> Told {
        tell!(text; self.operation_type.name(), " ", self.name, Enclosed(&self.variables))?;
        tell!(text; self.directives, "{ ", self.selection_set, "}\n")
    }
}

impl Tell for FragmentDefinition {
    fn tell(&self, text: &mut String) -> Told {
        tell!(text; "fragment ", self.name, self.type_condition, self.directives)?;
        tell!(text; "{ ", self.selection_set, "}\n")
    }
}

impl Tell for FragmentSpread {
    fn tell(&self, text: &mut String) -> Told {
        tell!(text; "... ", self.fragment_name, self.directives)
    }
}

impl Tell for Field {
    #[cycle(tell_selection)]
    fn tell(&self, text: &mut String) -> Told {
        tell!(text; self.alias, self.name, Enclosed(&self.arguments), self.directives)?;
        tell!(text; "{ ", self.selection_set, "} ")
    }
}

impl Tell for InlineFragment {
    #[cycle(tell_selection)]
    fn tell(&self, text: &mut String) -> Told {
        tell!(text; "...on ", self.type_condition, self.directives)?;
        tell!(text; "{ ", self.selection_set, "} ")
    }
}

impl Tell for Selection {
    #[cycle(tell_selection)]
    fn tell(&self, text: &mut String) -> Told {
        match self {
            Selection::Field(node) => node.tell(text),
            Selection::FragmentSpread(node) => node.tell(text),
            Selection::InlineFragment(node) => node.tell(text),
        }
    }
}
