//! Trees, in full and in order. A node is the bytes that it stands at, and then what it holds. A name, a text
//! or a keyword is a word. `-` is what isn't there, and a list stands in brackets. Each word has a space
//! behind it.

use graphql_ast::directive::{Argument, Directive, DirectiveList};
use graphql_ast::operation::VariableDefinition;
use graphql_ast::selection::{Field, FragmentSpread, InlineFragment, Selection};
use graphql_ast::type_reference::Type;
use graphql_ast::value::Value;
use graphql_nodes::collections::items::Items;
use graphql_nodes::directive_location::DirectiveLocation;
use graphql_nodes::name::Name;
use graphql_nodes::node::Node;
use graphql_nodes::node_str::NodeStr;
use graphql_nodes::operation_type::OperationType;
use graphql_nodes::source::SourceSpan;
use std::alloc::AllocError;

/// What can be written as a tree.
pub(crate) trait Tell {
    /// Adds all of it. The error is out of memory.
    fn tell(&self, text: &mut String) -> Result<(), AllocError>;
}

/// A word is written as it is.
impl Tell for &str {
    fn tell(&self, text: &mut String) -> Result<(), AllocError> {
        write!(text, "{self} ")
    }
}

/// Where something stands.
pub(crate) fn push_place(
    text: &mut String,
    location: Option<SourceSpan>,
) -> Result<(), AllocError> {
    match location {
        Some(span) => {
            let (start, end) = (span.start, span.end);
            write!(text, "{start}..{end} ")
        }
        None => text.push_str("nowhere "),
    }
}

/// Tells a string value, escaped so that it is one line of ASCII.
pub(crate) fn push_string(text: &mut String, value: &str) -> Result<(), AllocError> {
    write!(text, "\"{}\" ", value.escape_default())
}

impl Tell for Name {
    fn tell(&self, text: &mut String) -> Result<(), AllocError> {
        self.as_str().tell(text)?;
        push_place(text, self.location())
    }
}

impl Tell for NodeStr {
    fn tell(&self, text: &mut String) -> Result<(), AllocError> {
        push_string(text, self.as_str())?;
        push_place(text, self.location())
    }
}

impl<T: Tell> Tell for Option<T> {
    fn tell(&self, text: &mut String) -> Result<(), AllocError> {
        match self {
            Some(value) => value.tell(text),
            None => text.push_str("- "),
        }
    }
}

impl<T: Tell> Tell for Node<T> {
    fn tell(&self, text: &mut String) -> Result<(), AllocError> {
        push_place(text, self.location())?;
        (**self).tell(text)
    }
}

impl<'a, T: Tell> Tell for &'a [T] {
    fn tell(&self, text: &mut String) -> Result<(), AllocError> {
        text.push_str("[ ")?;
        for value in *self {
            value.tell(text)?;
        }
        text.push_str("] ")
    }
}

impl<T: Tell> Tell for Items<T> {
    fn tell(&self, text: &mut String) -> Result<(), AllocError> {
        self.as_slice().tell(text)
    }
}

impl<A: Tell, B: Tell> Tell for (A, B) {
    fn tell(&self, text: &mut String) -> Result<(), AllocError> {
        tell!(text; self.0, self.1)
    }
}

impl Tell for Type {
    #[cycle(tell_type)]
    fn tell(&self, text: &mut String) -> Result<(), AllocError> {
        match self {
            Type::Named(name) => tell!(text; name, "?"),
            Type::NonNullNamed(name) => tell!(text; name, "!"),
            Type::List(inner) => tell!(text; "[", **inner, "]?"),
            Type::NonNullList(inner) => tell!(text; "[", **inner, "]!"),
        }
    }
}

impl Tell for Value {
    #[cycle(tell_value)]
    fn tell(&self, text: &mut String) -> Result<(), AllocError> {
        match self {
            Value::Null => "null".tell(text),
            Value::Enum(name) => tell!(text; "enum", name),
            Value::Variable(name) => tell!(text; "$", name),
            Value::String(value) => push_string(text, value.as_str()),
            Value::Float(number) => tell!(text; "float", number.as_str()),
            Value::Int(number) => tell!(text; "int", number.as_str()),
            Value::Boolean(value) => write!(text, "{value} "),
            Value::List(items) => tell!(text; "list", items),
            Value::Object(members) => tell!(text; "object", members),
        }
    }
}

impl Tell for Argument {
    fn tell(&self, text: &mut String) -> Result<(), AllocError> {
        tell!(text; self.name, self.value)
    }
}

impl Tell for Directive {
    fn tell(&self, text: &mut String) -> Result<(), AllocError> {
        tell!(text; self.name, self.arguments)
    }
}

impl Tell for DirectiveList {
    fn tell(&self, text: &mut String) -> Result<(), AllocError> {
        self.0.tell(text)
    }
}

impl Tell for DirectiveLocation {
    fn tell(&self, text: &mut String) -> Result<(), AllocError> {
        self.name().tell(text)
    }
}

impl Tell for OperationType {
    fn tell(&self, text: &mut String) -> Result<(), AllocError> {
        self.name().tell(text)
    }
}

impl Tell for VariableDefinition {
    fn tell(&self, text: &mut String) -> Result<(), AllocError> {
        tell!(text; self.name, self.ty, self.default_value, self.directives)
    }
}

impl Tell for FragmentSpread {
    fn tell(&self, text: &mut String) -> Result<(), AllocError> {
        tell!(text; "spread", self.fragment_name, self.directives)
    }
}

impl Tell for Field {
    #[cycle(tell_selection)]
    fn tell(&self, text: &mut String) -> Result<(), AllocError> {
        tell!(text; "field", self.alias, self.name, self.arguments)?;
        tell!(text; self.directives, self.selection_set)
    }
}

impl Tell for InlineFragment {
    #[cycle(tell_selection)]
    fn tell(&self, text: &mut String) -> Result<(), AllocError> {
        tell!(text; "inline", self.type_condition, self.directives, self.selection_set)
    }
}

impl Tell for Selection {
    #[cycle(tell_selection)]
    fn tell(&self, text: &mut String) -> Result<(), AllocError> {
        match self {
            Selection::Field(node) => node.tell(text),
            Selection::FragmentSpread(node) => node.tell(text),
            Selection::InlineFragment(node) => node.tell(text),
        }
    }
}
