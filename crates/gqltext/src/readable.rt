//! What texts are read as, and the text of each.

use crate::tree::Tell;
use graphql_ast::definition::Definition;
use graphql_ast::selection::Selection;
use graphql_ast::type_reference::Type;
use graphql_ast::value::Value;
use graphql_nodes::collections::items::Items;
use graphql_nodes::node::Node;
use graphql_nodes::source::FileId;
use graphql_printing::printing::{definitions_text, selections_text, type_text, value_text};
use graphql_text::parse_error::ParseError;
use graphql_text::parsing::{
    ParseOptions, parse_definitions, parse_selections, parse_type, parse_value,
};
use std::alloc::{AllocError, Global};

/// The number of the file that each text stands in.
const FILE: FileId = FileId(1);

/// What a text can be read as.
pub(crate) trait Readable: Tell + PartialEq + Drop + Sized {
    /// What this text is.
    fn read(alloc: Global, text: &str, options: ParseOptions) -> Result<Self, ParseError>;

    /// The text that is printed of it. The error is out of memory.
    fn printed(&self, alloc: Global) -> Result<String, AllocError>;
}

impl Readable for Items<Definition> {
    fn read(alloc: Global, text: &str, options: ParseOptions) -> Result<Self, ParseError> {
        parse_definitions(alloc, FILE, text, options)
    }

    fn printed(&self, alloc: Global) -> Result<String, AllocError> {
        definitions_text(alloc, self.as_slice())
    }
}

impl Readable for Items<Selection> {
    fn read(alloc: Global, text: &str, options: ParseOptions) -> Result<Self, ParseError> {
        parse_selections(alloc, FILE, text, options)
    }

    fn printed(&self, alloc: Global) -> Result<String, AllocError> {
        selections_text(alloc, self.as_slice())
    }
}

impl Readable for Type {
    fn read(alloc: Global, text: &str, options: ParseOptions) -> Result<Self, ParseError> {
        parse_type(alloc, FILE, text, options)
    }

    fn printed(&self, alloc: Global) -> Result<String, AllocError> {
        type_text(alloc, self)
    }
}

impl Readable for Node<Value> {
    fn read(alloc: Global, text: &str, options: ParseOptions) -> Result<Self, ParseError> {
        parse_value(alloc, FILE, text, options)
    }

    fn printed(&self, alloc: Global) -> Result<String, AllocError> {
        value_text(alloc, self)
    }
}
