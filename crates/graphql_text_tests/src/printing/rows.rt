//! What a text is read as, and whether it is printed so: by `Display`, and by the call that makes a text.

use graphql_ast::definition::Definition;
use graphql_ast::document::Document;
use graphql_ast::type_system::InputValueDefinition;
use graphql_nodes::collections::items::Items;
use graphql_nodes::node::Node;
use graphql_nodes::source::FileId;
use graphql_printing::members::{
    enum_value, enum_value_text, field, field_text, input_value, input_value_text,
};
use graphql_printing::printing::{
    definition, definition_text, definitions, definitions_text, document_text, fragment,
    fragment_text, operation, operation_text, selections, selections_text, text, ty, type_text,
    value, value_text,
};
use graphql_text::parsing::{
    ParseOptions, parse_definitions, parse_selections, parse_type, parse_value,
};
use std::alloc::{AllocError, Global};
use std::process::Abort;

/// What a text is read as, and what of that is printed.
#[derive(Clone, Copy)]
pub enum Sort {
    Value,
    Type,
    Selections,
    /// The only definition, by the call for operations or the one for fragments.
    Executable,
    /// The only definition, by the call for any sort.
    Definition,
    /// The first field, argument, input field or enum value of the only definition.
    Member,
    Definitions,
    Document,
}

/// Whether a tree is printed so, by its `Display` and by the call that makes its text.
macro_rules! prints {
    ($alloc:expr, $printed:expr; $tree:expr, $made:expr) => {{
        let mut shown = String::new($alloc);
        write!(shown, "{}", $tree)?;
        Ok($made?.as_str() == $printed && shown.as_str() == $printed)
    }};
}

/// Whether the first of these arguments or input fields is printed so.
fn is_input_value(
    alloc: Global,
    inputs: &[Node<InputValueDefinition>],
    printed: &str,
) -> Result<bool, AllocError> {
    match inputs.first() {
        Some(first) => prints!(alloc, printed; input_value(first), input_value_text(alloc, first)),
        None => Ok(false),
    }
}

/// Whether the first of what stands in this definition is printed so.
fn is_member(alloc: Global, read: &Definition, printed: &str) -> Result<bool, AllocError> {
    match read {
        Definition::ObjectTypeDefinition(node) => match node.fields.as_slice().first() {
            Some(first) => prints!(alloc, printed; field(first), field_text(alloc, first)),
            None => Ok(false),
        },
        Definition::EnumTypeDefinition(node) => match node.values.as_slice().first() {
            Some(first) =>
                prints!(alloc, printed; enum_value(first), enum_value_text(alloc, first)),
            None => Ok(false),
        },
        Definition::InputObjectTypeDefinition(node) => {
            is_input_value(alloc, node.fields.as_slice(), printed)
        }
        Definition::DirectiveDefinition(node) => {
            is_input_value(alloc, node.arguments.as_slice(), printed)
        }
        _ => Ok(false),
    }
}

/// Whether this operation or fragment is printed so.
fn is_executable(alloc: Global, read: &Definition, printed: &str) -> Result<bool, AllocError> {
    match read {
        Definition::OperationDefinition(node) => {
            prints!(alloc, printed; operation(node), operation_text(alloc, node))
        }
        Definition::FragmentDefinition(node) => {
            prints!(alloc, printed; fragment(node), fragment_text(alloc, node))
        }
        _ => Ok(false),
    }
}

/// Whether what is asked of these definitions is printed so.
fn are_printed(
    alloc: Global,
    sort: Sort,
    read: Items<Definition>,
    printed: &str,
) -> Result<bool, AllocError> {
    match (sort, read.as_slice()) {
        (Sort::Document, _) => {
            let document = Document::from_definitions(alloc, read.into_vec());
            prints!(alloc, printed; text(&document), document_text(alloc, &document))
        }
        (Sort::Definitions, all) => {
            prints!(alloc, printed; definitions(all), definitions_text(alloc, all))
        }
        (Sort::Executable, [only]) => is_executable(alloc, only, printed),
        (Sort::Member, [only]) => is_member(alloc, only, printed),
        (_, [only]) => prints!(alloc, printed; definition(only), definition_text(alloc, only)),
        _ => Ok(false),
    }
}

/// Whether what this text is read as is printed so.
fn is_printed(alloc: Global, sort: Sort, source: &str, printed: &str) -> Result<bool, AllocError> {
    let (file, options) = (FileId(1), ParseOptions::new());
    match sort {
        Sort::Value => match parse_value(alloc, file, source, options) {
            Ok(read) => prints!(alloc, printed; value(&read), value_text(alloc, &read)),
            Err(_) => Ok(false),
        },
        Sort::Type => match parse_type(alloc, file, source, options) {
            Ok(read) => prints!(alloc, printed; ty(&read), type_text(alloc, &read)),
            Err(_) => Ok(false),
        },
        Sort::Selections => match parse_selections(alloc, file, source, options) {
            Ok(read) => {
                let read = read.as_slice();
                prints!(alloc, printed; selections(read), selections_text(alloc, read))
            }
            Err(_) => Ok(false),
        },
        _ => match parse_definitions(alloc, file, source, options) {
            Ok(read) => are_printed(alloc, sort, read, printed),
            Err(_) => Ok(false),
        },
    }
}

/// Asserts of each row that what the text is read as is printed so.
pub fn assert_printed(rt: &impl Abort, alloc: Global, sort: Sort, rows: &[(&str, &str)]) {
    for (source, printed) in rows {
        assert!(rt;
            is_printed(alloc, sort, *source, *printed) == Ok(true),
            "{source}"
        );
    }
}
