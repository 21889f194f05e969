//! GraphQL text as trees, and trees as GraphQL text: GraphQL specification of October 2021, section 2 and
//! appendix B.

pub use crate::source_files::parse_file;
pub use graphql_printing::members::{
    enum_value, enum_value_text, field, field_text, input_value, input_value_text,
};
pub use graphql_printing::printing::{
    definition, definition_text, definitions, definitions_text, document_text, fragment,
    fragment_text, operation, operation_text, selections, selections_text, text, ty, type_text,
    value, value_text,
};
pub use graphql_text::parse_error::{ParseError, ParseErrorKind};
pub use graphql_text::parsing::{
    ParseOptions, parse_definitions, parse_document, parse_selections, parse_type, parse_value,
};
