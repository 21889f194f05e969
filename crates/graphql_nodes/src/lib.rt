//! What syntax trees are made of: names, nodes with locations, the containers of trees, and the small enums
//! of GraphQL.
//!
//! Cloning a node shares its value, comparing nodes leaves locations out, and
//! [`Node::make_mut`](node::Node::make_mut) writes to a node without changing those that share its value.
//!
//! Proved: names are those of the grammar; `==` ignores locations; ordered tables, sets and lists do what
//! their comments say. An offset has the right line and column, also by an index; what is shown of a text has
//! no control character but tab.
//!
//! No clause: `HashKeys::drawn`, as the trait of sources promises nothing of the bytes, nor of when it fails.
//! `Table::hash_keys`, `KeySet::hash_keys` and `FewKeys::hash_keys`, as no clause sees keys.
//! `Table::allocator` and `FewEntries::allocator`, as none sees where memory comes from. `SeenNames::new` and
//! `SeenNames::place`, as which names were seen changes no answer.
#![tactic(auto)]

mod by_fields;
pub mod collections;
pub mod directive_location;
mod kept_location;
pub mod laws;
pub mod line_column;
pub mod line_index;
pub mod name;
mod name_text;
pub mod named;
pub mod node;
pub mod node_str;
pub mod operation_type;
pub mod place;
pub mod source;
pub mod type_kind;
pub mod visible_text;

pub use crate::collections::boxed::Boxed;
pub use crate::collections::hash_keys::HashKeys;
pub use crate::collections::items::Items;
pub use crate::collections::key_set::KeySet;
pub use crate::collections::shared::Shared;
pub use crate::collections::static_text::StaticText;
pub use crate::collections::table::Table;
pub use crate::collections::text::Text;
pub use crate::directive_location::DirectiveLocation;
pub use crate::line_column::LineColumn;
pub use crate::line_index::LineIndex;
pub use crate::name::seen_names::SeenNames;
pub use crate::name::{InvalidNameError, Name, NameError, NamedType};
pub use crate::named::Named;
pub use crate::node::Node;
pub use crate::node_str::NodeStr;
pub use crate::operation_type::OperationType;
pub use crate::place::Place;
pub use crate::source::{FileId, SourceFile, SourceMap, SourceSpan};
pub use crate::type_kind::TypeKind;
pub use crate::visible_text::{VisibleText, visible};
