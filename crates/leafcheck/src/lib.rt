//! Leaf field selections: whether each field of a typed document has subselections exactly where its type
//! asks for them. GraphQL specification of October 2021, section 5.3.3.
//!
//! It stands on public contracts of schemas, typed documents and the faults of their build alone, as a
//! validator outside this repository would.
//!
//! Proved: exactly the fields that lack subselections or must not have them are reported, over any schema and
//! document.
//!
//! Not proved: any other rule of validation, as nothing looks at these.
#![tactic(auto)]

mod around;
pub mod checking;
pub mod laws;
pub mod leaf_fault;
pub mod lost_selections;
mod places;
pub mod reporting;

pub use crate::checking::leaf_faults;
pub use crate::leaf_fault::{LeafFault, LeafKind};
pub use crate::lost_selections::LostSelections;
pub use apollo_document::selection_path::{ExecutableDefinitionName, SelectionPath};
pub use apollo_executable::document::ExecutableDocument;
pub use apollo_schema::schema::Schema;
pub use graphql_nodes::name::{Name, NamedType};
pub use graphql_nodes::source::SourceSpan;
