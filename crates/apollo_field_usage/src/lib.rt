//! Which fields an operation reaches, and how often: GraphQL specification of October 2021, sections 2.3
//! to 2.8.
//!
//! A field goes by its coordinate: the type of the set in which it stands, and its name. So `me { name }`
//! on a schema's query type reaches `Query.me` and `User.name`, wherever they stand, and under whatever
//! alias.
//!
//! Proved: the fields that an operation reaches, each once, in the order of walks, with how often.
#![tactic(auto)]

pub mod counting;
pub mod laws;
mod marks;
mod occurrence;
mod open_sets;
mod reached;
mod tallies;

pub use crate::counting::{FieldUsage, field_usage};
pub use apollo_coordinate::TypeAttributeCoordinate;
pub use apollo_executable::document::ExecutableDocument;
pub use apollo_executable::operation::Operation;
