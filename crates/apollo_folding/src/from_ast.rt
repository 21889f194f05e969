//! Types and the schema's definition from what documents say.

pub(crate) mod folding;
pub(crate) mod kind;
mod kinds;
pub(crate) mod schema_definition;
