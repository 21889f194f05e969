//! Walks over the fields of a selection set, through inline fragments and named fragments: GraphQL
//! specification of October 2021, sections 2.8 and 6.3.2.
//!
//! A walk opens each fragment at the first spread of its name. It passes over spreads of names that are
//! opened or that no fragment has. So it ends on documents whose fragments lead to one another, and gives
//! each field that is reached as often as it stands there. It looks at no directive (`@skip`, `@include`) and
//! no type condition, and merges no fields. Of section 6.3.2 it keeps the order, and that each fragment is
//! visited once.

pub mod field_walk;
mod flags;
mod left;
mod open_lists;
pub(crate) mod walk;
