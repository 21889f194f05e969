//! Tests of components and types, and of lookups in schemas: that calls succeed with enough memory, and texts.
//! Also what tests of schemas and coordinates make.

mod components;
mod directives;
mod kinds;
mod lookups;
pub mod schemas;
