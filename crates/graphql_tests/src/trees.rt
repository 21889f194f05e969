//! Tests of trees and of the notation: printed texts, examples from the specification, that calls and copies
//! succeed with enough memory, and that a write leaves the other tree.
//!
//! What a test compares stands in functions that borrow and answer whether it holds: these are cheap to
//! prove. What is dear to prove is what owns a tree or a definition, so generic functions own them, which are
//! proved once for all types. A closure, a function that is handed in and a test that answers `Fail` are each
//! proved as further functions.

mod arguments;
mod definitions;
mod directives;
mod documents;
mod notation;
mod parts;
mod selections;
mod types;
mod values;
