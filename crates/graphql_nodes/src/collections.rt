//! The standard containers, each behind a small type that contracts see as plain data: a list, bytes, a value
//! or a list of entries.
//!
//! Each is made from the container and gives it back without taking memory. Only tables and sets of at most
//! eight keys, which stand in lists, take memory for an `IndexMap` or `IndexSet` of them.

pub mod boxed;
pub mod elements;
pub mod hash_keys;
pub mod items;
pub mod key_set;
pub mod shared;
pub mod static_text;
pub mod table;
pub mod text;
