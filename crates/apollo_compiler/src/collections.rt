//! The containers of trees: lists, tables and sets that keep the order in which keys were first seen, and
//! shared or owned values. Tables and sets take [`HashKeys`], so that names from strangers can't be made to
//! collide.

pub use graphql_nodes::{Boxed, HashKeys, Items, KeySet, Shared, StaticText, Table, Text};
