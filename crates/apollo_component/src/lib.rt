//! Components of a schema: the parts of its types, each with the definition or extension that it comes from.
//! The hidden modules serve the crates above, which write types out by them.
//!
//! Proved: each component knows its origin; extensions of one source have distinct numbers; of one name the
//! first is kept.
//!
//! Not proved: that identities of two sources differ, as a number has no memory of its source.
#![tactic(auto)]

pub mod component;
pub mod directive_list;
pub mod extension;
#[doc(hidden)]
pub mod extension_parts;
pub mod get_all;
pub mod laws;
#[doc(hidden)]
pub mod listed;
pub mod named;
#[doc(hidden)]
pub mod parts_by_origin;

pub use crate::component::{Component, ComponentName};
pub use crate::directive_list::DirectiveList;
pub use crate::extension::{ComponentOrigin, ExtensionId, ExtensionSource, IdsSpent};
pub use crate::get_all::GetAll;
