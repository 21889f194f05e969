//! The text of a write-out, of a schema or a typed document, is read and built as the same again: laws alone.
//! GraphQL specification of October 2021, sections 2 and 3.
//!
//! Proved: the text of a write-out builds an equal schema or document, which has the same text. The write-out
//! of well-formed definitions is well-formed.
#![tactic(auto)]

pub mod laws;
pub mod well_formed;
pub mod well_formed_documents;
