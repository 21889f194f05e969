//! Tests of documents that are compiled: that calls succeed with enough memory, and what the notation can't
//! say. Most compare a text that shows all that is looked at.

mod by_calls;
mod compiled;
mod compiling;
mod examples;
mod hash_keys;
mod making;
mod rebuilt;
mod texts;
mod usages;
