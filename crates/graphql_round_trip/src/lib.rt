//! What is printed of GraphQL trees is read as the trees again.
//!
//! Proved: the text of a tree is read as an equal tree; equal trees have one text; formatting keeps the tree.
#![tactic(auto)]

pub mod laws;
