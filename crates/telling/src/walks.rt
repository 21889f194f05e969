//! Walks over typed documents: the key of each field that they give, and where it stands.

use crate::Tell;
use crate::containers::At;
use apollo_executable::{Field, FieldWalk};
use graphql_nodes::node::Node;
use std::alloc::AllocError;

/// More fields than any walk gives that is written.
const MANY: usize = 1000;

/// How a walk ended.
#[derive(Clone, Copy, PartialEq, Eq)]
pub enum End {
    /// It gives nothing more.
    Over,
    /// It was refused memory.
    Refused,
    /// It gave more fields than there can be.
    Endless,
}

fn push_field(text: &mut String, field: &Node<Field>) -> Result<(), AllocError> {
    let key = field.response_key();
    tell!(text; key.as_str(), " ", At(field.location()))
}

/// Adds fields that were collected.
pub fn push_fields(text: &mut String, fields: &[&Node<Field>]) -> Result<(), AllocError> {
    for field in fields {
        push_field(text, *field)?;
    }
    Ok(())
}

/// Adds the fields that a walk gives, one by one. The error is out of memory for the text.
pub fn push_walk(text: &mut String, walk: &mut FieldWalk<'_>) -> Result<End, AllocError> {
    for _ in 0..MANY {
        match walk.next() {
            Some(Ok(field)) => push_field(text, field)?,
            Some(Err(_)) => return Ok(End::Refused),
            None => return Ok(End::Over),
        }
    }
    Ok(End::Endless)
}
