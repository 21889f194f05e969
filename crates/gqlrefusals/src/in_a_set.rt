//! Selections of a set's type, which are made over a schema.

use crate::parts::{empty_set, name};
use crate::stop::{Stop, Told, tell_line};
use apollo_executable::{NewFieldError, SelectionSet};
use apollo_schema::schema::Schema;
use std::alloc::Global;

/// `SelectionSet::new_field` of this name.
fn new_field(
    alloc: Global,
    text: &mut String,
    set: &SelectionSet,
    schema: &Schema,
    field: &str,
) -> Told {
    match set.new_field(alloc, schema, name(alloc, field)?) {
        Ok(field) => tell_line(text, Ok(field)),
        Err(NewFieldError::Memory) => Err(Stop::Memory),
        Err(NewFieldError::Lookup(_)) => Ok(write!(text, "no field {field}\n")?),
    }
}

/// The calls that make selections of a set's type: `SelectionSet::new_field`, and
/// `SelectionSet::new_inline_fragment` with a condition and without one.
pub fn made_in_a_set(alloc: Global, text: &mut String, schema: &Schema) -> Told {
    let set = empty_set(alloc)?;
    new_field(alloc, text, &set, schema, "user")?;
    new_field(alloc, text, &set, schema, "gone")?;
    let condition = name(alloc, "User")?;
    tell_line(text, set.new_inline_fragment(alloc, Some(condition)))?;
    tell_line(text, set.new_inline_fragment(alloc, None))
}
