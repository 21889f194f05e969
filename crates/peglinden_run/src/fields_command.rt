//! The output of the command `fields`.
ghost use Rattle.std.specs.Prelude.{◌≡◌, ◌++◌, IfOk, OnOk, string_bytes};
ghost use Rattle.std.specs.List.{flat_map};
ghost use Rattle.peglinden_run.specs.FieldsCommand.{fields_text, operation_fields, operation_line};
ghost use Rattle.peglinden_run.specs.FieldsCommand.{usage_line};

use apollo_executable::document::ExecutableDocument;
use apollo_executable::operation::Operation;
use apollo_field_usage::counting::{FieldUsage, field_usage};
use std::alloc::{AllocError, Global};

/// For each operation of a document a line that names it. Below it stands one for each field that the
/// operation reaches, in order of first reach: its coordinate, and how often it stands there. The error is
/// out of memory.
pub(crate) fn fields_text(
    alloc: Global,
    document: &ExecutableDocument,
) -> Result<String, AllocError>
    ensures { IfOk result (λ text. string_bytes text ≡ fields_text document.now) }
{
    let mut text = String::new(alloc);
    for operation in document.operations.iter() {
        push_fields(alloc, &mut text, document, operation)?;
    }
    Ok(text)
}

/// Adds the lines of an operation. The error is out of memory.
fn push_fields(
    alloc: Global,
    text: &mut String,
    document: &ExecutableDocument,
    operation: &Operation,
) -> Result<(), AllocError>
    ensures { OnOk result (string_bytes text.new
        ≡ string_bytes text.old ++ operation_fields document.now operation.now) }
{
    push_operation(text, operation)?;
    let usages = field_usage(alloc, document, operation)?;
    push_usages(text, usages.as_slice())
}

/// Adds the line that names an operation. The error is out of memory.
fn push_operation(text: &mut String, operation: &Operation) -> Result<(), AllocError>
    ensures { OnOk result (string_bytes text.new ≡ string_bytes text.old ++ operation_line operation.now) }
{
    text.push_str(operation.operation_type.name())?;
    if let Some(name) = &operation.name {
        text.push_str(" ")?;
        text.push_str(name.as_str())?;
    }
    text.push_str("\n")
}

/// Adds a line for each of these fields. The error is out of memory.
fn push_usages(text: &mut String, usages: &[FieldUsage]) -> Result<(), AllocError>
    ensures { OnOk result (string_bytes text.new ≡ string_bytes text.old ++ flat_map usage_line usages.now) }
{
    for usage in usages {
        let count = usage.count;
        write!(text, "  {usage} {count}\n")?;
    }
    Ok(())
}
