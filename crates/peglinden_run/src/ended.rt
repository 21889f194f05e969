//! The text of definitions, as a program writes it.
ghost use Rattle.std.specs.Prelude.{◌≡◌, IfOk, string_bytes};
ghost use Rattle.peglinden_run.specs.Ended.{ended, ended_by};

use apollo_compiler::text::definitions_text;
use graphql_ast::definition::Definition;
use std::alloc::{AllocError, Global};

/// The text of definitions with a line end behind it, or nothing where there is none. The error is out of
/// memory.
pub(crate) fn ended_text(alloc: Global, definitions: &[Definition]) -> Result<String, AllocError>
    ensures { IfOk result (λ text. string_bytes text ≡ ended definitions.now) }
{
    ended_by(alloc, definitions, "\n")
}

/// The text of definitions with this end behind it, or nothing where there is none. The error is out of
/// memory.
pub(crate) fn ended_by(
    alloc: Global,
    definitions: &[Definition],
    end: &str,
) -> Result<String, AllocError>
    ensures { IfOk result (λ text. string_bytes text ≡ ended_by end.now definitions.now) }
{
    let mut text = definitions_text(alloc, definitions)?;
    if !definitions.is_empty() {
        text.push_str(end)?;
    }
    Ok(text)
}
