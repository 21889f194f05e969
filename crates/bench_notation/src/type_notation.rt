//! Types in the notation: `NAME`, `NAME!`, `[TYPE]` and `[TYPE]!`.
ghost use Rattle.std.specs.Prelude.{◌≡◌, ◌++◌, ◌≤◌, IfErr, IfOk, OnOk, Some, string_bytes};
ghost use Rattle.graphql_ast.specs.TypeReferences.{inner_name};
ghost use Rattle.bench_notation.specs.Line.{IsNameAt};
ghost use Rattle.bench_notation.specs.Refusals.{IsBody, IsNoType, WhenRefused};
ghost use Rattle.bench_notation.specs.Text.{type_text, opened_brackets};

use crate::names::Names;
use crate::pushing::Pushed;
use crate::refusal::{LineError, Reason};
use crate::words::{after, before};
use graphql_ast::type_reference::Type;
use graphql_nodes::collections::boxed::Boxed;
use graphql_nodes::source::SourceSpan;

/// How many brackets a type may open.
pub const MOST_BRACKETS: u8 = 200;

/// The type that a word is, with its name at this location. A word that is no type, or opens more than
/// `brackets` brackets, is refused as a bad word. `Memory` is out of memory, and says nothing of the word.
pub fn read_type(
    names: &mut Names,
    word: &str,
    brackets: u8,
    location: SourceSpan,
) -> Result<Type, LineError>
    ensures text { IfOk result (λ ty. type_text ty ≡ word.now) }
    ensures depth { IfOk result (λ ty. opened_brackets ty ≤ brackets) }
    ensures name { IfOk result (λ ty. IsNameAt location (inner_name ty)) }
    ensures refused { IfErr result (WhenRefused (IsNoType brackets word.now)) }
{
    let (body, is_required) = body_of(word);
    let Some(opened) = after(body, b'[') else {
        let name = names.read(body, location)?;
        return Ok(if is_required {
            Type::NonNullNamed(name)
        } else {
            Type::Named(name)
        });
    };
    let Some(inner) = before(opened, "]") else {
        return Err(LineError::Refused(Reason::BadWord));
    };
    if brackets == 0 {
        return Err(LineError::Refused(Reason::BadWord));
    }
    let element = read_type(names, inner, brackets - 1, location)?;
    let element = Boxed::new(names.alloc(), element)?;
    Ok(if is_required {
        Type::NonNullList(element)
    } else {
        Type::List(element)
    })
}

/// A word without its last `!`, and whether it had one.
fn body_of<'a>(word: &'a str) -> (&'a str, bool)
    ensures { IsBody word.now result.0.now result.1 }
{
    match before(word, "!") {
        Some(body) => (body, true),
        None => (word, false),
    }
}

/// Adds a type to a text. The error is out of memory, after which nothing is said of the text: drop it.
pub fn push_type(text: &mut String, ty: &Type) -> Pushed
    ensures { OnOk result (string_bytes text.new ≡ string_bytes text.old ++ type_text ty.now) }
{
    match ty {
        Type::Named(name) => text.push_str(name.as_str()),
        Type::NonNullNamed(name) => {
            text.push_str(name.as_str())?;
            text.push_str("!")
        }
        Type::List(element) => {
            text.push_str("[")?;
            push_type(text, element)?;
            text.push_str("]")
        }
        Type::NonNullList(element) => {
            text.push_str("[")?;
            push_type(text, element)?;
            text.push_str("]!")
        }
    }
}
