//! Where the comments of a text stand: GraphQL specification of October 2021, section 2.1.4.
ghost use Rattle.std.specs.Prelude.{◌≡◌, ◌<◌, ◌^◌, ◌++◌, IfOk, IfSome, OnOk, Some};
ghost use Rattle.std.specs.List.{AllByRecursion};
ghost use Rattle.graphql_tokens.specs.First.{first_of};
ghost use Rattle.peglinden_run.specs.CommentPlaces.{AddsComments, IsCommentAt, before_token, begun, goes_on};
ghost use Rattle.peglinden_run.specs.CommentPlaces.{rest_of};

use crate::findings::at_most;
use graphql_tokens::first::first_token_of;
use std::alloc::{AllocError, Global};

/// Where the comments of a text begin, in bytes, in order. Where the text has something wrong, what stands
/// before it counts. The error is out of memory.
pub(crate) fn comment_places(alloc: Global, text: &str) -> Result<Vec<usize>, AllocError>
    ensures { IfOk result (λ places. AllByRecursion (IsCommentAt text.now) places.items) }
{
    let mut places = Vec::new(alloc);
    let mut rest = text;
    'tokens: for _ in 0..text.len() {
        let at = text.len().saturating_sub(rest.len());
        let Some(behind) = pass_token(&mut places, at, rest)? else {
            return Ok(places);
        };
        rest = behind;
    }
    Ok(places)
}

/// Adds where comments begin before the first token of a text, which begins at this place itself, and answers
/// what stands behind that token, if there is one. The error is out of memory.
fn pass_token<'t>(
    places: &mut Vec<usize>,
    at: usize,
    text: &'t str,
) -> Result<Option<&'t str>, AllocError>
    requires { at < 2 ^ 63 }
    ensures behind { IfOk result (λ behind.
        IfSome behind (λ behind. rest_of (first_of text.now) ≡ Some behind.now)) }
    ensures adds { OnOk result
        (AddsComments (before_token text.now) at places.old.items places.new.items) }
{
    let bytes = text.as_bytes();
    match first_token_of(text) {
        Ok(Some(first)) => {
            push_comments(places, at, at_most(bytes, Some(first.passed)))?;
            Ok(Some(first.rest))
        }
        Ok(None) => {
            push_comments(places, at, bytes)?;
            Ok(None)
        }
        Err(_) => Ok(None),
    }
}

/// Adds where comments begin in bytes which say nothing, and begin at this place. The error is out of memory.
fn push_comments(places: &mut Vec<usize>, at: usize, bytes: &[u8]) -> Result<(), AllocError>
    requires { at < 2 ^ 63 }
    ensures { OnOk result (AddsComments bytes.now at places.old.items places.new.items) }
{
    let mut inside = false;
    for (index, byte) in bytes.iter().enumerate() {
        inside = push_if_begun(places, at + index, *byte, inside)?;
    }
    Ok(())
}

/// Adds this place, if a comment begins there with this byte, and answers whether one goes on behind it. One
/// may go on before it. The error is out of memory.
fn push_if_begun(
    places: &mut Vec<usize>,
    place: usize,
    byte: u8,
    inside: bool,
) -> Result<bool, AllocError>
    ensures state { IfOk result (λ state. state ≡ goes_on inside byte) }
    ensures adds { OnOk result (places.new.items ≡ places.old.items ++ begun inside byte place) }
{
    if byte == b'\n' || byte == b'\r' {
        return Ok(false);
    }
    if byte == b'#' && !inside {
        places.push(place)?;
    }
    Ok(inside || byte == b'#')
}
