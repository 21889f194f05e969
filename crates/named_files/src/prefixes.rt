//! The prefixes of paths: of a folder, and of what a pattern matches.
ghost use Rattle.std.specs.Prelude.{◌≡◌, IfOk, string_bytes};
ghost use Rattle.program_io.specs.Entries.{ends_with_slash};
ghost use Rattle.named_files.specs.Naming.{IsBase, as_prefix, before_wild, is_here};

use crate::walks::joined;
use std::alloc::{AllocError, Global};

/// The prefix of a folder: its path, with a slash at its end; and nothing for the folder that the program
/// runs in. The error is out of memory.
pub(crate) fn as_prefix(alloc: Global, path: &str) -> Result<String, AllocError>
    ensures { IfOk result (λ prefix. string_bytes prefix ≡ as_prefix path.now) }
{
    if is_here(path) {
        Ok(String::new(alloc))
    } else if ends_with_slash(path) {
        String::from_str(alloc, path)
    } else {
        joined(alloc, path, "/")
    }
}

/// Whether a path is that of the folder that the program runs in.
fn is_here(path: &str) -> bool
    ensures { result ≡ is_here path.now }
{
    path == "." || path == "./"
}

/// Whether a slash is at the end of a path.
fn ends_with_slash(path: &str) -> bool
    ensures { result ≡ ends_with_slash path.now }
{
    path.as_bytes().last().copied().unwrap_or(0) == b'/'
}

/// The prefix of the folder below which a pattern may match: what it has before the first sign that stands
/// for others, up to the last slash in that. The error is out of memory.
pub(crate) fn base(alloc: Global, pattern: &str) -> Result<String, AllocError>
    ensures { IfOk result (λ base. IsBase pattern.now (string_bytes base)) }
{
    let mut base = String::new(alloc);
    let mut rest = before_wild(pattern);
    while let Some((part, more)) = rest.split_once('/') {
        base.push_str(part)?;
        base.push_str("/")?;
        rest = more;
    }
    Ok(base)
}

/// What a pattern has before the first sign that stands for others.
fn before_wild(pattern: &str) -> &str
    ensures { result.now ≡ before_wild pattern.entry.now }
{
    let front = match pattern.split_once('*') {
        Some((front, _)) => front,
        None => pattern,
    };
    match front.split_once('?') {
        Some((front, _)) => front,
        None => front,
    }
}
