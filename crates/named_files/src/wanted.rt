//! Which files are wanted.
ghost use Rattle.std.specs.Prelude.{◌≡◌, IfOk, nat_eq};
ghost use Rattle.std.specs.List.{ends_with};
ghost use Rattle.named_files.specs.Wanted.{enters, is_graphql, is_hidden, takes};

use crate::patterns::{matches, may_match_below};
use std::alloc::{AllocError, Global};

/// Which files are wanted.
#[derive(Debug, Clone, Copy)]
pub enum Wanted<'w> {
    /// Those of GraphQL text, by their endings: `.graphql`, `.graphqls` and `.gql`.
    Graphql,
    /// Those that this pattern matches.
    Matching(&'w str),
}

impl Wanted<'_> {
    /// Whether the file of a path is wanted. The error is out of memory.
    pub fn takes(&self, alloc: Global, path: &str) -> Result<bool, AllocError>
        ensures { IfOk result (λ answer. answer ≡ takes self.now path.now) }
    {
        match self {
            Wanted::Graphql => Ok(is_graphql(path)),
            Wanted::Matching(pattern) => matches(alloc, pattern, path),
        }
    }

    /// Whether the folder of a path is looked into. The error is out of memory.
    pub fn enters(&self, alloc: Global, path: &str) -> Result<bool, AllocError>
        ensures { IfOk result (λ answer. answer ≡ enters self.now path.now) }
    {
        match self {
            Wanted::Graphql => Ok(true),
            Wanted::Matching(pattern) => may_match_below(alloc, pattern, path),
        }
    }
}

/// Whether a file has GraphQL text, by the ending of its name.
pub fn is_graphql(path: &str) -> bool
    ensures { result ≡ is_graphql path.now }
{
    has_ending(path, ".graphql") || has_ending(path, ".graphqls") || has_ending(path, ".gql")
}

/// Whether a path ends so.
fn has_ending(path: &str, ending: &str) -> bool
    ensures { result ≡ ends_with nat_eq path.now ending.now }
{
    path.ends_with(ending)
}

/// Whether a name is hidden: it begins with a dot.
pub fn is_hidden(name: &str) -> bool
    ensures { result ≡ is_hidden name.now }
{
    name.as_bytes().first().copied().unwrap_or(0) == b'.'
}
