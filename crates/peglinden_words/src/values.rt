//! What `clap` found for an argument.
ghost use Rattle.std.specs.Prelude.{◌≡◌, IfOk};
ghost use Rattle.clap.specs.Matches.{found_of};
ghost use Rattle.clap.specs.Walk.{rows_of, texts};
ghost use Rattle.peglinden_words.specs.Requests.{is_set, number_of, read_number, value_of, values_of};

use clap::ArgMatches;
use std::alloc::{AllocError, Global};

/// Whether the flag of this name was given.
pub fn is_given(found: &ArgMatches<'_>, name: &str) -> bool
    ensures { result ≡ is_set name.now (rows_of (found_of found.now)) }
{
    found.get_str(name) == Some("true")
}

/// The value of the argument of this name, and the empty text where it has none.
pub fn value<'w>(found: &ArgMatches<'w>, name: &str) -> &'w str
    ensures { result.now ≡ value_of name.now (rows_of (found_of found.now)) }
{
    found.get_str(name).unwrap_or("")
}

/// The number that is the value of the argument of this name, where it has one.
pub fn number(found: &ArgMatches<'_>, name: &str) -> Option<usize>
    ensures { result ≡ number_of name.now (rows_of (found_of found.now)) }
{
    let text = found.get_str(name)?;
    read_number(text)
}

/// The number that a text is in decimal digits, where it is one.
fn read_number(text: &str) -> Option<usize>
    ensures { result ≡ read_number text.now }
{
    text.parse::<usize>().ok()
}

/// The values of the argument of this name. The error is out of memory.
pub fn values<'w>(
    alloc: Global,
    found: &ArgMatches<'w>,
    name: &str,
) -> Result<Vec<&'w str>, AllocError>
    ensures { IfOk result (λ values.
        texts values.items ≡ values_of name.now (rows_of (found_of found.now))) }
{
    let mut values = Vec::new(alloc);
    if let Some(given) = found.get_strs(name) {
        values.extend_from_slice(given)?;
    }
    Ok(values)
}
