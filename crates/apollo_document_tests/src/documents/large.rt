//! Documents larger than a row could have.

use crate::documents::building::{Seen, View, over};
use crate::documents::elaborated::Elaborated;
use crate::documents::inputs::expect;
use apollo_executable::{AllFields, ExecutableDocument, SelectionSet};
use std::alloc::{AllocError, Global};
use std::test::Fail;

/// A type whose field gives the type again.
const QUERY: &str = "def object Query\nfield q Query\nfield a Int\n===\n";

/// Adds a field under this alias, and that field in itself under others, down to a depth of 149.
fn push_nested(text: &mut String, alias: u32) -> Result<(), AllocError> {
    write!(text, "sel 0 field q a{alias}\n")?;
    for depth in 1..150 {
        write!(text, "sel {depth} field q a{depth}\n")?;
    }
    Ok(())
}

#[test]
fn a_field_set_is_150_deep_below_each_of_150_aliases(rt: HostRuntime) -> Result<(), Fail> {
    let mut selections = String::new(rt.alloc());
    for alias in 0..150 {
        push_nested(&mut selections, alias)?;
    }
    let mut input = String::new(rt.alloc());
    input.push_str(QUERY)?;
    input.push_str("fragment F Query\n")?;
    input.push_str(selections.as_str())?;
    let row = (input.as_str(), selections.as_str());
    expect(&rt, &Elaborated::Written, &[row])
}

/// How many fields the walks over the anonymous operation give, and in how many turns.
#[derive(Drop)]
struct CountedWalks;

/// Whether a walk gives one more field. The contract of the call stays here, so that no loop carries it
/// along.
fn is_given(walk: &mut AllFields<'_>) -> Result<bool, AllocError> {
    match walk.next() {
        Some(Ok(_)) => Ok(true),
        Some(Err(error)) => Err(error),
        None => Ok(false),
    }
}

fn tell_counted(
    alloc: Global,
    document: &ExecutableDocument,
    set: &SelectionSet,
    text: &mut String,
) -> Result<(), AllocError> {
    let roots = set.collect_root(alloc, document)?.len();
    let all = set.collect_all(alloc, document)?.len();
    let mut walk = set.all_fields(alloc, document);
    let mut are_given = true;
    for _ in 0..all {
        are_given = is_given(&mut walk)? && are_given;
    }
    let is_end = are_given && !is_given(&mut walk)?;
    let turns = walk.turns();
    write!(
        text,
        "{roots} root fields, {all} fields in {turns} turns: {is_end}\n"
    )
}

impl View for CountedWalks {
    fn view(&self, seen: &Seen<'_>, text: &mut String) -> Result<(), AllocError> {
        match &seen.document.operations.anonymous {
            Some(operation) => {
                tell_counted(seen.alloc, seen.document, &operation.selection_set, text)
            }
            None => text.push_str("no operation\n"),
        }
    }
}

/// Adds fragments with one field each, each of which spreads the one before it, the first one the last one.
fn push_ring(text: &mut String) -> Result<(), AllocError> {
    text.push_str("fragment F0 Query\nsel 0 field a\nsel 0 spread F9999\n")?;
    for number in 1..10_000_u32 {
        let before = number.wrapping_sub(1);
        write!(
            text,
            "fragment F{number} Query\nsel 0 field a\nsel 0 spread F{before}\n"
        )?;
    }
    Ok(())
}

#[test]
fn a_walk_opens_each_of_10_000_fragments_in_a_ring_once(rt: HostRuntime) -> Result<(), Fail> {
    let mut input = String::new(rt.alloc());
    input.push_str(QUERY)?;
    input.push_str("operation query -\nsel 0 spread F0\n")?;
    push_ring(&mut input)?;
    let expected = "10000 root fields, 10000 fields in 30002 turns: true\n";
    expect(&rt, &over(CountedWalks), &[(input.as_str(), expected)])
}
