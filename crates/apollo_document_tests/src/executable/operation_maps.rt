//! Maps of operations in all their cases, with the texts of errors.

use crate::executable::making::{empty, name, operation};
use apollo_executable::{ExecutableDocument, OperationMap, RequestError};
use graphql_nodes::collections::hash_keys::HashKeys;
use graphql_nodes::name::Name;
use graphql_nodes::operation_type::OperationType;
use std::alloc::{AllocError, Global};
use std::test::Fail;

const KINDS: [OperationType; 3] = [
    OperationType::Query,
    OperationType::Mutation,
    OperationType::Subscription,
];

/// The name of this text, or none for `-`.
fn name_or_none(alloc: Global, text: &str) -> Result<Option<Name>, AllocError> {
    if text == "-" {
        return Ok(None);
    }
    Ok(Some(name(alloc, text)?))
}

/// Inserts an empty operation of this kind and name. Says which one it took the place of.
fn insert(
    alloc: Global,
    map: &mut OperationMap,
    kind: OperationType,
    text: &str,
    log: &mut String,
) -> Result<(), AllocError> {
    let operation = operation(alloc, kind, name_or_none(alloc, text)?, empty(alloc)?)?;
    match map.insert(operation) {
        Ok(Some(old)) => {
            log.push_str(" for ")?;
            log.push_str(old.operation_type.name())
        }
        Ok(None) => log.push_str(" new"),
        Err(_) => log.push_str(" refused"),
    }
}

/// Makes the operation that a request asks for a subscription, if there is one.
fn subscribe(map: &mut OperationMap, name: Option<&Name>) -> bool {
    match map.get_mut(name) {
        Ok(operation) => {
            operation.operation_type = OperationType::Subscription;
            true
        }
        Err(_) => false,
    }
}

/// Says what operations there are.
fn push_map(log: &mut String, map: &OperationMap) -> Result<(), AllocError> {
    let (len, is_empty) = (map.len(), map.is_empty());
    write!(log, "{len} {is_empty}:")?;
    for operation in map.iter() {
        log.push_str(" ")?;
        log.push_str(operation.operation_type.name())?;
    }
    log.push_str("\n")
}

/// Says what a request of this name asks for.
fn push_requested(
    log: &mut String,
    map: &OperationMap,
    text: &str,
    name: Option<&Name>,
) -> Result<(), AllocError> {
    match map.get(name) {
        Ok(operation) => {
            let kind = operation.operation_type.name();
            write!(log, "  {text} is {kind}\n")
        }
        Err(error) => write!(log, "  {text} is {error}\n"),
    }
}

/// Says what requests of some names ask for.
fn push_requests(alloc: Global, log: &mut String, map: &OperationMap) -> Result<(), AllocError> {
    for text in ["-", "A", "X"] {
        let name = name_or_none(alloc, text)?;
        push_requested(log, map, text, name.as_ref())?;
    }
    Ok(())
}

/// Inserts an operation, and says what there is then.
fn push_inserted(
    alloc: Global,
    log: &mut String,
    map: &mut OperationMap,
    kind: OperationType,
    text: &str,
) -> Result<(), AllocError> {
    log.push_str(text)?;
    insert(alloc, map, kind, text, log)?;
    log.push_str("\n ")?;
    push_map(log, map)?;
    push_requests(alloc, log, map)
}

/// Inserts an operation of each of these names, the kinds in turn, and says before and after each what there
/// is.
fn tell_inserted(alloc: Global, log: &mut String, texts: [&str; 3]) -> Result<(), AllocError> {
    let mut map = OperationMap::new(alloc);
    push_requests(alloc, log, &map)?;
    for (text, kind) in texts.iter().zip(KINDS.iter()) {
        push_inserted(alloc, log, &mut map, *kind, *text)?;
    }
    Ok(())
}

#[test]
fn a_second_operation_takes_the_place_of_the_first_of_its_name_or_of_none(
    rt: HostRuntime,
) -> Result<(), Fail> {
    let mut log = String::new(rt.alloc());
    tell_inserted(rt.alloc(), &mut log, ["-", "-", "A"])?;
    tell_inserted(rt.alloc(), &mut log, ["A", "B", "A"])?;
    let expected =
        "  - is Ambiguous request: multiple operations but no specified `operationName`\n  A is No operation named 'A'\n  X is No operation named 'X'\n- new\n 1 false: query\n  - is query\n  A is No operation named 'A'\n  X is No operation named 'X'\n- for query\n 1 false: mutation\n  - is mutation\n  A is No operation named 'A'\n  X is No operation named 'X'\nA new\n 2 false: mutation subscription\n  - is Ambiguous request: multiple operations but no specified `operationName`\n  A is subscription\n  X is No operation named 'X'\n  - is Ambiguous request: multiple operations but no specified `operationName`\n  A is No operation named 'A'\n  X is No operation named 'X'\nA new\n 1 false: query\n  - is query\n  A is query\n  X is No operation named 'X'\nB new\n 2 false: query mutation\n  - is Ambiguous request: multiple operations but no specified `operationName`\n  A is query\n  X is No operation named 'X'\nA for query\n 2 false: subscription mutation\n  - is Ambiguous request: multiple operations but no specified `operationName`\n  A is subscription\n  X is No operation named 'X'\n";
    assert_eq!(rt; log.as_str(), expected);
    Ok(())
}

/// A query of each of these names.
fn queries(alloc: Global, texts: &[&'static str]) -> Result<OperationMap, AllocError> {
    let mut log = String::new(alloc);
    let mut map = OperationMap::new(alloc);
    for text in texts.iter() {
        insert(alloc, &mut map, OperationType::Query, *text, &mut log)?;
    }
    Ok(map)
}

/// Writes to the operation that a request asks for, in a copy of a map that shares it, and says what both
/// maps are then.
fn written(
    alloc: Global,
    texts: &[&'static str],
    request: &str,
    log: &mut String,
) -> Result<(), AllocError> {
    let map = queries(alloc, texts)?;
    let mut copy = map.clone()?;
    let name = name_or_none(alloc, request)?;
    let is_found = subscribe(&mut copy, name.as_ref());
    write!(log, "{is_found} ")?;
    push_map(log, &map)?;
    push_map(log, &copy)
}

const WRITTEN: [(&[&str], &str); 5] = [
    (&["-"], "-"),
    (&["A"], "-"),
    (&["-", "A", "B"], "B"),
    (&["-", "A"], "-"),
    (&["A"], "B"),
];

#[test]
fn a_write_reaches_the_operation_that_is_asked_for_alone(rt: HostRuntime) -> Result<(), Fail> {
    let mut log = String::new(rt.alloc());
    for (texts, request) in WRITTEN.iter() {
        written(rt.alloc(), *texts, *request, &mut log)?;
    }
    let expected =
        "true 1 false: query\n1 false: subscription\ntrue 1 false: query\n1 false: subscription\ntrue 3 false: query query query\n3 false: query query subscription\nfalse 2 false: query query\n2 false: query query\nfalse 1 false: query\n1 false: query\n";
    assert_eq!(rt; log.as_str(), expected);
    Ok(())
}

/// Whether a map of this one operation is made.
fn is_made_of_one(alloc: Global, text: &str) -> Result<bool, AllocError> {
    let name = name_or_none(alloc, text)?;
    let operation = operation(alloc, OperationType::Query, name, empty(alloc)?)?;
    match OperationMap::from_one(alloc, operation) {
        Ok(map) => Ok(map.len() == 1),
        Err(_) => Ok(false),
    }
}

#[test]
fn a_map_is_made_of_one_operation(rt: HostRuntime) -> Result<(), Fail> {
    let alloc = rt.alloc();
    assert!(rt; is_made_of_one(alloc, "-")?);
    assert!(rt; is_made_of_one(alloc, "A")?);
    assert!(rt; OperationMap::new(alloc).is_empty());
    Ok(())
}

#[test]
fn maps_and_documents_keep_their_keys(rt: HostRuntime) -> Result<(), Fail> {
    let alloc = rt.alloc();
    let keys = HashKeys::from_bytes([3; 16]);
    let map = OperationMap::with_keys(alloc, keys).clone()?;
    assert!(rt; map.is_empty() && map.named.hash_keys() == keys);
    let document = ExecutableDocument::with_keys(alloc, keys).clone()?;
    assert!(rt; document.operations.named.hash_keys() == keys);
    assert!(rt; document.sources.hash_keys() == keys && document.fragments.hash_keys() == keys);
    assert!(rt; document == ExecutableDocument::new(alloc));
    Ok(())
}

#[test]
fn want_of_memory_has_its_text(rt: HostRuntime) -> Result<(), Fail> {
    let error = RequestError::Memory;
    let text = format!(in rt.alloc(); "{error}")?;
    assert_eq!(rt; text.as_str(), "out of memory");
    Ok(())
}
