//! The command `leaf`.
ghost use Rattle.std.specs.Prelude.{◌≡◌, ◌==◌, ◌&&◌, ◌++◌, not, length, All, IfOk, IfErr, OnOk, string_bytes};
ghost use Rattle.std.specs.List.{flat_map};
ghost use Rattle.bench_notation.specs.Line.{IsLine, lines_of};
ghost use Rattle.gqltool_run.specs.DocumentBuilding.{IsDocumentCause};
ghost use Rattle.gqltool_run.specs.LeafCommand.{IsLeafAnswer, leaf_kind_word, leaf_line};

use crate::answer::Answer;
use crate::document_building::{compile_documents, has_faults};
use crate::failure::Failure;
use crate::fault_printing::{push_faults, push_location};
use crate::leaving::leave_to_exit;
use apollo_compiler::compiled::Compiled;
use graphql_nodes::collections::hash_keys::HashKeys;
use leafcheck::checking::leaf_faults;
use leafcheck::leaf_fault::{LeafFault, LeafKind};
use std::alloc::{AllocError, Global};

/// The answer of `leaf` to an input: a line for each leaf fault of the typed document over its schema. Then
/// comes one for each fault of the schema, and then one for each fault of the document.
///
/// The errors are those of [`compile_documents`]. What was built is left to the end of the process, but after
/// an error.
pub fn leaf_answer(alloc: Global, keys: HashKeys, input: &str) -> Result<Answer, Failure>
    ensures read { OnOk result (All IsLine (lines_of input.now)) }
    ensures means { IfOk result (λ answer.
        IsLeafAnswer input.now (string_bytes answer.text) answer.has_faults) }
    ensures causes { IfErr result (IsDocumentCause input.now) }
{
    let compiled = compile_documents(alloc, keys, input)?;
    let faults = leaf_faults(alloc, &compiled.schema, &compiled.document)?;
    let mut text = String::new(alloc);
    push_leaf_faults(alloc, &mut text, faults.as_slice())?;
    push_faults(alloc, &mut text, compiled.schema_faults.as_slice())?;
    push_faults(alloc, &mut text, compiled.document_faults.as_slice())?;
    let answer = Answer {
        text,
        has_faults: is_at_fault(&compiled, faults.as_slice()),
    };
    leave_to_exit(compiled);
    Ok(answer)
}

/// Whether there is a leaf fault, or anything is at fault in the schema or in the document.
fn is_at_fault(compiled: &Compiled, leaf_faults: &[LeafFault]) -> bool
    ensures { result
        ≡ not ((length leaf_faults.now == 0)
        && ((length compiled.now.schema_faults.items == 0)
        && (length compiled.now.document_faults.items == 0))) }
{
    !leaf_faults.is_empty() || has_faults(compiled)
}

/// Adds the lines of leaf faults.
fn push_leaf_faults(
    alloc: Global,
    text: &mut String,
    faults: &[LeafFault],
) -> Result<(), AllocError>
    ensures { OnOk result (string_bytes text.new ≡ string_bytes text.old ++ flat_map leaf_line faults.now) }
{
    for fault in faults {
        push_leaf_fault(alloc, text, fault)?;
    }
    Ok(())
}

/// Adds the line of a leaf fault.
fn push_leaf_fault(alloc: Global, text: &mut String, fault: &LeafFault) -> Result<(), AllocError>
    ensures { OnOk result (string_bytes text.new ≡ string_bytes text.old ++ leaf_line fault.now) }
{
    text.push_str("leaf ")?;
    push_location(alloc, text, fault.location)?;
    text.push_str(" ")?;
    text.push_str(fault.response_key.as_str())?;
    text.push_str(" ")?;
    text.push_str(leaf_kind_word(fault.kind))?;
    text.push_str("\n")
}

/// The word of the way in which a field is at fault.
fn leaf_kind_word(kind: LeafKind) -> &'static str
    ensures { result.now ≡ leaf_kind_word kind }
{
    match kind {
        LeafKind::SubselectionOnLeaf => "subselection-on-leaf",
        LeafKind::MissingSubselection => "missing-subselection",
    }
}
