//! The command `doc`.
ghost use Rattle.std.specs.Prelude.{All, IfOk, IfErr, OnOk, string_bytes};
ghost use Rattle.bench_notation.specs.Line.{IsLine, lines_of};
ghost use Rattle.gqltool_run.specs.DocCommand.{IsDocAnswer};
ghost use Rattle.gqltool_run.specs.DocumentBuilding.{IsDocumentCause};

use crate::answer::Answer;
use crate::document_building::{compile_documents, has_faults};
use crate::failure::Failure;
use crate::fault_printing::push_faults;
use crate::leaving::leave_to_exit;
use bench_notation::printing::print;
use graphql_nodes::collections::hash_keys::HashKeys;
use std::alloc::Global;

/// The answer of `doc` to an input: the print of the typed document's write-out. Then comes a line for each
/// fault of the schema, and then one for each fault of the document.
///
/// The errors are those of [`compile_documents`]. What was built is left to the end of the process, but after
/// an error.
pub fn doc_answer(alloc: Global, keys: HashKeys, input: &str) -> Result<Answer, Failure>
    ensures read { OnOk result (All IsLine (lines_of input.now)) }
    ensures means { IfOk result (λ answer.
        IsDocAnswer input.now (string_bytes answer.text) answer.has_faults) }
    ensures causes { IfErr result (IsDocumentCause input.now) }
{
    let compiled = compile_documents(alloc, keys, input)?;
    let mut text = print(alloc, compiled.erased.definitions.as_slice())?;
    push_faults(alloc, &mut text, compiled.schema_faults.as_slice())?;
    push_faults(alloc, &mut text, compiled.document_faults.as_slice())?;
    let answer = Answer {
        text,
        has_faults: has_faults(&compiled),
    };
    leave_to_exit(compiled);
    Ok(answer)
}
