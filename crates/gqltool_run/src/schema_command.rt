//! The command `schema`.
ghost use Rattle.std.specs.Prelude.{◌≡◌, All, List, false, IfOk, IfErr, OnOk, string_bytes};
ghost use Rattle.graphql_ast.specs.declared.definition.Definition.{Definition};
ghost use Rattle.bench_notation.specs.Line.{IsLine, lines_of};
ghost use Rattle.bench_notation.specs.Text.{printed_definitions};
ghost use Rattle.gqltool_run.specs.Building.{IsCause};
ghost use Rattle.gqltool_run.specs.SchemaCommand.{IsAnswer};

use crate::answer::Answer;
use crate::building::compile_input;
use crate::failure::Failure;
use crate::fault_printing::push_faults;
use crate::leaving::leave_to_exit;
use apollo_compiler::compile_options::CompileOptions;
use bench_notation::printing::print;
use graphql_nodes::collections::hash_keys::HashKeys;
use std::alloc::Global;

/// The answer of `schema` with these options to an input: the print of the write-out, and then a line for
/// each fault.
///
/// The errors are those of [`compile_input`]. What was built is left to the end of the process, but after an
/// error.
pub fn schema_answer(
    alloc: Global,
    keys: HashKeys,
    options: CompileOptions,
    input: &str,
) -> Result<Answer, Failure>
    ensures read { OnOk result (All IsLine (lines_of input.now)) }
    ensures means { IfOk result (λ answer.
        IsAnswer options input.now (string_bytes answer.text) answer.has_faults) }
    ensures printed { IfOk result (λ answer. answer.has_faults ≡ false → (definitions : List Definition)
        × (string_bytes answer.text ≡ printed_definitions definitions)) }
    ensures causes { IfErr result (IsCause options input.now) }
{
    let compiled = compile_input(alloc, keys, options, input)?;
    let mut text = print(alloc, compiled.ast.as_slice())?;
    push_faults(alloc, &mut text, compiled.schema_faults.as_slice())?;
    let answer = Answer {
        text,
        has_faults: !compiled.schema_faults.is_empty(),
    };
    leave_to_exit(compiled);
    Ok(answer)
}
