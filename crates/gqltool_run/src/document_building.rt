//! What the commands on executable documents build: what an input is compiled to, with its typed document
//! over its schema, and the faults of both.
ghost use Rattle.std.specs.Prelude.{◌≡◌, ◌==◌, ◌&&◌, not, length, All, IfOk, IfErr, OnOk};
ghost use Rattle.bench_notation.specs.Line.{IsLine, lines_of};
ghost use Rattle.gqltool_run.specs.DocumentBuilding.{IsCompiledDivided, IsDocumentCause};

use crate::failure::Failure;
use crate::leaving::leave_to_exit;
use apollo_compiler::compile_options::CompileOptions;
use apollo_compiler::compiled::Compiled;
use apollo_compiler::compiling::compile_with_keys;
use bench_notation::documents::read_divided;
use graphql_nodes::collections::hash_keys::HashKeys;
use std::alloc::Global;

/// Whether anything is at fault in the schema or in the document. The rebuild isn't looked at.
pub fn has_faults(compiled: &Compiled) -> bool
    ensures { result
        ≡ not ((length compiled.now.schema_faults.items == 0)
        && (length compiled.now.document_faults.items == 0)) }
{
    !(compiled.schema_faults.is_empty() && compiled.document_faults.is_empty())
}

/// What an input is compiled to, without options. It is the typed document of what it says behind its
/// division, over the schema of what it says before that. Where the schema has faults it is the partial one.
/// Definitions of the type system are faults of the document. All tables hash by these keys.
///
/// `RefusedLine` names the first line that says nothing where it stands. `NoDivision` comes where no line
/// divides the input. `Exhausted` comes where the numbers don't suffice for the extensions of the schema, or
/// where memory ran out. There is no other error. Without an error the documents that were read are left to
/// the end of the process.
pub fn compile_documents(alloc: Global, keys: HashKeys, input: &str) -> Result<Compiled, Failure>
    ensures read { OnOk result (All IsLine (lines_of input.now)) }
    ensures compiled { IfOk result (IsCompiledDivided input.now) }
    ensures causes { IfErr result (IsDocumentCause input.now) }
{
    let documents = read_divided(alloc, input)?;
    let compiled = compile_with_keys(
        alloc,
        keys,
        CompileOptions::none(),
        documents.schema.as_slice(),
        documents.executable.as_slice(),
        true,
    )?;
    leave_to_exit(documents);
    Ok(compiled)
}
