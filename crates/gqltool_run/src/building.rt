//! What the commands build: the schema of the documents of an input, and its faults; and what they are
//! compiled to.
ghost use Rattle.std.specs.Prelude.{All, IfOk, IfErr, OnOk};
ghost use Rattle.bench_notation.specs.Line.{IsLine, lines_of};
ghost use Rattle.gqltool_run.specs.Building.{IsBuilt, IsCause, IsCompiledInput};

use crate::failure::Failure;
use crate::leaving::leave_to_exit;
use apollo_compiler::building::build_schema;
use apollo_compiler::compile_options::CompileOptions;
use apollo_compiler::compiled::Compiled;
use apollo_compiler::compiling::compile_with_keys;
use apollo_meaning::build_error::Faults;
use apollo_schema::schema::Schema;
use bench_notation::documents::read;
use graphql_nodes::collections::hash_keys::HashKeys;
use std::alloc::Global;

/// The schema of what an input says with these options, and its faults, of which there may be none. All
/// tables hash by these keys.
///
/// `RefusedLine` names the first line that says nothing where it stands. `Exhausted` comes where the numbers
/// don't suffice for the extensions of the input, or where memory ran out. There is no other error.
/// Without an error the documents that were read are left to the end of the process.
pub fn build_input(
    alloc: Global,
    keys: HashKeys,
    options: CompileOptions,
    input: &str,
) -> Result<(Schema, Faults), Failure>
    ensures read { OnOk result (All IsLine (lines_of input.now)) }
    ensures means { IfOk result (λ built. IsBuilt options input.now built.0 built.1.items) }
    ensures causes { IfErr result (IsCause options input.now) }
{
    let documents = read(alloc, input)?;
    let built = build_schema(alloc, keys, options, documents.as_slice())?;
    leave_to_exit(documents);
    Ok(built)
}

/// What the documents of an input are compiled to with these options, without executable documents. All
/// tables hash by these keys.
///
/// The errors are those of [`build_input`], and the documents are left as there.
pub fn compile_input(
    alloc: Global,
    keys: HashKeys,
    options: CompileOptions,
    input: &str,
) -> Result<Compiled, Failure>
    ensures read { OnOk result (All IsLine (lines_of input.now)) }
    ensures compiled { IfOk result (IsCompiledInput options input.now) }
    ensures causes { IfErr result (IsCause options input.now) }
{
    let documents = read(alloc, input)?;
    let compiled = compile_with_keys(alloc, keys, options, documents.as_slice(), &[], true)?;
    leave_to_exit(documents);
    Ok(compiled)
}
