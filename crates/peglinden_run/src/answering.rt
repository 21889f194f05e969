//! The answer to a request.
ghost use Rattle.std.specs.Prelude.{IfErr, IfOk};
ghost use Rattle.peglinden_run.specs.Requests.{IsAnswerTo, IsCauseTo};

use crate::answer::Answer;
use crate::document_commands::{Shown, document_answer};
use crate::failure::Failure;
use crate::format_command::format_answer;
use crate::lookup_command::lookup_answer;
use crate::schema_command::schema_answer;
use apollo_compiler::compile_options::CompileOptions;
use graphql_nodes::collections::hash_keys::HashKeys;
use peglinden_words::request::Request;
use program_io::files::Files;
use std::alloc::Global;

/// The answer to a request over these files. All tables hash by these keys; the answer is the same under
/// any.
///
/// `NoCoordinate` comes for `lookup` with a text that is no coordinate, before a file is read. `Files` comes
/// where a file can't be read or is no document, and says so of each, in the form that is asked for.
/// `Exhausted` comes with `ExtensionIds` only where the numbers don't suffice for the extensions of the
/// schema. With `Memory` it comes where memory ran out, and says nothing of the files. There is no other
/// error.
pub fn answer_to<F: Files>(
    alloc: Global,
    keys: HashKeys,
    request: &Request<'_>,
    files: &F,
) -> Result<Answer, Failure>
    ensures means { IfOk result (IsAnswerTo request.now (F.holds files.now)) }
    ensures causes { IfErr result (IsCauseTo request.now (F.holds files.now) (F.may_fail files.now)) }
{
    match request {
        Request::Schema {
            adopt,
            ignore_builtin,
            reporting,
            files: paths,
        } => {
            let options = CompileOptions {
                adopt_orphan_extensions: *adopt,
                ignore_builtin_redefinitions: *ignore_builtin,
            };
            schema_answer(alloc, keys, options, reporting, files, paths.as_slice())
        }
        Request::Check(typing) => document_answer(alloc, keys, Shown::Nothing, typing, files),
        Request::Typed(typing) => document_answer(alloc, keys, Shown::WriteOut, typing, files),
        Request::Fields(typing) => document_answer(alloc, keys, Shown::Fields, typing, files),
        Request::Lookup {
            coordinate,
            reporting,
            files: paths,
        } => lookup_answer(alloc, keys, coordinate, reporting, files, paths.as_slice()),
        Request::Format {
            check,
            reporting,
            files: paths,
        } => format_answer(alloc, *check, reporting, files, paths.as_slice()),
    }
}
