//! Whether a request names standard input.
ghost use Rattle.std.specs.Prelude.{◌≡◌};
ghost use Rattle.peglinden_run.specs.Naming.{any_input, names_input};

use peglinden_words::request::Request;
use program_io::with_input::is_input;

/// Whether one of these paths names standard input.
fn any_input(paths: &[&str]) -> bool
    ensures { result ≡ any_input paths.now }
{
    paths.iter().any(|path| is_input(path))
}

/// Whether a request names standard input among its files.
pub(crate) fn names_input(request: &Request<'_>) -> bool
    ensures { result ≡ names_input request.now }
{
    match request {
        Request::Schema { files, .. }
        | Request::Lookup { files, .. }
        | Request::Format { files, .. } => any_input(files.as_slice()),
        Request::Check(typing) | Request::Typed(typing) | Request::Fields(typing) => {
            any_input(typing.schema.as_slice()) || any_input(typing.documents.as_slice())
        }
    }
}
