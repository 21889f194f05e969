//! The forms in which a run says what is at fault.
ghost use Rattle.std.specs.Prelude.{◌≡◌};
ghost use Rattle.peglinden_run.specs.Forms.{form_of};

use peglinden_words::request::Reporting;

/// A form in which a run says what is at fault.
#[derive(Debug, Clone, Copy, PartialEq, Eq)]
pub enum Form {
    /// For people, on standard error: a report, and an empty line.
    Words,
    /// On standard output, a line of JSON.
    Json,
    /// On standard output, a workflow command of GitHub, on a line.
    Github,
}

/// The form that a request asks for: JSON where both flags are set.
pub(crate) fn form_of(reporting: &Reporting) -> Form
    ensures { result ≡ form_of reporting.now }
{
    if reporting.json {
        Form::Json
    } else if reporting.github {
        Form::Github
    } else {
        Form::Words
    }
}
