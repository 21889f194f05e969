//! In which way a task contradicts itself: it names standard input more than once, asks for two forms of
//! reports, or writes what can't be written.
ghost use Rattle.std.specs.Prelude.{◌≡◌, ◌++◌, ◌||◌, is_some, nat_lt};
ghost use Rattle.clap.specs.Walk.{texts};
ghost use Rattle.peglinden_words.specs.Requests.{asked_of, asked_of_task, has_two_forms, input_names};
ghost use Rattle.peglinden_words.specs.Requests.{is_contradictory, names_input_again, reporting_of};

use crate::request::{Reporting, Request};
use crate::task::{Task, Writing};

/// What is said of a task that contradicts itself.
pub fn contradiction(task: &Task<'_>) -> Option<&'static str>
    ensures { is_some result ≡ is_contradictory (asked_of_task task.now) }
{
    if names_input_again(task) {
        return Some("standard input (`-`) can be named once");
    }
    if has_two_forms(task) {
        return Some("`--json` and `--github` can't be given together");
    }
    match task {
        Task::Answer(_) => None,
        Task::Write(writing) => writing_contradiction(writing),
    }
}

/// What is said of files that can't be written as is asked.
fn writing_contradiction(writing: &Writing<'_>) -> Option<&'static str>
    ensures { is_some result
        ≡ (writing.now.check || nat_lt 0 (input_names (texts writing.now.files.items))) }
{
    if writing.check {
        return Some("`--check` and `--write` can't be given together");
    }
    if input_names(&writing.files) > 0 {
        return Some("`--write` can't put standard input (`-`) in its place");
    }
    None
}

/// How what is at fault in a task is reported.
fn reporting_of(task: &Task<'_>) -> Reporting
    ensures { result ≡ reporting_of (asked_of_task task.now) }
{
    match task {
        Task::Answer(request) => request_reporting(request),
        Task::Write(writing) => writing.reporting,
    }
}

/// How what is at fault in a request is reported.
fn request_reporting(request: &Request<'_>) -> Reporting
    ensures { result ≡ reporting_of (asked_of request.now) }
{
    match request {
        Request::Schema { reporting, .. }
        | Request::Lookup { reporting, .. }
        | Request::Format { reporting, .. } => *reporting,
        Request::Check(typing) | Request::Typed(typing) | Request::Fields(typing) => {
            typing.reporting
        }
    }
}

/// Whether a task asks for two forms of reports.
fn has_two_forms(task: &Task<'_>) -> bool
    ensures { result ≡ has_two_forms (asked_of_task task.now) }
{
    let reporting = reporting_of(task);
    reporting.json && reporting.github
}

/// Whether a task names standard input, `-`, more than once.
fn names_input_again(task: &Task<'_>) -> bool
    ensures { result ≡ names_input_again (asked_of_task task.now) }
{
    match task {
        Task::Answer(request) => request_names_input_again(request),
        Task::Write(writing) => name_input_again(&writing.files, &[]),
    }
}

/// Whether a request names standard input, `-`, more than once.
fn request_names_input_again(request: &Request<'_>) -> bool
    ensures { result ≡ names_input_again (asked_of request.now) }
{
    match request {
        Request::Schema { files, .. }
        | Request::Lookup { files, .. }
        | Request::Format { files, .. } => name_input_again(files, &[]),
        Request::Check(typing) | Request::Typed(typing) | Request::Fields(typing) => {
            name_input_again(&typing.schema, &typing.documents)
        }
    }
}

/// Whether these files, taken together, name standard input more than once.
fn name_input_again(files: &[&str], others: &[&str]) -> bool
    ensures { result ≡ nat_lt 1 (input_names (texts files.now ++ texts others.now)) }
{
    input_names(files).saturating_add(input_names(others)) > 1
}

/// How often these files name standard input.
fn input_names(files: &[&str]) -> usize
    ensures { result ≡ input_names (texts files.now) }
{
    files.iter().filter(|file| **file == "-").count()
}
