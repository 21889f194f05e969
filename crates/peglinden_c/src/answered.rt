//! What came of a call.
ghost use Rattle.std.specs.Prelude.{◌≡◌, MatchResult};
ghost use Rattle.program_io.specs.declared.status.Status.{Status};
ghost use Rattle.peglinden_run.specs.Status.{status_of};
ghost use Rattle.peglinden_c.specs.Answers.{ComesOf, KeepsAnswer, KeepsRefusal, answer_status};
ghost use Rattle.peglinden_c.specs.Files.{in_memory, text_at};
ghost use Rattle.peglinden_c.specs.declared.refusal.Refusal.{Refusal};

use crate::refusal::Refusal;
use graphql_nodes::collections::hash_keys::HashKeys;
use peglinden_run::answer::Answer;
use peglinden_run::answering::answer_to;
use peglinden_run::failure::Failure;
use peglinden_run::printed::Printed;
use peglinden_words::request::Request;
use program_io::in_memory::FilesInMemory;
use program_io::status::Status;
use std::alloc::Global;

/// What came of a call: what the program would print, and the status with which it would exit.
#[derive(Drop)]
pub struct Answered {
    pub printed: Printed,
    pub status: Status,
}

/// The status with which the program exits, by whether something is at fault.
fn answer_status(has_faults: bool) -> Status
    ensures { result ≡ answer_status has_faults }
{
    if has_faults {
        Status::Faults
    } else {
        Status::Done
    }
}

/// An answer, kept.
fn kept_answer(answer: Answer) -> Answered
    ensures { KeepsAnswer answer result }
{
    let status = answer_status(answer.has_faults);
    Answered {
        printed: answer.printed,
        status,
    }
}

/// What says why files or a coordinate are refused, kept.
fn kept_printed(printed: Printed) -> Answered
    ensures printed { result.printed ≡ printed }
    ensures status { result.status ≡ Status.Refused }
{
    Answered {
        printed,
        status: Status::Refused,
    }
}

/// Why a request has no answer, kept. The error comes for what ran out, and for nothing else.
fn kept_refusal(alloc: Global, failure: Failure) -> Result<Answered, Refusal>
    ensures { MatchResult result (KeepsRefusal failure) (λ why.
        (why ≡ Refusal.Exhausted) × (status_of failure ≡ Status.Exhausted)) }
{
    match failure {
        Failure::Files(printed) => Ok(kept_printed(printed)),
        Failure::NoCoordinate(sentence) => Ok(kept_printed(Printed {
            output: String::new(alloc),
            errors: sentence,
        })),
        Failure::Exhausted(_) => Err(Refusal::Exhausted),
    }
}

/// What comes of a request over these files. The error is `Exhausted`.
pub(crate) fn what_comes(
    alloc: Global,
    keys: HashKeys,
    request: &Request<'_>,
    files: &[(&str, &[u8])],
) -> Result<Answered, Refusal>
    ensures { MatchResult result (ComesOf request.now (text_at (in_memory files.now))) (λ why.
        why ≡ Refusal.Exhausted) }
{
    match answer_to(alloc, keys, request, &FilesInMemory(files)) {
        Ok(answer) => Ok(kept_answer(answer)),
        Err(failure) => kept_refusal(alloc, failure),
    }
}
