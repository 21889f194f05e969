//! Runs of `gqltool`. What a run promises stands in its contract. Here nothing is promised, so that no test
//! carries it along.

use gqltool_run::answer::Answer;
use gqltool_run::answering::answer_to;
use gqltool_run::failure::Failure;
use gqltool_run::running::run;
use graphql_nodes::collections::hash_keys::HashKeys;
use program_io::input::{BytesInMemory, Input};
use program_io::status::Status;
use std::alloc::Global;
use std::io::Write;
use std::process::Abort;

/// How a run ends.
pub fn ended<R: Input, O: Write, E: Write>(
    alloc: Global,
    words: &[&str],
    reader: &mut R,
    output: &mut O,
    errors: &mut E,
) -> Status {
    run(alloc, words, reader, output, errors)
}

/// Expects a run to write this, to say that and to end so.
pub fn expect_run<R: Input>(
    rt: &(impl Abort + AllocGlobal),
    words: &[&str],
    reader: &mut R,
    status: Status,
    output: &str,
    errors: &str,
) {
    let mut written = Vec::new(rt.alloc());
    let mut said = Vec::new(rt.alloc());
    let ended = ended(rt.alloc(), words, reader, &mut written, &mut said);
    assert_eq!(rt; ended, status);
    assert_eq!(rt; written.as_slice(), output.as_bytes());
    assert_eq!(rt; said.as_slice(), errors.as_bytes());
}

/// What is answered on these bytes.
pub fn answer_on(alloc: Global, words: &[&str], bytes: &[u8]) -> Result<Answer, Failure> {
    answer_to(alloc, HashKeys::FIXED, words, &mut BytesInMemory(bytes))
}
