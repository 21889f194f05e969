//! Failures that no row can bring about, and the texts of failed readings.

use apollo_compiler::CompileError;
use bench_notation::refusal::{ReadError, Reason, RefusedLine};
use gqltool_run::failure::Failure;
use program_io::status::Status;
use std::test::Fail;

#[test]
fn spent_identities_and_refused_readings(rt: HostRuntime) -> Result<(), Fail> {
    let spent = Failure::Exhausted(CompileError::ExtensionIds);
    let refused = ReadError::Refused(RefusedLine {
        number: 3,
        reason: Reason::BadWord,
    });
    let memory = ReadError::Memory;
    let said = format!(in rt.alloc(); "{spent}, {refused}, {memory}")?;
    assert_eq!(rt;
        said.as_str(),
        "extension identities spent, line 3: bad word, out of memory"
    );
    assert_eq!(rt; spent.status(), Status::Exhausted);
    Ok(())
}
