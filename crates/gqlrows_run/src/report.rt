//! The report on rows that ran.

use crate::row::Row;
use gqltool_run::running::run;
use program_io::status::Status;
use std::alloc::{AllocError, Global};

/// Adds what came in the place of what is expected, where it is another: a comment that names it, and its
/// lines behind a mark.
fn push_difference(
    report: &mut String,
    name: &str,
    mark: char,
    expected: &str,
    came: &str,
) -> Result<(), AllocError> {
    if came != expected {
        writeln!(report, "# {name}")?;
        for line in came.split_terminator('\n') {
            writeln!(report, "{mark} {line}")?;
        }
    }
    Ok(())
}

/// Runs the program in memory as a row says, and answers what differs from what the row expects. Memory that
/// runs out in the run is a status too. What the run built is left to the end of the process.
fn differences_of(alloc: Global, row: &Row<'_>) -> Result<String, AllocError> {
    let mut input = row.input.as_bytes();
    let (mut output, mut errors) = (Vec::new(alloc), Vec::new(alloc));
    let status = run(
        alloc,
        row.words.as_slice(),
        &mut input,
        &mut output,
        &mut errors,
    );
    let status = status.code().to_string(alloc)?;
    let output = String::from_utf8_lossy(alloc, output.as_slice())?;
    let errors = String::from_utf8_lossy(alloc, errors.as_slice())?;
    let mut report = String::new(alloc);
    for (name, mark, expected, came) in [
        ("status", '?', row.status.unwrap_or("0"), status.as_str()),
        ("output", '>', row.output.as_str(), output.as_str()),
        ("errors", '!', row.errors.as_str(), errors.as_str()),
    ] {
        push_difference(&mut report, name, mark, expected, came)?;
    }
    Ok(report)
}

/// Runs rows, in order, and reports on them. For each that differs it gives its title and what came, and then
/// how many rows there are and how many differ. The status is `Done` where none differs, and `Faults` where
/// one does.
pub fn report_on(alloc: Global, rows: &[Row<'_>]) -> Result<(String, Status), AllocError> {
    let mut report = String::new(alloc);
    let mut differing: usize = 0;
    for row in rows {
        let differences = differences_of(alloc, row)?;
        if !differences.is_empty() {
            write!(report, "* {}\n{differences}", row.title)?;
            differing = differing.saturating_add(1);
        }
    }
    writeln!(report, "{} rows, {differing} differ", rows.len())?;
    let status = if differing == 0 {
        Status::Done
    } else {
        Status::Faults
    };
    Ok((report, status))
}
