//! Reports of several faults in one text.
ghost use Rattle.std.specs.Prelude.{◌≡◌, IfOk, OnErr, OnOk, string_bytes};
ghost use Rattle.apollo_reporting.specs.SpacedReports.{Adds, AreSpacedReports, IsSpacedReport};

use crate::report::report_text;
use crate::reported::Reported;
use crate::sources::Sources;
use graphql_nodes::source::SourceSpan;
use std::alloc::{AllocError, Global};

/// Adds the report of a fault to a text, and an empty line behind it, so that the reports of a text stand
/// apart. The report is that of [`report_text`].
///
/// The error is out of memory, and leaves the text as it was.
///
/// For many faults make [`SourceLines`](crate::source_lines::SourceLines) of the sources first.
pub fn push_report<S: Sources, E: Reported>(
    alloc: Global,
    text: &mut String,
    sources: &S,
    location: Option<SourceSpan>,
    fault: &E,
) -> Result<(), AllocError>
    ensures added { OnOk result
        (Adds (IsSpacedReport E.output E.said_about (S.files sources.now) location fault.now)
        (string_bytes text.old) (string_bytes text.new)) }
    ensures memory { OnErr result (string_bytes text.new ≡ string_bytes text.old) }
{
    let mut report = report_text(alloc, sources, location, fault)?;
    report.push_str("\n")?;
    text.push_str(report.as_str())
}

/// The reports of faults, in order, with an empty line behind each; an empty text where there are no faults.
/// Each report is that of [`report_text`]. The error is out of memory.
///
/// For many faults make [`SourceLines`](crate::source_lines::SourceLines) of the sources first.
pub fn reports_text<S: Sources, E: Reported>(
    alloc: Global,
    sources: &S,
    faults: &[(Option<SourceSpan>, E)],
) -> Result<String, AllocError>
    ensures { IfOk result (λ text.
        AreSpacedReports E.output E.said_about (S.files sources.now) faults.now (string_bytes text)) }
{
    let mut text = String::new(alloc);
    for fault in faults {
        push_report(alloc, &mut text, sources, fault.0, &fault.1)?;
    }
    Ok(text)
}
