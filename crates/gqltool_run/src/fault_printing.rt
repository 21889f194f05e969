//! Faults as text.
ghost use Rattle.std.specs.Prelude.{◌≡◌, ℕ, List, ◌++◌, OnErr, OnOk, string_bytes};
ghost use Rattle.gqltool_run.specs.FaultLines.{AreFaultLines, fault_line, location_line};
ghost use Rattle.gqltool_run.specs.Pieces.{IsCutShort, IsSaid};

use crate::outlet::{CutShort, Kept, Outlet};
use graphql_nodes::source::SourceSpan;
use std::alloc::{AllocError, Global};
use std::fmt::Display;

/// Adds the lines of faults, in order, each with its location. The error is out of memory.
pub fn push_faults<E: Display>(
    alloc: Global,
    text: &mut String,
    faults: &[(Option<SourceSpan>, E)],
) -> Result<(), AllocError>
    ensures { OnOk result ((lines : List ℕ)
        × ((string_bytes text.new ≡ string_bytes text.old ++ lines) × AreFaultLines faults.now lines)) }
{
    match say_faults(alloc, text, &mut Kept, faults) {
        Ok(()) => Ok(()),
        // Nothing goes out, so only memory can run out.
        Err(_) => Err(AllocError),
    }
}

/// Adds the same lines, and lets the text out where it has grown long. The error is out of memory, or the
/// outlet's.
pub(crate) fn say_faults<O: Outlet, E: Display>(
    alloc: Global,
    text: &mut String,
    outlet: &mut O,
    faults: &[(Option<SourceSpan>, E)],
) -> Result<(), CutShort>
    ensures said { OnOk result
        (IsSaid (AreFaultLines faults.now) (O.sent outlet.old) (O.sent outlet.new) (string_bytes text.old)
        (string_bytes text.new)) }
    ensures begun { OnErr result
        (IsCutShort (AreFaultLines faults.now) (O.sent outlet.old) (O.sent outlet.new)
        (string_bytes text.old)) }
{
    for fault in faults {
        push_fault(alloc, text, fault.0, &fault.1)?;
        outlet.let_out(text)?;
    }
    Ok(())
}

fn push_fault<E: Display>(
    alloc: Global,
    text: &mut String,
    location: Option<SourceSpan>,
    error: &E,
) -> Result<(), AllocError>
    ensures { OnOk result ((said : List ℕ)
        × (string_bytes text.new ≡ string_bytes text.old ++ fault_line location said)) }
{
    text.push_str("fault ")?;
    push_location(alloc, text, location)?;
    text.push_str(" ")?;
    let said = error.to_string(alloc)?;
    text.push_str(said.as_str())?;
    text.push_str("\n")
}

/// Adds the number with which a location starts, or `-` where there is none: of what was read the line. The
/// error is out of memory.
pub(crate) fn push_location(
    alloc: Global,
    text: &mut String,
    location: Option<SourceSpan>,
) -> Result<(), AllocError>
    ensures { OnOk result (string_bytes text.new ≡ string_bytes text.old ++ location_line location) }
{
    match location {
        Some(span) => text.push_str(span.start.to_string(alloc)?.as_str()),
        None => text.push_str("-"),
    }
}
