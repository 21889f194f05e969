//! The flags of calls.
ghost use Rattle.std.specs.Prelude.{◌≡◌};
ghost use Rattle.peglinden_c.specs.Flags.{are_among, has, has_two_forms, limit_of, reporting_of};

use peglinden_words::request::Reporting;

/// Reports are JSON.
pub(crate) const JSON: u32 = 1;
/// Reports are workflow commands of GitHub.
pub(crate) const GITHUB: u32 = 2;
/// What has extensions and no definition is taken as defined.
pub(crate) const ADOPT: u32 = 4;
/// Further definitions of built-in types are passed over.
pub(crate) const IGNORE_BUILTIN: u32 = 8;
/// Only the names of the files are written whose text differs.
pub(crate) const CHECK: u32 = 16;

/// The flags that each call takes.
pub(crate) const OF_REPORTS: u32 = 3;
/// Those that `peg_schema` takes.
pub(crate) const OF_SCHEMA: u32 = 15;
/// Those that `peg_format` takes.
pub(crate) const OF_FORMAT: u32 = 19;

/// Whether a flag is among these.
pub(crate) fn has(flags: u32, flag: u32) -> bool
    ensures { result ≡ has flags flag }
{
    flags & flag != 0
}

/// Whether these flags are all among those that are taken.
pub(crate) fn are_among(flags: u32, taken: u32) -> bool
    ensures { result ≡ are_among flags taken }
{
    (flags | taken) == taken
}

/// Whether two forms of reports are asked for.
pub(crate) fn has_two_forms(flags: u32) -> bool
    ensures { result ≡ has_two_forms flags }
{
    has(flags, JSON) && has(flags, GITHUB)
}

/// How what is at fault is to be reported.
pub(crate) fn reporting_of(flags: u32, max_faults: usize) -> Reporting
    ensures { result ≡ reporting_of flags max_faults }
{
    Reporting {
        json: has(flags, JSON),
        github: has(flags, GITHUB),
        max_faults: limit_of(max_faults),
    }
}

/// How many faults are reported at most, if there is a limit: the greatest number is none.
fn limit_of(max_faults: usize) -> Option<usize>
    ensures { result ≡ limit_of max_faults }
{
    if max_faults == usize::MAX {
        None
    } else {
        Some(max_faults)
    }
}
