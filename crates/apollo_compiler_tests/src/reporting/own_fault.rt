//! Reports of a fault of a caller's own.
ghost use Rattle.std.specs.Prelude.{◌≡◌, ◌++◌, ◌∷◌, [], IfOk, Some, codes, decimal, string_bytes};
ghost use Rattle.graphql_nodes.specs.VisibleTexts.{visible};
ghost use Rattle.serde_json.specs.Written.{compact_text};
ghost use Rattle.apollo_reporting.specs.Abouts.{of_kind};
ghost use Rattle.apollo_reporting.specs.Details.{one_text};
ghost use Rattle.apollo_reporting.specs.FaultData.{fault_data};
ghost use Rattle.apollo_reporting.specs.Reports as spec;

use crate::reporting::made::sources_of;
use apollo_compiler::{FileId, SourceMap, SourceSpan};
use apollo_reporting::about::About;
use apollo_reporting::detail::Detail;
use apollo_reporting::fault_json::to_json;
use apollo_reporting::report::{report, report_text};
use apollo_reporting::reported::Reported;
use apollo_reporting::spaced_reports::{push_report, reports_text};
use std::alloc::{AllocError, Global};
use std::fmt;

/// A type with too many fields.
#[derive(Drop)]
struct TooWide {
    fields: usize,
}

impl fmt::Display for TooWide {
    ghost output = { λ it. Some (decimal it.fields ++ codes " fields are too many") };

    fn fmt<W: fmt::Write>(&self, f: &mut fmt::Formatter<W>) -> fmt::Result {
        write!(f, "{} fields are too many", self.fields)
    }
}

impl Reported for TooWide {
    ghost said_about = { λ _. of_kind (codes "TooWide") };

    ghost said_details = { λ it. Some (one_text (codes "fields") (decimal it.fields)) };

    fn about(&self) -> About<'_> {
        About::new("TooWide")
    }

    fn details(&self, alloc: Global) -> Result<Vec<Detail>, AllocError> {
        let fields = self.fields.to_string(alloc)?;
        let detail = Detail::text(alloc, "fields", fields.as_str())?;
        Ok(vec![in alloc; detail]?)
    }
}

/// Its report, which is known to the last byte.
fn report_of(
    alloc: Global,
    sources: &SourceMap,
    location: Option<SourceSpan>,
    fault: &TooWide,
) -> Result<String, AllocError>
    ensures { IfOk result (λ text. string_bytes text ≡ spec.report_text sources.now location
        (of_kind (codes "TooWide")) (visible (decimal fault.now.fields ++ codes " fields are too many"))) }
{
    report_text(alloc, sources, location, fault)
}

/// Its JSON, which is known to the last byte.
fn json_of(
    alloc: Global,
    sources: &SourceMap,
    location: Option<SourceSpan>,
    fault: &TooWide,
) -> Result<String, AllocError>
    ensures { IfOk result (λ text. string_bytes text ≡ compact_text (fault_data sources.now location
        (of_kind (codes "TooWide")) (decimal fault.now.fields ++ codes " fields are too many")
        (one_text (codes "fields") (decimal fault.now.fields)))) }
{
    to_json(alloc, sources, location, fault)
}

#[test]
fn a_fault_of_ones_own_is_reported(rt: HostRuntime) {
    let alloc = rt.alloc();
    let sources = sources_of(alloc, "wide.graphql", "type A").expect(&rt, "memory");
    let location = Some(SourceSpan {
        file: FileId(7),
        start: 5,
        end: 6,
    });
    let fault = TooWide { fields: 301 };
    let text = report_of(alloc, &sources, location, &fault).expect(&rt, "memory");
    let wanted = "error: 301 fields are too many
  --> wide.graphql:1:6
   |
 1 | type A
   |      ^
";
    assert_eq!(rt; text.as_str(), wanted);
    let shown = report(&sources, location, &fault)
        .to_string(alloc)
        .expect(&rt, "memory");
    assert_eq!(rt; shown.as_str(), wanted);
    let json = json_of(alloc, &sources, location, &fault).expect(&rt, "memory");
    let object =
        r#"{"type":"fault","kind":"TooWide","message":"301 fields are too many","file":"wide.graphql","line":1,"column":6,"end_line":1,"end_column":7,"path":null,"fields":"301"}"#;
    assert_eq!(rt; json.as_str(), object);
}

/// The reports of two faults in a list, and of one behind them.
fn three_reports(alloc: Global) -> Result<String, AllocError> {
    let sources = sources_of(alloc, "wide.graphql", "type A")?;
    let faults = [
        (None, TooWide { fields: 301 }),
        (None, TooWide { fields: 302 }),
    ];
    let mut text = reports_text(alloc, &sources, &faults)?;
    push_report(alloc, &mut text, &sources, None, &TooWide { fields: 303 })?;
    Ok(text)
}

#[test]
fn reports_in_one_text_stand_apart(rt: HostRuntime) {
    let text = three_reports(rt.alloc()).expect(&rt, "memory");
    let wanted = "error: 301 fields are too many

error: 302 fields are too many

error: 303 fields are too many

";
    assert_eq!(rt; text.as_str(), wanted);
}
