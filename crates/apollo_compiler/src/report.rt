//! Faults as compilers report them, with their line and a mark, and as JSON. A caller's own errors take part
//! by [`Reported`].

pub use apollo_reporting::report::{FaultReport, report, report_text};
pub use apollo_reporting::{
    About, Detail, DetailValue, Earlier, FaultCount, Reported, SourceLines, Sources, faults_line,
    push_report, reports_text, to_json,
};
pub use graphql_nodes::visible_text::{VisibleText, visible};
