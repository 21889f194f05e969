//! Faults as compilers report them, with the line, a mark under it, and an earlier place and a path if there
//! are; and as JSON. The faults of builds and the refusals of texts can be reported, and so can a caller's
//! own: see [`Reported`].
//!
//! Proved: a report is exactly its sentence, place, marked line or a part of it, path and earlier place,
//! without control characters but tab. Its JSON is one object with these. A text of several reports has an
//! empty line behind each.
#![tactic(auto)]

pub mod about;
pub mod counts;
pub mod detail;
pub mod document_faults;
mod excerpt;
pub mod fault_json;
pub mod github;
mod json_members;
pub mod json_object;
mod json_values;
pub mod laws;
mod places;
pub mod report;
pub mod reported;
pub mod schema_faults;
pub mod source_lines;
pub mod sources;
pub mod spaced_reports;
mod span_writing;
pub mod text_errors;
mod visible_value;
mod window;
mod writing;

pub use crate::about::{About, Earlier};
pub use crate::counts::{FaultCount, faults_line};
pub use crate::detail::{Detail, DetailValue};
pub use crate::fault_json::{refusal_to_json, to_json};
pub use crate::github::{github_command, to_github_command};
pub use crate::json_object::{JsonValue, object_to_json, placed_to_json};
pub use crate::reported::Reported;
pub use crate::source_lines::SourceLines;
pub use crate::sources::Sources;
pub use crate::spaced_reports::{push_report, reports_text};
