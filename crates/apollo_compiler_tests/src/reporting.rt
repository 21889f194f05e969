//! Tests of reports: what comes of texts with faults.

mod details;
mod documents;
mod failures;
mod forms;
mod leaves;
mod long_lines;
mod made;
mod own_fault;
mod places;
mod reports;
mod rows;
mod schemas;
mod texts;
mod visible;
