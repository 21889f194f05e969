//! Tests of typed documents that are made by calls, of their operations and fields, and of walks over them:
//! that calls succeed with enough memory, the texts of errors, and documents that no row can say.

mod another_key;
mod by_calls;
mod fields;
mod making;
mod nested;
mod operation_maps;
mod users;
