//! Tests of elaboration, of the builder of documents and of leaf faults: that calls succeed with enough
//! memory, on worked documents, and the texts of faults and paths. Most compare a text that shows all that is
//! looked at.

mod building;
mod by_calls;
mod elaborated;
mod errors;
mod hash_keys;
mod inputs;
mod kept;
mod large;
mod leaf_faults;
mod operations;
mod sources;
