//! Tests of the program `gqltool`, of what rows can't say; and readers and writers that fail, which tests of
//! the tools have, too.

pub mod failing;
mod failures;
mod hash_keys;
mod interruptions;
mod long_walks;
mod running;
mod streams;
