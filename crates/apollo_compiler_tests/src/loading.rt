//! Tests of files in memory that are loaded: what comes of them is known to the last byte.

mod documents;
mod schemas;
