//! Tests of the run of `peglinden`, over files and standard input in memory: what a run on these words writes
//! on both streams, and how it ends.

mod commands;
mod files;
mod inputs;
mod rows;
mod streams;
mod written;
