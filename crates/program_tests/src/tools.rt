//! Tests of the tools `gqlbench` and `gqlrows`.

mod bench;
mod rows;
