//! Tests of coordinates: that calls succeed with enough memory, and the printed texts.

mod conversions;
mod equality;
mod forms;
mod lookups;
