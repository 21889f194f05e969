//! Tests of the text of trees: texts that are read, and what is printed of them, as graphql-js prints it. Also
//! trees that no text is read as; and sinks.

mod definitions;
mod hand_made;
mod members;
mod printed;
mod rows;
mod sinks;
