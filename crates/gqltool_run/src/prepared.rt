//! What is ready to be said.

use crate::answer::Answer;
use apollo_compiler::compiled::Compiled;

/// What is ready to be said to some words and an input, after all that can be refused.
#[derive(Drop)]
pub(crate) enum Prepared {
    /// The whole answer.
    Answer(Answer),
    /// What the input of `walk` is compiled to: its answer is made of it while it is said.
    Walks(Compiled),
}
