//! What is kept behind a handle.

use crate::answered::Answered;

/// What is kept behind a handle.
#[derive(Drop)]
pub enum Held {
    /// What came of a call.
    Answer(Answered),
}

impl Held {
    ghost use Rattle.std.specs.Prelude.{◌≡◌, Some};
    ghost use Rattle.peglinden_c.specs.Kept.{errors_held, output_held, status_said};

    /// The status with which the program would exit.
    pub(crate) fn status(&self) -> i32
        ensures { result ≡ status_said (Some self.now) }
    {
        match self {
            Held::Answer(kept) => kept.status.code() as i32,
        }
    }

    /// What the program would write on standard output.
    pub(crate) fn output(&self) -> &str
        ensures { result.now ≡ output_held self.now }
    {
        match self {
            Held::Answer(kept) => kept.printed.output.as_str(),
        }
    }

    /// What the program would write on standard error.
    pub(crate) fn errors(&self) -> &str
        ensures { result.now ≡ errors_held self.now }
    {
        match self {
            Held::Answer(kept) => kept.printed.errors.as_str(),
        }
    }
}
