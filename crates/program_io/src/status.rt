//! How a run ends.

/// How a run of a program ended.
#[derive(Debug, Clone, Copy, PartialEq, Eq)]
pub enum Status {
    /// The output is written, and nothing is at fault: what was looked up is found, and there is no fault.
    Done,
    /// The output is written, and something is at fault. It is a schema or a document, a text that differs
    /// from its layout, or something looked up that isn't found.
    Faults,
    /// The words, a file or a text are refused. No output is written.
    Refused,
    /// Memory or the numbers of extensions ran out; in `gqlbench` also the clock, or random keys. No output
    /// is written, but of `gqltool walk` there may be a beginning.
    Exhausted,
    /// The output could not be written to its end, or not be flushed.
    NotWritten,
}

impl Status {
    ghost use Rattle.std.specs.Prelude.{◌≡◌};
    ghost use Rattle.program_io.specs.Status.{exit_code};

    /// The exit status of the program: 0 for `Done`, 1 for `Faults`, 2 for `Refused`, 3 for `Exhausted`, 4
    /// for `NotWritten`.
    pub fn code(self) -> u8
        ensures { result ≡ exit_code self }
    {
        self as u8
    }
}
