//! How many faults there are, in words.
ghost use Rattle.std.specs.Prelude.{◌≡◌, Some};
ghost use Rattle.apollo_reporting.specs.Counts.{count_text};

use std::fmt;

/// How many faults there are. `Display` is `1 fault`, `3 faults`.
#[derive(Clone, Copy)]
pub struct FaultCount {
    pub count: usize,
}

/// So many faults, to be printed: `1 fault`, `3 faults`. It takes no memory.
pub fn faults_line(count: usize) -> FaultCount
    ensures { result.count ≡ count }
{
    FaultCount { count }
}

impl fmt::Display for FaultCount {
    ghost output = { λ it. Some (count_text it.count) };

    fn fmt<W: fmt::Write>(&self, f: &mut fmt::Formatter<W>) -> fmt::Result {
        match self.count {
            1 => f.write_str("1 fault"),
            count => write!(f, "{count} faults"),
        }
    }
}
