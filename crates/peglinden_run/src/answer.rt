//! What a command answers.

use crate::printed::Printed;

/// What a command prints, and whether something is at fault. Then a run ends with status 1, else with 0.
/// Where nothing is at fault, nothing is printed on standard error.
#[derive(Drop)]
pub struct Answer {
    pub printed: Printed,
    pub has_faults: bool,
}
