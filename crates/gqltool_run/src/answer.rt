//! What a command answers.

use graphql_nodes::take_apart;

/// What is to be written, and whether there are faults, or nothing is found where something was looked up.
/// Then a run ends with status 1, else with 0.
pub struct Answer {
    pub text: String,
    pub has_faults: bool,
}

impl Drop for Answer {
    fn drop(self) {
        take_apart!(self: text, has_faults);
    }
}
