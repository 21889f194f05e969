//! What `==` answers at ends of runs.
//!
//! The law is a function that does nothing. A proof cites it by a call, and finds its clauses there.
ghost use Rattle.graphql_nodes.specs.Comparing.{ComparesBy};

use program_io::status::Status;

/// Ends of runs are equal exactly where they are one.
pub fn equality_of_statuses()
    ensures { ComparesBy ⟦<Status as PartialEq>⟧.eq (λ status. status) }
{}
