//! What `==` answers at refusals of a text.
//!
//! The law is a function that does nothing. A proof cites it by a call, and finds its clauses there.
ghost use Rattle.graphql_nodes.specs.Comparing.{ComparesBy};

use crate::refusal::{ReadError, Reason, RefusedLine};

/// Refusals are equal exactly where they are one: of a text, of a line with its number, and the reasons for
/// these.
pub fn equality_of_refusals()
    ensures read_error { ComparesBy ⟦<ReadError as PartialEq>⟧.eq (λ error. error) }
    ensures refused_line { ComparesBy ⟦<RefusedLine as PartialEq>⟧.eq (λ line. line) }
    ensures reason { ComparesBy ⟦<Reason as PartialEq>⟧.eq (λ reason. reason) }
{}
