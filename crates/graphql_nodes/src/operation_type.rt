//! The kinds of operation: GraphQL specification of October 2021, section 2.3.
ghost use Rattle.std.specs.Prelude.{◌≡◌, IfOk, None, Some};
ghost use Rattle.graphql_nodes.specs.OperationTexts.{operation_text, default_type_text};

use crate::name::NamedType;
use std::alloc::{AllocError, Global};
use std::fmt;

/// One of three texts, by the kind of an operation.
macro_rules! by_operation {
    ($operation:expr => $query:literal, $mutation:literal, $subscription:literal) => {
        match $operation {
            OperationType::Query => $query,
            OperationType::Mutation => $mutation,
            OperationType::Subscription => $subscription,
        }
    };
}

/// The kind of an operation (section 2.3). `Display` is its keyword.
#[derive(Clone, Copy, Debug, PartialEq, Eq, Hash)]
pub enum OperationType {
    Query,
    Mutation,
    Subscription,
}

impl OperationType {
    /// The keyword: `query`, `mutation` or `subscription`.
    pub fn name(self) -> &'static str
        ensures { result.now ≡ operation_text self }
    {
        by_operation!(self => "query", "mutation", "subscription")
    }

    /// The name of the object type that is this kind's root where no schema definition names one (section
    /// 3.3.1). It is `Query`, `Mutation` or `Subscription`, without a location. The error is out of memory.
    pub fn default_type_name(self, alloc: Global) -> Result<NamedType, AllocError>
        ensures { IfOk result (λ n. n ≡ record { text = default_type_text self; location = None }) }
    {
        let text = by_operation!(self => "Query", "Mutation", "Subscription");
        NamedType::new_unchecked(alloc, text)
    }
}

impl fmt::Display for OperationType {
    ghost output = { λ o. Some (operation_text o) };

    fn fmt<W: fmt::Write>(&self, f: &mut fmt::Formatter<W>) -> fmt::Result {
        fmt::Display::fmt(self.name(), f)
    }
}
