//! The definitions that were added to a builder, for contracts alone: GraphQL specification of October 2021,
//! section 2.2.
ghost use Rattle.std.specs.Prelude.{◌≡◌, List, [], ◌++◌};
ghost use Rattle.std.specs.Coded.{coded×, coded_bool, coded_list};
ghost use Rattle.graphql_ast.specs.AddedDefinitions.{AddedDefinition, added_definitions};
ghost use Rattle.graphql_ast.specs.contracts.definition.Definition as definition;

use crate::document::Document;
use std::marker::Model;

/// A list of definitions that were added to a builder, each with an option of that builder as it stood then.
/// Contracts alone see it, and it takes no room. Nothing ties it to what its builder holds but that builder's
/// own invariant.
#[derive(Drop)]
pub struct AddedList {
    pub ghost items: { List AddedDefinition } by { coded_list (coded× coded_bool definition.the_row.coded) },
}

impl Model for AddedList {
    ghost use Rattle.std.specs.Borrow.{ftrue};

    ghost also_owns = { λ _. ftrue };
}

impl AddedList {
    /// No definition.
    pub fn none() -> AddedList
        ensures { result.items ≡ [] }
    {
        AddedList {}
    }

    /// The list with the definitions of a document behind it, in order.
    pub fn with(_before: &AddedList, _flag: bool, _document: &Document) -> AddedList
        ensures { result.items ≡ _before.now.items ++ added_definitions _flag _document.now.definitions }
    {
        AddedList {}
    }

    /// The same list, for the copy of a builder.
    pub fn same(_list: &AddedList) -> AddedList
        ensures { result.items ≡ _list.now.items }
    {
        AddedList {}
    }
}
