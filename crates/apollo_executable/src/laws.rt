//! What `==` answers at each type of this crate: whether the two are one with locations and sources left out.
//! Operations and fragments stand in any order. Clones are the originals.
//!
//! Each law is a function that does nothing. A proof cites it by a call, and finds a clause for each type
//! there. That equal values have equal hashes is part of each type's `Hash`.
ghost use Rattle.graphql_nodes.specs.Clones.{IsExact};
ghost use Rattle.graphql_nodes.specs.Comparing.{ComparesBy};
ghost use Rattle.apollo_executable.specs.BareSelections as selections;
ghost use Rattle.apollo_executable.specs.BareErrors.{bare_new_field_error, bare_request_error};
ghost use Rattle.apollo_executable.specs.BareDocuments as documents;

pub mod by_kind;
pub mod calls_of_walks;

use crate::document::ExecutableDocument;
use crate::new_field_error::NewFieldError;
use crate::operation::{Fragment, Operation};
use crate::operation_map::OperationMap;
use crate::request_error::RequestError;
use crate::selection::{Field, FragmentSpread, InlineFragment, Selection, SelectionSet};
use apollo_schema::laws::equality_of_lookups;

/// Typed selections are equal exactly where they are one without their locations: definitions of fields and
/// types of sets count. GraphQL specification of October 2021, sections 2.4 to 2.8.
pub fn equality_of_selections()
    ensures selection { ComparesBy ⟦<Selection as PartialEq>⟧.eq selections.bare_selection }
    ensures field { ComparesBy ⟦<Field as PartialEq>⟧.eq selections.bare_field }
    ensures fragment_spread { ComparesBy ⟦<FragmentSpread as PartialEq>⟧.eq selections.bare_fragment_spread }
    ensures inline_fragment { ComparesBy ⟦<InlineFragment as PartialEq>⟧.eq selections.bare_inline_fragment }
    ensures selection_set { ComparesBy ⟦<SelectionSet as PartialEq>⟧.eq selections.bare_selection_set }
{}

/// Operations and fragments are equal exactly where they are one without their locations. Documents are equal
/// exactly where they have equal operations and equal fragments under each name, in any order: the sources
/// are left out. GraphQL specification of October 2021, sections 2.2, 2.3 and 2.8.
pub fn equality_of_documents()
    ensures operation { ComparesBy ⟦<Operation as PartialEq>⟧.eq documents.bare_operation }
    ensures fragment { ComparesBy ⟦<Fragment as PartialEq>⟧.eq documents.bare_fragment }
    ensures operation_map { ComparesBy ⟦<OperationMap as PartialEq>⟧.eq documents.bare_operation_map }
    ensures document { ComparesBy ⟦<ExecutableDocument as PartialEq>⟧.eq documents.bare_document }
{}

/// Errors of requests are equal exactly where they are of one sort and their names have one text. Those of
/// new fields are where their sorts and texts are the same, and their types are equal as `==` of types says.
/// That is without locations and origins, and what stands under names in any order.
pub fn equality_of_errors<'a>()
    ensures request_error { ComparesBy ⟦<RequestError<'a> as PartialEq>⟧.eq bare_request_error }
    ensures new_field_error { ComparesBy ⟦<NewFieldError<'a> as PartialEq>⟧.eq bare_new_field_error }
{
    equality_of_lookups();
}

/// Each clone is the original, with its locations and the sources of a document.
///
/// The `Clone` of the other types says so itself.
pub fn clones_are_exact()
    ensures fragment_spread { IsExact ⟦<FragmentSpread as Clone>⟧.is_clone }
    ensures operation_map { IsExact ⟦<OperationMap as Clone>⟧.is_clone }
    ensures document { IsExact ⟦<ExecutableDocument as Clone>⟧.is_clone }
{}

/// Each clone of an error of a request is the original, with the name that it carries.
pub fn clones_of_errors_are_exact<'a>()
    ensures { IsExact ⟦<RequestError<'a> as Clone>⟧.is_clone }
{}
