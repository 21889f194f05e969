//! Reports of leaf faults.

use crate::reporting::made::{Form, reported, sources_of};
use crate::reporting::rows::{At, Row};
use apollo_compiler::{FileId, Name, SourceSpan};
use graphql_nodes::collections::items::Items;
use leafcheck::{ExecutableDefinitionName, LeafFault, LeafKind, SelectionPath};
use std::alloc::{AllocError, Global};

/// A field without subselections that wants some, below another.
pub(crate) static MISSING: [Row; 1] = [Row {
    text: "query Page {\n  again: book {\n    title\n  }\n  book\n}",
    kind: "MissingSubselection",
    message: "`book`: a field of object, interface or union type must have subselections",
    at: At(5, 3, "  book", "  ^^^^"),
    under: "   = path: query Page → book\n",
    json: "'end_line':5,'end_column':7,'path':{'root':{'kind':'query','name':'Page'},'keys':['book']},'response_key':'book','parent_type':'Query'",
}];

/// A field of a fragment with subselections that it must not have.
pub(crate) fn on_leaf(alloc: Global) -> Result<LeafFault, AllocError> {
    let mut path = SelectionPath {
        root: ExecutableDefinitionName::Fragment(Name::new_unchecked(alloc, "Cover")?),
        nested_fields: Items::new(alloc),
    };
    path.nested_fields
        .push(Name::new_unchecked(alloc, "name")?)?;
    Ok(LeafFault {
        location: Some(SourceSpan {
            file: FileId(7),
            start: 25,
            end: 37,
        }),
        parent_type: Name::new_unchecked(alloc, "Book")?,
        response_key: Name::new_unchecked(alloc, "name")?,
        path,
        kind: LeafKind::SubselectionOnLeaf,
    })
}

/// What is reported of the field of [`on_leaf`] in a text.
pub(crate) fn reported_on_leaf(
    alloc: Global,
    form: Form,
    text: &str,
) -> Result<String, AllocError> {
    let sources = sources_of(alloc, "cover.graphql", text)?;
    let fault = on_leaf(alloc)?;
    reported(alloc, form, &sources, fault.location, &fault)
}

/// That field.
pub(crate) static ON_LEAF: [Row; 1] = [Row {
    text: "fragment Cover on Book { name: title } # é",
    kind: "SubselectionOnLeaf",
    message: "`name`: a field of scalar or enum type must not have subselections",
    at: At(
        1,
        26,
        "fragment Cover on Book { name: title } # é",
        "                         ^^^^^^^^^^^^",
    ),
    under: "   = path: fragment Cover → name\n",
    json: "'end_line':1,'end_column':38,'path':{'root':{'kind':'fragment','name':'Cover'},'keys':['name']},'response_key':'name','parent_type':'Book'",
}];
