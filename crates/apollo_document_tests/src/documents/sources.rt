//! The sources of documents.

use crate::documents::building::{Whole, without};
use crate::documents::inputs::{Account, Given, expect};
use graphql_ast::document::Document;
use graphql_nodes::collections::items::Items;
use graphql_nodes::collections::shared::Shared;
use graphql_nodes::source::{FileId, SourceFile};
use std::alloc::{AllocError, Global};
use std::test::Fail;

/// A document without definitions, of a file of this number and path.
fn of_file(alloc: Global, number: u64, path: &str) -> Result<Document, AllocError> {
    let file = SourceFile::new(alloc, path, "")?;
    let file = Shared::new(alloc, file)?;
    let mut document = Document::new(alloc);
    document.sources.insert(FileId(number), file)?;
    Ok(document)
}

/// What three documents build, of which the first and the last are of one number.
#[derive(Drop)]
struct OfThree;

impl Account for OfThree {
    fn tell(&self, given: &Given<'_>, text: &mut String) -> Result<(), AllocError> {
        let mut documents = Items::new(given.alloc);
        for (number, path) in [(1, "a"), (2, "b"), (1, "c")] {
            documents.push(of_file(given.alloc, number, path)?)?;
        }
        let three = Given {
            documents: documents.as_slice(),
            ..*given
        };
        without(Whole).tell(&three, text)
    }
}

#[test]
fn a_later_file_of_a_number_takes_the_place_of_the_earlier(rt: HostRuntime) -> Result<(), Fail> {
    let expected = "file 1 \"c\" \"\"\nfile 2 \"b\" \"\"\nagain: true\n";
    expect(&rt, &OfThree, &[("===\n", expected)])
}
