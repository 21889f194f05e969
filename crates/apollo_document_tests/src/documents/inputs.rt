//! Inputs in the notation: documents of a schema, and behind the division those that are looked at over it.

use apollo_schema::schema::Schema;
use apollo_schema::schema_builder::SchemaBuilder;
use bench_notation::documents::{DividedDocuments, read_divided};
use graphql_ast::document::Document;
use std::alloc::{AllocError, Global};
use std::process::Abort;
use std::test::Fail;

/// Documents over a schema, those of an input.
#[derive(Drop)]
pub struct Given<'input> {
    pub alloc: Global,
    pub schema: &'input Schema,
    pub documents: &'input [Document],
}

/// What is looked at of documents over a schema.
pub trait Account {
    /// Adds what is said of them. The error is out of memory.
    fn tell(&self, given: &Given<'_>, text: &mut String) -> Result<(), AllocError>;
}

/// Adds a document, unless it is refused: then no schema is built. The contract of the call stays here, so
/// that no loop carries it along.
fn add(builder: &mut SchemaBuilder, document: &Document) {
    let _ = builder.add_ast(document);
}

fn tell_read<A: Account>(
    alloc: Global,
    account: &A,
    input: &DividedDocuments,
    text: &mut String,
) -> Result<(), AllocError> {
    let mut builder = Schema::builder(alloc)?;
    for document in input.schema.as_slice() {
        add(&mut builder, document);
    }
    match builder.build() {
        Ok(schema) => {
            let given = Given {
                alloc,
                schema: &schema,
                documents: input.executable.as_slice(),
            };
            account.tell(&given, text)
        }
        Err(_) => text.push_str("no schema\n"),
    }
}

/// What is said of an input.
fn told<A: Account>(alloc: Global, account: &A, input: &str) -> Result<String, AllocError> {
    let mut text = String::new(alloc);
    match read_divided(alloc, input) {
        Ok(documents) => tell_read(alloc, account, &documents, &mut text)?,
        Err(_) => text.push_str("not read\n")?,
    }
    Ok(text)
}

/// Expects of the input of each row what stands beside it.
pub fn expect<A: Account>(
    rt: &(impl Abort + AllocGlobal),
    account: &A,
    rows: &[(&str, &str)],
) -> Result<(), Fail> {
    for (input, expected) in rows {
        let text = told(rt.alloc(), account, *input)?;
        assert_eq!(rt; text.as_str(), *expected, "of {input:?}");
    }
    Ok(())
}
