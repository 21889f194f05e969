//! The examples as GraphQL text and in the notation. They say the same, and are compiled to the same, but for
//! what the notation has no line for. `tools/checked_examples` sees to it that these are the texts of
//! `examples`.

use crate::compilation::compiling::PLAIN;
use crate::compilation::texts::read;
use apollo_compiler::{Compiled, Document, FileId, compile};
use bench_notation::documents::read_divided;
use bench_notation::printing::print;
use std::alloc::{AllocError, Global};
use std::process::Abort;

/// `store.graphql`.
const STORE: &str = "\
\"A book store: what it sells.\"
schema {
  query: Query
  mutation: Mutation
}

\"Marks what may be shown to anybody.\"
directive @shown(where: String = \"everywhere\") repeatable on OBJECT | FIELD_DEFINITION

type Query {
  book(isbn: ID!): Book
  search(text: String!, first: Int = 10): [Found!]!
}

type Mutation {
  order(books: [NewLine!]!): Int
}

interface Item {
  title: String!
  price(currency: Currency = EURO): Float
}

type Book implements Item @shown(where: \"shop\") {
  isbn: ID!
  title: String! @shown
  price(currency: Currency = EURO): Float
  author: Author
}

type Author {
  name: String!
  books: [Book!]
}

union Found = Book | Author

enum Currency {
  EURO
  FRANC @deprecated
}

input NewLine {
  isbn: ID!
  count: Int = 1
}

scalar Date @specifiedBy(url: \"https://www.rfc-editor.org/rfc/rfc3339\")
";

/// `store_reviews.graphql`.
const REVIEWS: &str = "\
# What readers say, in a file of its own: it extends types that another file defines.
extend type Book {
  reviews(first: Int): [Review!]!
}

type Review {
  by: String!
  on: Date
  text: String
  stars: Int!
}

extend union Found = Review

extend type Query {
  newest: Review
}

extend enum Currency {
  CROWN
}
";

/// `store_page.graphql`.
const PAGE: &str = "\
query Page($isbn: ID!, $withReviews: Boolean = true) {
  book(isbn: $isbn) {
    ...Cover
    author { name books { ...Cover } }
    reviews(first: 3) @include(if: $withReviews) { ...Short }
  }
}

query Search {
  search(text: \"tree\") {
    __typename
    ... on Book { ...Cover }
    ... on Author { called: name }
  }
}

fragment Cover on Book {
  title
  inEuro: price(currency: EURO)
}

fragment Short on Review { by stars }
";

/// `store_faults.graphql`.
const FAULTS: &str = "\
query Faulty {
  book(isbn: \"1\") {
    title { long }
    pages
    author
  }
  newest { on @include(if: true) ...Cover }
  search(text: \"\") { ... on Shelf { title } }
}

subscription Sold { sold }

fragment Cover on Book { title reviews }

fragment Cover on Review { text }
";

/// `store.bench`: the first two files in the notation.
const STORE_NOTATION: &str = "\
schema
root query Query
root mutation Mutation
directive shown
arg where String
repeatable
on OBJECT
on FIELD_DEFINITION
def object Query
field book Book
arg isbn ID!
field search [Found!]!
arg text String!
arg first Int
def object Mutation
field order Int
arg books [NewLine!]!
def interface Item
field title String!
field price Float
arg currency Currency
def object Book
implements Item
@ shown
field isbn ID!
field title String!
field@ shown
field price Float
arg currency Currency
field author Author
def object Author
field name String!
field books [Book!]
def union Found
member Book
member Author
def enum Currency
value EURO
value FRANC
def input NewLine
field isbn ID!
field count Int
def scalar Date
@ specifiedBy
---
ext object Book
field reviews [Review!]!
arg first Int
def object Review
field by String!
field on Date
field text String
field stars Int!
ext union Found
member Review
ext object Query
field newest Review
ext enum Currency
value CROWN
";

/// The third in the notation, as in `store_page.bench`.
const PAGE_NOTATION: &str = "\
operation query Page
sel 0 field book
sel 1 spread Cover
sel 1 field author
sel 2 field name
sel 2 field books
sel 3 spread Cover
sel 1 field reviews
sel 2 spread Short
operation query Search
sel 0 field search
sel 1 field __typename
sel 1 inline Book
sel 2 spread Cover
sel 1 inline Author
sel 2 field name called
fragment Cover Book
sel 0 field title
sel 0 field price inEuro
fragment Short Review
sel 0 field by
sel 0 field stars
";

/// The fourth in the notation, as in `store_faults.bench`.
const FAULTS_NOTATION: &str = "\
operation query Faulty
sel 0 field book
sel 1 field title
sel 2 field long
sel 1 field pages
sel 1 field author
sel 0 field newest
sel 1 field on
sel 1 spread Cover
sel 0 field search
sel 1 inline Shelf
sel 2 field title
operation subscription Sold
sel 0 field sold
fragment Cover Book
sel 0 field title
sel 0 field reviews
fragment Cover Review
sel 0 field text
";

/// What is written out of the text alone: there the definition of the schema has a description, and without
/// one it is as implied.
const DEFINITION: &str = "schema\nroot query Query\nroot mutation Mutation\n";

/// Adds the definitions of documents in the notation.
fn push_definitions(
    alloc: Global,
    text: &mut String,
    documents: &[Document],
) -> Result<(), AllocError> {
    for document in documents {
        let printed = print(alloc, document.definitions.as_slice())?;
        text.push_str(printed.as_str())?;
    }
    Ok(())
}

/// Adds the message of each fault.
fn push_faults(text: &mut String, compiled: &Compiled) -> Result<(), AllocError> {
    for (_, fault) in compiled.schema_faults.as_slice() {
        write!(text, "{fault}\n")?;
    }
    for (_, fault) in compiled.document_faults.as_slice() {
        write!(text, "{fault}\n")?;
    }
    Ok(())
}

/// Adds the write-outs of what documents are compiled to in the notation, and the message of each fault.
fn push_compiled(alloc: Global, text: &mut String, compiled: &Compiled) -> Result<(), AllocError> {
    let schema = print(alloc, compiled.ast.as_slice())?;
    let document = print(alloc, compiled.erased.definitions.as_slice())?;
    text.push_str(schema.as_str())?;
    text.push_str(document.as_str())?;
    push_faults(text, compiled)
}

/// What documents of both sorts say and are compiled to, in the notation, with the message of each fault. In
/// front of what they are compiled to stands another text.
fn told(
    alloc: Global,
    schema: &[Document],
    executable: &[Document],
    in_front: &str,
) -> Option<String> {
    let mut text = String::new(alloc);
    push_definitions(alloc, &mut text, schema).ok()?;
    push_definitions(alloc, &mut text, executable).ok()?;
    text.push_str(in_front).ok()?;
    let compiled = compile(alloc, PLAIN, schema, executable, true).ok()?;
    push_compiled(alloc, &mut text, &compiled).ok()?;
    Some(text)
}

/// What the store's texts and the text of an executable document are compiled to, as text.
fn told_of_text(alloc: Global, executable: &str) -> Option<String> {
    let store = read(alloc, FileId(1), STORE)?;
    let reviews = read(alloc, FileId(2), REVIEWS)?;
    let executable = read(alloc, FileId(3), executable)?;
    told(alloc, &[store, reviews], &[executable], "")
}

/// What the store and an executable document in the notation are compiled to, as text, as if the definition
/// of the schema were written out.
fn told_of_notation(alloc: Global, executable: &str) -> Option<String> {
    let text = format!(in alloc; "{STORE_NOTATION}===\n{executable}").ok()?;
    let documents = read_divided(alloc, text.as_str()).ok()?;
    let (schema, executable) = (documents.schema.as_slice(), documents.executable.as_slice());
    told(alloc, schema, executable, DEFINITION)
}

/// Expects the same to be said of both.
fn expect_same(rt: &impl Abort, of_text: Option<String>, of_notation: Option<String>) {
    match (of_text, of_notation) {
        (Some(of_text), Some(of_notation)) => {
            assert_eq!(rt; of_text.as_str(), of_notation.as_str());
        }
        _ => assert!(rt; false, "no memory, or no text"),
    }
}

#[test]
fn the_page_of_the_store_as_text_and_in_the_notation(rt: HostRuntime) {
    let alloc = rt.alloc();
    let of_text = told_of_text(alloc, PAGE);
    expect_same(&rt, of_text, told_of_notation(alloc, PAGE_NOTATION));
}

#[test]
fn the_faults_of_the_store_as_text_and_in_the_notation(rt: HostRuntime) {
    let alloc = rt.alloc();
    let of_text = told_of_text(alloc, FAULTS);
    expect_same(&rt, of_text, told_of_notation(alloc, FAULTS_NOTATION));
}
