//! Trees made by calls: a schema of two documents, and a query over it, with a variable and a fragment. Both
//! are written as GraphQL text.
#![tactic(auto)]

use anyhow::{Result, ensure};
use apollo_compiler::ast::{
    Argument, Definition, Document, Field, FieldDefinition, FragmentDefinition, FragmentSpread,
    InputValueDefinition, ObjectTypeDefinition, ObjectTypeExtension, OperationDefinition,
    OperationType, Type, Value, VariableDefinition,
};
use apollo_compiler::text::{definitions, text};
use apollo_compiler::{ExecutableOptions, Name, Node, Schema, build_executable_document};
use std::alloc::Global;

/// A name, which is refused where it is no name of GraphQL. Every other call here fails only where memory
/// runs out.
fn name(alloc: Global, text: &str) -> Result<Name> {
    Ok(Name::new(alloc, text)?)
}

/// A field of a type, without arguments.
fn field(alloc: Global, text: &str, ty: &str) -> Result<FieldDefinition> {
    let ty = Type::named(name(alloc, ty)?);
    Ok(FieldDefinition::new(alloc, name(alloc, text)?, ty))
}

/// `type Query { book(isbn: ID!): Book }`
fn query_type(alloc: Global) -> Result<Definition> {
    let id = Type::named(name(alloc, "ID")?).non_null();
    let isbn = InputValueDefinition::new(alloc, name(alloc, "isbn")?, id)?;
    let mut book = field(alloc, "book", "Book")?;
    book.arguments.push(Node::new(alloc, isbn)?)?;
    let mut query = ObjectTypeDefinition::new(alloc, name(alloc, "Query")?);
    query.fields.push(Node::new(alloc, book)?)?;
    Ok(Node::new(alloc, query)?.into())
}

/// `type Book { title: String }`
fn book_type(alloc: Global) -> Result<Definition> {
    let mut book = ObjectTypeDefinition::new(alloc, name(alloc, "Book")?);
    book.fields
        .push(Node::new(alloc, field(alloc, "title", "String")?)?)?;
    Ok(Node::new(alloc, book)?.into())
}

/// `extend type Book { author: String }`
fn extension(alloc: Global) -> Result<Definition> {
    let mut book = ObjectTypeExtension::new(alloc, name(alloc, "Book")?);
    book.fields
        .push(Node::new(alloc, field(alloc, "author", "String")?)?)?;
    Ok(Node::new(alloc, book)?.into())
}

/// `query Shown($isbn: ID!) { book(isbn: $isbn) { ...Parts } }`
fn operation(alloc: Global) -> Result<Definition> {
    let value = Node::new(alloc, Value::Variable(name(alloc, "isbn")?))?;
    let argument = Argument::new(name(alloc, "isbn")?, value);
    let spread = FragmentSpread::new(alloc, name(alloc, "Parts")?);
    let mut book = Field::new(alloc, name(alloc, "book")?);
    book.arguments.push(Node::new(alloc, argument)?)?;
    book.selection_set.push(Node::new(alloc, spread)?.into())?;

    let id = Type::named(name(alloc, "ID")?).non_null();
    let isbn = VariableDefinition::new(alloc, name(alloc, "isbn")?, id)?;
    let mut shown = OperationDefinition::new(alloc, OperationType::Query);
    shown.name = Some(name(alloc, "Shown")?);
    shown.variables.push(Node::new(alloc, isbn)?)?;
    shown.selection_set.push(Node::new(alloc, book)?.into())?;
    Ok(Node::new(alloc, shown)?.into())
}

/// `fragment Parts on Book { title author }`
fn fragment(alloc: Global) -> Result<Definition> {
    let mut parts = FragmentDefinition::new(alloc, name(alloc, "Parts")?, name(alloc, "Book")?);
    for text in ["title", "author"] {
        let field = Field::new(alloc, name(alloc, text)?);
        parts.selection_set.push(Node::new(alloc, field)?.into())?;
    }
    Ok(Node::new(alloc, parts)?.into())
}

/// The schema of two documents. It makes no difference that the extension comes first.
fn schema(alloc: Global) -> Result<Schema> {
    let extension = vec![in alloc; extension(alloc)?]?;
    let types = vec![in alloc; query_type(alloc)?, book_type(alloc)?]?;
    let mut builder = Schema::builder(alloc)?;
    builder.add_ast(&Document::from_definitions(alloc, extension))?;
    builder.add_ast(&Document::from_definitions(alloc, types))?;
    Ok(builder.build()?)
}

fn main(rt: HostRuntime) -> Result<()> {
    let alloc = rt.alloc();
    let schema = schema(alloc)?;
    let types = schema.to_ast(alloc)?;
    println!(rt; "{}\n", definitions(types.as_slice()))?;

    let query = vec![in alloc; operation(alloc)?, fragment(alloc)?]?;
    let documents = [Document::from_definitions(alloc, query)];
    let options = ExecutableOptions::none();
    let (typed, faults) = build_executable_document(alloc, &schema, options, &documents)?;
    ensure!(faults.is_empty(), "the query has faults");
    let query = typed.to_ast(alloc)?;
    println!(rt; "{}", text(&query))?;
    Ok(())
}
