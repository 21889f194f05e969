//! What documents that are made by calls are compiled to. They have arguments of directives, names that are
//! no names of GraphQL, and nodes that are marked built-in.

use crate::compilation::compiling::{PLAIN, expect_told, told, told_of_both};
use crate::compilation::making::{marked, name, products, unchecked_fragment, unchecked_names};
use apollo_compiler::{CompileError, HashKeys, build_schema};
use apollo_coordinate::TypeCoordinate;
use bench_notation::documents::read;
use bench_notation::refusal::ReadError;
use graphql_ast::Document;
use likeness::{both, is_printed};
use std::alloc::{AllocError, Global};
use std::slice;

/// What is said of a field whose definition has a directive with an argument, and of its selection.
fn told_of_query(alloc: Global) -> Result<String, ReadError> {
    let input = "operation query getProduct\nsel 0 field topProducts\nsel 1 field inStock\n";
    let documents = read(alloc, input)?;
    let schema = products(alloc)?;
    let schema = slice::from_ref(&schema);
    Ok(told(alloc, PLAIN, schema, documents.as_slice())?)
}

#[test]
fn arguments_of_directives_are_rebuilt_equal_and_a_field_has_them(rt: HostRuntime) {
    expect_told(
        &rt,
        told_of_query(rt.alloc()),
        "def object Query\nfield topProducts Product\ndef object Product\nfield inStock Boolean\nfield@ join__field\nno fault: true\nequal: true\nsame definitions: true\nsame text: true\nno fault: true, equal: true\ngetProduct 1:1 1:1 query getProduct 1:1 -> Query - { 1:2 topProducts 1:2 is - topProducts - Product - -> Product - { 1:3 inStock 1:3 is - inStock - Boolean - - @ join__field - ( - graph - - enum INVENTORY - ) -> Boolean - { } } } \n",
    );
}

#[test]
fn names_that_are_not_checked_are_rebuilt_equal_and_pass_through_typed_documents(rt: HostRuntime) {
    let alloc = rt.alloc();
    let text = told_of_both(alloc, unchecked_names(alloc), unchecked_fragment(alloc));
    expect_told(
        &rt,
        text,
        "def object \nfield → a b\next object \n@ →\nfield   \nno fault: true\nequal: true\nsame definitions: true\nsame text: true\nno fault: true, equal: true\n  - - fragment   - ->  - { - a b - → - is - → - a b - -> a b - { } - ...   - } \n",
    );
}

/// A definition that is marked built-in is not written out. What is adopted for its extension is marked so
/// too, and has no `a`.
#[test]
fn definitions_that_are_marked_built_in_are_compiled(rt: HostRuntime) {
    let alloc = rt.alloc();
    let text = told_of_both(alloc, marked(alloc), Ok(Document::new(alloc)));
    expect_told(
        &rt,
        text,
        "ext object T\nfield b Int\nno fault: true\nequal: false\nsame definitions: true\nsame text: true\nno fault: true, equal: true\n",
    );
}

/// Whether the coordinate of the field `→` of the type of the empty name is printed so. And whether it is
/// there in the schema of such names.
fn is_arrow_found(alloc: Global) -> Result<bool, CompileError> {
    let names = unchecked_names(alloc)?;
    let documents = slice::from_ref(&names);
    let (schema, _) = build_schema(alloc, HashKeys::FIXED, PLAIN, documents)?;
    let (ty, field) = both(name(alloc, ""), name(alloc, "→"))?;
    let coordinate = TypeCoordinate { ty }.with_attribute(field);
    Ok(is_printed(alloc, &coordinate, ".→") && coordinate.lookup_field(&schema).is_ok())
}

#[test]
fn names_that_are_not_checked_are_looked_up(rt: HostRuntime) {
    assert!(rt; is_arrow_found(rt.alloc()) == Ok(true));
}
