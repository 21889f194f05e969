//! Documents that are made by calls, of what the notation can't say. That is arguments of directives, names
//! that are no names of GraphQL, and nodes that are marked built-in.

use graphql_ast::{
    Argument, Definition, Directive, DirectiveList, Document, Field, FieldDefinition,
    FragmentDefinition, FragmentSpread, Items, Name, Node, ObjectTypeDefinition,
    ObjectTypeExtension, Selection, Type, Value,
};
use graphql_nodes::source::{FileId, SourceSpan};
use likeness::both;
use std::alloc::{AllocError, Global};

/// A name that is not checked.
pub fn name(alloc: Global, text: &str) -> Result<Name, AllocError> {
    Name::new_unchecked(alloc, text)
}

/// A list of this value alone, if there was memory for the value.
fn list<T: Drop>(alloc: Global, value: Result<T, AllocError>) -> Result<Items<T>, AllocError> {
    let mut list = Items::new(alloc);
    list.push(value?)?;
    Ok(list)
}

/// The document of these definitions, if there was memory for both.
fn document<A: Drop, B: Drop>(
    alloc: Global,
    first: Result<Node<A>, AllocError>,
    second: Result<Node<B>, AllocError>,
) -> Result<Document, AllocError>
where
    Definition: From<Node<A>>,
    Definition: From<Node<B>>,
{
    let (first, second) = both(first, second)?;
    let mut document = Document::new(alloc);
    document.definitions.push(Definition::from(first))?;
    document.definitions.push(Definition::from(second))?;
    Ok(document)
}

/// A field of this name and of the type of this name, at this location.
fn field(
    alloc: Global,
    text: &str,
    ty: &str,
    location: Option<SourceSpan>,
) -> Result<Node<FieldDefinition>, AllocError> {
    let (name, ty) = both(name(alloc, text), name(alloc, ty))?;
    let field = FieldDefinition::new(alloc, name, Type::named(ty));
    Node::new_opt_location(alloc, field, location)
}

/// The directive `@join__field(graph: INVENTORY)`.
fn join_field(alloc: Global) -> Result<Node<Directive>, AllocError> {
    let (graph, value) = both(name(alloc, "graph"), name(alloc, "INVENTORY"))?;
    let value = Node::new(alloc, Value::Enum(value))?;
    let arguments = list(alloc, Node::new(alloc, Argument::new(graph, value)));
    let (name, arguments) = both(name(alloc, "join__field"), arguments)?;
    Node::new(alloc, Directive { name, arguments })
}

/// The field `inStock: Boolean @join__field(graph: INVENTORY)`.
fn in_stock(alloc: Global) -> Result<Node<FieldDefinition>, AllocError> {
    let directives = list(alloc, join_field(alloc));
    let (mut in_stock, directives) = both(field(alloc, "inStock", "Boolean", None), directives)?;
    let written = in_stock.make_mut()?;
    written.directives = DirectiveList(directives);
    Ok(in_stock)
}

/// The definition of an object type of this name with this field, at this location.
fn object(
    alloc: Global,
    text: &str,
    field: Result<Node<FieldDefinition>, AllocError>,
    location: Option<SourceSpan>,
) -> Result<Node<ObjectTypeDefinition>, AllocError> {
    let (name, fields) = both(name(alloc, text), list(alloc, field))?;
    let mut object = ObjectTypeDefinition::new(alloc, name);
    object.fields = fields;
    Node::new_opt_location(alloc, object, location)
}

/// An object type whose field has a directive with an argument, and the type `Query`.
pub fn products(alloc: Global) -> Result<Document, AllocError> {
    let top = field(alloc, "topProducts", "Product", None);
    let query = object(alloc, "Query", top, None);
    document(
        alloc,
        query,
        object(alloc, "Product", in_stock(alloc), None),
    )
}

/// The extension that adds the fields of an object type, where its definition stands.
fn extension(
    alloc: Global,
    object: Result<Node<ObjectTypeDefinition>, AllocError>,
) -> Result<Node<ObjectTypeExtension>, AllocError> {
    let object = object?;
    let (name, fields) = both(object.name.clone(), object.fields.clone())?;
    let mut extension = ObjectTypeExtension::new(alloc, name);
    extension.fields = fields;
    Node::new_opt_location(alloc, extension, object.location())
}

/// An extension of the object type of the empty name, with the directive `→` and a field of a space.
fn unchecked_extension(alloc: Global) -> Result<Node<ObjectTypeExtension>, AllocError> {
    let space = object(alloc, "", field(alloc, " ", "", None), None);
    let (mut extension, arrow) = both(extension(alloc, space), name(alloc, "→"))?;
    let directives = list(alloc, Node::new(alloc, Directive::new(alloc, arrow)))?;
    let written = extension.make_mut()?;
    written.directives = DirectiveList(directives);
    Ok(extension)
}

/// That extension, and the definition of the type behind it, whose field `→` is of a type of two words.
pub fn unchecked_names(alloc: Global) -> Result<Document, AllocError> {
    let arrow = field(alloc, "→", "a b", None);
    document(
        alloc,
        unchecked_extension(alloc),
        object(alloc, "", arrow, None),
    )
}

/// The field `→` under an alias of two words, and a spread of the fragment of the name of a space.
fn selections(alloc: Global) -> Result<Items<Selection>, AllocError> {
    let names = both(name(alloc, "→"), name(alloc, "a b"));
    let ((arrow, alias), space) = both(names, name(alloc, " "))?;
    let mut field = Field::new(alloc, arrow);
    field.alias = Some(alias);
    let spread = FragmentSpread::new(alloc, space);
    let (field, spread) = both(Node::new(alloc, field), Node::new(alloc, spread))?;
    let mut selections = list(alloc, Ok(Selection::Field(field)))?;
    selections.push(Selection::FragmentSpread(spread))?;
    Ok(selections)
}

/// A document of a fragment of the name of a space on the type of the empty name. It has the field `→` under
/// an alias of two words, and a spread of the fragment itself.
pub fn unchecked_fragment(alloc: Global) -> Result<Document, AllocError> {
    let names = both(name(alloc, " "), name(alloc, ""));
    let ((name, ty), selections) = both(names, selections(alloc))?;
    let mut fragment = FragmentDefinition::new(alloc, name, ty);
    fragment.selection_set = selections;
    let fragment = Node::new(alloc, fragment)?;
    let mut document = Document::new(alloc);
    document.definitions.push(fragment.into())?;
    Ok(document)
}

const BUILT_IN: Option<SourceSpan> = Some(SourceSpan {
    file: FileId::BUILT_IN,
    start: 0,
    end: 0,
});

/// The definition of an object type and an extension of it, both marked built-in.
pub fn marked(alloc: Global) -> Result<Document, AllocError> {
    let defined = object(alloc, "T", field(alloc, "a", "Int", BUILT_IN), BUILT_IN);
    let added = object(alloc, "T", field(alloc, "b", "Int", BUILT_IN), BUILT_IN);
    document(alloc, defined, extension(alloc, added))
}
