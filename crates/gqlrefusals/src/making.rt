//! Names, nodes, fields, selections and maps that are made.

use crate::parts::{are_same, definition, directive, name, node, operation, spread};
use crate::stop::{Stop, Told, expect, handed_back, tell_line};
use apollo_component::extension::{ExtensionId, ExtensionSource};
use apollo_executable::{
    Argument, Directive, Field, FragmentSpread, InlineFragment, OperationMap, Selection, Value,
};
use apollo_schema::meta_fields::MetaFields;
use graphql_nodes::name::{Name, NameError};
use graphql_nodes::node::Node;
use std::alloc::{AllocError, Global};
use telling::Tell;

/// The name of a text, or its refusal. A text that is a name is refused only because memory ran out.
fn tell_name(alloc: Global, text: &mut String, input: &str) -> Told {
    match Name::new(alloc, input) {
        Ok(name) => name.tell(text)?,
        Err(NameError::Memory) => return Err(Stop::Memory),
        Err(NameError::Invalid(refused)) => {
            expect(!Name::is_valid_syntax(input), "a name is refused as none")?;
            write!(text, "{refused} {refused:?}")?;
        }
    }
    Ok(text.push_str("\n")?)
}

/// Names, and texts that are none.
static NAMES: [&str; 7] = [
    "T",
    "_a9",
    "aNameThatIsRatherLong",
    "",
    "9",
    "a b",
    "\u{2192}",
];

/// `Name::new`.
pub fn names(alloc: Global, text: &mut String) -> Told {
    for input in &NAMES {
        tell_name(alloc, text, *input)?;
    }
    Ok(())
}

/// `Node::same_location` and `ExtensionId::same_location`.
pub fn same_location(alloc: Global, text: &mut String) -> Told {
    let node = node(alloc, name(alloc, "a")?, 12)?;
    tell_line(text, node.same_location(alloc, name(alloc, "bb")?))?;
    match ExtensionId::new(&mut ExtensionSource::new(), &node) {
        Ok(id) => tell_line(text, id.same_location(alloc, name(alloc, "ccc")?)),
        Err(_) => Err(Stop::Wrong("a new source is spent")),
    }
}

/// `MetaFields::new`.
pub fn meta_fields(alloc: Global, text: &mut String) -> Told {
    let fields = MetaFields::new(alloc)?;
    fields.typename().tell(text)?;
    fields.schema().tell(text)?;
    Ok(fields.type_by_name().tell(text)?)
}

fn argument(alloc: Global, text: &str) -> Result<Node<Argument>, AllocError> {
    let value = node(alloc, Value::Boolean(true), 8)?;
    node(alloc, Argument::new(name(alloc, text)?, value), 5)
}

fn arguments(alloc: Global) -> Result<Vec<Node<Argument>>, AllocError> {
    Ok(vec![in alloc; argument(alloc, "y")?, argument(alloc, "zz")?]?)
}

fn directives(alloc: Global) -> Result<Vec<Node<Directive>>, AllocError> {
    Ok(vec![in alloc; directive(alloc, "d")?, directive(alloc, "d")?]?)
}

fn selections(alloc: Global) -> Result<Vec<Selection>, AllocError> {
    Ok(vec![in alloc; spread(alloc, "G")?, spread(alloc, "HH")?]?)
}

/// `Field::new`, `Field::with_directive`, `Field::with_directives`.
fn field(alloc: Global) -> Result<Field, AllocError> {
    let field = Field::new(alloc, name(alloc, "a")?, definition(alloc)?)?;
    let field = field.with_alias(name(alloc, "alias")?);
    let field = field.with_directive(directive(alloc, "d")?)?;
    field.with_directives(directives(alloc)?)
}

/// `Field::with_argument`, `Field::with_arguments`, `Field::with_selection`, `Field::with_selections`.
fn filled_field(alloc: Global) -> Result<Field, AllocError> {
    let value = Node::new(alloc, Value::Null)?;
    let field = field(alloc)?.with_argument(alloc, name(alloc, "x")?, value)?;
    let field = field.with_arguments(arguments(alloc)?)?;
    let field = field.with_selection(spread(alloc, "F")?)?;
    field.with_selections(selections(alloc)?)
}

/// `InlineFragment::with_type_condition`, `InlineFragment::with_directive`,
/// `InlineFragment::with_directives`, `InlineFragment::with_selection`, `InlineFragment::with_selections`.
fn inline(alloc: Global) -> Result<InlineFragment, AllocError> {
    let inline = InlineFragment::with_type_condition(alloc, name(alloc, "User")?)?;
    let inline = inline.with_directive(directive(alloc, "d")?)?;
    let inline = inline.with_directives(directives(alloc)?)?;
    let inline = inline.with_selection(spread(alloc, "F")?)?;
    inline.with_selections(selections(alloc)?)
}

/// `FragmentSpread::with_directive`, `FragmentSpread::with_directives`.
fn spread_with_directives(alloc: Global) -> Result<FragmentSpread, AllocError> {
    let spread = FragmentSpread::new(alloc, name(alloc, "F")?);
    let spread = spread.with_directive(directive(alloc, "d")?)?;
    spread.with_directives(directives(alloc)?)
}

/// The calls that make selections without a schema: `Selection::of_field`, `Selection::of_inline_fragment`,
/// `Selection::of_fragment_spread`.
pub fn selections_made(alloc: Global, text: &mut String) -> Told {
    tell_line(text, Selection::of_field(alloc, filled_field(alloc)?))?;
    tell_line(text, Selection::of_inline_fragment(alloc, inline(alloc)?))?;
    tell_line(
        text,
        Selection::of_fragment_spread(alloc, spread_with_directives(alloc)?),
    )
}

/// `OperationMap::from_one`, of an operation of this name.
fn tell_one(alloc: Global, text: &mut String, name: &str) -> Told {
    let copy = operation(alloc, name)?;
    match OperationMap::from_one(alloc, operation(alloc, name)?) {
        Ok(map) => Ok(map.tell(text)?),
        Err(refused) => Err(handed_back(are_same(&refused, &copy))),
    }
}

/// `OperationMap::from_one`, of a named operation and of an anonymous one.
pub fn from_one(alloc: Global, text: &mut String) -> Told {
    tell_one(alloc, text, "A")?;
    tell_one(alloc, text, "-")
}
