//! Coordinates made of one another, copied and compared, and refusals.

use apollo_coordinate::parse_error::SchemaCoordinateParseError;
use apollo_coordinate::{
    DirectiveArgumentCoordinate, DirectiveCoordinate, FieldArgumentCoordinate, SchemaCoordinate,
    TypeAttributeCoordinate, TypeCoordinate,
};
use graphql_nodes::name::{Name, NameError};
use likeness::{are_alike, is_copied, is_printed};
use std::alloc::{AllocError, Global};
use std::fmt::Display;
use std::hash::Hash;

/// Whether a coordinate is made that prints so, is copied, and is equal to another that is made so.
fn is_right<T: Display + Clone + PartialEq + Hash + Drop>(
    alloc: Global,
    made: &T,
    again: &T,
    text: &str,
) -> bool {
    is_printed(alloc, made, text) && is_copied(made) && are_alike(made, again)
}

/// Whether that holds of a coordinate, and of one of any form that is made of it.
fn are_right<T: Display + Clone + PartialEq + Hash + Into<SchemaCoordinate> + Drop>(
    alloc: Global,
    made: Result<T, AllocError>,
    again: Result<T, AllocError>,
    text: &str,
) -> bool {
    match (made, again) {
        (Ok(made), Ok(again)) => {
            is_right(alloc, &made, &again, text)
                && is_right(alloc, &made.into(), &again.into(), text)
        }
        _ => false,
    }
}

fn type_coordinate(alloc: Global) -> Result<TypeCoordinate, AllocError> {
    Ok(TypeCoordinate {
        ty: Name::new_unchecked(alloc, "T")?,
    })
}

fn attribute(alloc: Global) -> Result<TypeAttributeCoordinate, AllocError> {
    let ty = type_coordinate(alloc)?;
    Ok(ty.with_attribute(Name::new_unchecked(alloc, "f")?))
}

fn field_argument(alloc: Global) -> Result<FieldArgumentCoordinate, AllocError> {
    let attribute = attribute(alloc)?;
    Ok(attribute.with_argument(Name::new_unchecked(alloc, "a")?))
}

fn directive(alloc: Global) -> Result<DirectiveCoordinate, AllocError> {
    Ok(Name::new_unchecked(alloc, "d")?.into())
}

fn directive_argument(alloc: Global) -> Result<DirectiveArgumentCoordinate, AllocError> {
    let directive = directive(alloc)?;
    Ok(directive.with_argument(Name::new_unchecked(alloc, "a")?))
}

/// Whether a call makes a coordinate that is right, with this text.
macro_rules! makes {
    ($alloc:ident, $make:ident, $text:literal) => {
        are_right($alloc, $make($alloc), $make($alloc), $text)
    };
}

#[test]
fn coordinates_are_made_of_one_another_and_are_any(rt: HostRuntime) {
    let alloc = rt.alloc();
    assert!(rt; makes!(alloc, type_coordinate, "T"));
    assert!(rt; makes!(alloc, attribute, "T.f"));
    assert!(rt; makes!(alloc, field_argument, "T.f(a:)"));
    assert!(rt; makes!(alloc, directive, "@d"));
    assert!(rt; makes!(alloc, directive_argument, "@d(a:)"));
}

/// Adds a refusal, and a copy of it.
fn push_refusal(text: &mut String, error: &SchemaCoordinateParseError) -> Result<(), AllocError> {
    let copy = error.clone()?;
    write!(text, "{error}, {copy}\n")
}

/// Adds each refusal. A text that is no name is refused as a coordinate, as a name, and as the part that the
/// latter has. Then come others.
fn push_refusals(alloc: Global, text: &mut String, input: &str) -> Result<(), AllocError> {
    if let Err(error) = TypeCoordinate::from_str(alloc, input) {
        push_refusal(text, &error)?;
    }
    if let Err(error) = Name::new(alloc, input) {
        push_refusal(text, &error.into())?;
    }
    if let Err(NameError::Invalid(error)) = Name::new(alloc, input) {
        push_refusal(text, &error.into())?;
    }
    push_refusal(text, &SchemaCoordinateParseError::InvalidFormat)?;
    push_refusal(text, &SchemaCoordinateParseError::Memory)
}

#[test]
fn refusals_have_texts_and_copies_and_those_of_names_are_of_coordinates(rt: HostRuntime) {
    let mut text = String::new(rt.alloc());
    push_refusals(rt.alloc(), &mut text, "9").expect(&rt, "memory");
    assert_eq!(rt;
        text.as_str(),
        "`9` is not a valid GraphQL name, `9` is not a valid GraphQL name\n`9` is not a valid GraphQL name, `9` is not a valid GraphQL name\n`9` is not a valid GraphQL name, `9` is not a valid GraphQL name\ninvalid schema coordinate, invalid schema coordinate\nout of memory, out of memory\n"
    );
}
