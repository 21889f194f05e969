//! Coordinates that are read, and those that they stand in.

use crate::parts::name;
use crate::stop::{Stop, Told, expect};
use apollo_coordinate::parse_error::SchemaCoordinateParseError;
use apollo_coordinate::{
    DirectiveArgumentCoordinate, DirectiveCoordinate, FieldArgumentCoordinate, SchemaCoordinate,
    TypeAttributeCoordinate, TypeCoordinate,
};
use std::alloc::{AllocError, Global};
use std::fmt::{Debug, Display};

/// Texts of each form and of none.
static TEXTS: [&str; 15] = [
    "T",
    "Type",
    "Type.field",
    "Type.field(argument:)",
    "@directive",
    "@skip(if:)",
    "Type.a.b",
    "T.9(a",
    "T.f(9:)",
    "@d(a",
    "@d(a:) ",
    " Type",
    "T.f(a:) ",
    "",
    "@",
];

/// The call that a text is read by.
#[derive(Clone, Copy)]
pub enum Form {
    /// `TypeCoordinate::from_str`.
    Type,
    /// `TypeAttributeCoordinate::from_str`.
    Attribute,
    /// `FieldArgumentCoordinate::from_str`.
    FieldArgument,
    /// `DirectiveCoordinate::from_str`.
    Directive,
    /// `DirectiveArgumentCoordinate::from_str`.
    DirectiveArgument,
    /// `SchemaCoordinate::from_str`.
    Any,
}

/// Tells what a text is read as. The text `T` is never refused as no name.
fn tell_read<C: Display + Debug + Drop>(
    text: &mut String,
    input: &str,
    read: Result<C, SchemaCoordinateParseError>,
) -> Told {
    match read {
        Ok(coordinate) => write!(text, "{coordinate} {coordinate:?}\n")?,
        Err(SchemaCoordinateParseError::Memory) => return Err(Stop::Memory),
        Err(SchemaCoordinateParseError::InvalidName(refused)) => {
            expect(input != "T", "a type is refused as no name")?;
            write!(text, "{refused} {refused:?}\n")?;
        }
        Err(error) => write!(text, "{error}\n")?,
    }
    Ok(())
}

fn read_as(alloc: Global, text: &mut String, input: &str, form: Form) -> Told {
    match form {
        Form::Type => tell_read(text, input, TypeCoordinate::from_str(alloc, input)),
        Form::Attribute => tell_read(text, input, TypeAttributeCoordinate::from_str(alloc, input)),
        Form::FieldArgument => {
            tell_read(text, input, FieldArgumentCoordinate::from_str(alloc, input))
        }
        Form::Directive => tell_read(text, input, DirectiveCoordinate::from_str(alloc, input)),
        Form::DirectiveArgument => {
            tell_read(
                text,
                input,
                DirectiveArgumentCoordinate::from_str(alloc, input),
            )
        }
        Form::Any => tell_read(text, input, SchemaCoordinate::from_str(alloc, input)),
    }
}

/// Reads each text.
pub fn read_all(alloc: Global, text: &mut String, form: Form) -> Told {
    for input in &TEXTS {
        read_as(alloc, text, *input, form)?;
    }
    Ok(())
}

fn tell<C: Display + Debug + Drop>(text: &mut String, made: Result<C, AllocError>) -> Told {
    let coordinate = made?;
    Ok(write!(text, "{coordinate} {coordinate:?}\n")?)
}

fn of_attribute(alloc: Global) -> Result<TypeAttributeCoordinate, AllocError> {
    Ok(TypeAttributeCoordinate {
        ty: name(alloc, "T")?,
        attribute: name(alloc, "a")?,
    })
}

fn cut_attribute(alloc: Global, text: &mut String) -> Told {
    let attribute = of_attribute(alloc)?;
    tell(text, attribute.type_coordinate())?;
    let argument = attribute.with_argument(name(alloc, "x")?);
    tell(text, argument.type_coordinate())?;
    tell(text, argument.field_coordinate())
}

/// `TypeAttributeCoordinate::type_coordinate`, `FieldArgumentCoordinate::type_coordinate`,
/// `FieldArgumentCoordinate::field_coordinate` and `DirectiveArgumentCoordinate::directive_coordinate`.
pub fn cut(alloc: Global, text: &mut String) -> Told {
    cut_attribute(alloc, text)?;
    let directive = DirectiveCoordinate::from(name(alloc, "d")?);
    let argument = directive.with_argument(name(alloc, "x")?);
    tell(text, argument.directive_coordinate())
}
