//! Texts, read as each form and as any.

use apollo_coordinate::parse_error::SchemaCoordinateParseError;
use apollo_coordinate::{
    DirectiveArgumentCoordinate, DirectiveCoordinate, FieldArgumentCoordinate, SchemaCoordinate,
    TypeAttributeCoordinate, TypeCoordinate,
};
use std::alloc::{AllocError, Global};
use std::fmt::Display;
use std::process::Abort;

/// How an input is read.
enum Form {
    Ty,
    Attribute,
    FieldArgument,
    Directive,
    DirectiveArgument,
    Any,
}

/// What a text was read as, printed, or why it wasn't.
fn printed<T: Display + Drop>(
    alloc: Global,
    read: Result<T, SchemaCoordinateParseError>,
) -> Result<String, AllocError> {
    match read {
        Ok(coordinate) => coordinate.to_string(alloc),
        Err(error) => error.to_string(alloc),
    }
}

/// What an input is read as.
fn answer(alloc: Global, form: &Form, input: &str) -> Result<String, AllocError> {
    match form {
        Form::Ty => printed(alloc, TypeCoordinate::from_str(alloc, input)),
        Form::Attribute => printed(alloc, TypeAttributeCoordinate::from_str(alloc, input)),
        Form::FieldArgument => printed(alloc, FieldArgumentCoordinate::from_str(alloc, input)),
        Form::Directive => printed(alloc, DirectiveCoordinate::from_str(alloc, input)),
        Form::DirectiveArgument => {
            printed(alloc, DirectiveArgumentCoordinate::from_str(alloc, input))
        }
        Form::Any => printed(alloc, SchemaCoordinate::from_str(alloc, input)),
    }
}

/// Expects inputs to be read so, as each form.
fn expect(rt: &(impl Abort + AllocGlobal), answers: &[(Form, &[(&str, &str)])]) {
    for (form, rows) in answers {
        for (input, expected) in *rows {
            let answer = answer(rt.alloc(), form, *input).expect(rt, "memory");
            assert_eq!(rt; answer.as_str(), *expected, "of {input:?}");
        }
    }
}

/// What inputs are read as.
const ANSWERS: [(Form, &[(&str, &str)]); 12] = [
    // Coordinates are printed as they are read.
    (Form::Ty, &[("Type", "Type")]),
    (Form::Attribute, &[("Type.field", "Type.field")]),
    (Form::FieldArgument, &[("T.f(a:)", "T.f(a:)")]),
    (Form::Directive, &[("@d", "@d")]),
    (Form::DirectiveArgument, &[("@d(a:)", "@d(a:)")]),
    (
        Form::Any,
        &[
            ("Type", "Type"),
            ("EnumType.ENUM_VALUE", "EnumType.ENUM_VALUE"),
            ("Type.field(argument:)", "Type.field(argument:)"),
            ("@directive", "@directive"),
            ("@directive(arg:)", "@directive(arg:)"),
            ("_0._9(__type:)", "_0._9(__type:)"),
        ],
    ),
    // The first refusal in the order of reading is answered.
    (Form::Ty, &[("T.a", "`T.a` is not a valid GraphQL name")]),
    (
        Form::Attribute,
        &[
            ("Type", "invalid schema coordinate"),
            ("Type.a.b", "`a.b` is not a valid GraphQL name"),
            ("9.9", "`9` is not a valid GraphQL name"),
            ("T.", "`` is not a valid GraphQL name"),
        ],
    ),
    (
        Form::FieldArgument,
        &[
            ("T.f(a:", "invalid schema coordinate"),
            ("T.f(a", "invalid schema coordinate"),
            ("T.f(a: )", "invalid schema coordinate"),
            ("T.f", "invalid schema coordinate"),
            ("T(a:)", "invalid schema coordinate"),
            ("T.9(a", "`9` is not a valid GraphQL name"),
            ("T.f(9:)", "`9` is not a valid GraphQL name"),
            ("T.f(a::)", "invalid schema coordinate"),
        ],
    ),
    (
        Form::Directive,
        &[
            ("d", "invalid schema coordinate"),
            ("@@d", "`@d` is not a valid GraphQL name"),
        ],
    ),
    (
        Form::DirectiveArgument,
        &[
            ("d(a:)", "invalid schema coordinate"),
            ("@d(a:) ", "invalid schema coordinate"),
            ("@d", "invalid schema coordinate"),
            ("@9(a", "`9` is not a valid GraphQL name"),
            ("@d(a(:)", "`a(` is not a valid GraphQL name"),
        ],
    ),
    // A text of no form is refused whole.
    (
        Form::Any,
        &[
            (" Type", "` Type` is not a valid GraphQL name"),
            ("T.f(a:) ", "`T.f(a:) ` is not a valid GraphQL name"),
            ("", "`` is not a valid GraphQL name"),
            ("@", "`` is not a valid GraphQL name"),
            ("@d(a", "`d(a` is not a valid GraphQL name"),
            ("Type.a.b", "`Type.a.b` is not a valid GraphQL name"),
            ("T(a:)", "`T(a:)` is not a valid GraphQL name"),
        ],
    ),
];

#[test]
fn texts_are_read_as_coordinates_or_refused(rt: HostRuntime) {
    expect(&rt, &ANSWERS);
}
