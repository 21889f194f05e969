//! Refusals of texts, as they are reported.
ghost use Rattle.std.specs.Prelude.{Some};
ghost use Rattle.apollo_reporting.specs.TextErrors.{parse_error_about, parse_error_details};
ghost use Rattle.apollo_reporting.specs.TextErrors.{parse_error_kind_about, parse_error_kind_details};

use crate::about::About;
use crate::detail::{Detail, one_text, two_texts};
use crate::reported::Reported;
use graphql_text::parse_error::{ParseError, ParseErrorKind};
use std::alloc::{AllocError, Global};

/// It has no earlier place and no path. Details are the fields of the variant; a field without a name stands
/// under `name`.
impl Reported for ParseErrorKind {
    ghost said_about = { parse_error_kind_about };

    ghost said_details = { λ kind. Some (parse_error_kind_details kind) };

    fn about(&self) -> About<'_> {
        About::new(match self {
            ParseErrorKind::UnexpectedCharacter { .. } => "UnexpectedCharacter",
            ParseErrorKind::UnterminatedString => "UnterminatedString",
            ParseErrorKind::InvalidEscape => "InvalidEscape",
            ParseErrorKind::InvalidNumber => "InvalidNumber",
            ParseErrorKind::Unexpected { .. } => "Unexpected",
            ParseErrorKind::ReservedName(_) => "ReservedName",
            ParseErrorKind::VariableInConstant(_) => "VariableInConstant",
            ParseErrorKind::UnknownDirectiveLocation(_) => "UnknownDirectiveLocation",
            ParseErrorKind::DescriptionNotAllowed => "DescriptionNotAllowed",
            ParseErrorKind::TooDeep => "TooDeep",
            ParseErrorKind::TooManyTokens => "TooManyTokens",
            ParseErrorKind::BuiltInFile => "BuiltInFile",
            ParseErrorKind::Memory => "Memory",
        })
    }

    fn details(&self, alloc: Global) -> Result<Vec<Detail>, AllocError> {
        match self {
            ParseErrorKind::UnexpectedCharacter { character, shown } => two_texts(
                alloc,
                ("character", character.to_string(alloc)?.as_str()),
                ("shown", shown.as_str()),
            ),
            ParseErrorKind::Unexpected { expected, found } => two_texts(
                alloc,
                ("expected", expected.as_str()),
                ("found", found.as_str()),
            ),
            ParseErrorKind::ReservedName(name)
            | ParseErrorKind::VariableInConstant(name)
            | ParseErrorKind::UnknownDirectiveLocation(name) => one_text(
                alloc,
                "name",
                name.as_str(),
            ),
            _ => Ok(Vec::new(alloc)),
        }
    }
}

/// What is said of its kind.
impl Reported for ParseError {
    ghost said_about = { parse_error_about };

    ghost said_details = { λ error. Some (parse_error_details error) };

    fn about(&self) -> About<'_> {
        self.kind.about()
    }

    fn details(&self, alloc: Global) -> Result<Vec<Detail>, AllocError> {
        self.kind.details(alloc)
    }
}
