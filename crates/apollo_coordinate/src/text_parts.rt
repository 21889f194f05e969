//! The parts of a text, cut at its marks and checked in place, and what is made of them: the coordinate, or
//! the error that is answered. Only what is made takes memory.
ghost use Rattle.std.specs.Prelude.{◌≡◌, ◌≢◌, ◌++◌, ◌<◌, ℕ, List, IfOk, IfErr, OnOk, IsOk, MatchOption};
ghost use Rattle.std.specs.Prelude.{codes};
ghost use Rattle.graphql_nodes.specs.NameSyntax.{IsName};
ghost use Rattle.apollo_coordinate.specs.CoordinateText.{IsCoordinateText, IsAttributeText, IsDirectiveText};
ghost use Rattle.apollo_coordinate.specs.Parts.{attribute_of, field_argument_of, directive_argument_of};
ghost use Rattle.apollo_coordinate.specs.Parts.{coordinate_of, IsAnswerTo};
ghost use Rattle.apollo_coordinate.specs.Parts.{SaysAttribute, SaysFieldArgument, SaysDirectiveArgument};
ghost use Rattle.apollo_coordinate.specs.Parts.{SaysDirective, SaysParts, error_of};
ghost use Rattle.apollo_coordinate.specs.Refusals.{Lacks, IsCut, IsNoName, IsNoNames, IsNoAttribute};
ghost use Rattle.apollo_coordinate.specs.Refusals.{IsNoDirective, IsNoArgument, IsNoPair, IsNoFieldArgument};
ghost use Rattle.apollo_coordinate.specs.Refusals.{IsNoDirectiveArgument, IsNoCoordinate, without_at};

use crate::directive_argument_coordinate::DirectiveArgumentCoordinate;
use crate::directive_coordinate::DirectiveCoordinate;
use crate::field_argument_coordinate::FieldArgumentCoordinate;
use crate::parse_error::SchemaCoordinateParseError;
use crate::refusal::Refusal;
use crate::schema_coordinate::SchemaCoordinate;
use crate::type_attribute_coordinate::TypeAttributeCoordinate;
use crate::type_coordinate::TypeCoordinate;
use graphql_nodes::name::Name;
use std::alloc::{AllocError, Global};

/// The parts of `Type.attribute`.
#[derive(Clone, Copy)]
pub(crate) struct AttributeParts<'a> {
    pub ty: &'a str,
    pub attribute: &'a str,
}

/// The parts of `Type.field(argument:)`.
#[derive(Clone, Copy)]
pub(crate) struct FieldArgumentParts<'a> {
    pub field: AttributeParts<'a>,
    pub argument: &'a str,
}

/// The parts of `@directive(argument:)`.
#[derive(Clone, Copy)]
pub(crate) struct DirectiveArgumentParts<'a> {
    pub directive: &'a str,
    pub argument: &'a str,
}

/// The parts of a text of any form.
#[derive(Clone, Copy)]
pub(crate) enum Parts<'a> {
    Ty(&'a str),
    TypeAttribute(AttributeParts<'a>),
    FieldArgument(FieldArgumentParts<'a>),
    Directive(&'a str),
    DirectiveArgument(DirectiveArgumentParts<'a>),
}

/// The parts of a text of one form, of which its coordinate is made.
pub(crate) trait CoordinateParts {
    type Coordinate;

    /// The coordinate that they make.
    ghost make: { Self → Self.Coordinate };

    /// The coordinate, whose names have no location. The error is out of memory.
    fn into_coordinate(self, alloc: Global) -> Result<Self::Coordinate, AllocError>
        ensures { IfOk result (λ c. c ≡ make self) };
}

/// What stands before and after the first such mark.
fn cut<'a>(text: &'a str, mark: char) -> Option<(&'a str, &'a str)>
    requires { mark < 128 }
    ensures { MatchOption result (Lacks mark text.now)
        (λ parts. IsCut mark text.now parts.0.now parts.1.now) }
{
    text.split_once(mark)
}

/// What follows the `@` of a text that begins with one.
fn after_at<'a>(text: &'a str) -> Option<&'a str>
    ensures { MatchOption result ((rest : List ℕ) → text.now ≢ codes "@" ++ rest) (λ rest. text.now
        ≡ codes "@" ++ rest.now) }
{
    text.strip_prefix("@")
}

/// The text without the `@` that it may begin with.
fn without_at<'a>(text: &'a str) -> &'a str
    ensures { result.now ≡ without_at text.now }
{
    after_at(text).unwrap_or(text)
}

/// The part, if it is a name.
pub(crate) fn name_part<'a>(part: &'a str) -> Result<&'a str, Refusal<'a>>
    ensures name { IfOk result (λ name. (name.now ≡ part.now) × IsName part.now) }
    ensures refused { IfErr result (λ refusal. IsNoName part.now (error_of refusal)) }
{
    if Name::is_valid_syntax(part) {
        Ok(part)
    } else {
        Err(Refusal::Name(part))
    }
}

/// The argument of `argument:)`.
fn argument_part<'a>(text: &'a str) -> Result<&'a str, Refusal<'a>>
    ensures name { IfOk result (λ name. (text.now ≡ name.now ++ codes ":)") × IsName name.now) }
    ensures refused { IfErr result (λ refusal. IsNoArgument text.now (error_of refusal)) }
{
    let Some((argument, rest)) = cut(text, ':') else {
        return Err(Refusal::Format);
    };
    if rest != ")" {
        return Err(Refusal::Format);
    }
    name_part(argument)
}

/// The directive of `@directive`.
pub(crate) fn directive_part<'a>(text: &'a str) -> Result<&'a str, Refusal<'a>>
    ensures says { IfOk result (λ name. SaysDirective text.now name.now) }
    ensures refused { IfErr result (λ refusal. IsNoDirective text.now (error_of refusal)) }
{
    match after_at(text) {
        Some(directive) => name_part(directive),
        None => Err(Refusal::Format),
    }
}

impl<'a> AttributeParts<'a> {
    /// The parts that stand before and after the `.`.
    fn new(ty: &'a str, attribute: &'a str) -> Result<AttributeParts<'a>, Refusal<'a>>
        ensures says { IfOk result (SaysAttribute (ty.now ++ (codes "." ++ attribute.now))) }
        ensures refused { IfErr result (λ refusal. IsNoNames ty.now attribute.now (error_of refusal)) }
    {
        Ok(AttributeParts {
            ty: name_part(ty)?,
            attribute: name_part(attribute)?,
        })
    }

    /// The parts of a text of this form.
    pub(crate) fn read(text: &'a str) -> Result<AttributeParts<'a>, Refusal<'a>>
        ensures says { IfOk result (SaysAttribute text.now) }
        ensures refused { IfErr result (λ refusal. IsNoAttribute text.now (error_of refusal)) }
    {
        match cut(text, '.') {
            Some((ty, attribute)) => AttributeParts::new(ty, attribute),
            None => Err(Refusal::Format),
        }
    }
}

impl<'a> CoordinateParts for AttributeParts<'a> {
    type Coordinate = TypeAttributeCoordinate;

    ghost make = { attribute_of };

    fn into_coordinate(self, alloc: Global) -> Result<TypeAttributeCoordinate, AllocError> {
        Ok(TypeAttributeCoordinate {
            ty: Name::new_unchecked(alloc, self.ty)?,
            attribute: Name::new_unchecked(alloc, self.attribute)?,
        })
    }
}

impl<'a> FieldArgumentParts<'a> {
    /// The parts of what stands before and after the `(`.
    fn new(field: &'a str, argument: &'a str) -> Result<FieldArgumentParts<'a>, Refusal<'a>>
        ensures says { IfOk result (SaysFieldArgument (field.now ++ (codes "(" ++ argument.now))) }
        ensures refused { IfErr result
            (λ refusal. IsNoPair IsAttributeText IsNoAttribute field.now argument.now (error_of refusal)) }
    {
        Ok(FieldArgumentParts {
            field: AttributeParts::read(field)?,
            argument: argument_part(argument)?,
        })
    }

    /// The parts of a text of this form.
    pub(crate) fn read(text: &'a str) -> Result<FieldArgumentParts<'a>, Refusal<'a>>
        ensures says { IfOk result (SaysFieldArgument text.now) }
        ensures refused { IfErr result (λ refusal. IsNoFieldArgument text.now (error_of refusal)) }
    {
        match cut(text, '(') {
            Some((field, argument)) => FieldArgumentParts::new(field, argument),
            None => Err(Refusal::Format),
        }
    }
}

impl<'a> CoordinateParts for FieldArgumentParts<'a> {
    type Coordinate = FieldArgumentCoordinate;

    ghost make = { field_argument_of };

    fn into_coordinate(self, alloc: Global) -> Result<FieldArgumentCoordinate, AllocError> {
        let field = self.field.into_coordinate(alloc)?;
        Ok(field.with_argument(Name::new_unchecked(alloc, self.argument)?))
    }
}

impl<'a> DirectiveArgumentParts<'a> {
    /// The parts of what stands before and after the `(`.
    fn new(directive: &'a str, argument: &'a str) -> Result<DirectiveArgumentParts<'a>, Refusal<'a>>
        ensures says { IfOk result (SaysDirectiveArgument (directive.now ++ (codes "(" ++ argument.now))) }
        ensures refused { IfErr result
            (λ refusal. IsNoPair IsDirectiveText IsNoDirective directive.now argument.now
            (error_of refusal)) }
    {
        Ok(DirectiveArgumentParts {
            directive: directive_part(directive)?,
            argument: argument_part(argument)?,
        })
    }

    /// The parts of a text of this form.
    pub(crate) fn read(text: &'a str) -> Result<DirectiveArgumentParts<'a>, Refusal<'a>>
        ensures says { IfOk result (SaysDirectiveArgument text.now) }
        ensures refused { IfErr result (λ refusal. IsNoDirectiveArgument text.now (error_of refusal)) }
    {
        match cut(text, '(') {
            Some((directive, argument)) => DirectiveArgumentParts::new(directive, argument),
            None => Err(Refusal::Format),
        }
    }
}

impl<'a> CoordinateParts for DirectiveArgumentParts<'a> {
    type Coordinate = DirectiveArgumentCoordinate;

    ghost make = { directive_argument_of };

    fn into_coordinate(self, alloc: Global) -> Result<DirectiveArgumentCoordinate, AllocError> {
        Ok(DirectiveArgumentCoordinate {
            directive: Name::new_unchecked(alloc, self.directive)?,
            argument: Name::new_unchecked(alloc, self.argument)?,
        })
    }
}

impl<'a> Parts<'a> {
    /// The parts by the one form that the text's marks allow.
    fn by_marks(text: &'a str) -> Result<Parts<'a>, Refusal<'a>>
        ensures says { IfOk result (SaysParts text.now) }
        ensures complete { IsCoordinateText text.now → IsOk result }
    {
        Ok(match (after_at(text), cut(text, '(')) {
            (Some(_), Some((directive, argument))) => {
                Parts::DirectiveArgument(DirectiveArgumentParts::new(directive, argument)?)
            }
            (Some(directive), None) => Parts::Directive(name_part(directive)?),
            (None, Some((field, argument))) => {
                Parts::FieldArgument(FieldArgumentParts::new(field, argument)?)
            }
            (None, None) => match cut(text, '.') {
                Some((ty, attribute)) => {
                    Parts::TypeAttribute(AttributeParts::new(ty, attribute)?)
                }
                None => Parts::Ty(name_part(text)?),
            },
        })
    }

    /// The parts of a text of any form. A text of none is refused whole, but for the `@` that it may begin
    /// with.
    pub(crate) fn read(text: &'a str) -> Result<Parts<'a>, Refusal<'a>>
        ensures says { IfOk result (SaysParts text.now) }
        ensures grammar { OnOk result (IsCoordinateText text.now) }
        ensures refused { IfErr result (λ refusal. IsNoCoordinate text.now (error_of refusal)) }
    {
        match Parts::by_marks(text) {
            Ok(parts) => Ok(parts),
            Err(_) => Err(Refusal::Name(without_at(text))),
        }
    }
}

impl<'a> CoordinateParts for Parts<'a> {
    type Coordinate = SchemaCoordinate;

    ghost make = { coordinate_of };

    fn into_coordinate(self, alloc: Global) -> Result<SchemaCoordinate, AllocError> {
        Ok(match self {
            Parts::Ty(ty) => TypeCoordinate {
                ty: Name::new_unchecked(alloc, ty)?,
            }
            .into(),
            Parts::TypeAttribute(parts) => parts.into_coordinate(alloc)?.into(),
            Parts::FieldArgument(parts) => parts.into_coordinate(alloc)?.into(),
            Parts::Directive(directive) => DirectiveCoordinate {
                directive: Name::new_unchecked(alloc, directive)?,
            }
            .into(),
            Parts::DirectiveArgument(parts) => parts.into_coordinate(alloc)?.into(),
        })
    }
}

/// The coordinate that is made of what was read, or the error that a refusal is answered as.
pub(crate) fn answered<'a, P: CoordinateParts>(
    alloc: Global,
    read: Result<P, Refusal<'a>>,
) -> Result<P::Coordinate, SchemaCoordinateParseError>
    ensures { IsAnswerTo P.make read.entry result }
{
    match read {
        Ok(parts) => Ok(parts.into_coordinate(alloc)?),
        Err(refusal) => Err(refusal.into_error(alloc)),
    }
}
