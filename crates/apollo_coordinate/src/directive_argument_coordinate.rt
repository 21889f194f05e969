//! Coordinates of arguments of directives: the Schema Coordinates RFC of GraphQL.
ghost use Rattle.std.specs.Prelude.{◌≡◌, Some, Err, IfOk, IfErr};
ghost use Rattle.apollo_coordinate.specs.CoordinateLookups.{directive_argument_at};
ghost use Rattle.apollo_coordinate.specs.CoordinateLookups.{IsMissingDirectiveArgument};
ghost use Rattle.apollo_coordinate.specs.CoordinateText.{SaysCoordinate, directive_argument_coordinate_text};
ghost use Rattle.apollo_coordinate.specs.Refusals.{WhenRefused, IsNoDirectiveArgument};
ghost use Rattle.apollo_coordinate.specs.declared.schema_coordinate.SchemaCoordinate.TheVariants as any;

use crate::directive_coordinate::DirectiveCoordinate;
use crate::lookup_answers::SchemaLookupError;
use crate::lookups::find_directive;
use crate::parse_error::SchemaCoordinateParseError;
use crate::text_parts::{DirectiveArgumentParts, answered};
use apollo_schema::schema::Schema;
use graphql_ast::type_system::InputValueDefinition;
use graphql_nodes::name::Name;
use graphql_nodes::node::Node;
use graphql_nodes::take_apart;
use std::alloc::{AllocError, Global};
use std::fmt;

/// The coordinate of an argument of a directive: `@directive(argument:)`.
#[derive(Debug, Clone, PartialEq, Eq, Hash)]
pub struct DirectiveArgumentCoordinate {
    pub directive: Name,
    pub argument: Name,
}

impl Drop for DirectiveArgumentCoordinate {
    fn drop(self) {
        take_apart!(self: directive, argument);
    }
}

impl DirectiveArgumentCoordinate {
    /// The coordinate of the directive that the argument belongs to. The error is out of memory.
    pub fn directive_coordinate(&self) -> Result<DirectiveCoordinate, AllocError>
        ensures { IfOk result (λ c. c ≡ record { directive = self.now.directive }) }
    {
        Ok(DirectiveCoordinate {
            directive: self.directive.clone()?,
        })
    }

    /// The coordinate that a text `@directive(argument:)` says, whose names have no location.
    ///
    /// A text without a `(` is refused with [`InvalidFormat`](SchemaCoordinateParseError::InvalidFormat).
    /// What stands before the first one is read as a [`DirectiveCoordinate`], with its refusals. Then what
    /// stands after it is read: no `:`, or anything but `)` alone after the first one, is `InvalidFormat`. An
    /// argument that is no name is [`InvalidName`](SchemaCoordinateParseError::InvalidName) of it.
    /// [`Memory`](SchemaCoordinateParseError::Memory) is out of memory.
    pub fn from_str(
        alloc: Global,
        text: &str,
    ) -> Result<DirectiveArgumentCoordinate, SchemaCoordinateParseError>
        ensures says { IfOk result (λ c. SaysCoordinate text.now (any.DirectiveArgument c)) }
        ensures refused { IfErr result (WhenRefused (IsNoDirectiveArgument text.now)) }
        ensures format { IsNoDirectiveArgument text.now SchemaCoordinateParseError.InvalidFormat
            → result ≡ Err SchemaCoordinateParseError.InvalidFormat }
    {
        answered(alloc, DirectiveArgumentParts::read(text))
    }

    /// The argument that the coordinate points to: the first of its name of the directive.
    ///
    /// [`MissingType`](SchemaLookupError::MissingType) is a name without a directive, and
    /// [`MissingArgument`](SchemaLookupError::MissingArgument) a directive without such an argument.
    pub fn lookup<'coord, 'schema>(
        &'coord self,
        schema: &'schema Schema,
    ) -> Result<&'schema Node<InputValueDefinition>, SchemaLookupError<'coord, 'schema>>
        ensures found { IfOk result
            (λ argument. directive_argument_at schema.now self.now.directive self.now.argument
            ≡ Some (Some argument.now)) }
        ensures missing { IfErr result
            (IsMissingDirectiveArgument schema.now self.now.directive self.now.argument) }
    {
        let directive = find_directive(&self.directive, schema)?;
        match directive.argument_by_name(&self.argument) {
            Some(argument) => Ok(argument),
            None => Err(SchemaLookupError::MissingArgument(&self.argument)),
        }
    }
}

impl fmt::Display for DirectiveArgumentCoordinate {
    ghost output = { λ c. Some (directive_argument_coordinate_text c) };

    fn fmt<W: fmt::Write>(&self, f: &mut fmt::Formatter<W>) -> fmt::Result {
        let Self {
            directive,
            argument,
        } = self;
        write!(f, "@{directive}({argument}:)")
    }
}
