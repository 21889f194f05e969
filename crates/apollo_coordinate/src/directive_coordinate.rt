//! Coordinates of directives: the Schema Coordinates RFC of GraphQL.
ghost use Rattle.std.specs.Prelude.{◌≡◌, Some, Err, IfOk, IfErr};
ghost use Rattle.apollo_coordinate.specs.CoordinateLookups.{directive_at, IsMissingDirective};
ghost use Rattle.apollo_coordinate.specs.CoordinateText.{SaysCoordinate, directive_coordinate_text};
ghost use Rattle.apollo_coordinate.specs.Refusals.{WhenRefused, IsNoDirective};
ghost use Rattle.apollo_coordinate.specs.declared.schema_coordinate.SchemaCoordinate.TheVariants as any;

use crate::directive_argument_coordinate::DirectiveArgumentCoordinate;
use crate::lookup_answers::SchemaLookupError;
use crate::lookups::find_directive;
use crate::parse_error::SchemaCoordinateParseError;
use crate::text_parts::directive_part;
use apollo_schema::schema::Schema;
use graphql_ast::type_system::DirectiveDefinition;
use graphql_nodes::name::Name;
use graphql_nodes::node::Node;
use graphql_nodes::take_apart;
use std::alloc::Global;
use std::fmt;

/// The coordinate of a directive: `@directive`.
#[derive(Debug, Clone, PartialEq, Eq, Hash)]
pub struct DirectiveCoordinate {
    pub directive: Name,
}

impl Drop for DirectiveCoordinate {
    fn drop(self) {
        take_apart!(self: directive);
    }
}

impl From<Name> for DirectiveCoordinate {
    ghost from_gives = { λ name c. c ≡ record { directive = name } };

    /// The coordinate of the directive of this name.
    fn from(directive: Name) -> DirectiveCoordinate {
        DirectiveCoordinate { directive }
    }
}

impl DirectiveCoordinate {
    /// The coordinate of this argument of the directive.
    pub fn with_argument(self, argument: Name) -> DirectiveArgumentCoordinate
        ensures { result ≡ record { directive = self.directive; argument = argument } }
    {
        let Self { directive } = self;
        DirectiveArgumentCoordinate {
            directive,
            argument,
        }
    }

    /// The coordinate that a text `@directive` says, whose name has no location.
    ///
    /// A text that doesn't begin with `@` is refused with
    /// [`InvalidFormat`](SchemaCoordinateParseError::InvalidFormat), and what is no name after it with
    /// [`InvalidName`](SchemaCoordinateParseError::InvalidName) of it.
    /// [`Memory`](SchemaCoordinateParseError::Memory) is out of memory.
    pub fn from_str(
        alloc: Global,
        text: &str,
    ) -> Result<DirectiveCoordinate, SchemaCoordinateParseError>
        ensures says { IfOk result (λ c. SaysCoordinate text.now (any.Directive c)) }
        ensures refused { IfErr result (WhenRefused (IsNoDirective text.now)) }
        ensures format { IsNoDirective text.now SchemaCoordinateParseError.InvalidFormat
            → result ≡ Err SchemaCoordinateParseError.InvalidFormat }
    {
        match directive_part(text) {
            Ok(directive) => Ok(DirectiveCoordinate {
                directive: Name::new_unchecked(alloc, directive)?,
            }),
            Err(refusal) => Err(refusal.into_error(alloc)),
        }
    }

    /// The directive that the coordinate points to. [`MissingType`](SchemaLookupError::MissingType) is a name
    /// without a directive.
    pub fn lookup<'coord, 'schema>(
        &'coord self,
        schema: &'schema Schema,
    ) -> Result<&'schema Node<DirectiveDefinition>, SchemaLookupError<'coord, 'schema>>
        ensures found { IfOk result (λ found. directive_at schema.now self.now.directive ≡ Some found.now) }
        ensures missing { IfErr result (IsMissingDirective schema.now self.now.directive) }
    {
        find_directive(&self.directive, schema)
    }
}

impl fmt::Display for DirectiveCoordinate {
    ghost output = { λ c. Some (directive_coordinate_text c) };

    fn fmt<W: fmt::Write>(&self, f: &mut fmt::Formatter<W>) -> fmt::Result {
        let Self { directive } = self;
        write!(f, "@{directive}")
    }
}
