//! Laws of coordinates and their texts, for those who build on them; and what `==` answers at coordinates and
//! at what their lookups answer. Schema Coordinates RFC; names are those of section 2.1.9 of the GraphQL
//! specification of October 2021.
ghost use Rattle.std.specs.Prelude.{◌≡◌, ℕ, List, Result};
ghost use Rattle.apollo_coordinate.specs.BareLookups.{bare_attribute_lookup, bare_lookup};
ghost use Rattle.apollo_coordinate.specs.CoordinateText as texts;
ghost use Rattle.apollo_coordinate.specs.CoordinateText.{HasNames, IsCoordinateText, SaysCoordinate};
ghost use Rattle.apollo_coordinate.specs.CoordinateText.{bare_coordinate, coordinate_text};
ghost use Rattle.apollo_coordinate.specs.Refusals.{IsNoName, IsNoAttribute, IsNoFieldArgument, IsNoDirective};
ghost use Rattle.apollo_coordinate.specs.Refusals.{IsNoDirectiveArgument};
ghost use Rattle.apollo_coordinate.specs.Readings.{IsReadingOf, IsReadBack};
ghost use Rattle.graphql_nodes.specs.Clones.{IsExact};
ghost use Rattle.graphql_nodes.specs.Comparing.{ComparesBy};

use crate::directive_argument_coordinate::DirectiveArgumentCoordinate;
use crate::directive_coordinate::DirectiveCoordinate;
use crate::field_argument_coordinate::FieldArgumentCoordinate;
use crate::lookup_answers::{SchemaCoordinateLookup, SchemaLookupError, TypeAttributeLookup};
use crate::parse_error::SchemaCoordinateParseError;
use crate::schema_coordinate::SchemaCoordinate;
use crate::type_attribute_coordinate::TypeAttributeCoordinate;
use crate::type_coordinate::TypeCoordinate;
use apollo_types::laws::equality_of_types;
use graphql_ast::laws::equality_of_the_type_system;

/// Take the text of a coordinate of valid names. Whatever reads it, as [`SchemaCoordinate::from_str`] does,
/// answers that coordinate, without the locations of its names, or out of memory. No text belongs to two such
/// coordinates. Each text that says a coordinate is in the grammar.
pub fn coordinates()
    ensures read { (c : SchemaCoordinate) (result : Result SchemaCoordinate SchemaCoordinateParseError)
        → HasNames c → IsReadingOf (coordinate_text c) result → IsReadBack c result }
    ensures apart { (c d : SchemaCoordinate) → HasNames c → HasNames d → coordinate_text c ≡ coordinate_text d
        → bare_coordinate c ≡ bare_coordinate d }
    ensures said { (t : List ℕ) (c : SchemaCoordinate) → SaysCoordinate t c → IsCoordinateText t }
{}

/// What one form refuses, other than because memory ran out, is no text of that form.
pub fn refused_texts()
    ensures ty { (t : List ℕ) (e : SchemaCoordinateParseError) → IsNoName t e → ¬ texts.IsTypeText t }
    ensures attribute { (t : List ℕ) (e : SchemaCoordinateParseError) → IsNoAttribute t e
        → ¬ texts.IsAttributeText t }
    ensures field_argument { (t : List ℕ) (e : SchemaCoordinateParseError) → IsNoFieldArgument t e
        → ¬ texts.IsFieldArgumentText t }
    ensures directive { (t : List ℕ) (e : SchemaCoordinateParseError) → IsNoDirective t e
        → ¬ texts.IsDirectiveText t }
    ensures directive_argument { (t : List ℕ) (e : SchemaCoordinateParseError) → IsNoDirectiveArgument t e
        → ¬ texts.IsDirectiveArgumentText t }
{}

/// Coordinates are equal exactly where they are one without the locations of their names.
pub fn equality_of_coordinates()
    ensures ty { ComparesBy ⟦<TypeCoordinate as PartialEq>⟧.eq texts.bare_type_coordinate }
    ensures attribute { ComparesBy ⟦<TypeAttributeCoordinate as PartialEq>⟧.eq
        texts.bare_attribute_coordinate }
    ensures field_argument { ComparesBy ⟦<FieldArgumentCoordinate as PartialEq>⟧.eq
        texts.bare_field_argument_coordinate }
    ensures directive { ComparesBy ⟦<DirectiveCoordinate as PartialEq>⟧.eq texts.bare_directive_coordinate }
    ensures directive_argument { ComparesBy ⟦<DirectiveArgumentCoordinate as PartialEq>⟧.eq
        texts.bare_directive_argument_coordinate }
    ensures coordinate { ComparesBy ⟦<SchemaCoordinate as PartialEq>⟧.eq bare_coordinate }
{}

/// What lookups answer is equal exactly where both answers are of one sort, and what is found is one without
/// locations, origins and sources. GraphQL specification of October 2021, sections 3.4 to 3.10 and 3.13.
pub fn equality_of_lookups<'schema>()
    ensures attribute { ComparesBy ⟦<TypeAttributeLookup<'schema> as PartialEq>⟧.eq bare_attribute_lookup }
    ensures coordinate { ComparesBy ⟦<SchemaCoordinateLookup<'schema> as PartialEq>⟧.eq bare_lookup }
{
    equality_of_the_type_system();
    equality_of_types();
}

/// Each clone of a coordinate is the original, with the locations of its names; and so is each clone of a
/// refusal.
pub fn clones_of_coordinates_are_exact()
    ensures ty { IsExact ⟦<TypeCoordinate as Clone>⟧.is_clone }
    ensures attribute { IsExact ⟦<TypeAttributeCoordinate as Clone>⟧.is_clone }
    ensures field_argument { IsExact ⟦<FieldArgumentCoordinate as Clone>⟧.is_clone }
    ensures directive { IsExact ⟦<DirectiveCoordinate as Clone>⟧.is_clone }
    ensures directive_argument { IsExact ⟦<DirectiveArgumentCoordinate as Clone>⟧.is_clone }
    ensures coordinate { IsExact ⟦<SchemaCoordinate as Clone>⟧.is_clone }
    ensures parse_error { IsExact ⟦<SchemaCoordinateParseError as Clone>⟧.is_clone }
{}

/// Each clone of what lookups answer, and of their errors, is the original.
pub fn clones_of_lookups_are_exact<'coord, 'schema>()
    ensures attribute { IsExact ⟦<TypeAttributeLookup<'schema> as Clone>⟧.is_clone }
    ensures coordinate { IsExact ⟦<SchemaCoordinateLookup<'schema> as Clone>⟧.is_clone }
    ensures error { IsExact ⟦<SchemaLookupError<'coord, 'schema> as Clone>⟧.is_clone }
{}
