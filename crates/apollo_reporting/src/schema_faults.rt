//! Faults of schemas, as they are reported.
ghost use Rattle.std.specs.Prelude.{◌≡◌, ◌∷◌, [], IfOk, Some};
ghost use Rattle.apollo_reporting.specs.SchemaFaults as spec;
ghost use Rattle.apollo_reporting.specs.SchemaFaults.{kind_details, previous_and_text, previous_detail};
ghost use Rattle.apollo_reporting.specs.SchemaFaults.{schema_fault_about, schema_fault_details};

use crate::about::About;
use crate::detail::{Detail, one_text, two_texts};
use crate::reported::Reported;
use apollo_meaning::build_error::BuildError;
use graphql_nodes::collections::static_text::StaticText;
use graphql_nodes::name::Name;
use graphql_nodes::source::SourceSpan;
use std::alloc::{AllocError, Global};

/// What stands at the place of a thing that is kept.
const FIRST_DEFINED: &str = "first defined here";
/// What stands at the place of a name in a list that is kept.
const FIRST_LISTED: &str = "first listed here";
/// What stands at the place of a definition.
const DEFINED: &str = "defined here";

/// An earlier place is that of the thing that is kept, or the definition of another kind. Details are the
/// fields of the variant, in order.
impl Reported for BuildError {
    ghost said_about = { schema_fault_about };

    ghost said_details = { λ fault. Some (schema_fault_details fault) };

    fn about(&self) -> About<'_> {
        match self {
            BuildError::ExecutableDefinition { .. } => About::new("ExecutableDefinition"),
            BuildError::SchemaDefinitionCollision { previous_location } => {
                About::new("SchemaDefinitionCollision").with_earlier(
                    FIRST_DEFINED,
                    *previous_location,
                )
            }
            BuildError::DirectiveDefinitionCollision {
                previous_location,
                ..
            } => {
                About::new("DirectiveDefinitionCollision").with_earlier(
                    FIRST_DEFINED,
                    *previous_location,
                )
            }
            BuildError::TypeDefinitionCollision {
                previous_location,
                ..
            } => {
                About::new("TypeDefinitionCollision").with_earlier(
                    FIRST_DEFINED,
                    *previous_location,
                )
            }
            BuildError::BuiltInScalarTypeRedefinition => About::new(
                "BuiltInScalarTypeRedefinition",
            ),
            BuildError::OrphanSchemaExtension => About::new("OrphanSchemaExtension"),
            BuildError::OrphanTypeExtension { .. } => About::new("OrphanTypeExtension"),
            BuildError::TypeExtensionKindMismatch { def_location, .. } => {
                About::new("TypeExtensionKindMismatch").with_earlier(DEFINED, *def_location)
            }
            BuildError::DuplicateRootOperation {
                previous_location,
                ..
            } => {
                About::new("DuplicateRootOperation").with_earlier(FIRST_DEFINED, *previous_location)
            }
            BuildError::DuplicateImplementsInterfaceInObject {
                name_at_previous_location,
                ..
            } => {
                About::new("DuplicateImplementsInterfaceInObject").with_earlier(
                    FIRST_LISTED,
                    name_at_previous_location.location(),
                )
            }
            BuildError::DuplicateImplementsInterfaceInInterface {
                name_at_previous_location,
                ..
            } => {
                About::new("DuplicateImplementsInterfaceInInterface").with_earlier(
                    FIRST_LISTED,
                    name_at_previous_location.location(),
                )
            }
            BuildError::ObjectFieldNameCollision {
                name_at_previous_location,
                ..
            } => {
                About::new("ObjectFieldNameCollision").with_earlier(
                    FIRST_DEFINED,
                    name_at_previous_location.location(),
                )
            }
            BuildError::InterfaceFieldNameCollision {
                name_at_previous_location,
                ..
            } => {
                About::new("InterfaceFieldNameCollision").with_earlier(
                    FIRST_DEFINED,
                    name_at_previous_location.location(),
                )
            }
            BuildError::EnumValueNameCollision {
                name_at_previous_location,
                ..
            } => {
                About::new("EnumValueNameCollision").with_earlier(
                    FIRST_DEFINED,
                    name_at_previous_location.location(),
                )
            }
            BuildError::UnionMemberNameCollision {
                name_at_previous_location,
                ..
            } => {
                About::new("UnionMemberNameCollision").with_earlier(
                    FIRST_LISTED,
                    name_at_previous_location.location(),
                )
            }
            BuildError::InputFieldNameCollision {
                name_at_previous_location,
                ..
            } => {
                About::new("InputFieldNameCollision").with_earlier(
                    FIRST_DEFINED,
                    name_at_previous_location.location(),
                )
            }
        }
    }

    fn details(&self, alloc: Global) -> Result<Vec<Detail>, AllocError> {
        match self {
            BuildError::ExecutableDefinition { describe } => {
                one_text(alloc, "describe", describe.as_str())
            }
            BuildError::SchemaDefinitionCollision { previous_location } => {
                one_place(alloc, *previous_location)
            }
            BuildError::DirectiveDefinitionCollision {
                previous_location,
                name,
            }
            | BuildError::TypeDefinitionCollision {
                previous_location,
                name,
            } => place_and_text(alloc, *previous_location, "name", name.as_str()),
            BuildError::BuiltInScalarTypeRedefinition | BuildError::OrphanSchemaExtension => {
                Ok(Vec::new(alloc))
            }
            BuildError::OrphanTypeExtension { name } => one_text(alloc, "name", name.as_str()),
            BuildError::TypeExtensionKindMismatch {
                name,
                describe_ext,
                def_location,
                describe_def,
            } => kinds(alloc, name, describe_ext, *def_location, describe_def),
            BuildError::DuplicateRootOperation {
                previous_location,
                operation_type,
            } => place_and_text(
                alloc,
                *previous_location,
                "operation_type",
                operation_type.as_str(),
            ),
            BuildError::DuplicateImplementsInterfaceInObject {
                name_at_previous_location,
                type_name,
            }
            | BuildError::DuplicateImplementsInterfaceInInterface {
                name_at_previous_location,
                type_name,
            }
            | BuildError::ObjectFieldNameCollision {
                name_at_previous_location,
                type_name,
            }
            | BuildError::InterfaceFieldNameCollision {
                name_at_previous_location,
                type_name,
            }
            | BuildError::EnumValueNameCollision {
                name_at_previous_location,
                type_name,
            }
            | BuildError::UnionMemberNameCollision {
                name_at_previous_location,
                type_name,
            }
            | BuildError::InputFieldNameCollision {
                name_at_previous_location,
                type_name,
            } => part_and_type(alloc, name_at_previous_location, type_name),
        }
    }
}

/// The place of the thing that is kept.
fn one_place(alloc: Global, previous: Option<SourceSpan>) -> Result<Vec<Detail>, AllocError>
    ensures { IfOk result (λ details. details.items ≡ previous_detail previous ∷ []) }
{
    Ok(vec![in alloc; Detail::place("previous_location", previous)]?)
}

/// The place of the thing that is kept, and a text.
fn place_and_text(
    alloc: Global,
    previous: Option<SourceSpan>,
    name: &'static str,
    text: &str,
) -> Result<Vec<Detail>, AllocError>
    ensures { IfOk result (λ details. details.items ≡ previous_and_text previous name.now text.now) }
{
    let text = Detail::text(alloc, name, text)?;
    Ok(vec![in alloc; Detail::place("previous_location", previous), text]?)
}

/// What is extended as another kind.
fn kinds(
    alloc: Global,
    name: &Name,
    extension: &StaticText,
    location: Option<SourceSpan>,
    definition: &StaticText,
) -> Result<Vec<Detail>, AllocError>
    ensures { IfOk result (λ details. details.items
        ≡ kind_details name.now.text extension.now location definition.now) }
{
    let name = Detail::text(alloc, "name", name.as_str())?;
    let extension = Detail::text(alloc, "describe_ext", extension.as_str())?;
    let location = Detail::place("def_location", location);
    let definition = Detail::text(alloc, "describe_def", definition.as_str())?;
    Ok(vec![in alloc; name, extension, location, definition]?)
}

/// The name of a part that a type has already, and the type's.
fn part_and_type(alloc: Global, part: &Name, ty: &Name) -> Result<Vec<Detail>, AllocError>
    ensures { IfOk result (λ details. details.items ≡ spec.part_and_type part.now ty.now) }
{
    two_texts(
        alloc,
        ("name_at_previous_location", part.as_str()),
        ("type_name", ty.as_str()),
    )
}
