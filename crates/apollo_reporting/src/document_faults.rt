//! Faults of executable documents, as they are reported.
ghost use Rattle.std.specs.Prelude.{◌≡◌, IfOk, Some, codes};
ghost use Rattle.apollo_reporting.specs.Details as spec;
ghost use Rattle.apollo_reporting.specs.DocumentFaults.{definition_details, document_fault_about};
ghost use Rattle.apollo_reporting.specs.DocumentFaults.{document_fault_details};

use crate::about::About;
use crate::detail::{Detail, one_text, two_texts};
use crate::reported::Reported;
use apollo_document::build_error::BuildError;
use graphql_nodes::collections::static_text::StaticText;
use graphql_nodes::name::Name;
use std::alloc::{AllocError, Global};

/// What stands at the place of a definition that is kept.
const FIRST_DEFINED: &str = "first defined here";

/// An earlier place is that of the definition that is kept. Details are the fields of the variant, in order,
/// but for the path.
impl Reported for BuildError {
    ghost said_about = { document_fault_about };

    ghost said_details = { λ fault. Some (document_fault_details fault) };

    fn about(&self) -> About<'_> {
        match self {
            BuildError::TypeSystemDefinition { .. } => About::new("TypeSystemDefinition"),
            BuildError::AmbiguousAnonymousOperation => About::new("AmbiguousAnonymousOperation"),
            BuildError::OperationNameCollision {
                name_at_previous_location,
            } => {
                About::new("OperationNameCollision").with_earlier(
                    FIRST_DEFINED,
                    name_at_previous_location.location(),
                )
            }
            BuildError::FragmentNameCollision {
                name_at_previous_location,
            } => {
                About::new("FragmentNameCollision").with_earlier(
                    FIRST_DEFINED,
                    name_at_previous_location.location(),
                )
            }
            BuildError::UndefinedRootOperation { .. } => About::new("UndefinedRootOperation"),
            BuildError::UndefinedTypeInNamedFragmentTypeCondition { .. } => {
                About::new("UndefinedTypeInNamedFragmentTypeCondition")
            }
            BuildError::UndefinedTypeInInlineFragmentTypeCondition { path, .. } => {
                About::new("UndefinedTypeInInlineFragmentTypeCondition").with_path(path)
            }
            BuildError::SubselectionOnScalarType { path, .. } => {
                About::new("SubselectionOnScalarType").with_path(path)
            }
            BuildError::SubselectionOnEnumType { path, .. } => {
                About::new("SubselectionOnEnumType").with_path(path)
            }
            BuildError::UndefinedField { path, .. } => About::new("UndefinedField").with_path(path),
        }
    }

    fn details(&self, alloc: Global) -> Result<Vec<Detail>, AllocError> {
        match self {
            BuildError::TypeSystemDefinition { name, describe } => {
                definition(alloc, name, describe)
            }
            BuildError::AmbiguousAnonymousOperation => Ok(Vec::new(alloc)),
            BuildError::OperationNameCollision {
                name_at_previous_location,
            }
            | BuildError::FragmentNameCollision {
                name_at_previous_location,
            } => one_text(
                alloc,
                "name_at_previous_location",
                name_at_previous_location.as_str(),
            ),
            BuildError::UndefinedRootOperation { operation_type } => {
                one_text(alloc, "operation_type", operation_type.as_str())
            }
            BuildError::UndefinedTypeInNamedFragmentTypeCondition {
                type_name,
                fragment_name,
            } => type_and_name(alloc, type_name, "fragment_name", fragment_name),
            BuildError::UndefinedTypeInInlineFragmentTypeCondition { type_name, .. }
            | BuildError::SubselectionOnScalarType { type_name, .. }
            | BuildError::SubselectionOnEnumType { type_name, .. } => {
                one_text(alloc, "type_name", type_name.as_str())
            }
            BuildError::UndefinedField {
                type_name,
                field_name,
                ..
            } => type_and_name(alloc, type_name, "field_name", field_name),
        }
    }
}

/// A definition, by its name, if it has one, and what it is.
fn definition(
    alloc: Global,
    name: &Option<Name>,
    describe: &StaticText,
) -> Result<Vec<Detail>, AllocError>
    ensures { IfOk result (λ details. details.items ≡ definition_details name.now describe.now) }
{
    let name = Detail::optional_text(alloc, "name", name.as_ref().map(Name::as_str))?;
    let describe = Detail::text(alloc, "describe", describe.as_str())?;
    Ok(vec![in alloc; name, describe]?)
}

/// The name of a type, and a name under this one.
fn type_and_name(
    alloc: Global,
    ty: &Name,
    under: &'static str,
    name: &Name,
) -> Result<Vec<Detail>, AllocError>
    ensures { IfOk result (λ details. details.items
        ≡ spec.two_texts (codes "type_name") ty.now.text under.now name.now.text) }
{
    two_texts(alloc, ("type_name", ty.as_str()), (under, name.as_str()))
}
