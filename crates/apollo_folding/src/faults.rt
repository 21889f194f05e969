//! The faults of further definitions of a type, and of extensions of another kind.
ghost use Rattle.std.specs.Prelude.{◌≡◌, IfOk, List};
ghost use Rattle.apollo_meaning.specs.Faults.TypeFaults.{further_type, kind_mismatch};
ghost use Rattle.apollo_meaning.specs.Items.Parts.{TypePart};
ghost use Rattle.apollo_meaning.specs.Types.Components.{Sourced};
ghost use Rattle.apollo_meaning.specs.Types.Meaning.{type_from};
ghost use Rattle.apollo_folding.specs.Joins.{ForFirst};
ghost use Rattle.apollo_folding.specs.DeclaredParts.{part_seen};

use apollo_meaning::build_error::{BuildError, Fault};
use apollo_types::extended_type::ExtendedType;
use graphql_ast::declaration_ref::TypeDeclarationRef;
use graphql_nodes::collections::static_text::StaticText;
use graphql_nodes::type_kind::TypeKind;
use std::alloc::AllocError;

/// The fault of a further definition of a type's name. A scalar of a built-in type's name has an error of its
/// own.
pub(crate) fn redefinition(
    previous: &ExtendedType,
    further: &TypeDeclarationRef<'_>,
) -> Result<Fault, AllocError>
    ensures { IfOk result (λ fault.
        ForFirst previous.now (λ d. fault ≡ further_type d (part_seen further.now))) }
{
    if previous.is_built_in() && further.kind == TypeKind::Scalar {
        return Ok((further.location, BuildError::BuiltInScalarTypeRedefinition));
    }
    let error = BuildError::TypeDefinitionCollision {
        previous_location: previous.name().location(),
        name: further.name.clone()?,
    };
    Ok((further.name.location(), error))
}

/// The fault of an extension of another kind than the type.
pub(crate) fn kind_mismatch(
    ty: &ExtendedType,
    part: &TypeDeclarationRef<'_>,
) -> Result<Fault, AllocError>
    ensures { IfOk result (λ fault. (head : TypePart) (done : List Sourced) → ty.now ≡ type_from head done
        → fault ≡ kind_mismatch head (part_seen part.now)) }
{
    let error = BuildError::TypeExtensionKindMismatch {
        name: part.name.clone()?,
        describe_ext: StaticText::new(part.kind.describe_extension()),
        def_location: ty.name().location(),
        describe_def: StaticText::new(ty.kind().describe()),
    };
    Ok((part.name.location(), error))
}
