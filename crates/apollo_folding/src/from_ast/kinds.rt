//! The six kinds of types, each by the parts that it has: GraphQL specification of October 2021, sections 3.5
//! to 3.10.
ghost use Rattle.graphql_nodes.specs.declared.type_kind.TypeKind.TheVariants as kinds;
ghost use Rattle.apollo_meaning.specs.Types.Meaning.{scalar_of, object_of, interface_of, union_of, enum_of};
ghost use Rattle.apollo_meaning.specs.Types.Meaning.{input_object_of};
ghost use Rattle.apollo_types.specs.declared.extended_type.ExtendedType.TheVariants as types;
ghost use Rattle.apollo_folding.specs.KindParts.{made_of};

use crate::fold::Fold;
use crate::from_ast::folding::{Part, fold_directives};
use crate::from_ast::kind::{Kind, description_of};
use apollo_component::directive_list::DirectiveList;
use apollo_meaning::build_error::Fault;
use apollo_meaning::collision::Collection;
use apollo_types::enum_type::EnumType;
use apollo_types::input_object_type::InputObjectType;
use apollo_types::interface_type::InterfaceType;
use apollo_types::object_type::ObjectType;
use apollo_types::scalar_type::ScalarType;
use apollo_types::union_type::UnionType;
use graphql_ast::declaration_ref::TypeDeclarationRef;
use graphql_nodes::collections::items::Items;
use graphql_nodes::collections::key_set::KeySet;
use graphql_nodes::collections::table::Table;
use std::alloc::AllocError;

/// A type of `Self` without its components, whose collections are named: the body of [`Kind::bare`].
macro_rules! bare {
    ($fold:ident, $head:ident $(, $field:ident: $collection:ident)*) => {
        Ok(Self {
            description: description_of($head)?,
            name: $head.name.clone()?,
            directives: DirectiveList::new($fold.alloc),
            $($field: $collection::with_keys($fold.alloc, $fold.keys),)*
        })
    };
}

impl Kind for ScalarType {
    ghost kind = { kinds.Scalar };

    ghost made = { scalar_of };

    ghost wrapped = { types.Scalar };

    fn bare(fold: &Fold, head: &TypeDeclarationRef<'_>) -> Result<Self, AllocError> {
        bare!(fold, head)
    }

    fn fold(&mut self, part: &Part<'_>, _faults: &mut Items<Fault>) -> Result<(), AllocError> {
        let said = part.of;
        fold_directives(&mut self.directives, said.parts.directives, part.origin)?;
        Ok(())
    }

    ghost copies = { λ x y same. same };

    ghost makes = { λ head done node. made_of head done (types.Scalar node) };
}

impl Kind for ObjectType {
    ghost kind = { kinds.Object };

    ghost made = { object_of };

    ghost wrapped = { types.Object };

    fn bare(fold: &Fold, head: &TypeDeclarationRef<'_>) -> Result<Self, AllocError> {
        bare!(fold, head, implements_interfaces: KeySet, fields: Table)
    }

    fn fold(&mut self, part: &Part<'_>, faults: &mut Items<Fault>) -> Result<(), AllocError> {
        let said = part.of;
        fold_directives(&mut self.directives, said.parts.directives, part.origin)?;
        part.fold_names(
            Collection::ObjectInterfaces,
            &mut self.implements_interfaces,
            faults,
        )?;
        part.fold_named(
            Collection::ObjectFields,
            &mut self.fields,
            said.parts.fields,
            faults,
        )?;
        Ok(())
    }

    ghost copies = { λ x y same. same };

    ghost makes = { λ head done node. made_of head done (types.Object node) };
}

impl Kind for InterfaceType {
    ghost kind = { kinds.Interface };

    ghost made = { interface_of };

    ghost wrapped = { types.Interface };

    fn bare(fold: &Fold, head: &TypeDeclarationRef<'_>) -> Result<Self, AllocError> {
        bare!(fold, head, implements_interfaces: KeySet, fields: Table)
    }

    fn fold(&mut self, part: &Part<'_>, faults: &mut Items<Fault>) -> Result<(), AllocError> {
        let said = part.of;
        fold_directives(&mut self.directives, said.parts.directives, part.origin)?;
        part.fold_names(
            Collection::InterfaceInterfaces,
            &mut self.implements_interfaces,
            faults,
        )?;
        part.fold_named(
            Collection::InterfaceFields,
            &mut self.fields,
            said.parts.fields,
            faults,
        )?;
        Ok(())
    }

    ghost copies = { λ x y same. same };

    ghost makes = { λ head done node. made_of head done (types.Interface node) };
}

impl Kind for UnionType {
    ghost kind = { kinds.Union };

    ghost made = { union_of };

    ghost wrapped = { types.Union };

    fn bare(fold: &Fold, head: &TypeDeclarationRef<'_>) -> Result<Self, AllocError> {
        bare!(fold, head, members: KeySet)
    }

    fn fold(&mut self, part: &Part<'_>, faults: &mut Items<Fault>) -> Result<(), AllocError> {
        let said = part.of;
        fold_directives(&mut self.directives, said.parts.directives, part.origin)?;
        part.fold_names(Collection::UnionMembers, &mut self.members, faults)?;
        Ok(())
    }

    ghost copies = { λ x y same. same };

    ghost makes = { λ head done node. made_of head done (types.Union node) };
}

impl Kind for EnumType {
    ghost kind = { kinds.Enum };

    ghost made = { enum_of };

    ghost wrapped = { types.Enum };

    fn bare(fold: &Fold, head: &TypeDeclarationRef<'_>) -> Result<Self, AllocError> {
        bare!(fold, head, values: Table)
    }

    fn fold(&mut self, part: &Part<'_>, faults: &mut Items<Fault>) -> Result<(), AllocError> {
        let said = part.of;
        fold_directives(&mut self.directives, said.parts.directives, part.origin)?;
        part.fold_named(
            Collection::EnumValues,
            &mut self.values,
            said.parts.values,
            faults,
        )?;
        Ok(())
    }

    ghost copies = { λ x y same. same };

    ghost makes = { λ head done node. made_of head done (types.Enum node) };
}

impl Kind for InputObjectType {
    ghost kind = { kinds.InputObject };

    ghost made = { input_object_of };

    ghost wrapped = { types.InputObject };

    fn bare(fold: &Fold, head: &TypeDeclarationRef<'_>) -> Result<Self, AllocError> {
        bare!(fold, head, fields: Table)
    }

    fn fold(&mut self, part: &Part<'_>, faults: &mut Items<Fault>) -> Result<(), AllocError> {
        let said = part.of;
        fold_directives(&mut self.directives, said.parts.directives, part.origin)?;
        part.fold_named(
            Collection::InputFields,
            &mut self.fields,
            said.parts.input_fields,
            faults,
        )?;
        Ok(())
    }

    ghost copies = { λ x y same. same };

    ghost makes = { λ head done node. made_of head done (types.InputObject node) };
}
