//! Kinds of types, from what definitions and extensions say.
ghost use Rattle.std.specs.Prelude.{◌≡◌, [], ◌∷◌, OnOk, IfOk, List, IfErr};
ghost use Rattle.std.specs.Option.{option_copied};
ghost use Rattle.graphql_nodes.specs.NodeView.{NodeView};
ghost use Rattle.graphql_nodes.specs.declared.type_kind.TypeKind.{TypeKind};
ghost use Rattle.apollo_component.specs.declared.extension.ComponentOrigin.TheVariants as origins;
ghost use Rattle.apollo_types.specs.declared.extended_type.ExtendedType.{ExtendedType};
ghost use Rattle.apollo_meaning.specs.Faults.TypeFaults.{part_faults};
ghost use Rattle.apollo_meaning.specs.Items.Parts.{TypePart};
ghost use Rattle.apollo_meaning.specs.Types.Components.{Sourced};
ghost use Rattle.apollo_meaning.specs.Types.Meaning.{type_from};
ghost use Rattle.apollo_folding.specs.Noting.{noting};
ghost use Rattle.apollo_folding.specs.Joins.{Extends, FindsJoining, JoinsOne, FindsOne};
ghost use Rattle.apollo_folding.specs.DeclaredParts.{part_as};
ghost use Rattle.apollo_folding.specs.Refusals.{RefusedAs, SpentWith, after};
ghost use Rattle.apollo_folding.specs.KindParts.{IsOf};

use crate::builder_error::BuilderError;
use crate::fold::Fold;
use crate::from_ast::folding::Part;
use apollo_component::extension::ComponentOrigin;
use apollo_meaning::build_error::Fault;
use apollo_types::extended_type::ExtendedType;
use graphql_ast::declaration_ref::TypeDeclarationRef;
use graphql_nodes::collections::items::Items;
use graphql_nodes::node::Node;
use graphql_nodes::node_str::NodeStr;
use std::alloc::AllocError;

/// A copy of the description of a declaration, if it has one. The error is out of memory.
pub fn description_of(declaration: &TypeDeclarationRef<'_>) -> Result<Option<NodeStr>, AllocError>
    ensures { IfOk result (λ copy. copy ≡ option_copied declaration.now.description) }
{
    match declaration.description {
        Some(description) => Ok(Some(description.clone()?)),
        None => Ok(None),
    }
}

/// A kind of type, which is made of the parts that this kind has.
pub trait Kind: Clone + Drop {
    /// The kind.
    ghost kind: { TypeKind };

    /// The type of parts, with the description and name of a head.
    ghost made: { TypePart → List Sourced → Self };

    /// The type of any kind that a node of this kind is.
    ghost wrapped: { NodeView Self → ExtendedType };

    /// The type of a definition without its components. The error is out of memory.
    fn bare(fold: &Fold, head: &TypeDeclarationRef<'_>) -> Result<Self, AllocError>
        ensures { IfOk result (λ ty. ty ≡ made (part_as kind head.now) []) };

    /// Folds the components of a part in under its origin, each unless it is there. For each that is
    /// there, it adds a fault at the end. Only those that the kind has are read. The error is out of memory.
    fn fold(&mut self, part: &Part<'_>, faults: &mut Items<Fault>) -> Result<(), AllocError>
        ensures folded { OnOk result
            (JoinsOne made self.old part.now.origin (part_as kind part.now.of.now) self.new) }
        ensures faults { OnOk result
            (FindsOne made self.old (part_as kind part.now.of.now) faults.old faults.new) };

    /// A copy is the same type.
    ghost copies: { (x y : Self) → Self.is_clone x y → y ≡ x };

    /// A node of this kind that parts make has the value that they make, and their head's kind and location.
    /// Under that head any parts make a node of this kind.
    ghost makes: { (head : TypePart) (done : List Sourced) (node : NodeView Self)
        → wrapped node ≡ type_from head done → IsOf kind head.kind wrapped made head done node };
}

/// The type of a definition of this kind alone, at the definition's location. Components that are there
/// already are left out, and their faults added at the end. The error is out of memory.
pub(crate) fn type_of_definition<K: Kind>(
    fold: &mut Fold,
    head: &TypeDeclarationRef<'_>,
) -> Result<Node<K>, AllocError>
    ensures made { IfOk result (λ ty. let d = part_as K.kind head.now in
        ty ≡ record { value = K.made d ((origins.Definition, d) ∷ []); location = d.location }) }
    ensures faults { OnOk result (fold.new ≡ noting (part_faults [] (part_as K.kind head.now)) fold.old) }
    ensures rest { fold.new ≡ record fold.old { faults = fold.new.faults } }
{
    let mut ty = K::bare(fold, head)?;
    let part = Part {
        of: head,
        origin: ComponentOrigin::Definition,
    };
    ty.fold(&part, &mut fold.faults)?;
    Node::new_opt_location(fold.alloc, ty, head.location)
}

/// Folds an extension, read as one of this kind, into a type of it, under the source's next identity.
/// Components that are there already are left out, and their faults added at the end.
///
/// `Memory` is out of memory, and `ExtensionIds` that the source has no number left.
pub(crate) fn extend_node<K: Kind>(
    fold: &mut Fold,
    node: &mut Node<K>,
    extension: &TypeDeclarationRef<'_>,
) -> Result<(), BuilderError>
    ensures folded { let part = part_as K.kind extension.now in
        OnOk result (Extends (K.wrapped node.old) fold.old.ids (part ∷ []) (K.wrapped node.new)) }
    ensures faults { let part = part_as K.kind extension.now in
        OnOk result
        (FindsJoining (K.wrapped node.old) (part ∷ []) fold.old.faults fold.new.faults) }
    ensures next { OnOk result (fold.new.ids ≡ after fold.old.ids 1) }
    ensures rest { fold.new ≡ record fold.old { ids = fold.new.ids; faults = fold.new.faults } }
    ensures refused { IfErr result (λ error. RefusedAs error (SpentWith fold.old.ids 1)) }
{
    let id = fold.ids.draw(extension.location)?;
    let ty = node.make_mut()?;
    let part = Part {
        of: extension,
        origin: ComponentOrigin::Extension(id),
    };
    ty.fold(&part, &mut fold.faults)?;
    Ok(())
}
