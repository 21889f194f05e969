//! Nodes as what they are in a document: a definition, or a selection.
ghost use Rattle.std.specs.Prelude.{◌≡◌, IfOk};
ghost use Rattle.graphql_ast.specs.declared.definition.Definition.TheVariants as definitions;
ghost use Rattle.graphql_ast.specs.declared.selection.Selection as selections;

use crate::definition::{Definition, of_held};
use crate::operation::{FragmentDefinition, OperationDefinition};
use crate::selection::{Field, FragmentSpread, InlineFragment, Selection};
use crate::type_system::{
    DirectiveDefinition, EnumTypeDefinition, EnumTypeExtension, InputObjectTypeDefinition,
    InputObjectTypeExtension, InterfaceTypeDefinition, InterfaceTypeExtension,
    ObjectTypeDefinition, ObjectTypeExtension, ScalarTypeDefinition, ScalarTypeExtension,
    SchemaDefinition, SchemaExtension, UnionTypeDefinition, UnionTypeExtension,
};
use graphql_nodes::node::Node;
use graphql_nodes::of_variants;
use std::alloc::AllocError;

/// What a copy of the node becomes. The error is out of memory.
pub(crate) fn copied<T: Drop, D: From<Node<T>>>(node: &Node<T>) -> Result<D, AllocError>
    ensures { IfOk result (λ made. D.from_gives node.now made) }
{
    Ok(D::from(node.clone()?))
}

impl Clone for Definition {
    ghost is_clone = { λ a b. b ≡ a };

    /// The same definition, with every location. The node is shared. The error is out of memory.
    fn clone(&self) -> Result<Definition, AllocError> {
        of_held!(self, node => copied(node))
    }
}

impl From<Node<OperationDefinition>> for Definition {
    ghost from_gives = { λ node definition. definition ≡ definitions.OperationDefinition node };

    fn from(node: Node<OperationDefinition>) -> Definition {
        Definition::OperationDefinition(node)
    }
}

impl From<Node<FragmentDefinition>> for Definition {
    ghost from_gives = { λ node definition. definition ≡ definitions.FragmentDefinition node };

    fn from(node: Node<FragmentDefinition>) -> Definition {
        Definition::FragmentDefinition(node)
    }
}

impl From<Node<DirectiveDefinition>> for Definition {
    ghost from_gives = { λ node definition. definition ≡ definitions.DirectiveDefinition node };

    fn from(node: Node<DirectiveDefinition>) -> Definition {
        Definition::DirectiveDefinition(node)
    }
}

impl From<Node<SchemaDefinition>> for Definition {
    ghost from_gives = { λ node definition. definition ≡ definitions.SchemaDefinition node };

    fn from(node: Node<SchemaDefinition>) -> Definition {
        Definition::SchemaDefinition(node)
    }
}

impl From<Node<ScalarTypeDefinition>> for Definition {
    ghost from_gives = { λ node definition. definition ≡ definitions.ScalarTypeDefinition node };

    fn from(node: Node<ScalarTypeDefinition>) -> Definition {
        Definition::ScalarTypeDefinition(node)
    }
}

impl From<Node<ObjectTypeDefinition>> for Definition {
    ghost from_gives = { λ node definition. definition ≡ definitions.ObjectTypeDefinition node };

    fn from(node: Node<ObjectTypeDefinition>) -> Definition {
        Definition::ObjectTypeDefinition(node)
    }
}

impl From<Node<InterfaceTypeDefinition>> for Definition {
    ghost from_gives = { λ node definition. definition ≡ definitions.InterfaceTypeDefinition node };

    fn from(node: Node<InterfaceTypeDefinition>) -> Definition {
        Definition::InterfaceTypeDefinition(node)
    }
}

impl From<Node<UnionTypeDefinition>> for Definition {
    ghost from_gives = { λ node definition. definition ≡ definitions.UnionTypeDefinition node };

    fn from(node: Node<UnionTypeDefinition>) -> Definition {
        Definition::UnionTypeDefinition(node)
    }
}

impl From<Node<EnumTypeDefinition>> for Definition {
    ghost from_gives = { λ node definition. definition ≡ definitions.EnumTypeDefinition node };

    fn from(node: Node<EnumTypeDefinition>) -> Definition {
        Definition::EnumTypeDefinition(node)
    }
}

impl From<Node<InputObjectTypeDefinition>> for Definition {
    ghost from_gives = { λ node definition. definition ≡ definitions.InputObjectTypeDefinition node };

    fn from(node: Node<InputObjectTypeDefinition>) -> Definition {
        Definition::InputObjectTypeDefinition(node)
    }
}

impl From<Node<SchemaExtension>> for Definition {
    ghost from_gives = { λ node definition. definition ≡ definitions.SchemaExtension node };

    fn from(node: Node<SchemaExtension>) -> Definition {
        Definition::SchemaExtension(node)
    }
}

impl From<Node<ScalarTypeExtension>> for Definition {
    ghost from_gives = { λ node definition. definition ≡ definitions.ScalarTypeExtension node };

    fn from(node: Node<ScalarTypeExtension>) -> Definition {
        Definition::ScalarTypeExtension(node)
    }
}

impl From<Node<ObjectTypeExtension>> for Definition {
    ghost from_gives = { λ node definition. definition ≡ definitions.ObjectTypeExtension node };

    fn from(node: Node<ObjectTypeExtension>) -> Definition {
        Definition::ObjectTypeExtension(node)
    }
}

impl From<Node<InterfaceTypeExtension>> for Definition {
    ghost from_gives = { λ node definition. definition ≡ definitions.InterfaceTypeExtension node };

    fn from(node: Node<InterfaceTypeExtension>) -> Definition {
        Definition::InterfaceTypeExtension(node)
    }
}

impl From<Node<UnionTypeExtension>> for Definition {
    ghost from_gives = { λ node definition. definition ≡ definitions.UnionTypeExtension node };

    fn from(node: Node<UnionTypeExtension>) -> Definition {
        Definition::UnionTypeExtension(node)
    }
}

impl From<Node<EnumTypeExtension>> for Definition {
    ghost from_gives = { λ node definition. definition ≡ definitions.EnumTypeExtension node };

    fn from(node: Node<EnumTypeExtension>) -> Definition {
        Definition::EnumTypeExtension(node)
    }
}

impl From<Node<InputObjectTypeExtension>> for Definition {
    ghost from_gives = { λ node definition. definition ≡ definitions.InputObjectTypeExtension node };

    fn from(node: Node<InputObjectTypeExtension>) -> Definition {
        Definition::InputObjectTypeExtension(node)
    }
}

impl From<Node<Field>> for Selection {
    ghost from_gives = { λ node selection. selection ≡ selections.Field node };

    fn from(node: Node<Field>) -> Selection {
        Selection::Field(node)
    }
}

impl From<Node<FragmentSpread>> for Selection {
    ghost from_gives = { λ node selection. selection ≡ selections.FragmentSpread node };

    fn from(node: Node<FragmentSpread>) -> Selection {
        Selection::FragmentSpread(node)
    }
}

impl From<Node<InlineFragment>> for Selection {
    ghost from_gives = { λ node selection. selection ≡ selections.InlineFragment node };

    fn from(node: Node<InlineFragment>) -> Selection {
        Selection::InlineFragment(node)
    }
}
