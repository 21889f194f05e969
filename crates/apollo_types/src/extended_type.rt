//! Types of any kind: GraphQL specification of October 2021, section 3.4.
ghost use Rattle.std.specs.Prelude.{◌≡◌, ◌++◌, IfOk, OnOk, None};
ghost use Rattle.std.specs.Option.{option_copied};
ghost use Rattle.apollo_types.specs.declared.extended_type.ExtendedType.TheVariants.{Scalar, Object};
ghost use Rattle.apollo_types.specs.declared.extended_type.ExtendedType.TheVariants.{Interface, Union, Enum};
ghost use Rattle.apollo_types.specs.declared.extended_type.ExtendedType.TheVariants.{InputObject};

use crate::components::Components;
use crate::enum_type::EnumType;
use crate::extensible::Extensible;
use crate::input_object_type::InputObjectType;
use crate::interface_type::InterfaceType;
use crate::object_type::ObjectType;
use crate::scalar_type::ScalarType;
use crate::union_type::UnionType;
use crate::write_out::{Head, add_type};
use apollo_component::directive_list::DirectiveList;
use graphql_ast::definition::Definition;
use graphql_nodes::name::Name;
use graphql_nodes::node::Node;
use graphql_nodes::node_str::NodeStr;
use graphql_nodes::of_variants;
use graphql_nodes::source::SourceSpan;
use graphql_nodes::type_kind::TypeKind;
use std::alloc::{AllocError, Global};

/// What is made of the node that a type holds, whatever its kind.
macro_rules! of_held {
    ($ty:expr, $node:ident => $made:expr) => {
        of_variants!($ty, $node => $made; Scalar, Object, Interface, Union, Enum, InputObject)
    };
}

/// A type of a schema, by its kind. `From` of a node is the type of its kind, which holds this node.
///
/// Equality is that of the kind and of the held type: locations and origins are left out.
#[derive(Debug, Drop, PartialEq, Eq)]
pub enum ExtendedType {
    Scalar(Node<ScalarType>),
    Object(Node<ObjectType>),
    Interface(Node<InterfaceType>),
    Union(Node<UnionType>),
    Enum(Node<EnumType>),
    InputObject(Node<InputObjectType>),
}

impl From<Node<ScalarType>> for ExtendedType {
    ghost from_gives = { λ node ty. ty ≡ Scalar node };

    fn from(node: Node<ScalarType>) -> ExtendedType {
        ExtendedType::Scalar(node)
    }
}

impl From<Node<ObjectType>> for ExtendedType {
    ghost from_gives = { λ node ty. ty ≡ Object node };

    fn from(node: Node<ObjectType>) -> ExtendedType {
        ExtendedType::Object(node)
    }
}

impl From<Node<InterfaceType>> for ExtendedType {
    ghost from_gives = { λ node ty. ty ≡ Interface node };

    fn from(node: Node<InterfaceType>) -> ExtendedType {
        ExtendedType::Interface(node)
    }
}

impl From<Node<UnionType>> for ExtendedType {
    ghost from_gives = { λ node ty. ty ≡ Union node };

    fn from(node: Node<UnionType>) -> ExtendedType {
        ExtendedType::Union(node)
    }
}

impl From<Node<EnumType>> for ExtendedType {
    ghost from_gives = { λ node ty. ty ≡ Enum node };

    fn from(node: Node<EnumType>) -> ExtendedType {
        ExtendedType::Enum(node)
    }
}

impl From<Node<InputObjectType>> for ExtendedType {
    ghost from_gives = { λ node ty. ty ≡ InputObject node };

    fn from(node: Node<InputObjectType>) -> ExtendedType {
        ExtendedType::InputObject(node)
    }
}

impl Clone for ExtendedType {
    ghost is_clone = { λ a b. b ≡ a };

    /// The same type, with every location and origin. The node is shared. The error is out of memory.
    fn clone(&self) -> Result<ExtendedType, AllocError> {
        of_held!(self, node => Ok(ExtendedType::from(node.clone()?)))
    }
}

impl ExtendedType {
    ghost use Rattle.graphql_nodes.specs.BuiltIn.{is_built_in};
    ghost use Rattle.apollo_types.specs.TypeKinds.{as_scalar, as_object, as_interface, as_union, as_enum};
    ghost use Rattle.apollo_types.specs.TypeKinds.{as_input_object, is_scalar, is_object, is_interface};
    ghost use Rattle.apollo_types.specs.TypeKinds.{is_union, is_enum, is_input_object, is_leaf, is_composite};
    ghost use Rattle.apollo_types.specs.TypeKinds.{is_input_type, is_output_type};
    ghost use Rattle.apollo_types.specs.TypeWriteOut.{write_type, type_kind, type_name, type_location};
    ghost use Rattle.apollo_types.specs.TypeWriteOut.{type_directives, type_description};
    ghost use Rattle.apollo_component.specs.Beginnings.{Begins};

    /// The type, in a node with no location. The error is out of memory, and drops the type.
    pub fn of_scalar(alloc: Global, ty: ScalarType) -> Result<ExtendedType, AllocError>
        ensures { IfOk result (λ made. made ≡ Scalar (record { value = ty; location = None })) }
    {
        Ok(ExtendedType::Scalar(Node::new(alloc, ty)?))
    }

    /// The type, in a node with no location. The error is out of memory, and drops the type.
    pub fn of_object(alloc: Global, ty: ObjectType) -> Result<ExtendedType, AllocError>
        ensures { IfOk result (λ made. made ≡ Object (record { value = ty; location = None })) }
    {
        Ok(ExtendedType::Object(Node::new(alloc, ty)?))
    }

    /// The type, in a node with no location. The error is out of memory, and drops the type.
    pub fn of_interface(alloc: Global, ty: InterfaceType) -> Result<ExtendedType, AllocError>
        ensures { IfOk result (λ made. made ≡ Interface (record { value = ty; location = None })) }
    {
        Ok(ExtendedType::Interface(Node::new(alloc, ty)?))
    }

    /// The type, in a node with no location. The error is out of memory, and drops the type.
    pub fn of_union(alloc: Global, ty: UnionType) -> Result<ExtendedType, AllocError>
        ensures { IfOk result (λ made. made ≡ Union (record { value = ty; location = None })) }
    {
        Ok(ExtendedType::Union(Node::new(alloc, ty)?))
    }

    /// The type, in a node with no location. The error is out of memory, and drops the type.
    pub fn of_enum(alloc: Global, ty: EnumType) -> Result<ExtendedType, AllocError>
        ensures { IfOk result (λ made. made ≡ Enum (record { value = ty; location = None })) }
    {
        Ok(ExtendedType::Enum(Node::new(alloc, ty)?))
    }

    /// The type, in a node with no location. The error is out of memory, and drops the type.
    pub fn of_input_object(alloc: Global, ty: InputObjectType) -> Result<ExtendedType, AllocError>
        ensures { IfOk result (λ made. made ≡ InputObject (record { value = ty; location = None })) }
    {
        Ok(ExtendedType::InputObject(Node::new(alloc, ty)?))
    }

    /// The kind of the type.
    pub fn kind(&self) -> TypeKind
        ensures { result ≡ type_kind self.now }
    {
        match self {
            ExtendedType::Scalar(_) => TypeKind::Scalar,
            ExtendedType::Object(_) => TypeKind::Object,
            ExtendedType::Interface(_) => TypeKind::Interface,
            ExtendedType::Union(_) => TypeKind::Union,
            ExtendedType::Enum(_) => TypeKind::Enum,
            ExtendedType::InputObject(_) => TypeKind::InputObject,
        }
    }

    /// Whether it is a scalar type.
    pub fn is_scalar(&self) -> bool
        ensures { result ≡ is_scalar self.now }
    {
        matches!(self, ExtendedType::Scalar(_))
    }

    /// Whether it is an object type.
    pub fn is_object(&self) -> bool
        ensures { result ≡ is_object self.now }
    {
        matches!(self, ExtendedType::Object(_))
    }

    /// Whether it is an interface type.
    pub fn is_interface(&self) -> bool
        ensures { result ≡ is_interface self.now }
    {
        matches!(self, ExtendedType::Interface(_))
    }

    /// Whether it is a union type.
    pub fn is_union(&self) -> bool
        ensures { result ≡ is_union self.now }
    {
        matches!(self, ExtendedType::Union(_))
    }

    /// Whether it is an enum type.
    pub fn is_enum(&self) -> bool
        ensures { result ≡ is_enum self.now }
    {
        matches!(self, ExtendedType::Enum(_))
    }

    /// Whether it is an input object type.
    pub fn is_input_object(&self) -> bool
        ensures { result ≡ is_input_object self.now }
    {
        matches!(self, ExtendedType::InputObject(_))
    }

    /// The type, if it is a scalar type.
    pub fn as_scalar(&self) -> Option<&ScalarType>
        ensures { option_copied result ≡ as_scalar self.now }
    {
        match self {
            ExtendedType::Scalar(node) => Some(node),
            _ => None,
        }
    }

    /// The type, if it is an object type.
    pub fn as_object(&self) -> Option<&ObjectType>
        ensures { option_copied result ≡ as_object self.now }
    {
        match self {
            ExtendedType::Object(node) => Some(node),
            _ => None,
        }
    }

    /// The type, if it is an interface type.
    pub fn as_interface(&self) -> Option<&InterfaceType>
        ensures { option_copied result ≡ as_interface self.now }
    {
        match self {
            ExtendedType::Interface(node) => Some(node),
            _ => None,
        }
    }

    /// The type, if it is a union type.
    pub fn as_union(&self) -> Option<&UnionType>
        ensures { option_copied result ≡ as_union self.now }
    {
        match self {
            ExtendedType::Union(node) => Some(node),
            _ => None,
        }
    }

    /// The type, if it is an enum type.
    pub fn as_enum(&self) -> Option<&EnumType>
        ensures { option_copied result ≡ as_enum self.now }
    {
        match self {
            ExtendedType::Enum(node) => Some(node),
            _ => None,
        }
    }

    /// The type, if it is an input object type.
    pub fn as_input_object(&self) -> Option<&InputObjectType>
        ensures { option_copied result ≡ as_input_object self.now }
    {
        match self {
            ExtendedType::InputObject(node) => Some(node),
            _ => None,
        }
    }

    /// Whether it is a leaf type: a scalar or enum type. Only fields of other types have selections of their
    /// own (section 5.3.3).
    pub fn is_leaf(&self) -> bool
        ensures { result ≡ is_leaf self.now }
    {
        matches!(self, ExtendedType::Scalar(_) | ExtendedType::Enum(_))
    }

    /// Whether it is an object, interface or union type: selections are from such a type.
    pub fn is_composite(&self) -> bool
        ensures { result ≡ is_composite self.now }
    {
        matches!(
            self,
            ExtendedType::Object(_) | ExtendedType::Interface(_) | ExtendedType::Union(_)
        )
    }

    /// Whether an input can be of the type: it is a scalar, enum or input object type (section 3.4.2).
    pub fn is_input_type(&self) -> bool
        ensures { result ≡ is_input_type self.now }
    {
        self.is_leaf() || self.is_input_object()
    }

    /// Whether an output can be of the type: it is a scalar, object, interface, union or enum type (section
    /// 3.4.2).
    pub fn is_output_type(&self) -> bool
        ensures { result ≡ is_output_type self.now }
    {
        !self.is_input_object()
    }

    /// The name of the type.
    pub fn name(&self) -> &Name
        ensures { result.now ≡ type_name self.now }
    {
        of_held!(self, node => &node.name)
    }

    /// Where the type is defined in a source, if it is known.
    pub fn location(&self) -> Option<SourceSpan>
        ensures { result ≡ type_location self.now }
    {
        of_held!(self, node => node.location())
    }

    /// Whether the type's location is in the file of the built-in definitions.
    pub fn is_built_in(&self) -> bool
        ensures { result ≡ is_built_in (type_location self.now) }
    {
        of_held!(self, node => node.is_built_in())
    }

    /// The directives applied to the type, those of its extensions included.
    pub fn directives(&self) -> &DirectiveList
        ensures { result.now ≡ type_directives self.now }
    {
        of_held!(self, node => &node.directives)
    }

    /// The description of the type, if it has one.
    pub fn description(&self) -> Option<&NodeStr>
        ensures { option_copied result ≡ type_description self.now }
    {
        of_held!(self, node => node.description.as_ref())
    }

    /// What stands before the components.
    fn head(&self) -> Head<'_>
        ensures kind { result.kind ≡ type_kind self.now }
        ensures description { option_copied result.description ≡ type_description self.now }
        ensures name { result.name.now ≡ type_name self.now }
    {
        Head {
            kind: self.kind(),
            description: self.description(),
            name: self.name(),
        }
    }

    /// The type as syntax: its definition, at the type's location, then its extensions, as `to_ast` of its
    /// kind writes them. The error is out of memory.
    pub fn to_ast(&self, alloc: Global) -> Result<Vec<Definition>, AllocError>
        ensures { IfOk result (λ written. written.items ≡ write_type self.now) }
    {
        let mut written = Vec::new(alloc);
        self.write_to(alloc, &mut written)?;
        Ok(written)
    }

    /// Adds the type as syntax at the end, as [`to_ast`](ExtendedType::to_ast) answers it. The error is out
    /// of memory, after which `written` begins with what it held, and may have more.
    pub fn write_to(&self, alloc: Global, written: &mut Vec<Definition>) -> Result<(), AllocError>
        ensures added { OnOk result (written.new.items ≡ written.old.items ++ write_type self.now) }
        ensures kept { Begins written.old.items written.new.items }
    {
        add_type(
            alloc,
            self.head(),
            self.components(),
            self.location(),
            written,
        )
    }
}

impl Extensible for ExtendedType {
    ghost use Rattle.apollo_types.specs.TypeWriteOut.{type_components};

    ghost sourced = { type_components };

    /// The components: directives, then interfaces, then fields; or directives, then members, values or input
    /// fields.
    fn components(&self) -> Components<'_> {
        of_held!(self, node => node.components())
    }
}
